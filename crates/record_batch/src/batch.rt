//! Batches: bytes that were found to be one, and the offset at which they stand in a log.

ghost use Rattle.std.specs.Prelude.{◌≡◌, ◌↔◌, IsTrue, ◌+ℤ◌, ◌++◌, pos, drop, length, slice_range, IfOk, Ok, None};
ghost use Rattle.wire_types.specs.Schema.{int32, int64};
ghost use Rattle.record_batch.specs.Batch.{BatchData, IsBatch, HasOffsets, next_offset, placed_records, written_at};
ghost use Rattle.record_batch.specs.Control.{control};
ghost use Rattle.record_batch.specs.BatchHeader.{batch_header};
ghost use Rattle.record_batch.specs.Faults.{first_fault, fault_at_any_size, fault_in};

use crate::control::control_batch;
use crate::fault::BatchFault;
use crate::header::BatchHeader;
use crate::record::{RecordAt, read_records};
use crate::sent::SentBatch;
use crate::transaction_result::TransactionResult;
use std::alloc::{AllocError, Global};
use std::marker::Model;
use wire_types::{Bytes, Cursor, Items, Piece, ReadFault};

/// A record batch of message format 2, of data or a control batch. It shares all its bytes with whatever brought them: what a
/// log writes into a batch, its base offset, stands beside them. Contracts see it as its header, its records, its outcome and
/// its bytes.
pub struct Batch {
    /// The base offset that the log gave it, with the partition leader epoch 0, in place of what the bytes have there. None: as
    /// in the bytes.
    placed: Option<i64>,
    bytes: Bytes,
    marker: Option<TransactionResult>,
    /// The header's, which a search for an offset asks of many batches.
    last_offset_delta: i32,
}

impl Model for Batch {
    ghost use Rattle.std.specs.Prelude.{◌≡◌, IfSome, FitsSigned};
    ghost use Rattle.std.specs.Int.{w64};
    ghost use Rattle.record_batch.specs.Batch.{BatchData, IsBatch, batch_of_bytes, batch_placed};

    ghost Value = { BatchData };

    ghost view = { λ b. batch_placed b.placed (batch_of_bytes b.marker b.bytes) };

    ghost invariant = { λ b. IsBatch (batch_of_bytes b.marker b.bytes) × IfSome b.placed (FitsSigned w64) × (b.last_offset_delta ≡ (batch_of_bytes b.marker b.bytes).header.last_offset_delta) };
}

impl Drop for Batch {
    fn drop(self) {
        let Batch {
            placed: _,
            bytes: _bytes,
            marker: _,
            last_offset_delta: _,
        } = self;
    }
}

impl Batch {
    /// Checks bytes that a producer sent as one record batch, of at most `max` bytes. Returns the data batch, or the first fault
    /// in the order of `BatchFault`, whose `code` is Produce's error. It copies nothing and allocates nothing.
    pub fn check(bytes: Bytes, max: u32) -> Result<Batch, BatchFault>
        ensures fault { fault_in result ≡ first_fault max bytes }
        ensures batch { IfOk result (λ b. (b.bytes ≡ bytes) × (b.marker ≡ None) × IsBatch b) }
    {
        SentBatch::of(bytes).batch(max)
    }

    /// The data batch of these bytes, unchecked: the caller has to have read `header` from them, and to have found no fault in
    /// them.
    pub(crate) fn faultless(header: &BatchHeader, bytes: Bytes) -> Batch
        requires header { batch_header.reading bytes ≡ Ok (header.now, drop 61 bytes) }
        requires fault { fault_at_any_size bytes ≡ None }
        ensures { (result.bytes ≡ bytes) × (result.marker ≡ None) × IsBatch result }
    {
        Batch {
            placed: None,
            bytes,
            marker: None,
            last_offset_delta: header.last_offset_delta,
        }
    }

    /// Makes the control batch that marks that this producer's transaction was committed or aborted, at base offset 0. `moment`
    /// is its timestamp in milliseconds. An error is an allocation failure.
    pub fn control(
        alloc: Global,
        outcome: TransactionResult,
        producer: i64,
        epoch: i16,
        moment: i64,
    ) -> Result<Batch, AllocError>
        ensures value { IfOk result (λ b. b ≡ control outcome producer epoch moment) }
        ensures batch { IfOk result IsBatch }
    {
        let text = control_batch(alloc, outcome, producer, epoch, moment)?;
        Ok(Batch {
            placed: None,
            bytes: Bytes::from_vec(text)?,
            marker: Some(outcome),
            last_offset_delta: 0,
        })
    }

    /// The batch's bytes as they are served, header and records, with the base offset that the log gave it. An error comes only
    /// where the count of owners is full.
    pub fn piece(&self) -> Result<Piece, AllocError>
        ensures { IfOk result (λ piece. piece ≡ self.now.bytes) }
    {
        let whole = Piece::of(self.bytes.clone()?);
        match self.placed {
            Some(offset) => whole.with_front(front_at(offset, &whole.front())),
            None => Ok(whole),
        }
    }

    /// The number of the batch's bytes.
    pub fn len(&self) -> usize
        ensures len { result ≡ length self.now.bytes }
        ensures batch { IsBatch self.now }
    {
        self.bytes.len()
    }

    /// The batch's header, which is read from the bytes, with the base offset that the log gave it and leader epoch 0 where it has
    /// its place.
    pub fn header(&self) -> BatchHeader
        ensures { result ≡ self.now.header }
    {
        let Some(header) = BatchHeader::first_of(self.bytes.as_slice()) else {
            unreachable!();
        };
        match self.placed {
            Some(offset) => header.at(offset),
            None => header,
        }
    }

    /// The offset of the first record.
    pub fn base_offset(&self) -> i64
        ensures { result ≡ self.now.header.base_offset }
    {
        match self.placed {
            Some(offset) => offset,
            None => self.header().base_offset,
        }
    }

    /// How far the last record's offset is above the first one's: the record count less one.
    #[tactic(auto, using(crate::proofs::Placed::delta_stays))]
    pub fn last_offset_delta(&self) -> i32
        ensures { result ≡ self.now.header.last_offset_delta }
    {
        self.last_offset_delta
    }

    /// What a control batch marks: commit or abort. `None` for a data batch.
    pub fn marker(&self) -> Option<TransactionResult>
        ensures { result ≡ self.now.marker }
    {
        self.marker
    }

    /// One more owner of the same bytes, without a copy. It fails only where the count of owners is full.
    pub fn share(&self) -> Result<Batch, AllocError>
        ensures { IfOk result (λ b. b ≡ self.now) }
    {
        Ok(Batch {
            placed: self.placed,
            bytes: self.bytes.clone()?,
            marker: self.marker,
            last_offset_delta: self.last_offset_delta,
        })
    }

    /// Whether the offset after the last record fits in an `i64`, and so that of each record too.
    pub fn has_offsets(&self) -> bool
        ensures { IsTrue result ↔ HasOffsets self.now }
    {
        self.header().has_offsets()
    }

    /// Reads the records, with their offsets. Keys, values and headers share the batch's bytes. `has_offsets` has to hold. An
    /// error is an allocation failure.
    pub fn recs(&self, alloc: Global) -> Result<Items<RecordAt>, AllocError>
        requires { HasOffsets self.now }
        ensures { IfOk result (λ recs.
            recs ≡ placed_records self.now.header.base_offset 0 self.now.records) }
    {
        let body = self.bytes.slice(61..self.bytes.len())?;
        let mut cursor = Cursor::over(&body);
        let header = self.header();
        match read_records(alloc, &mut cursor, &header, header.count()) {
            Ok(recs) => Ok(recs),
            Err(ReadFault::NoMemory) => Err(AllocError),
            Err(ReadFault::Malformed(_)) => unreachable!(),
        }
    }

    /// The offset after the last record's. `has_offsets` has to hold.
    pub fn next_offset(&self) -> i64
        requires { HasOffsets self.now }
        ensures { result ≡ next_offset self.now }
    {
        match self.placed {
            Some(offset) => offset + (i64::from(self.last_offset_delta) + 1),
            None => self.header().next_offset(),
        }
    }

    /// The same batch with its first record at this offset, and with the partition leader epoch 0. Its bytes are shared. The
    /// checksum covers neither field, so it is still right. An error comes only where the count of owners is full.
    pub fn write_at(&self, offset: i64) -> Result<Batch, AllocError>
        ensures value { IfOk result (λ b. b ≡ written_at offset self.now) }
        ensures batch { IfOk result IsBatch }
    {
        Ok(Batch {
            placed: Some(offset),
            bytes: self.bytes.clone()?,
            marker: self.marker,
            last_offset_delta: self.last_offset_delta,
        })
    }
}

/// A batch's first 16 bytes (base offset, batch length, partition leader epoch) with `offset` as the base offset, the same
/// length, and the leader epoch 0.
#[tactic(auto, unfolding(wire_types::specs::Spelling::int_written))]
fn front_at(offset: i64, front: &[u8; 16]) -> [u8; 16]
    ensures { result ≡ int64.written offset
        ++ (slice_range front.now 8 12 ++ int32.written (pos 0)) }
{
    let mut moved = [0; 16];
    moved[..8].copy_from_slice(&offset.to_be_bytes());
    moved[8..12].copy_from_slice(&front[8..12]);
    moved
}
