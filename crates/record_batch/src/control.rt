//! Control batches, which mark how a producer's transaction ended.

ghost use Rattle.std.specs.Prelude.{◌≡◌, ◌<◌, ◌^◌, IfOk, OnOk};
ghost use Rattle.record_batch.specs.BatchHeader.{batch_header};
ghost use Rattle.record_batch.specs.Control.{marker_text, control_header, control_text, control};

use crate::crc::crc32c;
use crate::header::BatchHeader;
use crate::transaction_result::TransactionResult;
use std::alloc::{AllocError, Global};
use wire_types::{write_i8, write_i16, write_i32, write_i64, write_u32};

impl BatchHeader {
    /// The header of a control batch with one record at offset 0, with no base sequence (-1), and with the checksum 0 for the
    /// caller to replace. `moment` is its timestamp in milliseconds.
    fn of_control(producer: i64, epoch: i16, moment: i64) -> BatchHeader
        ensures { result ≡ control_header producer epoch moment 0 }
    {
        BatchHeader {
            base_offset: 0,
            batch_length: 66,
            partition_leader_epoch: 0,
            magic: 2,
            crc: 0,
            attributes: 0x30,
            last_offset_delta: 0,
            base_timestamp: moment,
            max_timestamp: moment,
            producer_id: producer,
            producer_epoch: epoch,
            base_sequence: -1,
            record_count: 1,
        }
    }

    /// The same header with this checksum, right or wrong.
    fn with_crc(&self, crc: u32) -> BatchHeader
        ensures { result ≡ record self.now { crc = crc } }
    {
        BatchHeader { crc, ..*self }
    }

    /// Appends the header's 61 bytes. An error is an allocation failure, and may leave a part of them.
    fn write(&self, out: &mut Vec<u8>) -> Result<(), AllocError>
        ensures { OnOk result (out.new.items ≡ batch_header.put out.old.items self.now) }
    {
        write_i64(out, self.base_offset)?;
        write_i32(out, self.batch_length)?;
        write_i32(out, self.partition_leader_epoch)?;
        write_i8(out, self.magic)?;
        write_u32(out, self.crc)?;
        write_i16(out, self.attributes)?;
        write_i32(out, self.last_offset_delta)?;
        write_i64(out, self.base_timestamp)?;
        write_i64(out, self.max_timestamp)?;
        write_i64(out, self.producer_id)?;
        write_i16(out, self.producer_epoch)?;
        write_i32(out, self.base_sequence)?;
        write_i32(out, self.record_count)
    }
}

/// The 17 bytes of a control batch's one record, of which the first is its length: the key holds version 0 and the type (0 abort,
/// 1 commit), the value version 0 and coordinator epoch 0.
const fn marker_text(outcome: TransactionResult) -> [u8; 17]
    ensures { result ≡ marker_text outcome }
{
    let kind = outcome as u8;
    [
        0x20, 0, 0, 0, 0x08, 0, 0, 0, kind, 0x0c, 0, 0, 0, 0, 0, 0, 0,
    ]
}

/// The 78 bytes of a control batch: this header as it is, and its one record. An error is an allocation failure.
fn control_text(
    alloc: Global,
    outcome: TransactionResult,
    header: &BatchHeader,
) -> Result<Vec<u8>, AllocError>
    ensures { IfOk result (λ text. text.items ≡ control_text outcome header.now) }
{
    let mut out = Vec::with_capacity(alloc, 78)?;
    header.write(&mut out)?;
    out.extend_from_slice(&marker_text(outcome))?;
    Ok(out)
}

/// The bytes of the control batch that marks that this producer's transaction was committed or aborted. `moment` is its
/// timestamp in milliseconds. An error is an allocation failure.
pub(crate) fn control_batch(
    alloc: Global,
    outcome: TransactionResult,
    producer: i64,
    epoch: i16,
    moment: i64,
) -> Result<Vec<u8>, AllocError>
    ensures sum { OnOk result ((control outcome producer epoch moment).header.crc < 2 ^ 32) }
    ensures text { IfOk result (λ text.
        text.items ≡ (control outcome producer epoch moment).bytes) }
{
    let draft = BatchHeader::of_control(producer, epoch, moment);
    let summed = control_text(alloc, outcome, &draft)?;
    let header = draft.with_crc(crc32c(&summed[21..]));
    control_text(alloc, outcome, &header)
}
