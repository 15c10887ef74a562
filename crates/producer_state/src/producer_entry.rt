//! What is kept of one producer, as Kafka's ProducerStateEntry.

ghost use Rattle.std.specs.Prelude.{◌≡◌, ◌&&◌, IfOk, Some};
ghost use Rattle.std.specs.List.{find};
ghost use Rattle.std.specs.Ordering.{int_eq};
ghost use Rattle.record_batch.specs.Batch.{written_at};
ghost use Rattle.producer_state.specs.Sequences.{is_data, first_judgment};
ghost use Rattle.producer_state.specs.State.{written_of, has_sequences_of, judgment_by_state, fresh_state, state_in_epoch, state_with_batch_if};

use crate::judgment::Judgment;
use crate::sequence::{last_sequence, next_sequence};
use circular_buffer::HeapCircularBuffer;
use record_batch::Batch;
use std::alloc::{AllocError, Global};
use std::marker::Model;
use wire_types::ErrorCode;

/// Where a data batch stands in the log, and its sequence numbers.
#[derive(Clone, Copy, Debug)]
pub struct BatchMetadata {
    /// The sequence number of the batch's first record.
    pub first: i32,
    /// The sequence number of the batch's last record.
    pub last: i32,
    /// The offset of the batch's first record.
    pub offset: i64,
}

impl BatchMetadata {
    /// The metadata of a data batch that stands at this offset in the log, whatever base offset its header holds.
    fn of(batch: &Batch, offset: i64) -> BatchMetadata
        ensures { result ≡ written_of (written_at offset batch.now) }
    {
        let first = batch.base_sequence();
        BatchMetadata {
            first,
            last: last_sequence(first, batch.record_count()),
            offset,
        }
    }

    /// Whether `batch` has the same first and the same last sequence number. Producer and epoch aren't compared.
    fn has_sequences_of(&self, batch: &Batch) -> bool
        ensures { result ≡ has_sequences_of batch.now self.now }
    {
        let first = batch.base_sequence();
        self.first == first && self.last == last_sequence(first, batch.record_count())
    }
}

/// How many data batches are kept of a producer, as in Kafka.
const KEPT: usize = 5;

/// A producer's epoch, the sequence number that is expected of it, and its last five data batches of that epoch, the
/// latest first.
#[derive(Drop)]
pub struct ProducerEntry {
    epoch: i16,
    expected: i32,
    latest: HeapCircularBuffer<BatchMetadata>,
}

impl Model for ProducerEntry {
    ghost use Rattle.std.specs.Prelude.{◌≡◌};
    ghost use Rattle.producer_state.specs.State.{ProducerEntryValue};

    ghost Value = { ProducerEntryValue };

    ghost view = { λ k. record { epoch = k.epoch; expected = k.expected; latest = k.latest.items } };

    ghost invariant = { λ k. k.latest.capacity ≡ 5 };
}

impl ProducerEntry {
    /// A producer in this epoch with no data batch: sequence number 0 is expected next. An error is an allocation failure.
    pub(crate) fn fresh(alloc: Global, epoch: i16) -> Result<ProducerEntry, AllocError>
        ensures { IfOk result (λ k. k ≡ fresh_state epoch) }
    {
        let latest = HeapCircularBuffer::with_capacity(alloc, KEPT)?;
        Ok(ProducerEntry {
            epoch,
            expected: 0,
            latest,
        })
    }

    /// Goes to this epoch if it is newer than the producer's: then sequence numbers begin at 0 again, and the batches of the old
    /// epoch are forgotten. An older or equal epoch changes nothing.
    pub(crate) fn update_epoch(&mut self, epoch: i16)
        ensures { self.new ≡ state_in_epoch (Some self.old) epoch }
    {
        if self.epoch < epoch {
            self.epoch = epoch;
            self.expected = 0;
            self.latest.clear();
        }
    }

    /// Keeps the sequence numbers and the offset of a batch of this producer that was appended at `offset`, if it is a data batch
    /// of the producer's epoch. A marker or a batch of another epoch changes nothing.
    pub(crate) fn note(&mut self, batch: &Batch, offset: i64)
        ensures { self.new ≡ state_with_batch_if
            (is_data batch.now && int_eq self.old.epoch batch.now.header.producer_epoch)
            self.old (written_at offset batch.now) }
    {
        if batch.marker().is_none() && self.epoch == batch.producer_epoch() {
            self.expected = next_sequence(batch.base_sequence(), batch.record_count());
            self.latest.push_front(BatchMetadata::of(batch, offset));
        }
    }

    /// Judges a batch of this producer. An older epoch is refused (INVALID_PRODUCER_EPOCH), and a newer one is judged as by
    /// `begun`. In the same epoch one of the last five data batches is a `Repeat`, the expected sequence number is `Next`, and
    /// any other is refused (OUT_OF_ORDER_SEQUENCE_NUMBER).
    pub(crate) fn judge(&self, batch: &Batch) -> Judgment
        ensures { result ≡ judgment_by_state (Some self.now) batch.now }
    {
        let epoch = batch.producer_epoch();
        if epoch < self.epoch {
            return Judgment::Refused(ErrorCode::InvalidProducerEpoch);
        }
        if epoch > self.epoch {
            return begun(batch);
        }
        match find_repeat(&self.latest, batch) {
            Some(written) => Judgment::Repeat(written.offset),
            None if batch.base_sequence() == self.expected => Judgment::Next,
            None => Judgment::Refused(ErrorCode::OutOfOrderSequenceNumber),
        }
    }
}

/// Judges a producer's first batch of an epoch: sequence number 0 is `Next`, and any other is refused
/// (OUT_OF_ORDER_SEQUENCE_NUMBER).
pub(crate) fn begun(batch: &Batch) -> Judgment
    ensures { result ≡ first_judgment batch.now }
{
    if batch.base_sequence() == 0 {
        Judgment::Next
    } else {
        Judgment::Refused(ErrorCode::OutOfOrderSequenceNumber)
    }
}

/// The latest of the kept batches that has the first and last sequence numbers of `batch`, or None.
fn find_repeat(latest: &HeapCircularBuffer<BatchMetadata>, batch: &Batch) -> Option<BatchMetadata>
    ensures { result ≡ find (has_sequences_of batch.now) latest.now.items }
{
    latest
        .iter()
        .copied()
        .find(|written| written.has_sequences_of(batch))
}
