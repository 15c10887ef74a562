//! The search for the first fault of bytes that a producer sent as a batch. It takes no memory.

ghost use Rattle.std.specs.Prelude.{◌≡◌, ◌+◌, ◌≤◌, length};
ghost use Rattle.record_batch.specs.Batch.{has_producer};
ghost use Rattle.record_batch.specs.Faults.{end_of, has_length, has_count, has_records, is_valid, data_tests, fault_tests, first_found, fault_at_any_size, fault_in};

use crate::crc::crc32c;
use crate::fault::BatchFault;
use crate::header::BatchHeader;
use crate::walk::are_records;

impl BatchHeader {
    /// Whether the header's batch length is at least 49, so that it takes in the rest of the header, and the batch ends within
    /// `total` bytes. Bytes after the batch aren't refused here.
    fn has_length(&self, total: usize) -> bool
        ensures { result ≡ has_length total self.now.batch_length }
    {
        self.batch_length >= 49 && self.batch_length as usize + 12 <= total
    }

    /// How many bytes the batch has by its header's batch length, which counts neither itself nor the 8 bytes before it; 0 for a
    /// negative length.
    fn end(&self) -> usize
        ensures { result ≡ end_of self.now.batch_length }
    {
        if self.batch_length < 0 {
            return 0;
        }
        self.batch_length as usize + 12
    }

    /// Whether the producer's fields fit together: either the producer id -1 and no transaction, or an id, an epoch and a base
    /// sequence of which none is negative. With the id -1 the epoch and the base sequence may be any.
    fn has_producer(&self) -> bool
        ensures { result ≡ has_producer self.now }
    {
        if self.producer_id < 0 {
            self.producer_id == -1 && !self.is_transactional()
        } else {
            !(self.producer_epoch < 0) && !(self.base_sequence < 0)
        }
    }

    /// Whether there is at least one record, and the last offset delta is one less than the record count.
    fn has_count(&self) -> bool
        ensures { result ≡ has_count self.now }
    {
        0 < self.record_count && self.record_count - 1 == self.last_offset_delta
    }

    /// Whether `body`, the bytes after the header, is exactly as many well-formed records as the header counts.
    #[tactic(auto, unfolding(crate::specs::Faults::has_records))]
    fn has_records(&self, body: &[u8]) -> bool
        ensures { result ≡ has_records self.now body.now }
    {
        are_records(body, self.count())
    }

    /// Whether `bytes`, with `body` after the header, are exactly one data batch whose fields and records fit together.
    #[tactic(auto, unfolding(crate::specs::Faults::is_valid))]
    fn is_valid(&self, body: &[u8], bytes: &[u8]) -> bool
        ensures { result ≡ is_valid self.now body.now bytes.now }
    {
        self.end() == bytes.len()
            && !self.is_control()
            && self.has_count()
            && self.has_producer()
            && self.has_records(body)
    }

    /// The last faults that are looked for, after those of the format: `Invalid` where the fields or records don't fit
    /// together, `Timestamp` where the timestamp type is LogAppendTime.
    fn check_data(&self, body: &[u8], bytes: &[u8]) -> Result<(), BatchFault>
        ensures { fault_in result
            ≡ first_found (data_tests (length bytes.now) bytes.now self.now body.now) }
    {
        if !self.is_valid(body, bytes) {
            return Err(BatchFault::Invalid);
        }
        if self.has_append_time() {
            return Err(BatchFault::Timestamp);
        }
        Ok(())
    }

    /// Looks for the first fault of `bytes`, with `body` after this header, in the order of `BatchFault`; but not for `TooLarge`.
    /// The header's 61 bytes have to be there.
    fn check_all(&self, body: &[u8], bytes: &[u8]) -> Result<(), BatchFault>
        requires { 61 ≤ length bytes.now }
        ensures { fault_in result
            ≡ first_found (fault_tests (length bytes.now) bytes.now self.now body.now) }
    {
        if !self.has_length(bytes.len()) {
            return Err(BatchFault::Length);
        }
        if self.magic != 2 {
            return Err(BatchFault::Magic);
        }
        if self.crc != crc32c(&bytes[21..self.end()]) {
            return Err(BatchFault::Crc);
        }
        if !self.is_uncompressed() {
            return Err(BatchFault::Compressed);
        }
        self.check_data(body, bytes)
    }
}

/// The first fault of bytes that a producer sent as a batch, whatever their number; `None` if there is none.
#[tactic(auto, unfolding(crate::specs::Faults::first_fault))]
pub(crate) fn fault_of(bytes: &[u8]) -> Option<BatchFault>
    ensures { result ≡ fault_at_any_size bytes.now }
{
    let Some(header) = BatchHeader::first_of(bytes) else {
        return Some(BatchFault::Length);
    };
    match header.check_all(&bytes[61..], bytes) {
        Ok(()) => None,
        Err(fault) => Some(fault),
    }
}
