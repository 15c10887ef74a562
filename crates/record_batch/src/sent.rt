//! What a producer sent as a batch, which is checked once.

ghost use Rattle.std.specs.Prelude.{◌≡◌, length, IfOk, None};
ghost use Rattle.record_batch.specs.Batch.{IsBatch};
ghost use Rattle.record_batch.specs.Faults.{first_fault, fault_in};

use crate::batch::Batch;
use crate::check::fault_of;
use crate::fault::BatchFault;
use crate::header::BatchHeader;
use std::marker::Model;
use wire_types::Bytes;

/// Bytes that a producer sent as a batch, and the first fault that was found in them, their size aside. Contracts see the bytes.
/// They are checked where they are decoded, and not again where they are appended.
#[derive(Debug, Clone)]
pub struct SentBatch {
    bytes: Bytes,
    fault: Option<BatchFault>,
}

impl Model for SentBatch {
    ghost use Rattle.std.specs.Prelude.{◌≡◌, List, ℕ};
    ghost use Rattle.record_batch.specs.Faults.{fault_at_any_size};

    ghost Value = { List ℕ };

    ghost view = { λ s. s.bytes };

    ghost invariant = { λ s. s.fault ≡ fault_at_any_size s.bytes };
}

impl Drop for SentBatch {
    fn drop(self) {
        let SentBatch {
            bytes: _bytes,
            fault: _,
        } = self;
    }
}

impl SentBatch {
    /// Checks bytes that a producer sent as a batch, whatever their number, and keeps the first fault with them. It copies
    /// nothing and allocates nothing.
    pub fn of(bytes: Bytes) -> SentBatch
        ensures { result ≡ bytes }
    {
        let fault = fault_of(bytes.as_slice());
        SentBatch { bytes, fault }
    }

    /// The bytes, as they were sent.
    pub fn bytes(&self) -> &Bytes
        ensures { result.now ≡ self.now }
    {
        &self.bytes
    }

    /// The number of bytes.
    pub fn len(&self) -> usize
        ensures { result ≡ length self.now }
    {
        self.bytes.len()
    }

    /// The batch, if it has no fault and at most `max` bytes; else the first fault, `TooLarge` last. It doesn't check the bytes
    /// again, so it takes as long for large batches as for small ones.
    pub fn batch(self, max: u32) -> Result<Batch, BatchFault>
        ensures fault { fault_in result ≡ first_fault max self }
        ensures batch { IfOk result (λ b. (b.bytes ≡ self) × (b.marker ≡ None) × IsBatch b) }
    {
        let SentBatch { bytes, fault } = self;
        if let Some(fault) = fault {
            return Err(fault);
        }
        if bytes.len() > max as usize {
            return Err(BatchFault::TooLarge);
        }
        match BatchHeader::first_of(bytes.as_slice()) {
            Some(header) => Ok(Batch::faultless(&header, bytes)),
            None => unreachable!(),
        }
    }
}

impl PartialEq for SentBatch {
    ghost use Rattle.std.specs.Prelude.{◌==◌};
    ghost use Rattle.std.specs.Cmp.{partial_equiv_from_equiv};
    ghost use Rattle.std.specs.Cmp.Lexicographic.{pointwise, nat_list_eq_equiv};

    ghost eq = { pointwise ◌==◌ };

    ghost laws = { partial_equiv_from_equiv nat_list_eq_equiv };

    /// Whether both were sent as the same bytes.
    fn eq(&self, other: &SentBatch) -> bool {
        self.bytes == other.bytes
    }
}

impl Eq for SentBatch {
    ghost use Rattle.std.specs.Cmp.Lexicographic.{nat_list_eq_equiv};

    ghost laws = { nat_list_eq_equiv };
}
