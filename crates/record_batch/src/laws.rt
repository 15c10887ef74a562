//! The laws of batches, each the contract of a function with nothing to do.

ghost use Rattle.record_batch.specs.Laws.{OneBatch, FaultlessIsBatch, LastOffsetStays, OffsetAloneChanges, SameFaults, SizeIsLast};

/// Two different batches never have the same bytes: the bytes determine the header and the records.
pub fn one_batch()
    ensures { OneBatch }
{}

/// Bytes have no fault exactly where they are a data batch of at most the allowed size.
pub fn faultless_is_batch()
    ensures { FaultlessIsBatch }
{}

/// A batch that is written at one offset and then at another is the same as if it had been written at the last one only.
pub fn last_offset_stays()
    ensures { LastOffsetStays }
{}

/// Writing a batch at another offset changes the bytes of the base offset and of the leader epoch, and no others.
pub fn offset_alone_changes()
    ensures { OffsetAloneChanges }
{}

/// Writing a batch at another offset changes nothing about its first fault, whatever size is allowed. So its checksum is still
/// right.
pub fn same_faults()
    ensures { SameFaults }
{}

/// `TooLarge` is reported only for bytes without any other fault.
pub fn size_is_last()
    ensures { SizeIsLast }
{}
