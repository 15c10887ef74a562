//! The law of ranges, the contract of a function with nothing to do.

ghost use Rattle.txn_coordinator.specs.Laws.{CallsKeepRanges};

/// Whatever calls are made, each transactional id has a producer id that was given out, and an epoch from 0 to 32,767.
pub fn calls_keep_ranges()
    ensures { CallsKeepRanges }
{}
