//! The laws of sequences, each the contract of a function with nothing to do.

ghost use Rattle.producer_state.specs.Laws.{AcceptedOnce, NextIsCount, NumbersAlone, SentAgainRepeats, NewerFences};

/// A log of which each data batch was judged `Next` by those before it holds the batches of a producer in an epoch once each,
/// from sequence number 0, in order and without a gap.
pub fn accepted_once()
    ensures { AcceptedOnce }
{}

/// In a log as in `accepted_once`, a batch that is judged `Next` begins with the number of records that the log holds of its
/// producer in its epoch, modulo 2^31.
pub fn next_is_count()
    ensures { NextIsCount }
{}

/// A batch's judgment depends on its producer id, its epoch, its base sequence and its record count, and on nothing else in it,
/// such as its base offset.
pub fn numbers_alone()
    ensures { NumbersAlone }
{}

/// Where a data batch of a producer was judged `Next` and appended, and one with the same sequence numbers comes right after it,
/// that one is judged a `Repeat` with the old offset. So it isn't appended twice.
pub fn sent_again_repeats()
    ensures { SentAgainRepeats }
{}

/// After a batch or marker of a newer epoch, each batch of the same producer in an older epoch is refused
/// (INVALID_PRODUCER_EPOCH).
pub fn newer_fences()
    ensures { NewerFences }
{}
