//! The laws of the plain broker, each the contract of a function with nothing to do.

ghost use Rattle.plain_broker.specs.Plain.{PlainOfAllowed};
ghost use Rattle.plain_broker.specs.Plainness.{RefusesNothing, SameForAll, LooksAtNoBook};
ghost use Rattle.plain_broker.specs.Events.{EventsArePlain};
ghost use Rattle.plain_broker.specs.Exactly.{AllowedIsExact, RefusedAnswers};
ghost use Rattle.plain_broker.specs.Without.{RefusedChangesNothing};
ghost use Rattle.plain_broker.specs.Named.{RefusalsAreRight};
ghost use Rattle.plain_broker.specs.ReadCommitted.{ReadsCommitted, FetchesShowCommitted};
ghost use Rattle.api_dispatch.specs.Refusals.{RefusalsAreOfParts};

/// Whatever the world, a request is answered what the plain broker answers to the part of it that the bindings allow, with
/// each refused part's code at its place. The world after it is that of the request without the refused parts. The same
/// holds for any list of events.
pub fn plain_of_allowed()
    ensures requests { PlainOfAllowed }
    ensures events { EventsArePlain }
{}

/// The plain broker refuses nothing, answers all callers alike, and doesn't look at the bindings.
pub fn plain_knows_no_permission()
    ensures refusals { RefusesNothing }
    ensures callers { SameForAll }
    ensures books { LooksAtNoBook }
{}

/// The allowed part of a request holds exactly the parts whose questions are all granted. A refused part's answer is its
/// error code, with values beside it that are the same for every code.
pub fn allowed_is_exact()
    ensures parts { AllowedIsExact }
    ensures answers { RefusedAnswers }
{}

/// A request leaves the world as the same request without its refused parts would.
pub fn refused_changes_nothing()
    ensures { RefusedChangesNothing }
{}

/// The refusals of a request are those of its refused parts, in order. Each names the first binding by creation number that
/// denies its question, or says that no binding denies or allows it.
pub fn refusals_are_of_parts()
    ensures parts { RefusalsAreOfParts }
    ensures names { RefusalsAreRight }
{}

/// A partition that a read_committed Fetch answers without an error shows a consumer the committed records of the served
/// batches, and no others. So does each partition of a request, at its place.
pub fn reads_committed()
    ensures partitions { ReadsCommitted }
    ensures requests { FetchesShowCommitted }
{}
