//! Fetch: reads batches of partitions from an offset on.

ghost use Rattle.std.specs.Prelude.{◌≡◌, [], IfOk};
ghost use Rattle.std.specs.Option.{option_copied};
ghost use Rattle.walk.specs.Walk.{asked_in};
ghost use Rattle.broker_world.specs.HandlerResult.{HandlerMeets};
ghost use Rattle.data_handlers.specs.Fetch.{fetch_rule, budget_for, budget_after_batches, served_by, served_at, fetched_error, batch_bytes, aborted_list, fetched_partition, budget_after, whole_budget, fetch_outcome};

use crate::fetch_budget::FetchBudget;
use acl_binding::{Caller, Kind, Operation};
use authorizer::{Paid, Policy, ask_one};
use broker_world::{HandlerResult, State, Topics, non_negative, served_in_parts};
use msg_admin::Reply;
use msg_data::{
    AbortedTransaction, FetchPartition, FetchReply, FetchRequest, FetchedRecords, Isolation,
};
use partition_log::{FetchFault, Log, Served};
use record_batch::Batch;
use std::alloc::{AllocError, Global};
use walk::{Part, PartApi, refusal_code, walk};
use wire_types::{Boxed, ErrorCode, Items, Pieces, Text};

/// How a Fetch serves a partition: for whom, at which isolation level, from which topics.
#[derive(Drop)]
pub(crate) struct FetchHandler<'a> {
    pub(crate) caller: &'a Caller,
    pub(crate) isolation: Isolation,
    pub(crate) topics: &'a Topics,
}

impl<'a> PartApi<FetchPartition, FetchedRecords, FetchBudget> for FetchHandler<'a> {
    ghost use Rattle.std.specs.Prelude.{false};
    ghost use Rattle.data_handlers.specs.Fetch.{fetch_rule};

    ghost rule = { λ api. fetch_rule api.caller.now api.isolation api.topics.now };

    ghost cuts = { λ _. false };

    ghost settles = { λ _ _. Unit {0} };

    /// Asks whether the caller may READ the topic. If so, serves the partition and takes its bytes from the budget, else
    /// answers the refusal's code.
    fn serve(
        &self,
        alloc: Global,
        policy: &Policy,
        budget: &mut FetchBudget,
        name: &Text,
        part: &FetchPartition,
    ) -> Result<Part<FetchedRecords>, AllocError> {
        let topic = self.caller.asks(Operation::Read, Kind::Topic, name)?;
        match ask_one(policy, topic) {
            Ok(permit) => {
                let paid = Paid::one(permit.spend(policy));
                let served = serve(alloc, self.topics, self.isolation, *budget, name, part)?;
                *budget = budget.after(&served);
                let answer = fetched(alloc, part, self.isolation, served)?;
                Ok(Part::served(answer, paid))
            }
            Err(refusal) => {
                let answer = fetched_error(alloc, refusal_code(&refusal), part);
                Ok(Part::refused(answer, refusal))
            }
        }
    }
}

/// Serves a partition from its offset on within the budget. If nothing was given yet, the first batch is served even if it
/// exceeds the budget. Errors: UNKNOWN_TOPIC_OR_PARTITION or OFFSET_OUT_OF_RANGE; an `AllocError` is an allocation failure.
fn serve(
    alloc: Global,
    topics: &Topics,
    isolation: Isolation,
    budget: FetchBudget,
    name: &Text,
    part: &FetchPartition,
) -> Result<Result<Served, ErrorCode>, AllocError>
    ensures { IfOk result
        (λ served. served ≡ served_at isolation topics.now budget name.now part.now) }
{
    serve_from(alloc, topics.log(name, part.index), isolation, budget, part)
}

/// Serves a partition's log within the budget; `log` is `None` if there is no such topic or partition. Errors are those of
/// `serve`.
fn serve_from(
    alloc: Global,
    log: Option<&Log>,
    isolation: Isolation,
    budget: FetchBudget,
    part: &FetchPartition,
) -> Result<Result<Served, ErrorCode>, AllocError>
    ensures { IfOk result
        (λ served. served ≡ served_by isolation budget part.now (option_copied log.entry)) }
{
    let Some(log) = log else {
        return Ok(Err(ErrorCode::UnknownTopicOrPartition));
    };
    let most = budget.most_for(part);
    match log.fetch(alloc, part.offset, isolation, most, !budget.given) {
        Ok(served) => Ok(Ok(served)),
        Err(FetchFault::OutOfRange) => Ok(Err(ErrorCode::OffsetOutOfRange)),
        Err(FetchFault::NoMemory) => Err(AllocError),
    }
}

impl FetchBudget {
    /// How many bytes may be served of this partition: its own `max_bytes` (0 if negative), but no more than are left of the
    /// answer's.
    fn most_for(&self, part: &FetchPartition) -> u64
        ensures { result ≡ budget_for self.now part.now }
    {
        u64::from(non_negative(part.max_bytes)).min(self.left)
    }

    /// The budget after a partition was served; an error leaves it as it was.
    fn after(&self, served: &Result<Served, ErrorCode>) -> FetchBudget
        ensures { result ≡ budget_after self.now served.now }
    {
        match served {
            Ok(served) => self.less(served.batches.as_slice()),
            Err(_) => *self,
        }
    }

    /// The budget after these batches were served. A forced batch may have more bytes than were left: then none are left.
    fn less(&self, batches: &[Batch]) -> FetchBudget
        ensures { result ≡ budget_after_batches self.now batches.now }
    {
        let mut left = self.left;
        for batch in batches {
            left = left.saturating_sub(batch.len() as u64);
        }
        FetchBudget {
            left,
            given: self.given || !batches.is_empty(),
        }
    }
}

/// A partition's answer with this error code: no records, and -1 for both offsets.
fn fetched_error(alloc: Global, error: ErrorCode, part: &FetchPartition) -> FetchedRecords
    ensures { result ≡ fetched_error error part.now }
{
    FetchedRecords {
        index: part.index,
        error,
        high_watermark: -1,
        last_stable_offset: -1,
        aborted: None,
        records: Pieces::new(alloc),
    }
}

/// A partition's answer: the batches that were served with the high watermark and last stable offset, or the error code.
fn fetched(
    alloc: Global,
    part: &FetchPartition,
    isolation: Isolation,
    served: Result<Served, ErrorCode>,
) -> Result<FetchedRecords, AllocError>
    ensures { IfOk result (λ answer. answer ≡ fetched_partition isolation part.now served) }
{
    match served {
        Ok(served) => Ok(FetchedRecords {
            index: part.index,
            error: ErrorCode::None,
            high_watermark: served.high,
            last_stable_offset: served.stable,
            records: joined(alloc, served.batches.as_slice())?,
            aborted: list_told(isolation, served.aborted),
        }),
        Err(code) => Ok(fetched_error(alloc, code, part)),
    }
}

/// The list of aborted transactions in a partition's answer: null for read_uncommitted.
fn list_told(
    isolation: Isolation,
    aborted: Items<AbortedTransaction>,
) -> Option<Items<AbortedTransaction>>
    ensures { result ≡ aborted_list isolation aborted }
{
    match isolation {
        Isolation::ReadUncommitted => None,
        Isolation::ReadCommitted => Some(aborted),
    }
}

/// The bytes of these batches, one after the other, as the records of an answer. They are shared with the log.
fn joined(alloc: Global, batches: &[Batch]) -> Result<Pieces, AllocError>
    ensures { IfOk result (λ bytes. bytes ≡ batch_bytes batches.now) }
{
    let mut out = Pieces::new(alloc);
    for batch in batches {
        out.push(batch.piece()?)?;
    }
    Ok(out)
}

/// Handles a Fetch: serves each partition whose topic the caller may READ, in the request's order and within the request's and
/// its own `max_bytes`; only the first batch of an answer may exceed them. Any other partition is answered
/// TOPIC_AUTHORIZATION_FAILED. It never waits for more data.
pub fn answer_fetch(
    alloc: Global,
    state: &State,
    caller: &Caller,
    request: &FetchRequest,
) -> Result<HandlerResult, AllocError>
    ensures { HandlerMeets state.now state.now
        (fetch_outcome state.now caller.now request.now) []
        (asked_in (fetch_rule caller.now request.now.isolation state.now.topics) request.now.topics)
        result }
{
    let api = FetchHandler {
        caller,
        isolation: request.isolation,
        topics: state.topics(),
    };
    let mut budget = whole_budget(request);
    let walked = walk(
        alloc,
        &api,
        state.policy(),
        &mut budget,
        request.topics.as_slice(),
    )?;
    let reply = FetchReply {
        throttle: 0,
        topics: walked.topics,
    };
    let reply = Reply::Fetch(Boxed::new(alloc, reply)?);
    Ok(served_in_parts(reply, walked.refusals, walked.spent))
}

/// The budget of a whole answer: the request's `max_bytes`, or 0 where that is negative, and no batch given yet.
fn whole_budget(request: &FetchRequest) -> FetchBudget
    ensures { result ≡ whole_budget request.now }
{
    FetchBudget {
        left: u64::from(non_negative(request.max_bytes)),
        given: false,
    }
}
