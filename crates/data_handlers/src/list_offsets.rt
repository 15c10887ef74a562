//! ListOffsets: the offsets at which logs begin and end.

ghost use Rattle.std.specs.Prelude.{◌≡◌, []};
ghost use Rattle.std.specs.Option.{option_copied};
ghost use Rattle.walk.specs.Walk.{asked_in};
ghost use Rattle.broker_world.specs.HandlerResult.{HandlerMeets};
ghost use Rattle.data_handlers.specs.ListOffsets.{list_rule, listed_error, listed_at, listed_offset_by, listed_offset, list_offsets_outcome};

use acl_binding::{Caller, Kind, Operation};
use authorizer::{Paid, Policy, ask_one};
use broker_world::{HandlerResult, State, Topics, served_in_parts};
use msg_admin::Reply;
use msg_data::{FoundOffset, Isolation, ListOffsetsReply, ListOffsetsRequest, WantedOffset};
use partition_log::Log;
use std::alloc::{AllocError, Global};
use walk::{Part, PartApi, refusal_code, walk};
use wire_types::{Boxed, ErrorCode, Text};

/// The timestamp -1 asks for the end: the high watermark, or with read_committed the last stable offset.
const END: i64 = -1;

/// The timestamp -2 asks for the first offset.
const START: i64 = -2;

/// How a ListOffsets answers a partition: for whom, at which isolation level, from which topics.
#[derive(Drop)]
pub(crate) struct ListOffsetsHandler<'a> {
    pub(crate) caller: &'a Caller,
    pub(crate) isolation: Isolation,
    pub(crate) topics: &'a Topics,
}

impl<'a> PartApi<WantedOffset, FoundOffset, ()> for ListOffsetsHandler<'a> {
    ghost use Rattle.std.specs.Prelude.{false};
    ghost use Rattle.data_handlers.specs.ListOffsets.{list_rule};

    ghost rule = { λ api. list_rule api.caller.now api.isolation api.topics.now };

    ghost cuts = { λ _. false };

    ghost settles = { λ _ _. Unit {0} };

    /// Asks whether the caller may DESCRIBE the topic. If so, it answers the partition's offset, else the refusal's code.
    fn serve(
        &self,
        _alloc: Global,
        policy: &Policy,
        _world: &mut (),
        name: &Text,
        part: &WantedOffset,
    ) -> Result<Part<FoundOffset>, AllocError> {
        let topic = self.caller.asks(Operation::Describe, Kind::Topic, name)?;
        match ask_one(policy, topic) {
            Ok(permit) => {
                let paid = Paid::one(permit.spend(policy));
                let answer = listed(self.topics, self.isolation, name, part);
                Ok(Part::served(answer, paid))
            }
            Err(refusal) => {
                let answer = listed_error(refusal_code(&refusal), part);
                Ok(Part::refused(answer, refusal))
            }
        }
    }
}

/// A partition's answer, as in `listed_by`.
fn listed(topics: &Topics, isolation: Isolation, name: &Text, part: &WantedOffset) -> FoundOffset
    ensures { result ≡ listed_offset isolation topics.now name.now part.now }
{
    listed_by(topics.log(name, part.index), isolation, part)
}

/// A partition's answer: for timestamp -1 the end by the isolation level (high watermark or last stable offset), for -2 the
/// start, which is 0, for any other INVALID_REQUEST. UNKNOWN_TOPIC_OR_PARTITION if `log` is `None`, since there is no such
/// topic or partition.
fn listed_by(log: Option<&Log>, isolation: Isolation, part: &WantedOffset) -> FoundOffset
    ensures { result ≡ listed_offset_by isolation part.now (option_copied log.entry) }
{
    match log {
        Some(log) if part.timestamp == END => listed_at(log.limit(isolation), part),
        Some(_) if part.timestamp == START => listed_at(0, part),
        Some(_) => listed_error(ErrorCode::InvalidRequest, part),
        None => listed_error(ErrorCode::UnknownTopicOrPartition, part),
    }
}

/// A partition's answer with this offset, and timestamp -1.
fn listed_at(offset: i64, part: &WantedOffset) -> FoundOffset
    ensures { result ≡ listed_at offset part.now }
{
    FoundOffset {
        index: part.index,
        error: ErrorCode::None,
        timestamp: -1,
        offset,
    }
}

/// A partition's answer with this error code, and -1 for offset and timestamp.
fn listed_error(error: ErrorCode, part: &WantedOffset) -> FoundOffset
    ensures { result ≡ listed_error error part.now }
{
    FoundOffset {
        index: part.index,
        error,
        timestamp: -1,
        offset: -1,
    }
}

/// Handles a ListOffsets: for each partition whose topic the caller may DESCRIBE, answers the start (timestamp -2) or the end
/// (-1) of its log, UNKNOWN_TOPIC_OR_PARTITION or INVALID_REQUEST; for each other one TOPIC_AUTHORIZATION_FAILED.
pub fn answer_list_offsets(
    alloc: Global,
    state: &State,
    caller: &Caller,
    request: &ListOffsetsRequest,
) -> Result<HandlerResult, AllocError>
    ensures { HandlerMeets state.now state.now
        (list_offsets_outcome state.now caller.now request.now) []
        (asked_in (list_rule caller.now request.now.isolation state.now.topics) request.now.topics)
        result }
{
    let api = ListOffsetsHandler {
        caller,
        isolation: request.isolation,
        topics: state.topics(),
    };
    let walked = walk(
        alloc,
        &api,
        state.policy(),
        &mut (),
        request.topics.as_slice(),
    )?;
    let reply = ListOffsetsReply {
        throttle: 0,
        topics: walked.topics,
    };
    let reply = Reply::ListOffsets(Boxed::new(alloc, reply)?);
    Ok(served_in_parts(reply, walked.refusals, walked.spent))
}
