//! Hands each event to the handler of its kind, and each request to that of its api.

ghost use Rattle.std.specs.Prelude.{◌≡◌, ◌+◌, ◌<◌, ◌^◌, ◌≤◌, true, IfOk, OnOk, OnErr};
ghost use Rattle.msg_admin.specs.Request.{Fits};
ghost use Rattle.broker_world.specs.HandlerResult.{HandlerMeets};
ghost use Rattle.broker_world.specs.Logs.{offsets_left};
ghost use Rattle.authorizer.specs.Asking.{part_paid};
ghost use Rattle.broker_world.specs.World.{rules_of};
ghost use Rattle.authorizer.specs.Tally.{count_after_parts as tallied};
ghost use Rattle.api_dispatch.specs.Questions.{asks_itself, event_asks, parts_walked, event_parts};
ghost use Rattle.api_dispatch.specs.Bounds.{EventFits, most_parts, most_events, GenerationsWithin};
ghost use Rattle.api_dispatch.specs.Step.{request_outcome, outcome, reply_to, refusals_of, with_event_counted, is_reading, is_reading_request};

use crate::login::{answer_api_versions, answer_sasl_authenticate, answer_sasl_handshake};
use crate::tick::answer_tick;
use acl_binding::Caller;
use acl_handlers::{answer_create_acls, answer_delete_acls, answer_describe_acls};
use audit_trail::Event;
use broker_world::{HandlerResult, State};
use data_handlers::{answer_fetch, answer_list_offsets, answer_metadata, answer_produce};
use group_handlers::{
    answer_find_coordinator, answer_heartbeat, answer_join_group, answer_leave_group,
    answer_offset_commit, answer_offset_fetch, answer_sync_group,
};
use msg_admin::Request;
use std::alloc::{AllocError, Global};
use txn_handlers::{
    answer_add_offsets, answer_add_partitions, answer_end_txn, answer_init_producer_id,
    answer_mark, answer_txn_offset_commit,
};

/// Handles an event: changes the world, and returns the reply, the refusals and what was spent. It doesn't raise the number of
/// events: `count` does after the event is in the trail. After an allocation failure the world is as it was if the event only
/// reads (`is_reading`), and else may be changed in part.
pub fn apply(alloc: Global, state: &mut State, event: &Event) -> Result<HandlerResult, AllocError>
    requires fits { EventFits event.now }
    requires budget { most_parts ≤ offsets_left state.old.topics }
    requires numbers { state.old.book.next + most_parts < 2 ^ 63 }
    requires generations { GenerationsWithin most_events state.old.groups }
    ensures world { OnOk result (state.new ≡ (outcome state.old event.now).world) }
    ensures reply { IfOk result (λ o. o.reply ≡ reply_to state.old event.now) }
    ensures refusals { IfOk result (λ o. o.refusals ≡ refusals_of state.old event.now) }
    ensures paid { IfOk result
        (λ o. o.paid ≡ part_paid (rules_of state.old) (event_asks (rules_of state.old) event.now)) }
    ensures spent { IfOk result
        (λ o. o.spent ≡ tallied (rules_of state.old) 0 (event_parts state.old event.now)) }
    ensures reading { OnErr result (is_reading event.now ≡ true → state.new ≡ state.old) }
{
    match event {
        Event::Ask {
            caller,
            request,
            ..
        } => answer(alloc, state, caller.value(), request),
        Event::Mark => answer_mark(alloc, state),
        Event::Tick(told) => answer_tick(alloc, state, *told),
    }
}

/// Hands a request of this caller to the handler of its api. Errors are as in `apply`.
fn answer(
    alloc: Global,
    state: &mut State,
    caller: &Caller,
    request: &Request,
) -> Result<HandlerResult, AllocError>
    requires fits { Fits request.now }
    requires budget { most_parts ≤ offsets_left state.old.topics }
    requires numbers { state.old.book.next + most_parts < 2 ^ 63 }
    requires generations { GenerationsWithin most_events state.old.groups }
    ensures meets { HandlerMeets state.old state.new
        (request_outcome state.old caller.now request.now)
        (asks_itself (rules_of state.old) caller.now request.now)
        (parts_walked state.old caller.now request.now) result }
    ensures reading { OnErr result (is_reading_request request.now ≡ true → state.new ≡ state.old) }
{
    match request {
        Request::Produce(body) => answer_produce(alloc, state, caller, body.value()),
        Request::Fetch(body) => answer_fetch(alloc, state, caller, body.value()),
        Request::ListOffsets(body) => answer_list_offsets(alloc, state, caller, body.value()),
        Request::DescribeAcls(body) => answer_describe_acls(alloc, state, caller, body.value()),
        Request::CreateAcls(body) => answer_create_acls(alloc, state, caller, body.value()),
        Request::DeleteAcls(body) => answer_delete_acls(alloc, state, caller, body.value()),
        Request::OffsetCommit(body) => answer_offset_commit(alloc, state, caller, body.value()),
        Request::OffsetFetch(body) => answer_offset_fetch(alloc, state, caller, body.value()),
        Request::FindCoordinator(body) => answer_find_coordinator(
            alloc,
            state,
            caller,
            body.value(),
        ),
        Request::JoinGroup(body) => answer_join_group(alloc, state, caller, body.value()),
        Request::Heartbeat(body) => answer_heartbeat(alloc, state, caller, body.value()),
        Request::LeaveGroup(body) => answer_leave_group(alloc, state, caller, body.value()),
        Request::SyncGroup(body) => answer_sync_group(alloc, state, caller, body.value()),
        Request::SaslHandshake(_) => answer_sasl_handshake(alloc),
        Request::ApiVersions => answer_api_versions(alloc),
        Request::SaslAuthenticate(_) => answer_sasl_authenticate(alloc),
        Request::InitProducerId(body) => answer_init_producer_id(
            alloc,
            state,
            caller,
            body.value(),
        ),
        Request::AddPartitionsToTxn(body) => answer_add_partitions(
            alloc,
            state,
            caller,
            body.value(),
        ),
        Request::AddOffsetsToTxn(body) => answer_add_offsets(alloc, state, caller, body.value()),
        Request::EndTxn(body) => answer_end_txn(alloc, state, caller, body.value()),
        Request::TxnOffsetCommit(body) => answer_txn_offset_commit(
            alloc,
            state,
            caller,
            body.value(),
        ),
        Request::Metadata(body) => answer_metadata(alloc, state, caller, body.value()),
    }
}

/// Raises the number of events that the broker has answered by one. Nothing else changes.
pub fn count(state: &mut State)
    requires { state.old.events + 1 < 2 ^ 64 }
    ensures { state.new ≡ with_event_counted state.old }
{
    state.events += 1;
}
