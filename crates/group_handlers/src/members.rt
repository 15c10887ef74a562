//! JoinGroup, SyncGroup, Heartbeat and LeaveGroup: the calls of a group's member.

ghost use Rattle.std.specs.Prelude.{◌≡◌, ◌<ℤ◌, ◌∷◌, [], pos, IfOk, IfErr, OnOk};
ghost use Rattle.authorizer.specs.Asking.{AreYes, IsRefusalOf};
ghost use Rattle.authorizer.specs.Policy.{IsGranted};
ghost use Rattle.group_offsets.specs.Groups.{group_of};
ghost use Rattle.broker_world.specs.HandlerResult.{HandlerMeets};
ghost use Rattle.broker_world.specs.Questions.{read_question};
ghost use Rattle.broker_world.specs.Codes.{code_in};
ghost use Rattle.group_handlers.specs.Members.{join_welcome, join_error, join_reply, join_group_outcome, sync_reply, sync_group_outcome, beat_reply, heartbeat_outcome, leave_reply, leave_group_outcome};

use acl_binding::Caller;
use authorizer::{Paid, Permit, Policy, Refusal, ask_one};
use broker_world::{HandlerResult, State, code_in, read_question, refused_whole, served_whole};
use group_offsets::Joined;
use msg_admin::Reply;
use msg_group::{
    HeartbeatReply, HeartbeatRequest, JoinGroupReply, JoinGroupRequest, JoinedMember,
    LeaveGroupReply, LeaveGroupRequest, OfferedProtocol, SyncGroupReply, SyncGroupRequest,
};
use std::alloc::{AllocError, Global};
use walk::refusal_code;
use wire_types::{Boxed, Bytes, ErrorCode, Items, Text};

/// The JoinGroup reply to a member that has joined. It is the leader, and the only member listed.
fn join_welcome(alloc: Global, joined: Joined) -> Result<Reply, AllocError>
    ensures { IfOk result (λ reply. reply ≡ Reply.JoinGroup (join_welcome joined)) }
{
    let Joined {
        generation,
        member,
        protocol,
    } = joined;
    let OfferedProtocol { name, metadata } = protocol;
    let mut members = Items::new(alloc);
    members.push(JoinedMember {
        member: member.clone()?,
        metadata,
    })?;
    let reply = JoinGroupReply {
        throttle: 0,
        error: ErrorCode::None,
        generation,
        protocol: name,
        leader: member.clone()?,
        member,
        members,
    };
    Ok(Reply::JoinGroup(Boxed::new(alloc, reply)?))
}

/// The JoinGroup reply with this error code: generation -1, and the member id that the request sent.
fn join_error(
    alloc: Global,
    error: ErrorCode,
    request: &JoinGroupRequest,
) -> Result<Reply, AllocError>
    ensures { IfOk result (λ reply. reply ≡ Reply.JoinGroup (join_error error request.now)) }
{
    let reply = JoinGroupReply {
        throttle: 0,
        error,
        generation: -1,
        protocol: Text::of(alloc, "")?,
        leader: Text::of(alloc, "")?,
        member: request.member.clone()?,
        members: Items::new(alloc),
    };
    Ok(Reply::JoinGroup(Boxed::new(alloc, reply)?))
}

/// The JoinGroup reply for what the group answered: that the member has joined, or an error code.
fn join_reply(
    alloc: Global,
    joined: Result<Joined, ErrorCode>,
    request: &JoinGroupRequest,
) -> Result<Reply, AllocError>
    ensures { IfOk result (λ reply. reply ≡ Reply.JoinGroup (join_reply joined request.now)) }
{
    match joined {
        Ok(joined) => join_welcome(alloc, joined),
        Err(code) => join_error(alloc, code, request),
    }
}

/// The SyncGroup reply for what the group answered: the member's assignment, or an error code.
fn sync_reply(alloc: Global, assignment: Result<Bytes, ErrorCode>) -> Result<Reply, AllocError>
    ensures { IfOk result (λ reply. reply ≡ Reply.SyncGroup (sync_reply assignment)) }
{
    let reply = match assignment {
        Ok(assignment) => SyncGroupReply {
            throttle: 0,
            error: ErrorCode::None,
            assignment,
        },
        Err(error) => SyncGroupReply {
            throttle: 0,
            error,
            assignment: Bytes::new(),
        },
    };
    Ok(Reply::SyncGroup(Boxed::new(alloc, reply)?))
}

/// The Heartbeat reply with this error code.
fn beat_reply(error: ErrorCode) -> Reply
    ensures { result ≡ Reply.Heartbeat (beat_reply error) }
{
    Reply::Heartbeat(HeartbeatReply { throttle: 0, error })
}

/// The LeaveGroup reply with this error code.
fn leave_reply(error: ErrorCode) -> Reply
    ensures { result ≡ Reply.LeaveGroup (leave_reply error) }
{
    Reply::LeaveGroup(LeaveGroupReply { throttle: 0, error })
}

/// Asks the policy whether the caller may READ the group. Returns the permit or the refusal; an `AllocError` is an allocation
/// failure.
fn ask_to_read(
    policy: &Policy,
    caller: &Caller,
    group: &Text,
) -> Result<Result<Permit, Refusal>, AllocError>
    ensures granted { IfOk result
        (λ asked. IfOk asked (IsGranted policy.now (read_question caller.now group.now))) }
    ensures yes { IfOk result
        (λ asked. OnOk asked (AreYes policy.now (read_question caller.now group.now ∷ []))) }
    ensures refused { IfOk result
        (λ asked. IfErr asked
        (IsRefusalOf policy.now (read_question caller.now group.now ∷ []))) }
{
    let question = read_question(caller, group)?;
    Ok(ask_one(policy, question))
}

/// Handles a JoinGroup: lets the member in and begins a new generation if the caller may READ the group, or answers the group's
/// error code (see `Groups::join`). Else answers GROUP_AUTHORIZATION_FAILED. Nobody is waited for.
pub fn answer_join_group(
    alloc: Global,
    state: &mut State,
    caller: &Caller,
    request: &JoinGroupRequest,
) -> Result<HandlerResult, AllocError>
    requires { (group_of state.old.groups request.now.group).generation <ℤ pos 2147483647 }
    ensures { HandlerMeets state.old state.new
        (join_group_outcome state.old caller.now request.now)
        (read_question caller.now request.now.group ∷ []) [] result }
{
    match ask_to_read(&state.policy, caller, &request.group)? {
        Ok(permit) => {
            let (place, moment) = (state.events, state.moment.milliseconds());
            let (groups, policy) = (&mut state.groups, &state.policy);
            let (spent, joined) = groups.join(alloc, policy, permit, request, place, moment);
            let reply = join_reply(alloc, joined?, request)?;
            Ok(served_whole(alloc, reply, Paid::one(spent)))
        }
        Err(refusal) => {
            let reply = join_error(alloc, refusal_code(&refusal), request)?;
            refused_whole(alloc, reply, refusal)
        }
    }
}

/// Handles a SyncGroup: answers the member its assignment if the caller may READ the group, or the group's error code (see
/// `Groups::sync`). Else answers GROUP_AUTHORIZATION_FAILED.
pub fn answer_sync_group(
    alloc: Global,
    state: &mut State,
    caller: &Caller,
    request: &SyncGroupRequest,
) -> Result<HandlerResult, AllocError>
    ensures { HandlerMeets state.old state.new
        (sync_group_outcome state.old caller.now request.now)
        (read_question caller.now request.now.group ∷ []) [] result }
{
    match ask_to_read(&state.policy, caller, &request.group)? {
        Ok(permit) => {
            let moment = state.moment.milliseconds();
            let (groups, policy) = (&mut state.groups, &state.policy);
            let (spent, assignment) = groups.sync(policy, permit, request, moment);
            let reply = sync_reply(alloc, assignment?)?;
            Ok(served_whole(alloc, reply, Paid::one(spent)))
        }
        Err(refusal) => {
            let reply = sync_reply(alloc, Err(refusal_code(&refusal)))?;
            refused_whole(alloc, reply, refusal)
        }
    }
}

/// Handles a Heartbeat: begins the member's session timeout anew if the caller may READ the group, or answers the group's error
/// code (see `Groups::beat`). Else answers GROUP_AUTHORIZATION_FAILED.
pub fn answer_heartbeat(
    alloc: Global,
    state: &mut State,
    caller: &Caller,
    request: &HeartbeatRequest,
) -> Result<HandlerResult, AllocError>
    ensures { HandlerMeets state.old state.new
        (heartbeat_outcome state.old caller.now request.now)
        (read_question caller.now request.now.group ∷ []) [] result }
{
    match ask_to_read(&state.policy, caller, &request.group)? {
        Ok(permit) => {
            let moment = state.moment.milliseconds();
            let (groups, policy) = (&mut state.groups, &state.policy);
            let (spent, heard) = groups.beat(policy, permit, request, moment);
            Ok(served_whole(alloc, beat_reply(code_in(heard)), Paid::one(spent)))
        }
        Err(refusal) => {
            let reply = beat_reply(refusal_code(&refusal));
            refused_whole(alloc, reply, refusal)
        }
    }
}

/// Handles a LeaveGroup: removes the member that the request names if the caller may READ the group, or answers
/// INVALID_GROUP_ID for the empty group id, UNKNOWN_MEMBER_ID if that isn't the group's member. Else answers
/// GROUP_AUTHORIZATION_FAILED. The group keeps its generation and offsets.
pub fn answer_leave_group(
    alloc: Global,
    state: &mut State,
    caller: &Caller,
    request: &LeaveGroupRequest,
) -> Result<HandlerResult, AllocError>
    ensures { HandlerMeets state.old state.new
        (leave_group_outcome state.old caller.now request.now)
        (read_question caller.now request.now.group ∷ []) [] result }
{
    match ask_to_read(&state.policy, caller, &request.group)? {
        Ok(permit) => {
            let (spent, left) = state.groups.leave(&state.policy, permit, request);
            Ok(served_whole(alloc, leave_reply(code_in(left)), Paid::one(spent)))
        }
        Err(refusal) => {
            let reply = leave_reply(refusal_code(&refusal));
            refused_whole(alloc, reply, refusal)
        }
    }
}
