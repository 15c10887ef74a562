//! AddOffsetsToTxn: adds a consumer group to a transaction.

ghost use Rattle.std.specs.Prelude.{[], ◌≡◌, IfOk, OnOk};
ghost use Rattle.broker_world.specs.HandlerResult.{HandlerMeets};
ghost use Rattle.txn_coordinator.specs.Permission.{MayWrite as MayWriteId};
ghost use Rattle.txn_coordinator.specs.Coordinator.{apply_transition, transition_code};
ghost use Rattle.txn_handlers.specs.AddOffsets.{add_offsets_questions, add_offsets_reply, add_offsets_transition, add_offsets_outcome};

use acl_binding::Caller;
use authorizer::{Paid, Permit, Policy, Spent, TwoPermits, ask_two};
use broker_world::{HandlerResult, State, id_question, read_question, refused_whole, served_whole};
use msg_admin::Reply;
use msg_txn::{AddOffsetsToTxnReply, AddOffsetsToTxnRequest};
use std::alloc::{AllocError, Global};
use txn_coordinator::{Coordinator, ProducerIdAndEpoch};
use walk::refusal_code;
use wire_types::ErrorCode;

/// The AddOffsetsToTxn reply with this error code.
fn add_offsets_reply(error: ErrorCode) -> Reply
    ensures { result ≡ Reply.AddOffsetsToTxn (add_offsets_reply error) }
{
    Reply::AddOffsetsToTxn(AddOffsetsToTxnReply { throttle: 0, error })
}

/// Adds the group to the transaction by a permit to WRITE on its transactional id, which is spent in any case. Returns the
/// coordinator's error code (see `Coordinator::add_group`). `moment` is in milliseconds.
fn add_by(
    coordinator: &mut Coordinator,
    policy: &Policy,
    permit: Permit,
    moment: u64,
    request: &AddOffsetsToTxnRequest,
) -> Result<(Spent, ErrorCode), AllocError>
    requires { MayWriteId policy.now permit request.now.transactional_id }
    ensures spent { IfOk result (λ r. r.0 ≡ permit.question) }
    ensures coordinator { OnOk result
        (coordinator.new ≡ apply_transition coordinator.old
        (add_offsets_transition coordinator.old moment request.now)) }
    ensures code { IfOk result
        (λ r. r.1 ≡ transition_code (add_offsets_transition coordinator.old moment request.now)) }
{
    let pair = ProducerIdAndEpoch {
        producer: request.producer,
        epoch: request.epoch,
    };
    let id = &request.transactional_id;
    let group = &request.group;
    let (spent, code) = coordinator.add_group(policy, permit, id, pair, moment, group);
    Ok((spent, code?))
}

/// Handles an AddOffsetsToTxn: adds the group to the transaction if the caller may WRITE on its transactional id and READ the
/// group, and answers the coordinator's error code; else answers TRANSACTIONAL_ID_ or GROUP_AUTHORIZATION_FAILED.
pub fn answer_add_offsets(
    alloc: Global,
    state: &mut State,
    caller: &Caller,
    request: &AddOffsetsToTxnRequest,
) -> Result<HandlerResult, AllocError>
    ensures { HandlerMeets state.old state.new
        (add_offsets_outcome state.old caller.now request.now)
        (add_offsets_questions caller.now request.now.transactional_id request.now.group)
        [] result }
{
    let id = state
        .policy
        .settle(id_question(caller, &request.transactional_id)?);
    let group = read_question(caller, &request.group)?;
    let moment = state.moment.milliseconds();
    match ask_two(&state.policy, id, group) {
        Ok(TwoPermits { first, second }) => {
            let (coordinator, policy) = (&mut state.coordinator, &state.policy);
            let group = second.spend(policy);
            let (id, code) = add_by(coordinator, policy, first, moment, request)?;
            Ok(served_whole(alloc, add_offsets_reply(code), Paid::two(id, group)))
        }
        Err(refusal) => {
            let reply = add_offsets_reply(refusal_code(&refusal));
            refused_whole(alloc, reply, refusal)
        }
    }
}
