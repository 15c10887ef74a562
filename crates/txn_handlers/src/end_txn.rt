//! EndTxn: a transaction is committed or aborted.

ghost use Rattle.std.specs.Prelude.{[], ◌≡◌, IfOk, OnOk};
ghost use Rattle.broker_world.specs.HandlerResult.{HandlerMeets};
ghost use Rattle.txn_coordinator.specs.Permission.{MayWrite as MayWriteId};
ghost use Rattle.txn_coordinator.specs.Coordinator.{apply_transition, transition_answer};
ghost use Rattle.txn_handlers.specs.EndTxn.{form_of, ending_id, ending_of, end_questions, end_reply, end_transition, end_txn_outcome};

use acl_binding::Caller;
use authorizer::{Paid, Permit, Policy, Spent, ask_one};
use broker_world::{HandlerResult, State, id_question, refused_whole, served_whole};
use msg_admin::Reply;
use msg_txn::{EndTxnReply, EndTxnRequest, Ended, EndedWithPair, FlexibleEnded};
use record_batch::TransactionResult;
use std::alloc::{AllocError, Global};
use txn_coordinator::{Coordinator, EndForm, EndTransaction, ProducerIdAndEpoch, ProducerIdAnswer};
use walk::refusal_code;
use wire_types::Boxed;

/// The outcome that the request's `committed` flag stands for.
fn ending(committed: bool) -> TransactionResult
    ensures { result ≡ ending_of committed }
{
    if committed {
        TransactionResult::Commit
    } else {
        TransactionResult::Abort
    }
}

/// What EndTxn does in the request's version: from 2 on another epoch is answered PRODUCER_FENCED, and 5 raises the epoch
/// (KIP-890).
fn form_of(request: &EndTxnRequest) -> EndForm
    ensures { result ≡ form_of request.now }
{
    match request {
        EndTxnRequest::Version0(_) | EndTxnRequest::Version1(_) => EndForm::Plain,
        EndTxnRequest::Version2(_) => EndForm::Fencing,
        EndTxnRequest::Version3(_) | EndTxnRequest::Version4(_) => EndForm::Fencing,
        EndTxnRequest::Version5(_) => EndForm::Raising,
    }
}

/// The EndTxn reply in the request's version. Only version 5 has the producer id and epoch.
fn end_reply(
    alloc: Global,
    request: &EndTxnRequest,
    answer: ProducerIdAnswer,
) -> Result<Reply, AllocError>
    ensures { IfOk result (λ reply. reply ≡ Reply.EndTxn (end_reply request.now answer)) }
{
    let (throttle, error) = (0, answer.code);
    let reply = match request {
        EndTxnRequest::Version0(_) => EndTxnReply::Version0(Ended { throttle, error }),
        EndTxnRequest::Version1(_) => EndTxnReply::Version1(Ended { throttle, error }),
        EndTxnRequest::Version2(_) => EndTxnReply::Version2(Ended { throttle, error }),
        EndTxnRequest::Version3(_) => EndTxnReply::Version3(FlexibleEnded { throttle, error }),
        EndTxnRequest::Version4(_) => EndTxnReply::Version4(FlexibleEnded { throttle, error }),
        EndTxnRequest::Version5(_) => EndTxnReply::Version5(EndedWithPair {
            throttle,
            error,
            producer: answer.pair.producer,
            epoch: answer.pair.epoch,
        }),
    };
    Ok(Reply::EndTxn(Boxed::new(alloc, reply)?))
}

/// Ends the transaction by a permit to WRITE on its transactional id, which is spent in any case: the transaction is prepared,
/// and its markers are written later (`answer_mark`). A refusal of the coordinator comes as `Ok` too, with its error code in
/// the answer; `AllocError` is an allocation failure.
fn end_by(
    alloc: Global,
    coordinator: &mut Coordinator,
    policy: &Policy,
    permit: Permit,
    request: &EndTxnRequest,
) -> Result<(Spent, ProducerIdAnswer), AllocError>
    requires { MayWriteId policy.now permit (ending_id request.now) }
    ensures spent { IfOk result (λ r. r.0 ≡ permit.question) }
    ensures coordinator { OnOk result
        (coordinator.new ≡ apply_transition coordinator.old
        (end_transition coordinator.old request.now)) }
    ensures answer { IfOk result
        (λ r. r.1 ≡ transition_answer coordinator.old (ending_id request.now)
        (end_transition coordinator.old request.now)) }
{
    let body = request.asked();
    let asked = EndTransaction {
        form: form_of(request),
        id: &body.transactional_id,
        pair: ProducerIdAndEpoch {
            producer: body.producer,
            epoch: body.epoch,
        },
        outcome: ending(body.committed),
    };
    let (spent, answer) = coordinator.end(alloc, policy, permit, &asked);
    Ok((spent, answer?))
}

/// Handles an EndTxn: commits or aborts the transaction if the caller may WRITE on its transactional id, and answers the
/// coordinator's error code (see `Coordinator::end`); else answers TRANSACTIONAL_ID_AUTHORIZATION_FAILED. The answer comes
/// before the markers are written. After an allocation failure the transaction may be prepared already.
pub fn answer_end_txn(
    alloc: Global,
    state: &mut State,
    caller: &Caller,
    request: &EndTxnRequest,
) -> Result<HandlerResult, AllocError>
    ensures { HandlerMeets state.old state.new
        (end_txn_outcome state.old caller.now request.now)
        (end_questions caller.now request.now) [] result }
{
    let question = id_question(caller, &request.asked().transactional_id)?;
    match ask_one(&state.policy, question) {
        Ok(permit) => {
            let (coordinator, policy) = (&mut state.coordinator, &state.policy);
            let (spent, answer) = end_by(alloc, coordinator, policy, permit, request)?;
            let reply = end_reply(alloc, request, answer)?;
            Ok(served_whole(alloc, reply, Paid::one(spent)))
        }
        Err(refusal) => {
            let answer = ProducerIdAnswer {
                code: refusal_code(&refusal),
                pair: ProducerIdAndEpoch::NONE,
            };
            refused_whole(alloc, end_reply(alloc, request, answer)?, refusal)
        }
    }
}
