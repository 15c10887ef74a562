//! InitProducerId: gives a transactional id, or a producer without one, a producer id with an epoch.

ghost use Rattle.std.specs.Prelude.{[], ◌≡◌, ◌&&◌, is_none, IfOk, OnOk};
ghost use Rattle.authorizer.specs.AnyTopic.{any_topic};
ghost use Rattle.broker_world.specs.HandlerResult.{HandlerMeets};
ghost use Rattle.broker_world.specs.World.{rules_of};
ghost use Rattle.txn_handlers.specs.InitProducerId.{IsInitPermit, init_question, init_questions, init_given, init_error, init_answered, init_reply, coordinator_after, init_producer_id_outcome};

use acl_binding::{Caller, Kind, Operation, Question};
use authorizer::{Paid, Permit, Policy, Spent, ask_one};
use broker_world::{HandlerResult, State, asks_cluster, refused_whole, served_whole};
use msg_admin::Reply;
use msg_txn::{InitProducerIdReply, InitProducerIdRequest};
use std::alloc::{AllocError, Global};
use txn_coordinator::{Coordinator, ProducerIdAnswer};
use walk::refusal_code;
use wire_types::{Boxed, ErrorCode, Text};

/// The question whether the caller may WRITE on the transactional id, or, if there is none, do IDEMPOTENT_WRITE on the cluster.
fn init_question(alloc: Global, caller: &Caller, id: &Option<Text>) -> Result<Question, AllocError>
    ensures { IfOk result (λ question. question ≡ init_question caller.now id.now) }
{
    match id {
        Some(id) => caller.asks(Operation::Write, Kind::TransactionalId, id),
        None => asks_cluster(alloc, caller, Operation::IdempotentWrite),
    }
}

/// The InitProducerId reply that gives this producer id, with epoch 0.
fn init_given(alloc: Global, producer: i64) -> Result<Reply, AllocError>
    ensures { IfOk result (λ reply. reply ≡ Reply.InitProducerId (init_given producer)) }
{
    let reply = InitProducerIdReply {
        throttle: 0,
        error: ErrorCode::None,
        producer,
        epoch: 0,
    };
    Ok(Reply::InitProducerId(Boxed::new(alloc, reply)?))
}

/// The InitProducerId reply with this error code, and no producer id.
fn init_error(alloc: Global, error: ErrorCode) -> Result<Reply, AllocError>
    ensures { IfOk result (λ reply. reply ≡ Reply.InitProducerId (init_error error)) }
{
    let reply = InitProducerIdReply {
        throttle: 0,
        error,
        producer: -1,
        epoch: -1,
    };
    Ok(Reply::InitProducerId(Boxed::new(alloc, reply)?))
}

/// The InitProducerId reply for what the coordinator answered: a producer id and epoch, or an error code.
fn init_answered(alloc: Global, answer: ProducerIdAnswer) -> Result<Reply, AllocError>
    ensures { IfOk result (λ reply. reply ≡ Reply.InitProducerId (init_answered answer)) }
{
    let reply = InitProducerIdReply {
        throttle: 0,
        error: answer.code,
        producer: answer.pair.producer,
        epoch: answer.pair.epoch,
    };
    Ok(Reply::InitProducerId(Boxed::new(alloc, reply)?))
}

/// Handles an InitProducerId: gives a producer id and epoch to the transactional id if the caller may WRITE on it, or, without
/// one, to an idempotent producer if the caller may do IDEMPOTENT_WRITE on the cluster or WRITE on any topic. Else answers
/// TRANSACTIONAL_ID_ or CLUSTER_AUTHORIZATION_FAILED. Other errors are those of `Coordinator::init`. After an allocation failure
/// the id may have its new epoch, or a producer id may be given out.
pub fn answer_init_producer_id(
    alloc: Global,
    state: &mut State,
    caller: &Caller,
    request: &InitProducerIdRequest,
) -> Result<HandlerResult, AllocError>
    ensures { HandlerMeets state.old state.new
        (init_producer_id_outcome state.old caller.now request.now)
        (init_questions (rules_of state.old) caller.now request.now.transactional_id) [] result }
{
    let question = init_question(alloc, caller, &request.transactional_id)?;
    match ask_one(&state.policy, question) {
        Ok(permit) => {
            let (coordinator, policy) = (&mut state.coordinator, &state.policy);
            let greatest = state.cluster.node().max_txn_timeout;
            let (spent, reply) = initialize(alloc, coordinator, policy, permit, greatest, request)?;
            Ok(served_whole(alloc, reply, Paid::one(spent)))
        }
        Err(_) if any_topic_suffices(state, caller, request) => {
            let reply = init_given(alloc, state.coordinator.fresh()?)?;
            Ok(served_whole(alloc, reply, Paid::nothing()))
        }
        Err(refusal) => {
            let reply = init_error(alloc, refusal_code(&refusal))?;
            refused_whole(alloc, reply, refusal)
        }
    }
}

/// Whether the request has no transactional id and the caller may WRITE on any topic, which suffices without IDEMPOTENT_WRITE
/// on the cluster (KIP-679).
fn any_topic_suffices(state: &State, caller: &Caller, request: &InitProducerIdRequest) -> bool
    ensures { result
        ≡ (is_none request.now.transactional_id && any_topic state.now.book.entries caller.now.who
        caller.now.host) }
{
    request.transactional_id.is_none() && state.policy.any_topic(&caller.who, &caller.host)
}

/// Carries an allowed InitProducerId out and spends its permit in any case: without a transactional id gives out the next
/// producer id, else asks the coordinator for the id's next epoch (`Coordinator::init`). `greatest` is the greatest transaction
/// timeout, in milliseconds. After an allocation failure either may be done already.
fn initialize(
    alloc: Global,
    coordinator: &mut Coordinator,
    policy: &Policy,
    permit: Permit,
    greatest: i32,
    request: &InitProducerIdRequest,
) -> Result<(Spent, Reply), AllocError>
    requires { IsInitPermit policy.now permit request.now.transactional_id }
    ensures spent { IfOk result (λ r. r.0 ≡ permit.question) }
    ensures coordinator { OnOk result
        (coordinator.new ≡ coordinator_after coordinator.old greatest request.now) }
    ensures reply { IfOk result (λ r. r.1 ≡ init_reply coordinator.old greatest request.now) }
{
    match &request.transactional_id {
        None => {
            let spent = permit.spend(policy);
            Ok((spent, init_given(alloc, coordinator.fresh()?)?))
        }
        Some(id) => {
            let timeout = request.timeout;
            let (spent, answer) = coordinator.init(alloc, policy, permit, id, timeout, greatest);
            Ok((spent, init_answered(alloc, answer?)?))
        }
    }
}
