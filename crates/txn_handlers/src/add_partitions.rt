//! AddPartitionsToTxn: adds partitions to a transaction, all of them or none.

ghost use Rattle.std.specs.Prelude.{◌≡◌, ◌++◌, [], None, true, IfOk, OnOk};
ghost use Rattle.std.specs.Option.{option_copied};
ghost use Rattle.authorizer.specs.Asking.{policy_rules, question_refusal};
ghost use Rattle.authorizer.specs.Policy.{IsGranted};
ghost use Rattle.authorizer.specs.Settled.{IsSettled, settled_value};
ghost use Rattle.authorizer.specs.Tally.{count_after_parts};
ghost use Rattle.walk.specs.Walk.{plain_topics, answers, refusals, asked_in};
ghost use Rattle.walk.specs.Woven.{has_part};
ghost use Rattle.txn_coordinator.specs.Coordinator.{transition_code, apply_transition};
ghost use Rattle.broker_world.specs.HandlerResult.{HandlerMeets};
ghost use Rattle.broker_world.specs.Questions.{id_question};
ghost use Rattle.txn_handlers.specs.Asked.{AsksForId};
ghost use Rattle.txn_handlers.specs.AddPartitions.{added_partition, cut_code, is_missing_in, is_missing, cut_rule, code_rule, code_rule_for, added_parts, partitions_in, partitions_of, add_transition, add_reply, add_partitions_outcome};

use acl_binding::{Caller, Kind, Operation};
use authorizer::{Permit, Policy, Settled, Tally, TwoPermits, ask_settled, ask_two};
use broker_world::{HandlerResult, State, Topics, id_question, served_in_parts};
use msg_admin::Reply;
use msg_txn::{AddPartitionsToTxnReply, AddPartitionsToTxnRequest, AddedPartition};
use partition_log::Log;
use std::alloc::{AllocError, Global};
use txn_coordinator::{Coordinator, ProducerIdAndEpoch, TopicPartition};
use walk::{Part, PartApi, Walked, has_part, refusal_code, walk_cut, walk_granted};
use wire_types::{Boxed, ErrorCode, Items, Text, Topic};

/// Checks the partitions of an AddPartitionsToTxn before any is added. It holds the caller, the transactional id, what the
/// policy answered to WRITE on it (`asked`), and the topics. It adds nothing and spends no permit.
#[derive(Drop)]
pub(crate) struct AddPartitionsCheck<'a> {
    pub(crate) caller: &'a Caller,
    pub(crate) id: &'a Text,
    pub(crate) asked: &'a Settled,
    pub(crate) topics: &'a Topics,
}

impl<'a> PartApi<i32, AddedPartition, ()> for AddPartitionsCheck<'a> {
    ghost use Rattle.std.specs.Prelude.{true};
    ghost use Rattle.authorizer.specs.Settled.{settled_value};
    ghost use Rattle.broker_world.specs.Questions.{id_question};
    ghost use Rattle.txn_handlers.specs.AddPartitions.{cut_rule};

    ghost rule = { λ api. cut_rule api.caller.now api.id.now api.topics.now };

    ghost cuts = { λ _. true };

    ghost settles = { λ api policy. api.asked.now ≡ settled_value policy (id_question api.caller.now api.id.now) };

    /// Answers one partition of a request of which none is added: TRANSACTIONAL_ID_ or TOPIC_AUTHORIZATION_FAILED if it is
    /// refused, UNKNOWN_TOPIC_OR_PARTITION if it isn't there, else OPERATION_NOT_ATTEMPTED.
    fn serve(
        &self,
        _alloc: Global,
        policy: &Policy,
        _world: &mut (),
        name: &Text,
        part: &i32,
    ) -> Result<Part<AddedPartition>, AllocError> {
        let id = self.asked.again()?;
        let topic = self.caller.asks(Operation::Write, Kind::Topic, name)?;
        match ask_two(policy, id, topic) {
            Ok(TwoPermits { first, second }) => {
                first.decline();
                second.decline();
                let code = cut_code(self.topics.log(name, *part));
                Ok(Part::cut(added_partition(code, *part)))
            }
            Err(refusal) => {
                let answer = added_partition(refusal_code(&refusal), *part);
                Ok(Part::refused(answer, refusal))
            }
        }
    }
}

/// Answers the partitions of an AddPartitionsToTxn after the coordinator did. It holds the caller, the transactional id, what
/// the policy answered to WRITE on it (`asked`), and the coordinator's error code, which is each partition's answer.
#[derive(Drop)]
struct AddPartitionsHandler<'a> {
    caller: &'a Caller,
    id: &'a Text,
    asked: &'a Settled,
    code: ErrorCode,
}

impl<'a> PartApi<i32, AddedPartition, ()> for AddPartitionsHandler<'a> {
    ghost use Rattle.std.specs.Prelude.{false};
    ghost use Rattle.authorizer.specs.Settled.{settled_value};
    ghost use Rattle.broker_world.specs.Questions.{id_question};
    ghost use Rattle.txn_handlers.specs.AddPartitions.{code_rule_for};

    ghost rule = { λ api. code_rule_for api.caller.now api.id.now api.code };

    ghost cuts = { λ _. false };

    ghost settles = { λ api policy. api.asked.now ≡ settled_value policy (id_question api.caller.now api.id.now) };

    /// Answers one partition by the coordinator's error code, and spends its permits; or by TRANSACTIONAL_ID_ or
    /// TOPIC_AUTHORIZATION_FAILED if it is refused.
    fn serve(
        &self,
        _alloc: Global,
        policy: &Policy,
        _world: &mut (),
        name: &Text,
        part: &i32,
    ) -> Result<Part<AddedPartition>, AllocError> {
        let id = self.asked.again()?;
        let topic = self.caller.asks(Operation::Write, Kind::Topic, name)?;
        match ask_two(policy, id, topic) {
            Ok(permits) => {
                let answer = added_partition(self.code, *part);
                Ok(Part::served(answer, permits.spend(policy)))
            }
            Err(refusal) => {
                let answer = added_partition(refusal_code(&refusal), *part);
                Ok(Part::refused(answer, refusal))
            }
        }
    }
}

/// The partition's answer, with this error code.
fn added_partition(error: ErrorCode, index: i32) -> AddedPartition
    ensures { result ≡ added_partition error index }
{
    AddedPartition { index, error }
}

/// The error code of an allowed partition where none is added: UNKNOWN_TOPIC_OR_PARTITION if it has no log, else
/// OPERATION_NOT_ATTEMPTED.
fn cut_code(log: Option<&Log>) -> ErrorCode
    ensures { result ≡ cut_code (option_copied log.entry) }
{
    match log {
        None => ErrorCode::UnknownTopicOrPartition,
        Some(_) => ErrorCode::OperationNotAttempted,
    }
}

/// Whether some of these partitions of the topic `name` don't exist.
fn is_missing_in(topics: &Topics, name: &Text, indices: &[i32]) -> bool
    ensures { result ≡ is_missing_in topics.now name.now indices.now }
{
    indices
        .iter()
        .any(|index| topics.log(name, *index).is_none())
}

/// Whether some partition that the request names doesn't exist.
fn is_missing(topics: &Topics, named: &[Topic<i32>]) -> bool
    ensures { result ≡ is_missing topics.now named.now }
{
    named.iter().any(|topic| is_missing_in(topics, &topic.name, topic.partitions.as_slice()))
}

/// The partitions that the request names, in its order.
fn partitions_of(alloc: Global, named: &[Topic<i32>]) -> Result<Vec<TopicPartition>, AllocError>
    ensures { IfOk result (λ partitions. partitions.items ≡ partitions_of named.now) }
{
    let mut partitions = Vec::new(alloc);
    for topic in named {
        push_partitions(&mut partitions, &topic.name, topic.partitions.as_slice())?;
    }
    Ok(partitions)
}

/// Appends the partitions with these indices of the topic `name` to the list. On an allocation failure some may have been
/// appended.
fn push_partitions(
    partitions: &mut Vec<TopicPartition>,
    name: &Text,
    indices: &[i32],
) -> Result<(), AllocError>
    ensures { OnOk result
        (partitions.new.items ≡ partitions.old.items ++ partitions_in name.now indices.now) }
{
    for index in indices {
        let topic = name.clone()?;
        partitions.push(TopicPartition {
            topic,
            index: *index,
        })?;
    }
    Ok(())
}

/// The AddPartitionsToTxn reply with these answers.
fn add_reply(alloc: Global, topics: Items<Topic<AddedPartition>>) -> Result<Reply, AllocError>
    ensures { IfOk result (λ reply. reply ≡ add_reply topics) }
{
    let reply = AddPartitionsToTxnReply {
        throttle: 0,
        topics,
    };
    Ok(Reply::AddPartitionsToTxn(Boxed::new(alloc, reply)?))
}

/// The reply that answers each partition this error code, and the number of permits that are spent for them. It is known that
/// none of the partitions is refused. `asked` is what the policy answered to WRITE on the transactional id.
fn told(
    alloc: Global,
    policy: &Policy,
    caller: &Caller,
    id: &Text,
    asked: &Settled,
    code: ErrorCode,
    named: &[Topic<i32>],
) -> Result<(Reply, Tally), AllocError>
    requires settled { asked.now ≡ settled_value policy.now (id_question caller.now id.now) }
    requires granted { refusals (code_rule_for caller.now id.now code) (policy_rules policy.now)
        named.now ≡ [] }
    ensures reply { IfOk result
        (λ r. r.0 ≡ add_reply (plain_topics (code_rule code) tt named.now)) }
    ensures spent { IfOk result
        (λ r. r.1 ≡ count_after_parts (policy_rules policy.now) 0
        (asked_in (code_rule_for caller.now id.now code) named.now)) }
{
    let api = AddPartitionsHandler {
        caller,
        id,
        asked,
        code,
    };
    let walked = walk_granted(alloc, &api, policy, &mut (), named)?;
    Ok((add_reply(alloc, walked.topics)?, walked.spent))
}

/// The permit of a question that the policy answered `Yes`. `asked` is known to be granted.
fn granted(policy: &Policy, asked: Settled) -> Permit
    requires settled { IsSettled policy.now asked }
    requires granted { question_refusal (policy_rules policy.now) asked.question ≡ None }
    ensures { IsGranted policy.now asked.question result }
{
    match ask_settled(policy, asked) {
        Ok(permit) => permit,
        Err(_) => unreachable!(),
    }
}

/// Handles an AddPartitionsToTxn. The caller needs WRITE on the transactional id and on each topic. If a partition is refused
/// (TRANSACTIONAL_ID_ or TOPIC_AUTHORIZATION_FAILED) or doesn't exist (UNKNOWN_TOPIC_OR_PARTITION), none is added, and all others
/// are answered OPERATION_NOT_ATTEMPTED. Else the coordinator adds all or none, and each is answered its error code (see
/// `Coordinator::add_partitions`).
pub fn answer_add_partitions(
    alloc: Global,
    state: &mut State,
    caller: &Caller,
    request: &AddPartitionsToTxnRequest,
) -> Result<HandlerResult, AllocError>
    ensures { HandlerMeets state.old state.new
        (add_partitions_outcome state.old caller.now request.now)
        [] (added_parts state.old caller.now request.now) result }
{
    let (id, named) = (&request.transactional_id, request.topics.as_slice());
    let asked = state.policy.settle(id_question(caller, id)?);
    let cut = cut(
        alloc,
        &state.policy,
        &state.topics,
        caller,
        id,
        &asked,
        named,
    )?;
    if cut.refusals.len() != 0 || is_missing(&state.topics, named) {
        let reply = add_reply(alloc, cut.topics)?;
        return Ok(served_in_parts(reply, cut.refusals, cut.spent));
    }
    let moment = state.moment.milliseconds();
    let (coordinator, policy) = (&mut state.coordinator, &state.policy);
    let code = add_all(alloc, coordinator, policy, asked.again()?, moment, request)?;
    let (reply, spent) = told(alloc, policy, caller, id, &asked, code, named)?;
    Ok(served_in_parts(reply, cut.refusals, spent))
}

/// The partitions' answers if none is added, and the refusals. No permit is spent.
fn cut(
    alloc: Global,
    policy: &Policy,
    topics: &Topics,
    caller: &Caller,
    id: &Text,
    asked: &Settled,
    named: &[Topic<i32>],
) -> Result<Walked<AddedPartition>, AllocError>
    requires { asked.now ≡ settled_value policy.now (id_question caller.now id.now) }
    ensures answers { IfOk result
        (λ r. r.topics ≡ answers (cut_rule caller.now id.now topics.now) (policy_rules policy.now)
        tt named.now) }
    ensures refusals { IfOk result
        (λ r. r.refusals ≡ refusals (cut_rule caller.now id.now topics.now)
        (policy_rules policy.now) named.now) }
    ensures spent { IfOk result (λ r. r.spent ≡ 0) }
{
    let api = AddPartitionsCheck {
        caller,
        id,
        asked,
        topics,
    };
    walk_cut(alloc, &api, policy, named)
}

/// Adds all the partitions to the transaction, and returns the coordinator's error code; NONE if the request names none.
/// `asked` is the policy's answer to WRITE on the transactional id, known to be granted if there is a partition. `moment` is in
/// milliseconds.
fn add_all(
    alloc: Global,
    coordinator: &mut Coordinator,
    policy: &Policy,
    asked: Settled,
    moment: u64,
    request: &AddPartitionsToTxnRequest,
) -> Result<ErrorCode, AllocError>
    requires settled { IsSettled policy.now asked }
    requires asked { AsksForId asked.question request.now.transactional_id }
    requires granted { has_part request.now.topics ≡ true
        → question_refusal (policy_rules policy.now) asked.question ≡ None }
    ensures coordinator { OnOk result
        (coordinator.new ≡ apply_transition coordinator.old
        (add_transition coordinator.old moment request.now)) }
    ensures code { IfOk result
        (λ code. code ≡ transition_code (add_transition coordinator.old moment request.now)) }
{
    if !has_part(request.topics.as_slice()) {
        return Ok(ErrorCode::None);
    }
    let partitions = partitions_of(alloc, request.topics.as_slice())?;
    let id = &request.transactional_id;
    let pair = ProducerIdAndEpoch {
        producer: request.producer,
        epoch: request.epoch,
    };
    let permit = granted(policy, asked);
    let (_spent, code) = coordinator.add_partitions(policy, permit, id, pair, moment, &partitions);
    code
}
