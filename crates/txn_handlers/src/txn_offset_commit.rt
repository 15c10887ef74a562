//! TxnOffsetCommit: stages offsets of partitions for a group in a transaction.

ghost use Rattle.std.specs.Prelude.{◌≡◌, [], IfOk, OnOk};
ghost use Rattle.std.specs.Option.{option_copied};
ghost use Rattle.acl_binding.specs.declared.words.Operation.TheVariants as operations;
ghost use Rattle.group_offsets.specs.Groups.{groups_after};
ghost use Rattle.group_offsets.specs.Permission.{MayUse};
ghost use Rattle.group_offsets.specs.GroupTransition.{answer_of};
ghost use Rattle.broker_world.specs.HandlerResult.{HandlerMeets};
ghost use Rattle.broker_world.specs.Codes.{code_in};
ghost use Rattle.authorizer.specs.Asking.{policy_rules};
ghost use Rattle.authorizer.specs.Tally.{count_after_parts};
ghost use Rattle.walk.specs.Walk.{world_after, answers, refusals, asked_in};
ghost use Rattle.txn_handlers.specs.TxnOffsetCommit.{staging_of, staging_by, offset_staged, staged_code, staging_refusal, transition_by, stage_rule, staging_rule, txn_offset_commit_outcome};

use acl_binding::{Caller, Kind, Operation};
use authorizer::{Paid, Permit, Policy, Settled, Spent, ThreePermits, ask_three};
use broker_world::{
    HandlerResult, State, Topics, code_in, id_question, read_question, refused_by, served_in_parts,
};
use group_offsets::{GroupMetadata, Groups, PartitionOffset};
use msg_admin::Reply;
use msg_txn::{OffsetToStage, StagedOffset, TxnOffsetCommitReply, TxnOffsetCommitRequest};
use partition_log::Log;
use std::alloc::{AllocError, Global};
use txn_coordinator::{Coordinator, ProducerIdAndEpoch, Target};
use walk::{Part, PartApi, Walked, refusal_code, walk};
use wire_types::{Boxed, ErrorCode, Text};

/// Serves the partitions of a TxnOffsetCommit. It holds the caller, its transactional id with producer id and epoch (`pair`),
/// the group and member for which it commits, the policy's answers about both, and the topics.
#[derive(Drop)]
pub(crate) struct TxnOffsetCommitHandler<'a> {
    pub(crate) caller: &'a Caller,
    pub(crate) id: &'a Text,
    /// What the policy answered to WRITE on the transactional id.
    pub(crate) id_asked: &'a Settled,
    pub(crate) pair: ProducerIdAndEpoch,
    pub(crate) metadata: GroupMetadata<'a>,
    /// What the policy answered to READ of the group.
    pub(crate) group_asked: &'a Settled,
    /// Why the transaction can't commit for the group: the error code of each allowed partition. `None` if it can.
    pub(crate) refusal: Option<ErrorCode>,
    pub(crate) topics: &'a Topics,
}

impl<'a> PartApi<OffsetToStage, StagedOffset, Groups> for TxnOffsetCommitHandler<'a> {
    ghost use Rattle.std.specs.Prelude.{false};
    ghost use Rattle.txn_handlers.specs.TxnOffsetCommit.{staging_by, stage_rule};
    ghost use Rattle.txn_handlers.specs.Asked.{AreAsked};

    ghost rule = { λ api. stage_rule api.caller.now (staging_by api.id.now api.pair api.metadata) api.refusal api.topics.now };

    ghost cuts = { λ _. false };

    ghost settles = { λ api policy. AreAsked policy api.caller.now api.id.now api.metadata.group.now api.id_asked.now api.group_asked.now };

    /// Stages the offset of one partition if the caller may WRITE on the transactional id and READ the group and the topic. Else
    /// answers the partition TRANSACTIONAL_ID_, GROUP_ or TOPIC_AUTHORIZATION_FAILED.
    fn serve(
        &self,
        alloc: Global,
        policy: &Policy,
        groups: &mut Groups,
        name: &Text,
        part: &OffsetToStage,
    ) -> Result<Part<StagedOffset>, AllocError> {
        let offset = offset_staged(alloc, name, part)?;
        let id = self.id_asked.again()?;
        let group = self.group_asked.again()?;
        let topic = self.caller.asks(Operation::Read, Kind::Topic, name)?;
        match ask_three(policy, id, group, topic) {
            Ok(
                ThreePermits {
                    first,
                    second,
                    third,
                },
            ) => {
                let (id, topic) = (first.spend(policy), third.spend(policy));
                let log = self.topics.log(name, part.index);
                let (group, code) = self.stage(alloc, policy, second, groups, log, offset)?;
                let answer = staged_code(code, part);
                Ok(Part::served(answer, Paid::three(id, group, topic)))
            }
            Err(refusal) => {
                let answer = staged_code(refusal_code(&refusal), part);
                Ok(Part::refused(answer, refusal))
            }
        }
    }
}

impl<'a> TxnOffsetCommitHandler<'a> {
    /// Stages the offset of a partition that the caller may commit. Spends the permit to READ the group in any case. Returns
    /// the error code: UNKNOWN_TOPIC_OR_PARTITION if `log` is `None`, else the transaction's refusal, else what the group
    /// answers (see `Groups::stage`).
    fn stage(
        &self,
        alloc: Global,
        policy: &Policy,
        permit: Permit,
        groups: &mut Groups,
        log: Option<&Log>,
        offset: PartitionOffset,
    ) -> Result<(Spent, ErrorCode), AllocError>
        requires { MayUse policy.now operations.Read self.now.metadata.group.now permit }
        ensures spent { IfOk result (λ r. r.0 ≡ permit.question) }
        ensures groups { OnOk result
            (groups.new ≡ groups_after groups.old
            (transition_by self.now.refusal
            (staging_by self.now.id.now self.now.pair self.now.metadata) groups.old offset
            (option_copied log.entry))) }
        ensures code { IfOk result
            (λ r. r.1 ≡ code_in
            (answer_of
            (transition_by self.now.refusal
            (staging_by self.now.id.now self.now.pair self.now.metadata) groups.old offset
            (option_copied log.entry)))) }
    {
        if log.is_none() {
            return Ok((permit.spend(policy), ErrorCode::UnknownTopicOrPartition));
        }
        if let Some(code) = self.refusal {
            return Ok((permit.spend(policy), code));
        }
        let (metadata, producer) = (&self.metadata, self.pair.producer);
        let (spent, staged) = groups.stage(alloc, policy, permit, metadata, producer, offset);
        Ok((spent, code_in(staged?)))
    }
}

/// The offset that the request sends for this partition of the topic `name`. Null metadata becomes the empty text.
fn offset_staged(
    alloc: Global,
    name: &Text,
    part: &OffsetToStage,
) -> Result<PartitionOffset, AllocError>
    ensures { IfOk result (λ offset. offset ≡ offset_staged name.now part.now) }
{
    PartitionOffset::told(alloc, name, part.index, part.offset, &part.metadata)
}

/// The partition's answer, with this error code.
fn staged_code(error: ErrorCode, part: &OffsetToStage) -> StagedOffset
    ensures { result ≡ staged_code error part.now }
{
    StagedOffset {
        index: part.index,
        error,
    }
}

/// Why the coordinator doesn't let the request's transaction commit offsets for its group: INVALID_PRODUCER_ID_MAPPING,
/// INVALID_PRODUCER_EPOCH, or INVALID_TXN_STATE if no transaction is open or the group wasn't added. `None` if it does. An
/// `AllocError` is an allocation failure.
fn staging_refusal(
    coordinator: &Coordinator,
    request: &TxnOffsetCommitRequest,
) -> Result<Option<ErrorCode>, AllocError>
    ensures { IfOk result
        (λ refusal. refusal ≡ staging_refusal coordinator.now (staging_of request.now)) }
{
    let pair = ProducerIdAndEpoch {
        producer: request.producer,
        epoch: request.epoch,
    };
    let group = Target::Group(request.group.clone()?);
    Ok(refused_by(coordinator.holds(&request.transactional_id, pair, &group)))
}

/// Serves the partitions of a TxnOffsetCommit one after the other. `refusal` is the error code of the allowed ones if the
/// transaction can't commit for the group. After an allocation failure some offsets may have been staged.
fn stage_all(
    alloc: Global,
    policy: &Policy,
    groups: &mut Groups,
    topics: &Topics,
    caller: &Caller,
    request: &TxnOffsetCommitRequest,
    refusal: Option<ErrorCode>,
) -> Result<Walked<StagedOffset>, AllocError>
    ensures groups { OnOk result
        (groups.new ≡ world_after
        (stage_rule caller.now (staging_of request.now) refusal topics.now)
        (policy_rules policy.now) groups.old request.now.topics) }
    ensures answers { IfOk result
        (λ walked. walked.topics
        ≡ answers (stage_rule caller.now (staging_of request.now) refusal topics.now)
        (policy_rules policy.now) groups.old request.now.topics) }
    ensures refusals { IfOk result
        (λ walked. walked.refusals
        ≡ refusals (stage_rule caller.now (staging_of request.now) refusal topics.now)
        (policy_rules policy.now) request.now.topics) }
    ensures spent { IfOk result
        (λ walked. walked.spent ≡ count_after_parts (policy_rules policy.now) 0
        (asked_in (stage_rule caller.now (staging_of request.now) refusal topics.now)
        request.now.topics)) }
{
    let id_asked = policy.settle(id_question(caller, &request.transactional_id)?);
    let group_asked = policy.settle(read_question(caller, &request.group)?);
    let api = TxnOffsetCommitHandler {
        caller,
        id: &request.transactional_id,
        id_asked: &id_asked,
        pair: ProducerIdAndEpoch {
            producer: request.producer,
            epoch: request.epoch,
        },
        metadata: GroupMetadata {
            group: &request.group,
            generation: request.generation,
            member: &request.member,
        },
        group_asked: &group_asked,
        refusal,
        topics,
    };
    walk(alloc, &api, policy, groups, request.topics.as_slice())
}

/// Handles a TxnOffsetCommit: stages the offset of each partition in the transaction (KIP-447) if the caller may WRITE on its
/// transactional id and READ the group and the topic, and if the transaction is open and has the group. Each partition is
/// answered an error code of its own: TRANSACTIONAL_ID_, GROUP_ or TOPIC_AUTHORIZATION_FAILED, or that of
/// `TxnOffsetCommitHandler::stage`.
pub fn answer_txn_offset_commit(
    alloc: Global,
    state: &mut State,
    caller: &Caller,
    request: &TxnOffsetCommitRequest,
) -> Result<HandlerResult, AllocError>
    ensures { HandlerMeets state.old state.new
        (txn_offset_commit_outcome state.old caller.now request.now)
        [] (asked_in (staging_rule state.old caller.now request.now) request.now.topics) result }
{
    let refusal = staging_refusal(&state.coordinator, request)?;
    let (policy, groups) = (&state.policy, &mut state.groups);
    let walked = stage_all(
        alloc,
        policy,
        groups,
        &state.topics,
        caller,
        request,
        refusal,
    )?;
    let reply = TxnOffsetCommitReply {
        throttle: 0,
        topics: walked.topics,
    };
    let reply = Reply::TxnOffsetCommit(Boxed::new(alloc, reply)?);
    Ok(served_in_parts(reply, walked.refusals, walked.spent))
}
