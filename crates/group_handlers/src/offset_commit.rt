//! OffsetCommit: commits offsets of partitions for a group.

ghost use Rattle.std.specs.Prelude.{◌≡◌, [], IfOk, OnOk};
ghost use Rattle.std.specs.Option.{option_copied};
ghost use Rattle.acl_binding.specs.declared.words.Operation.TheVariants as operations;
ghost use Rattle.group_offsets.specs.Permission.{MayUse};
ghost use Rattle.walk.specs.Walk.{asked_in};
ghost use Rattle.broker_world.specs.HandlerResult.{HandlerMeets};
ghost use Rattle.group_handlers.specs.OffsetCommit.{committing_by, committing_rule, offset_of, committed_code, offset_code, groups_with_offset, offset_commit_outcome};

use acl_binding::{Caller, Kind, Operation};
use authorizer::{Paid, Permit, Policy, Settled, Spent, TwoPermits, ask_two};
use broker_world::{HandlerResult, State, Topics, code_in, read_question, served_in_parts};
use group_offsets::{GroupMetadata, Groups, PartitionOffset};
use msg_admin::Reply;
use msg_group::{CommittedOffset, OffsetCommitReply, OffsetCommitRequest, OffsetToCommit};
use partition_log::Log;
use std::alloc::{AllocError, Global};
use walk::{Part, PartApi, refusal_code, walk};
use wire_types::{Boxed, ErrorCode, Text};

/// Serves the partitions of an OffsetCommit. It holds the caller, the group and member for which it commits, what the policy
/// answered to READ of the group (`asked`), and the topics.
#[derive(Drop)]
pub(crate) struct OffsetCommitHandler<'a> {
    pub(crate) caller: &'a Caller,
    pub(crate) metadata: GroupMetadata<'a>,
    pub(crate) asked: &'a Settled,
    pub(crate) topics: &'a Topics,
}

impl<'a> PartApi<OffsetToCommit, CommittedOffset, Groups> for OffsetCommitHandler<'a> {
    ghost use Rattle.std.specs.Prelude.{false};
    ghost use Rattle.authorizer.specs.Settled.{settled_value};
    ghost use Rattle.broker_world.specs.Questions.{read_question};
    ghost use Rattle.group_handlers.specs.OffsetCommit.{committing_by, commit_rule};

    ghost rule = { λ api. commit_rule api.caller.now (committing_by api.metadata) api.topics.now };

    ghost cuts = { λ _. false };

    ghost settles = { λ api policy. api.asked.now ≡ settled_value policy (read_question api.caller.now api.metadata.group.now) };

    /// Commits the offset of one partition if the caller may READ the group and the topic. Else answers the partition GROUP_ or
    /// TOPIC_AUTHORIZATION_FAILED.
    fn serve(
        &self,
        alloc: Global,
        policy: &Policy,
        groups: &mut Groups,
        name: &Text,
        part: &OffsetToCommit,
    ) -> Result<Part<CommittedOffset>, AllocError> {
        let offset = offset_of(alloc, name, part)?;
        let group = self.asked.again()?;
        let topic = self.caller.asks(Operation::Read, Kind::Topic, name)?;
        match ask_two(policy, group, topic) {
            Ok(TwoPermits { first, second }) => {
                let topic = second.spend(policy);
                let log = self.topics.log(name, part.index);
                let (group, code) = self.commit(alloc, policy, first, groups, log, offset)?;
                let answer = committed_code(code, part);
                Ok(Part::served(answer, Paid::two(group, topic)))
            }
            Err(refusal) => {
                let answer = committed_code(refusal_code(&refusal), part);
                Ok(Part::refused(answer, refusal))
            }
        }
    }
}

impl<'a> OffsetCommitHandler<'a> {
    /// Commits the offset of a partition that the caller may commit. Spends the permit to READ the group in any case. Returns
    /// the error code: UNKNOWN_TOPIC_OR_PARTITION if `log` is `None`, else what the group answers (see `Groups::commit`).
    fn commit(
        &self,
        alloc: Global,
        policy: &Policy,
        permit: Permit,
        groups: &mut Groups,
        log: Option<&Log>,
        offset: PartitionOffset,
    ) -> Result<(Spent, ErrorCode), AllocError>
        requires { MayUse policy.now operations.Read self.now.metadata.group.now permit }
        ensures spent { IfOk result (λ r. r.0 ≡ permit.question) }
        ensures groups { OnOk result
            (groups.new ≡ groups_with_offset (committing_by self.now.metadata) groups.old offset
            (option_copied log.entry)) }
        ensures code { IfOk result
            (λ r. r.1 ≡ offset_code (committing_by self.now.metadata) groups.old offset
            (option_copied log.entry)) }
    {
        if log.is_none() {
            return Ok((permit.spend(policy), ErrorCode::UnknownTopicOrPartition));
        }
        let (spent, committed) = groups.commit(alloc, policy, permit, &self.metadata, offset);
        Ok((spent, code_in(committed?)))
    }
}

/// The offset that the request sends for this partition of the topic `name`. Null metadata becomes the empty text.
fn offset_of(
    alloc: Global,
    name: &Text,
    part: &OffsetToCommit,
) -> Result<PartitionOffset, AllocError>
    ensures { IfOk result (λ offset. offset ≡ offset_of name.now part.now) }
{
    PartitionOffset::told(alloc, name, part.index, part.offset, &part.metadata)
}

/// The partition's answer, with this error code.
fn committed_code(error: ErrorCode, part: &OffsetToCommit) -> CommittedOffset
    ensures { result ≡ committed_code error part.now }
{
    CommittedOffset {
        index: part.index,
        error,
    }
}

/// Handles an OffsetCommit: commits the offset of each partition for the group if the caller may READ the group and the topic.
/// Each partition is answered an error code of its own: GROUP_ or TOPIC_AUTHORIZATION_FAILED, or that of
/// `OffsetCommitHandler::commit`. After an allocation failure some offsets may have been committed.
pub fn answer_offset_commit(
    alloc: Global,
    state: &mut State,
    caller: &Caller,
    request: &OffsetCommitRequest,
) -> Result<HandlerResult, AllocError>
    ensures { HandlerMeets state.old state.new
        (offset_commit_outcome state.old caller.now request.now)
        [] (asked_in (committing_rule state.old caller.now request.now) request.now.topics) result }
{
    let asked = state.policy.settle(read_question(caller, &request.group)?);
    let api = OffsetCommitHandler {
        caller,
        metadata: GroupMetadata {
            group: &request.group,
            generation: request.generation,
            member: &request.member,
        },
        asked: &asked,
        topics: &state.topics,
    };
    let topics = request.topics.as_slice();
    let walked = walk(alloc, &api, &state.policy, &mut state.groups, topics)?;
    let reply = OffsetCommitReply {
        topics: walked.topics,
    };
    let reply = Reply::OffsetCommit(Boxed::new(alloc, reply)?);
    Ok(served_in_parts(reply, walked.refusals, walked.spent))
}
