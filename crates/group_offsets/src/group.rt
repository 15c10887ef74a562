//! One consumer group: its member, and what the calls on it do.

ghost use Rattle.std.specs.Prelude.{◌≡◌, IfOk, OnOk, OnErr};
ghost use Rattle.group_offsets.specs.declared.event.OffsetEvent.TheVariants as events;
ghost use Rattle.group_offsets.specs.GroupTransition.{answer_of, group_after};
ghost use Rattle.group_offsets.specs.Group.{fresh_group, is_member, member_refusal, heard_at, given_to, sync_group, beat_group, leave_group, without_member, without_lapsed, is_lapsed, commit_refusal, commit_group, stage_refusal, stage_group, with_event};

use crate::event::{OffsetEvent, PartitionOffset};
use crate::group_metadata::GroupMetadata;
use crate::member::Member;
use crate::offsets::Offsets;
use msg_group::{HeartbeatRequest, LeaveGroupRequest, MemberAssignment, SyncGroupRequest};
use record_batch::TransactionResult;
use std::alloc::{AllocError, Global};
use wire_types::{Bytes, ErrorCode, Text};

/// A consumer group of at most one member, with its offsets.
#[derive(Drop)]
pub struct Group {
    pub name: Text,
    pub member: Option<Member>,
    /// The generation: 0 at first, and one more with each JoinGroup that is answered without an error.
    pub generation: i32,
    /// The member's assignment. `None` if its next SyncGroup is to bring it.
    pub assignment: Option<Bytes>,
    pub offsets: Offsets,
}

impl Group {
    /// A new group of this name, without member and offsets.
    pub(crate) fn fresh(alloc: Global, name: &Text) -> Result<Group, AllocError>
        ensures { IfOk result (λ group. group ≡ fresh_group name.now) }
    {
        Ok(Group {
            name: name.clone()?,
            member: None,
            generation: 0,
            assignment: None,
            offsets: Offsets::new(alloc),
        })
    }

    /// Whether the group has a member, and this is its id.
    pub(crate) fn is_member(&self, id: &Text) -> bool
        ensures { result ≡ is_member self.now id.now }
    {
        match &self.member {
            Some(member) => member.id == *id,
            None => false,
        }
    }

    /// Why a call with this generation and member id is refused: UNKNOWN_MEMBER_ID if the id isn't the member's, else
    /// ILLEGAL_GENERATION if the generation isn't the group's. `None` if it isn't refused.
    fn member_refusal(&self, generation: i32, member: &Text) -> Option<ErrorCode>
        ensures { result ≡ member_refusal self.now generation member.now }
    {
        if !self.is_member(member) {
            return Some(ErrorCode::UnknownMemberId);
        }
        if self.generation != generation {
            return Some(ErrorCode::IllegalGeneration);
        }
        None
    }

    /// Notes that the member was heard of at `moment`, in milliseconds: its session timeout begins anew. Without a member
    /// nothing happens.
    fn hear(&mut self, moment: u64)
        ensures { self.new ≡ heard_at moment self.old }
    {
        if let Some(member) = &mut self.member {
            member.heard = moment;
        }
    }

    /// Does a SyncGroup at `moment`, in milliseconds: returns the member's assignment, and begins its session timeout anew. If
    /// no assignment is kept yet, the one that the request brings for the member is kept, or the empty one. A refusal
    /// (INVALID_GROUP_ID, UNKNOWN_MEMBER_ID, ILLEGAL_GENERATION) or an allocation failure changes nothing.
    pub(crate) fn sync(
        &mut self,
        request: &SyncGroupRequest,
        moment: u64,
    ) -> Result<Result<Bytes, ErrorCode>, AllocError>
        ensures group { OnOk result
            (self.new ≡ group_after self.old (sync_group self.old request.now moment)) }
        ensures answer { IfOk result
            (λ answer. answer ≡ answer_of (sync_group self.old request.now moment)) }
        ensures err { OnErr result (self.new ≡ self.old) }
        ensures name { self.new.name ≡ self.old.name }
    {
        if request.group.as_bytes().is_empty() {
            return Ok(Err(ErrorCode::InvalidGroupId));
        }
        if let Some(code) = self.member_refusal(request.generation, &request.member) {
            return Ok(Err(code));
        }
        let assignment = match &self.assignment {
            Some(assignment) => assignment.clone()?,
            None => given_to(&request.member, request.assignments.as_slice())?,
        };
        let answer = assignment.clone()?;
        self.hear(moment);
        self.assignment = Some(assignment);
        Ok(Ok(answer))
    }

    /// Does a Heartbeat at `moment`, in milliseconds: the member's session timeout begins anew. A refusal (INVALID_GROUP_ID,
    /// UNKNOWN_MEMBER_ID, ILLEGAL_GENERATION) changes nothing.
    pub(crate) fn beat(&mut self, request: &HeartbeatRequest, moment: u64) -> Result<(), ErrorCode>
        ensures group { self.new ≡ group_after self.old (beat_group self.old request.now moment) }
        ensures answer { result ≡ answer_of (beat_group self.old request.now moment) }
        ensures name { self.new.name ≡ self.old.name }
    {
        if request.group.as_bytes().is_empty() {
            return Err(ErrorCode::InvalidGroupId);
        }
        if let Some(code) = self.member_refusal(request.generation, &request.member) {
            return Err(code);
        }
        self.hear(moment);
        Ok(())
    }

    /// Does a LeaveGroup: removes the member. The generation and the offsets stay. Errors: INVALID_GROUP_ID, UNKNOWN_MEMBER_ID.
    pub(crate) fn leave(&mut self, request: &LeaveGroupRequest) -> Result<(), ErrorCode>
        ensures group { self.new ≡ group_after self.old (leave_group self.old request.now) }
        ensures answer { result ≡ answer_of (leave_group self.old request.now) }
        ensures name { self.new.name ≡ self.old.name }
    {
        if request.group.as_bytes().is_empty() {
            return Err(ErrorCode::InvalidGroupId);
        }
        if !self.is_member(&request.member) {
            return Err(ErrorCode::UnknownMemberId);
        }
        self.let_go();
        Ok(())
    }

    /// Removes the member if at `moment`, in milliseconds, it wasn't heard of for longer than its session timeout.
    pub(crate) fn expire(&mut self, moment: u64)
        ensures group { self.new ≡ without_lapsed moment self.old }
        ensures name { self.new.name ≡ self.old.name }
    {
        if is_lapsed(moment, &self.member) {
            self.let_go();
        }
    }

    /// Removes the member. The generation stays.
    fn let_go(&mut self)
        ensures { self.new ≡ without_member self.old }
    {
        self.member = None;
    }

    /// Commits an offset (OffsetCommit), as the member or as no member. The session timeout doesn't begin anew. A refusal
    /// (UNKNOWN_MEMBER_ID, ILLEGAL_GENERATION, REBALANCE_IN_PROGRESS, see `commit_refusal`) or an allocation failure changes
    /// nothing.
    pub(crate) fn commit(
        &mut self,
        metadata: &GroupMetadata,
        offset: PartitionOffset,
    ) -> Result<Result<(), ErrorCode>, AllocError>
        ensures group { OnOk result
            (self.new ≡ group_after self.old
            (commit_group self.old metadata.now.generation metadata.now.member.now offset)) }
        ensures answer { IfOk result
            (λ answer. answer
            ≡ answer_of
            (commit_group self.old metadata.now.generation metadata.now.member.now offset)) }
        ensures err { OnErr result (self.new ≡ self.old) }
        ensures name { self.new.name ≡ self.old.name }
    {
        if let Some(code) = self.commit_refusal(metadata) {
            return Ok(Err(code));
        }
        self.offsets.push(OffsetEvent::Put(offset))?;
        Ok(Ok(()))
    }

    /// Why an OffsetCommit is refused: UNKNOWN_MEMBER_ID or ILLEGAL_GENERATION if its member or generation isn't the group's;
    /// UNKNOWN_MEMBER_ID if it names none (generation -1 and the empty id) while the group has a member; REBALANCE_IN_PROGRESS
    /// if the member's SyncGroup is awaited. `None` if it isn't refused.
    fn commit_refusal(&self, metadata: &GroupMetadata) -> Option<ErrorCode>
        ensures { result ≡ commit_refusal self.now metadata.now.generation metadata.now.member.now }
    {
        if metadata.is_unmanaged() {
            return match &self.member {
                Some(_) => Some(ErrorCode::UnknownMemberId),
                None => None,
            };
        }
        let refusal = self.member_refusal(metadata.generation, metadata.member);
        match (refusal, &self.assignment) {
            (Some(code), _) => Some(code),
            (None, None) => Some(ErrorCode::RebalanceInProgress),
            (None, Some(_)) => None,
        }
    }

    /// Stages an offset in the transaction of the producer id `producer` (TxnOffsetCommit), to be committed or dropped with it.
    /// Whether that transaction is open isn't checked here. Errors: UNKNOWN_MEMBER_ID, ILLEGAL_GENERATION; generation -1 with
    /// the empty member id is never refused. The member's session timeout doesn't begin anew. A refusal or an allocation
    /// failure changes nothing.
    pub(crate) fn stage(
        &mut self,
        metadata: &GroupMetadata,
        producer: i64,
        offset: PartitionOffset,
    ) -> Result<Result<(), ErrorCode>, AllocError>
        ensures group { OnOk result
            (self.new ≡ group_after self.old
            (stage_group self.old producer metadata.now.generation metadata.now.member.now offset)) }
        ensures answer { IfOk result
            (λ answer. answer
            ≡ answer_of
            (stage_group self.old producer metadata.now.generation metadata.now.member.now offset)) }
        ensures err { OnErr result (self.new ≡ self.old) }
        ensures name { self.new.name ≡ self.old.name }
    {
        if let Some(code) = self.stage_refusal(metadata) {
            return Ok(Err(code));
        }
        self.offsets.push(OffsetEvent::Stage { producer, offset })?;
        Ok(Ok(()))
    }

    /// Commits or drops the offsets that the producer id `producer` staged, as its transaction is over. An allocation failure
    /// changes nothing.
    pub(crate) fn decide(
        &mut self,
        producer: i64,
        outcome: TransactionResult,
    ) -> Result<(), AllocError>
        ensures ok { OnOk result (self.new ≡ with_event (events.Decide producer outcome) self.old) }
        ensures err { OnErr result (self.new ≡ self.old) }
        ensures name { self.new.name ≡ self.old.name }
    {
        self.offsets
            .push(OffsetEvent::Decide { producer, outcome })?;
        Ok(())
    }

    /// Why a TxnOffsetCommit is refused: UNKNOWN_MEMBER_ID or ILLEGAL_GENERATION if it names a member or generation (KIP-447)
    /// that isn't the group's. `None` if it isn't refused, which generation -1 with the empty member id never is.
    fn stage_refusal(&self, metadata: &GroupMetadata) -> Option<ErrorCode>
        ensures { result ≡ stage_refusal self.now metadata.now.generation metadata.now.member.now }
    {
        if metadata.is_unmanaged() {
            return None;
        }
        self.member_refusal(metadata.generation, metadata.member)
    }
}

/// The first assignment for this member that a SyncGroup brings, empty if there is none.
fn given_to(member: &Text, given: &[MemberAssignment]) -> Result<Bytes, AllocError>
    ensures { IfOk result (λ assignment. assignment ≡ given_to member.now given.now) }
{
    for one in given {
        if one.member == *member {
            return one.assignment.clone();
        }
    }
    Ok(Bytes::new())
}

/// Whether the member wasn't heard of for longer than its session timeout at `moment`, in milliseconds. `false` without a
/// member.
fn is_lapsed(moment: u64, member: &Option<Member>) -> bool
    ensures { result ≡ is_lapsed moment member.now }
{
    match member {
        Some(member) => {
            member.heard < moment && u64::from(member.session_timeout) < moment - member.heard
        }
        None => false,
    }
}
