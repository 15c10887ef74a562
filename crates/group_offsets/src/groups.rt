//! The groups, by their names.

ghost use Rattle.std.specs.Prelude.{◌≡◌, ◌↔◌, IsTrue, ◌<ℤ◌, pos, [], ◌∷◌, ◌++◌, if◌then◌else◌, is_ok, map, IfOk, OnOk, OnErr, None};
ghost use Rattle.acl_binding.specs.declared.words.Operation.TheVariants as operations;
ghost use Rattle.group_offsets.specs.GroupTransition.{answer_of};
ghost use Rattle.group_offsets.specs.Group.{without_lapsed};
ghost use Rattle.group_offsets.specs.Groups.{group_of, place_of, find_group, groups_after, join, sync, beat, leave, commit, stage, decide, unknown_group_error};
ghost use Rattle.group_offsets.specs.Named.{all_expired};
ghost use Rattle.group_offsets.specs.Permission.{MayUse};

use crate::event::PartitionOffset;
use crate::group::Group;
use crate::group_metadata::GroupMetadata;
use crate::member::Joined;
use crate::offsets::Offsets;
use authorizer::{Permit, Policy, Spent};
use indexmap::IndexMap;
use msg_group::{HeartbeatRequest, JoinGroupRequest, LeaveGroupRequest, SyncGroupRequest};
use record_batch::TransactionResult;
use std::alloc::{AllocError, Global};
use std::hash::RandomState;
use std::marker::Model;
use wire_types::{Bytes, ErrorCode, Text};

/// The consumer groups of the broker, found by name, in the order in which they began.
pub struct Groups {
    table: IndexMap<String, Group, RandomState>,
    nothing: Offsets,
}

impl Model for Groups {
    ghost use Rattle.std.specs.Prelude.{List};
    ghost use Rattle.group_offsets.specs.declared.group.Group.{Group};

    ghost Value = { List Group };

    ghost use Rattle.indexmap.specs.IndexMap.{values};
    ghost use Rattle.group_offsets.specs.Named.{IsKept};

    ghost view = { λ g. values g.table };

    ghost invariant = { λ g. IsKept g.table.entries g.nothing };
}

impl Drop for Groups {
    fn drop(self) {
        let Groups {
            table: _table,
            nothing: _nothing,
        } = self;
    }
}

impl Groups {
    /// No groups. Names are hashed by `hasher`; no answer depends on it. It allocates nothing.
    pub fn new(alloc: Global, hasher: RandomState) -> Groups
        ensures { result ≡ [] }
    {
        Groups {
            table: IndexMap::with_hasher(alloc, hasher),
            nothing: Offsets::new(alloc),
        }
    }

    /// The groups in the order in which they began, for whoever runs the broker. It takes no permit.
    pub fn as_slice(&self) -> &[Group]
        ensures { result.now ≡ self.now }
    {
        self.table.values().as_slice()
    }

    /// Whether a JoinGroup may begin a new generation in the group of this name: the last one isn't the greatest `i32`.
    pub fn may_begin(&self, name: &Text) -> bool
        ensures { IsTrue result ↔ ((group_of self.now name.now).generation <ℤ pos 2147483647) }
    {
        match self.table.get(name.as_str()) {
            Some(group) => group.may_begin(),
            None => true,
        }
    }

    /// Does a JoinGroup by a permit to READ the group, which it spends in any case, at `moment`, in milliseconds. A new
    /// member's id is made of the event number `place`. A group that doesn't exist begins with its first member. Errors:
    /// INVALID_GROUP_ID, INVALID_SESSION_TIMEOUT, INCONSISTENT_GROUP_PROTOCOL, UNKNOWN_MEMBER_ID, GROUP_MAX_SIZE_REACHED. A
    /// refusal or an allocation failure changes nothing.
    pub fn join(
        &mut self,
        alloc: Global,
        policy: &Policy,
        permit: Permit,
        request: &JoinGroupRequest,
        place: u64,
        moment: u64,
    ) -> (Spent, Result<Result<Joined, ErrorCode>, AllocError>)
        requires permit { MayUse policy.now operations.Read request.now.group permit }
        requires generation { (group_of self.old request.now.group).generation <ℤ pos 2147483647 }
        ensures spent { result.0 ≡ permit.question }
        ensures groups { OnOk result.1
            (self.new ≡ groups_after self.old (join self.old request.now place moment)) }
        ensures answer { IfOk result.1
            (λ answer. answer ≡ answer_of (join self.old request.now place moment)) }
        ensures err { OnErr result.1 (self.new ≡ self.old) }
    {
        let spent = permit.spend(policy);
        if let Some(group) = self.table.get_mut(request.group.as_str()) {
            return (spent, group.join(alloc, request, place, moment));
        }
        (spent, self.join_first(alloc, request, place, moment))
    }

    /// Does a JoinGroup of a group that doesn't exist: it begins, unless the call is refused. Parameters as in `join`. An
    /// allocation failure changes nothing.
    fn join_first(
        &mut self,
        alloc: Global,
        request: &JoinGroupRequest,
        place: u64,
        moment: u64,
    ) -> Result<Result<Joined, ErrorCode>, AllocError>
        requires { place_of self.old request.now.group ≡ None }
        ensures groups { OnOk result
            (self.new ≡ groups_after self.old (join self.old request.now place moment)) }
        ensures answer { IfOk result
            (λ answer. answer ≡ answer_of (join self.old request.now place moment)) }
        ensures err { OnErr result (self.new ≡ self.old) }
    {
        let mut group = Group::fresh(alloc, &request.group)?;
        let answer = group.join(alloc, request, place, moment)?;
        self.keep(group, &answer)?;
        Ok(answer)
    }

    /// Does a SyncGroup by a permit to READ the group, which it spends in any case, at `moment`, in milliseconds: returns the
    /// member's assignment, keeps the one that the request brings if that is awaited, and begins the session timeout anew. A
    /// refusal (INVALID_GROUP_ID, UNKNOWN_MEMBER_ID, ILLEGAL_GENERATION) or an allocation failure changes nothing.
    pub fn sync(
        &mut self,
        policy: &Policy,
        permit: Permit,
        request: &SyncGroupRequest,
        moment: u64,
    ) -> (Spent, Result<Result<Bytes, ErrorCode>, AllocError>)
        requires { MayUse policy.now operations.Read request.now.group permit }
        ensures spent { result.0 ≡ permit.question }
        ensures groups { OnOk result.1
            (self.new ≡ groups_after self.old (sync self.old request.now moment)) }
        ensures answer { IfOk result.1
            (λ answer. answer ≡ answer_of (sync self.old request.now moment)) }
        ensures err { OnErr result.1 (self.new ≡ self.old) }
    {
        let spent = permit.spend(policy);
        let Some(group) = self.table.get_mut(request.group.as_str()) else {
            return (spent, Ok(Err(unknown_group_error(&request.group))));
        };
        (spent, group.sync(request, moment))
    }

    /// Does a Heartbeat by a permit to READ the group, which it spends in any case, at `moment`, in milliseconds: the member's
    /// session timeout begins anew. A refusal (INVALID_GROUP_ID, UNKNOWN_MEMBER_ID, ILLEGAL_GENERATION) changes nothing.
    pub fn beat(
        &mut self,
        policy: &Policy,
        permit: Permit,
        request: &HeartbeatRequest,
        moment: u64,
    ) -> (Spent, Result<(), ErrorCode>)
        requires { MayUse policy.now operations.Read request.now.group permit }
        ensures spent { result.0 ≡ permit.question }
        ensures groups { self.new ≡ groups_after self.old (beat self.old request.now moment) }
        ensures answer { result.1 ≡ answer_of (beat self.old request.now moment) }
    {
        let spent = permit.spend(policy);
        let Some(group) = self.table.get_mut(request.group.as_str()) else {
            return (spent, Err(unknown_group_error(&request.group)));
        };
        (spent, group.beat(request, moment))
    }

    /// Does a LeaveGroup by a permit to READ the group, which it spends in any case: removes the member. The group and its
    /// offsets stay. Errors: INVALID_GROUP_ID, UNKNOWN_MEMBER_ID.
    pub fn leave(
        &mut self,
        policy: &Policy,
        permit: Permit,
        request: &LeaveGroupRequest,
    ) -> (Spent, Result<(), ErrorCode>)
        requires { MayUse policy.now operations.Read request.now.group permit }
        ensures spent { result.0 ≡ permit.question }
        ensures groups { self.new ≡ groups_after self.old (leave self.old request.now) }
        ensures answer { result.1 ≡ answer_of (leave self.old request.now) }
    {
        let spent = permit.spend(policy);
        let Some(group) = self.table.get_mut(request.group.as_str()) else {
            return (spent, Err(unknown_group_error(&request.group)));
        };
        (spent, group.leave(request))
    }

    /// Commits an offset (OffsetCommit) by a permit to READ the group, which it spends in any case. A group that doesn't exist
    /// begins with its first offset. A refusal (UNKNOWN_MEMBER_ID, ILLEGAL_GENERATION, REBALANCE_IN_PROGRESS, as in
    /// `Group::commit`) or an allocation failure changes nothing.
    pub fn commit(
        &mut self,
        alloc: Global,
        policy: &Policy,
        permit: Permit,
        metadata: &GroupMetadata,
        offset: PartitionOffset,
    ) -> (Spent, Result<Result<(), ErrorCode>, AllocError>)
        requires { MayUse policy.now operations.Read metadata.now.group.now permit }
        ensures spent { result.0 ≡ permit.question }
        ensures groups { OnOk result.1
            (self.new ≡ groups_after self.old
            (commit self.old metadata.now.group.now metadata.now.generation metadata.now.member.now
            offset)) }
        ensures answer { IfOk result.1
            (λ answer. answer
            ≡ answer_of
            (commit self.old metadata.now.group.now metadata.now.generation metadata.now.member.now
            offset)) }
        ensures err { OnErr result.1 (self.new ≡ self.old) }
    {
        let spent: Spent = permit.spend(policy);
        if let Some(group) = self.table.get_mut(metadata.group.as_str()) {
            return (spent, group.commit(metadata, offset));
        }
        (spent, self.commit_first(alloc, metadata, offset))
    }

    /// Commits an offset for a group that doesn't exist: it begins, unless the call is refused. An allocation failure changes
    /// nothing.
    fn commit_first(
        &mut self,
        alloc: Global,
        metadata: &GroupMetadata,
        offset: PartitionOffset,
    ) -> Result<Result<(), ErrorCode>, AllocError>
        requires { place_of self.old metadata.now.group.now ≡ None }
        ensures groups { OnOk result
            (self.new ≡ groups_after self.old
            (commit self.old metadata.now.group.now metadata.now.generation metadata.now.member.now
            offset)) }
        ensures answer { IfOk result
            (λ answer. answer
            ≡ answer_of
            (commit self.old metadata.now.group.now metadata.now.generation metadata.now.member.now
            offset)) }
        ensures err { OnErr result (self.new ≡ self.old) }
    {
        let mut group = Group::fresh(alloc, metadata.group)?;
        let answer = group.commit(metadata, offset)?;
        self.keep(group, &answer)?;
        Ok(answer)
    }

    /// Stages an offset in the transaction of the producer id `producer` (TxnOffsetCommit) by a permit to READ the group, which
    /// it spends in any case. Whether that transaction is open isn't checked here. A group that doesn't exist begins with its
    /// first offset. A refusal (UNKNOWN_MEMBER_ID, ILLEGAL_GENERATION, as in `Group::stage`) or an allocation failure changes
    /// nothing.
    pub fn stage(
        &mut self,
        alloc: Global,
        policy: &Policy,
        permit: Permit,
        metadata: &GroupMetadata,
        producer: i64,
        offset: PartitionOffset,
    ) -> (Spent, Result<Result<(), ErrorCode>, AllocError>)
        requires { MayUse policy.now operations.Read metadata.now.group.now permit }
        ensures spent { result.0 ≡ permit.question }
        ensures groups { OnOk result.1
            (self.new ≡ groups_after self.old
            (stage self.old metadata.now.group.now producer metadata.now.generation
            metadata.now.member.now offset)) }
        ensures answer { IfOk result.1
            (λ answer. answer
            ≡ answer_of
            (stage self.old metadata.now.group.now producer metadata.now.generation
            metadata.now.member.now offset)) }
        ensures err { OnErr result.1 (self.new ≡ self.old) }
    {
        let spent = permit.spend(policy);
        if let Some(group) = self.table.get_mut(metadata.group.as_str()) {
            return (spent, group.stage(metadata, producer, offset));
        }
        (spent, self.stage_first(alloc, metadata, producer, offset))
    }

    /// Stages an offset for a group that doesn't exist: it begins, unless the call is refused. An allocation failure changes
    /// nothing.
    fn stage_first(
        &mut self,
        alloc: Global,
        metadata: &GroupMetadata,
        producer: i64,
        offset: PartitionOffset,
    ) -> Result<Result<(), ErrorCode>, AllocError>
        requires { place_of self.old metadata.now.group.now ≡ None }
        ensures groups { OnOk result
            (self.new ≡ groups_after self.old
            (stage self.old metadata.now.group.now producer metadata.now.generation
            metadata.now.member.now offset)) }
        ensures answer { IfOk result
            (λ answer. answer
            ≡ answer_of
            (stage self.old metadata.now.group.now producer metadata.now.generation
            metadata.now.member.now offset)) }
        ensures err { OnErr result (self.new ≡ self.old) }
    {
        let mut group = Group::fresh(alloc, metadata.group)?;
        let answer = group.stage(metadata, producer, offset)?;
        self.keep(group, &answer)?;
        Ok(answer)
    }

    /// Commits or drops the offsets that the producer id `producer` staged for the group `name`, as its transaction is over:
    /// writes the transaction's marker to the group. It takes no permit. A group that doesn't exist begins. An allocation
    /// failure changes nothing.
    pub fn decide(
        &mut self,
        alloc: Global,
        name: &Text,
        producer: i64,
        outcome: TransactionResult,
    ) -> Result<(), AllocError>
        ensures ok { OnOk result
            (self.new ≡ groups_after self.old (decide self.old name.now producer outcome)) }
        ensures err { OnErr result (self.new ≡ self.old) }
    {
        if let Some(group) = self.table.get_mut(name.as_str()) {
            return group.decide(producer, outcome);
        }
        let mut group = Group::fresh(alloc, name)?;
        group.decide(producer, outcome)?;
        self.begin(group)
    }

    /// Returns the committed and staged offsets of a group, none if it doesn't exist, by a permit to DESCRIBE it, which it
    /// spends.
    pub fn fetch(&self, policy: &Policy, permit: Permit, name: &Text) -> (Spent, &Offsets)
        requires { MayUse policy.now operations.Describe name.now permit }
        ensures spent { result.0 ≡ permit.question }
        ensures answer { result.1.now ≡ (group_of self.now name.now).offsets }
    {
        (permit.spend(policy), self.offsets_of(name))
    }

    /// The offsets of the group of this name, none if it doesn't exist.
    fn offsets_of(&self, name: &Text) -> &Offsets
        ensures { result.now ≡ (group_of self.now name.now).offsets }
    {
        match self.table.get(name.as_str()) {
            Some(group) => &group.offsets,
            None => &self.nothing,
        }
    }

    /// Adds a new group, unless its first call was refused (`answer`). An allocation failure changes nothing.
    fn keep<A>(&mut self, group: Group, answer: &Result<A, ErrorCode>) -> Result<(), AllocError>
        requires { find_group self.old group.name ≡ None }
        ensures ok { OnOk result
            (self.new ≡ (if is_ok answer.now then self.old ++ group ∷ [] else self.old)) }
        ensures err { OnErr result (self.new ≡ self.old) }
    {
        if answer.is_ok() {
            self.begin(group)?;
        }
        Ok(())
    }

    /// Adds a new group, whose name no group has. An allocation failure changes nothing.
    fn begin(&mut self, group: Group) -> Result<(), AllocError>
        requires { find_group self.old group.name ≡ None }
        ensures ok { OnOk result (self.new ≡ self.old ++ group ∷ []) }
        ensures err { OnErr result (self.new ≡ self.old) }
    {
        let name = group.name.to_owned(*self.table.allocator())?;
        self.table.insert(name, group)?;
        Ok(())
    }

    /// Removes each member that at `moment`, in milliseconds, wasn't heard of for longer than its session timeout. Its group
    /// stays.
    pub fn expire(&mut self, moment: u64)
        ensures { self.new ≡ map (without_lapsed moment) self.old }
    {
        expire_all(&mut self.table, moment);
    }
}

/// As `Groups::expire`, for the table of the groups.
fn expire_all(groups: &mut IndexMap<String, Group, RandomState>, moment: u64)
    ensures { groups.new.entries ≡ all_expired moment groups.old.entries }
{
    for place in 0..groups.len() {
        groups[place].expire(moment);
    }
}

/// How a member's call is refused if its group doesn't exist: INVALID_GROUP_ID for the empty name, else UNKNOWN_MEMBER_ID.
fn unknown_group_error(name: &Text) -> ErrorCode
    ensures { result ≡ unknown_group_error name.now }
{
    if name.as_bytes().is_empty() {
        ErrorCode::InvalidGroupId
    } else {
        ErrorCode::UnknownMemberId
    }
}
