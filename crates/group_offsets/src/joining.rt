//! How a member joins a group (JoinGroup).

ghost use Rattle.std.specs.Prelude.{◌≡◌, ◌↔◌, IsTrue, ◌<ℤ◌, pos, IfOk, OnOk, OnErr};
ghost use Rattle.std.specs.Option.{option_copied};
ghost use Rattle.group_offsets.specs.GroupTransition.{answer_of, group_after};
ghost use Rattle.group_offsets.specs.Joining.{session_timeout, chosen_protocol, entry_refusal, member_id, welcome, with_member, join_group};

use crate::group::Group;
use crate::member::{Joined, Member};
use msg_group::{JoinGroupRequest, OfferedProtocol};
use std::alloc::{AllocError, Global};
use wire_types::{ErrorCode, Text};

/// The least session timeout that a member may ask for, in milliseconds.
const LEAST_TIMEOUT: u32 = 6_000;

/// The greatest session timeout that a member may ask for, in milliseconds.
const GREATEST_TIMEOUT: u32 = 1_800_000;

impl Group {
    /// Does a JoinGroup at `moment`, in milliseconds: the member joins, a new generation begins, and its SyncGroup is awaited.
    /// A new member's id is made of the event number `place`. Errors: INVALID_GROUP_ID, INVALID_SESSION_TIMEOUT,
    /// INCONSISTENT_GROUP_PROTOCOL, UNKNOWN_MEMBER_ID for an id that isn't the member's, and GROUP_MAX_SIZE_REACHED for a
    /// second member. A refusal or an allocation failure changes nothing.
    pub(crate) fn join(
        &mut self,
        alloc: Global,
        request: &JoinGroupRequest,
        place: u64,
        moment: u64,
    ) -> Result<Result<Joined, ErrorCode>, AllocError>
        requires { self.old.generation <ℤ pos 2147483647 }
        ensures group { OnOk result
            (self.new ≡ group_after self.old (join_group self.old request.now place moment)) }
        ensures answer { IfOk result
            (λ answer. answer ≡ answer_of (join_group self.old request.now place moment)) }
        ensures err { OnErr result (self.new ≡ self.old) }
        ensures name { self.new.name ≡ self.old.name }
    {
        if request.group.as_bytes().is_empty() {
            return Ok(Err(ErrorCode::InvalidGroupId));
        }
        let Some(timeout) = session_timeout(request.session_timeout) else {
            return Ok(Err(ErrorCode::InvalidSessionTimeout));
        };
        let Some(protocol) = chosen(request) else {
            return Ok(Err(ErrorCode::InconsistentGroupProtocol));
        };
        if let Some(code) = self.entry_refusal(&request.member) {
            return Ok(Err(code));
        }
        let joined = self.welcome(alloc, &request.member, place, protocol)?;
        self.enter(joined.member.clone()?, timeout, moment);
        Ok(Ok(joined))
    }

    /// Whether a new generation may begin: the generation isn't the greatest `i32`.
    pub(crate) fn may_begin(&self) -> bool
        ensures { IsTrue result ↔ (self.now.generation <ℤ pos 2147483647) }
    {
        self.generation < i32::MAX
    }

    /// The answer to a member that joins by event number `place`: its id, the next generation and the chosen protocol. `member`
    /// is the id that it sent. Nothing is changed.
    fn welcome(
        &self,
        alloc: Global,
        member: &Text,
        place: u64,
        protocol: &OfferedProtocol,
    ) -> Result<Joined, AllocError>
        requires { self.now.generation <ℤ pos 2147483647 }
        ensures { IfOk result (λ joined. joined ≡ welcome self.now member.now place protocol.now) }
    {
        Ok(Joined {
            generation: self.generation + 1,
            member: member_id(alloc, member, place)?,
            protocol: protocol.clone()?,
        })
    }

    /// Makes this the group's member, which was heard of at `moment`, in milliseconds. A new generation begins, and its
    /// assignment is awaited. `session_timeout` is in milliseconds.
    fn enter(&mut self, id: Text, session_timeout: u32, moment: u64)
        requires { self.old.generation <ℤ pos 2147483647 }
        ensures { self.new ≡ with_member id session_timeout self.old moment }
    {
        self.member = Some(Member {
            id,
            session_timeout,
            heard: moment,
        });
        self.generation += 1;
        self.assignment = None;
    }

    /// Why a member with this id may not join: UNKNOWN_MEMBER_ID if it has an id that isn't the member's, GROUP_MAX_SIZE_REACHED
    /// if it has none and the group has its member. `None` if it may.
    fn entry_refusal(&self, member: &Text) -> Option<ErrorCode>
        ensures { result ≡ entry_refusal self.now member.now }
    {
        if !member.as_bytes().is_empty() {
            return if self.is_member(member) {
                None
            } else {
                Some(ErrorCode::UnknownMemberId)
            };
        }
        match &self.member {
            Some(_) => Some(ErrorCode::GroupMaxSizeReached),
            None => None,
        }
    }
}

/// The session timeout that a JoinGroup asks for, in milliseconds, `None` if it isn't from 6,000 to 1,800,000.
fn session_timeout(asked: i32) -> Option<u32>
    ensures { result ≡ session_timeout asked }
{
    let timeout = u32::try_from(asked).ok()?;
    if LEAST_TIMEOUT <= timeout && timeout <= GREATEST_TIMEOUT {
        Some(timeout)
    } else {
        None
    }
}

/// The protocol of the new generation: the first that the member offers. `None` if it offers none, or its protocol type is
/// empty.
fn chosen(request: &JoinGroupRequest) -> Option<&OfferedProtocol>
    ensures { option_copied result ≡ chosen_protocol request.now }
{
    if request.protocol_type.as_bytes().is_empty() {
        return None;
    }
    request.protocols.get(0)
}

/// The id of the member that joins: the one that it sends, or a new id `m-PLACE` with the event number `place` if it sends the
/// empty one.
fn member_id(alloc: Global, member: &Text, place: u64) -> Result<Text, AllocError>
    ensures { IfOk result (λ id. id ≡ member_id member.now place) }
{
    if member.as_bytes().is_empty() {
        Text::from_string(format!(in alloc; "m-{place}")?)
    } else {
        member.clone()
    }
}
