//! SyncGroup, version 1: the leader's assignment for each member.

use std::alloc::Global;
use wire_types::{
    Bytes, Cursor, ErrorCode, Items, ReadFault, Text, Wire, WriteFault, deduct, deduct_array,
    deduct_bytes, deduct_string, read_array, write_array, write_bytes, write_i32, write_string,
};

/// A member of the group, and what the leader assigns to it.
#[derive(Drop, PartialEq, Eq)]
pub struct MemberAssignment {
    pub member: Text,
    pub assignment: Bytes,
}

/// Asks for the member's own assignment. The leader sends the assignments of all members; from others the list is empty.
#[derive(Drop, PartialEq, Eq)]
pub struct SyncGroupRequest {
    pub group: Text,
    pub generation: i32,
    pub member: Text,
    pub assignments: Items<MemberAssignment>,
}

/// What is assigned to the member, or an error and no bytes.
#[derive(Drop, PartialEq, Eq)]
pub struct SyncGroupReply {
    pub throttle: i32,
    pub error: ErrorCode,
    pub assignment: Bytes,
}

impl Wire for MemberAssignment {
    ghost use Rattle.msg_group.specs.SyncGroup.{member_assignment};

    ghost grammar = { member_assignment };

    fn read(alloc: Global, cursor: &mut Cursor<'_>) -> Result<MemberAssignment, ReadFault> {
        let member = cursor.read_string(alloc)?;
        let assignment = cursor.read_bytes(alloc)?;
        Ok(MemberAssignment { member, assignment })
    }

    fn put(&self, out: &mut Vec<u8>) -> Result<(), WriteFault> {
        write_string(out, &self.member)?;
        write_bytes(out, &self.assignment)?;
        Ok(())
    }

    fn deduct_from(&self, budget: usize) -> Option<usize> {
        let budget = deduct_string(&self.member, budget)?;
        deduct_bytes(&self.assignment, budget)
    }
}

impl Wire for SyncGroupRequest {
    ghost use Rattle.msg_group.specs.SyncGroup.{sync_group_request};

    ghost grammar = { sync_group_request };

    fn read(alloc: Global, cursor: &mut Cursor<'_>) -> Result<SyncGroupRequest, ReadFault> {
        let group = cursor.read_string(alloc)?;
        let generation = cursor.read_i32()?;
        let member = cursor.read_string(alloc)?;
        let assignments = read_array(alloc, cursor)?;
        Ok(SyncGroupRequest {
            group,
            generation,
            member,
            assignments,
        })
    }

    fn put(&self, out: &mut Vec<u8>) -> Result<(), WriteFault> {
        write_string(out, &self.group)?;
        write_i32(out, self.generation)?;
        write_string(out, &self.member)?;
        write_array(out, &self.assignments)?;
        Ok(())
    }

    fn deduct_from(&self, budget: usize) -> Option<usize> {
        let budget = deduct_string(&self.group, budget)?;
        let budget = deduct(4, budget)?;
        let budget = deduct_string(&self.member, budget)?;
        deduct_array(&self.assignments, budget)
    }
}

impl Wire for SyncGroupReply {
    ghost use Rattle.msg_group.specs.SyncGroup.{sync_group_reply};

    ghost grammar = { sync_group_reply };

    fn read(alloc: Global, cursor: &mut Cursor<'_>) -> Result<SyncGroupReply, ReadFault> {
        let throttle = cursor.read_i32()?;
        let error = ErrorCode::read(alloc, cursor)?;
        let assignment = cursor.read_bytes(alloc)?;
        Ok(SyncGroupReply {
            throttle,
            error,
            assignment,
        })
    }

    fn put(&self, out: &mut Vec<u8>) -> Result<(), WriteFault> {
        write_i32(out, self.throttle)?;
        self.error.write(out)?;
        write_bytes(out, &self.assignment)?;
        Ok(())
    }

    fn deduct_from(&self, budget: usize) -> Option<usize> {
        let budget = deduct(4, budget)?;
        let budget = self.error.deduct_from(budget)?;
        deduct_bytes(&self.assignment, budget)
    }
}
