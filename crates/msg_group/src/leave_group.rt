//! LeaveGroup, version 1: a member leaves its group.

use std::alloc::Global;
use wire_types::{
    Cursor, ErrorCode, ReadFault, Text, Wire, WriteFault, deduct, deduct_string, write_i32,
    write_string,
};

/// Asks to take a member out of its group.
#[derive(Drop, PartialEq, Eq)]
pub struct LeaveGroupRequest {
    pub group: Text,
    pub member: Text,
}

/// Whether the member has left: error code 0, or why not.
#[derive(Drop, PartialEq, Eq)]
pub struct LeaveGroupReply {
    pub throttle: i32,
    pub error: ErrorCode,
}

impl Wire for LeaveGroupRequest {
    ghost use Rattle.msg_group.specs.LeaveGroup.{leave_group_request};

    ghost grammar = { leave_group_request };

    fn read(alloc: Global, cursor: &mut Cursor<'_>) -> Result<LeaveGroupRequest, ReadFault> {
        let group = cursor.read_string(alloc)?;
        let member = cursor.read_string(alloc)?;
        Ok(LeaveGroupRequest { group, member })
    }

    fn put(&self, out: &mut Vec<u8>) -> Result<(), WriteFault> {
        write_string(out, &self.group)?;
        write_string(out, &self.member)?;
        Ok(())
    }

    fn deduct_from(&self, budget: usize) -> Option<usize> {
        let budget = deduct_string(&self.group, budget)?;
        deduct_string(&self.member, budget)
    }
}

impl Wire for LeaveGroupReply {
    ghost use Rattle.msg_group.specs.LeaveGroup.{leave_group_reply};

    ghost grammar = { leave_group_reply };

    fn read(alloc: Global, cursor: &mut Cursor<'_>) -> Result<LeaveGroupReply, ReadFault> {
        let throttle = cursor.read_i32()?;
        let error = ErrorCode::read(alloc, cursor)?;
        Ok(LeaveGroupReply { throttle, error })
    }

    fn put(&self, out: &mut Vec<u8>) -> Result<(), WriteFault> {
        write_i32(out, self.throttle)?;
        self.error.write(out)?;
        Ok(())
    }

    fn deduct_from(&self, budget: usize) -> Option<usize> {
        let budget = deduct(4, budget)?;
        self.error.deduct_from(budget)
    }
}
