//! Heartbeat, version 1: a member is still there.

use std::alloc::Global;
use wire_types::{
    Cursor, ErrorCode, ReadFault, Text, Wire, WriteFault, deduct, deduct_string, write_i32,
    write_string,
};

/// Says that a group's member is alive, and asks whether its generation is still the group's.
#[derive(Drop, PartialEq, Eq)]
pub struct HeartbeatRequest {
    pub group: Text,
    pub generation: i32,
    pub member: Text,
}

/// Error code 0 where the group has that member in that generation, or why not: UNKNOWN_MEMBER_ID or ILLEGAL_GENERATION, say.
#[derive(Drop, PartialEq, Eq)]
pub struct HeartbeatReply {
    pub throttle: i32,
    pub error: ErrorCode,
}

impl Wire for HeartbeatRequest {
    ghost use Rattle.msg_group.specs.Heartbeat.{heartbeat_request};

    ghost grammar = { heartbeat_request };

    fn read(alloc: Global, cursor: &mut Cursor<'_>) -> Result<HeartbeatRequest, ReadFault> {
        let group = cursor.read_string(alloc)?;
        let generation = cursor.read_i32()?;
        let member = cursor.read_string(alloc)?;
        Ok(HeartbeatRequest {
            group,
            generation,
            member,
        })
    }

    fn put(&self, out: &mut Vec<u8>) -> Result<(), WriteFault> {
        write_string(out, &self.group)?;
        write_i32(out, self.generation)?;
        write_string(out, &self.member)?;
        Ok(())
    }

    fn deduct_from(&self, budget: usize) -> Option<usize> {
        let budget = deduct_string(&self.group, budget)?;
        let budget = deduct(4, budget)?;
        deduct_string(&self.member, budget)
    }
}

impl Wire for HeartbeatReply {
    ghost use Rattle.msg_group.specs.Heartbeat.{heartbeat_reply};

    ghost grammar = { heartbeat_reply };

    fn read(alloc: Global, cursor: &mut Cursor<'_>) -> Result<HeartbeatReply, ReadFault> {
        let throttle = cursor.read_i32()?;
        let error = ErrorCode::read(alloc, cursor)?;
        Ok(HeartbeatReply { throttle, error })
    }

    fn put(&self, out: &mut Vec<u8>) -> Result<(), WriteFault> {
        write_i32(out, self.throttle)?;
        self.error.write(out)?;
        Ok(())
    }

    fn deduct_from(&self, budget: usize) -> Option<usize> {
        let budget = deduct(4, budget)?;
        self.error.deduct_from(budget)
    }
}
