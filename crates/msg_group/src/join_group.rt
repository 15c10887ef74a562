//! JoinGroup, version 2: a member joins a group.

use std::alloc::Global;
use wire_types::{
    Bytes, Cursor, ErrorCode, Items, ReadFault, Text, Wire, WriteFault, deduct, deduct_array,
    deduct_bytes, deduct_string, read_array, write_array, write_bytes, write_i32, write_string,
};

/// An assignment protocol that a member supports, and its metadata for that protocol, such as its subscription.
#[derive(Clone, Drop, PartialEq, Eq)]
pub struct OfferedProtocol {
    pub name: Text,
    pub metadata: Bytes,
}

/// Asks to join a group: as a new member where the member id is empty. Timeouts are in milliseconds.
#[derive(Drop, PartialEq, Eq)]
pub struct JoinGroupRequest {
    pub group: Text,
    pub session_timeout: i32,
    /// How long the other members may take to join again. It is read and ignored.
    pub rebalance_timeout: i32,
    pub member: Text,
    pub protocol_type: Text,
    pub protocols: Items<OfferedProtocol>,
}

/// A member of the group, and its metadata for the chosen protocol.
#[derive(Drop, PartialEq, Eq)]
pub struct JoinedMember {
    pub member: Text,
    pub metadata: Bytes,
}

/// The group's generation, its protocol and leader, and the member's own id; or an error. Only the leader gets the members.
#[derive(Drop, PartialEq, Eq)]
pub struct JoinGroupReply {
    pub throttle: i32,
    pub error: ErrorCode,
    pub generation: i32,
    pub protocol: Text,
    pub leader: Text,
    pub member: Text,
    pub members: Items<JoinedMember>,
}

impl Wire for OfferedProtocol {
    ghost use Rattle.msg_group.specs.JoinGroup.{offered_protocol};

    ghost grammar = { offered_protocol };

    fn read(alloc: Global, cursor: &mut Cursor<'_>) -> Result<OfferedProtocol, ReadFault> {
        let name = cursor.read_string(alloc)?;
        let metadata = cursor.read_bytes(alloc)?;
        Ok(OfferedProtocol { name, metadata })
    }

    fn put(&self, out: &mut Vec<u8>) -> Result<(), WriteFault> {
        write_string(out, &self.name)?;
        write_bytes(out, &self.metadata)?;
        Ok(())
    }

    fn deduct_from(&self, budget: usize) -> Option<usize> {
        let budget = deduct_string(&self.name, budget)?;
        deduct_bytes(&self.metadata, budget)
    }
}

impl Wire for JoinGroupRequest {
    ghost use Rattle.msg_group.specs.JoinGroup.{join_group_request};

    ghost grammar = { join_group_request };

    fn read(alloc: Global, cursor: &mut Cursor<'_>) -> Result<JoinGroupRequest, ReadFault> {
        let group = cursor.read_string(alloc)?;
        let session_timeout = cursor.read_i32()?;
        let rebalance_timeout = cursor.read_i32()?;
        let member = cursor.read_string(alloc)?;
        let protocol_type = cursor.read_string(alloc)?;
        let protocols = read_array(alloc, cursor)?;
        Ok(JoinGroupRequest {
            group,
            session_timeout,
            rebalance_timeout,
            member,
            protocol_type,
            protocols,
        })
    }

    fn put(&self, out: &mut Vec<u8>) -> Result<(), WriteFault> {
        write_string(out, &self.group)?;
        write_i32(out, self.session_timeout)?;
        write_i32(out, self.rebalance_timeout)?;
        write_string(out, &self.member)?;
        write_string(out, &self.protocol_type)?;
        write_array(out, &self.protocols)?;
        Ok(())
    }

    fn deduct_from(&self, budget: usize) -> Option<usize> {
        let budget = deduct_string(&self.group, budget)?;
        let budget = deduct(4, budget)?;
        let budget = deduct(4, budget)?;
        let budget = deduct_string(&self.member, budget)?;
        let budget = deduct_string(&self.protocol_type, budget)?;
        deduct_array(&self.protocols, budget)
    }
}

impl Wire for JoinedMember {
    ghost use Rattle.msg_group.specs.JoinGroup.{joined_member};

    ghost grammar = { joined_member };

    fn read(alloc: Global, cursor: &mut Cursor<'_>) -> Result<JoinedMember, ReadFault> {
        let member = cursor.read_string(alloc)?;
        let metadata = cursor.read_bytes(alloc)?;
        Ok(JoinedMember { member, metadata })
    }

    fn put(&self, out: &mut Vec<u8>) -> Result<(), WriteFault> {
        write_string(out, &self.member)?;
        write_bytes(out, &self.metadata)?;
        Ok(())
    }

    fn deduct_from(&self, budget: usize) -> Option<usize> {
        let budget = deduct_string(&self.member, budget)?;
        deduct_bytes(&self.metadata, budget)
    }
}

impl Wire for JoinGroupReply {
    ghost use Rattle.msg_group.specs.JoinGroup.{join_group_reply};

    ghost grammar = { join_group_reply };

    fn read(alloc: Global, cursor: &mut Cursor<'_>) -> Result<JoinGroupReply, ReadFault> {
        let throttle = cursor.read_i32()?;
        let error = ErrorCode::read(alloc, cursor)?;
        let generation = cursor.read_i32()?;
        let protocol = cursor.read_string(alloc)?;
        let leader = cursor.read_string(alloc)?;
        let member = cursor.read_string(alloc)?;
        let members = read_array(alloc, cursor)?;
        Ok(JoinGroupReply {
            throttle,
            error,
            generation,
            protocol,
            leader,
            member,
            members,
        })
    }

    fn put(&self, out: &mut Vec<u8>) -> Result<(), WriteFault> {
        write_i32(out, self.throttle)?;
        self.error.write(out)?;
        write_i32(out, self.generation)?;
        write_string(out, &self.protocol)?;
        write_string(out, &self.leader)?;
        write_string(out, &self.member)?;
        write_array(out, &self.members)?;
        Ok(())
    }

    fn deduct_from(&self, budget: usize) -> Option<usize> {
        let budget = deduct(4, budget)?;
        let budget = self.error.deduct_from(budget)?;
        let budget = deduct(4, budget)?;
        let budget = deduct_string(&self.protocol, budget)?;
        let budget = deduct_string(&self.leader, budget)?;
        let budget = deduct_string(&self.member, budget)?;
        deduct_array(&self.members, budget)
    }
}
