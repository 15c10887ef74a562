//! FindCoordinator, version 1: the broker that coordinates a group or a transactional id.

use std::alloc::Global;
use wire_types::{
    Cursor, ErrorCode, ReadFault, Text, Wire, WriteFault, deduct, deduct_nullable, deduct_string,
    write_i8, write_i32, write_nullable, write_string,
};

/// Asks for the coordinator of a group (key type 0) or of a transactional id (key type 1).
#[derive(Drop, PartialEq, Eq)]
pub struct FindCoordinatorRequest {
    pub key: Text,
    /// 0 for a group, 1 for a transactional id. Any other number is read too, and answered INVALID_REQUEST.
    pub key_type: i8,
}

/// The broker that coordinates the group or the transactional id; or an error, node -1, an empty host and port -1. This broker
/// sends no message (null).
#[derive(Drop, PartialEq, Eq)]
pub struct FindCoordinatorReply {
    pub throttle: i32,
    pub error: ErrorCode,
    pub message: Option<Text>,
    pub node: i32,
    pub host: Text,
    pub port: i32,
}

impl Wire for FindCoordinatorRequest {
    ghost use Rattle.msg_txn.specs.FindCoordinator.{find_coordinator_request};

    ghost grammar = { find_coordinator_request };

    fn read(alloc: Global, cursor: &mut Cursor<'_>) -> Result<FindCoordinatorRequest, ReadFault> {
        let key = cursor.read_string(alloc)?;
        let key_type = cursor.read_i8()?;
        Ok(FindCoordinatorRequest { key, key_type })
    }

    fn put(&self, out: &mut Vec<u8>) -> Result<(), WriteFault> {
        write_string(out, &self.key)?;
        write_i8(out, self.key_type)?;
        Ok(())
    }

    fn deduct_from(&self, budget: usize) -> Option<usize> {
        let budget = deduct_string(&self.key, budget)?;
        deduct(1, budget)
    }
}

impl Wire for FindCoordinatorReply {
    ghost use Rattle.msg_txn.specs.FindCoordinator.{find_coordinator_reply};

    ghost grammar = { find_coordinator_reply };

    fn read(alloc: Global, cursor: &mut Cursor<'_>) -> Result<FindCoordinatorReply, ReadFault> {
        let throttle = cursor.read_i32()?;
        let error = ErrorCode::read(alloc, cursor)?;
        let message = cursor.read_nullable(alloc)?;
        let node = cursor.read_i32()?;
        let host = cursor.read_string(alloc)?;
        let port = cursor.read_i32()?;
        Ok(FindCoordinatorReply {
            throttle,
            error,
            message,
            node,
            host,
            port,
        })
    }

    fn put(&self, out: &mut Vec<u8>) -> Result<(), WriteFault> {
        write_i32(out, self.throttle)?;
        self.error.write(out)?;
        write_nullable(out, &self.message)?;
        write_i32(out, self.node)?;
        write_string(out, &self.host)?;
        write_i32(out, self.port)?;
        Ok(())
    }

    fn deduct_from(&self, budget: usize) -> Option<usize> {
        let budget = deduct(4, budget)?;
        let budget = self.error.deduct_from(budget)?;
        let budget = deduct_nullable(&self.message, budget)?;
        let budget = deduct(4, budget)?;
        let budget = deduct_string(&self.host, budget)?;
        deduct(4, budget)
    }
}
