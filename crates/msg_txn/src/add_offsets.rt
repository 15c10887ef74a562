//! AddOffsetsToTxn, version 0: a group becomes part of a transaction.

use std::alloc::Global;
use wire_types::{
    Cursor, ErrorCode, ReadFault, Text, Wire, WriteFault, deduct, deduct_string, write_i16,
    write_i32, write_i64, write_string,
};

/// Asks to add a consumer group to a producer's transaction, before offsets of the group are committed in it.
#[derive(Drop, PartialEq, Eq)]
pub struct AddOffsetsToTxnRequest {
    pub transactional_id: Text,
    pub producer: i64,
    pub epoch: i16,
    pub group: Text,
}

/// Whether the group was added: error code 0, or why not.
#[derive(Drop, PartialEq, Eq)]
pub struct AddOffsetsToTxnReply {
    pub throttle: i32,
    pub error: ErrorCode,
}

impl Wire for AddOffsetsToTxnRequest {
    ghost use Rattle.msg_txn.specs.AddOffsets.{add_offsets_to_txn_request};

    ghost grammar = { add_offsets_to_txn_request };

    fn read(alloc: Global, cursor: &mut Cursor<'_>) -> Result<AddOffsetsToTxnRequest, ReadFault> {
        let transactional_id = cursor.read_string(alloc)?;
        let producer = cursor.read_i64()?;
        let epoch = cursor.read_i16()?;
        let group = cursor.read_string(alloc)?;
        Ok(AddOffsetsToTxnRequest {
            transactional_id,
            producer,
            epoch,
            group,
        })
    }

    fn put(&self, out: &mut Vec<u8>) -> Result<(), WriteFault> {
        write_string(out, &self.transactional_id)?;
        write_i64(out, self.producer)?;
        write_i16(out, self.epoch)?;
        write_string(out, &self.group)?;
        Ok(())
    }

    fn deduct_from(&self, budget: usize) -> Option<usize> {
        let budget = deduct_string(&self.transactional_id, budget)?;
        let budget = deduct(8, budget)?;
        let budget = deduct(2, budget)?;
        deduct_string(&self.group, budget)
    }
}

impl Wire for AddOffsetsToTxnReply {
    ghost use Rattle.msg_txn.specs.AddOffsets.{add_offsets_to_txn_reply};

    ghost grammar = { add_offsets_to_txn_reply };

    fn read(alloc: Global, cursor: &mut Cursor<'_>) -> Result<AddOffsetsToTxnReply, ReadFault> {
        let throttle = cursor.read_i32()?;
        let error = ErrorCode::read(alloc, cursor)?;
        Ok(AddOffsetsToTxnReply { throttle, error })
    }

    fn put(&self, out: &mut Vec<u8>) -> Result<(), WriteFault> {
        write_i32(out, self.throttle)?;
        self.error.write(out)?;
        Ok(())
    }

    fn deduct_from(&self, budget: usize) -> Option<usize> {
        let budget = deduct(4, budget)?;
        self.error.deduct_from(budget)
    }
}
