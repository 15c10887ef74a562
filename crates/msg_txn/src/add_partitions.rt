//! AddPartitionsToTxn, version 0: partitions become part of a transaction.

use std::alloc::Global;
use wire_types::{
    Cursor, ErrorCode, Items, ReadFault, Text, Topic, Wire, WriteFault, deduct, deduct_array,
    deduct_string, read_array, write_array, write_i16, write_i32, write_i64, write_string,
};

/// Asks to add partitions to a producer's transaction, before records are produced there in it.
#[derive(Drop, PartialEq, Eq)]
pub struct AddPartitionsToTxnRequest {
    pub transactional_id: Text,
    pub producer: i64,
    pub epoch: i16,
    /// The topics, each with the indexes of its partitions.
    pub topics: Items<Topic<i32>>,
}

/// Whether a partition was added: error code 0, or why not.
#[derive(Drop, PartialEq, Eq)]
pub struct AddedPartition {
    pub index: i32,
    pub error: ErrorCode,
}

/// Whether each partition was added, in the request's order.
#[derive(Drop, PartialEq, Eq)]
pub struct AddPartitionsToTxnReply {
    pub throttle: i32,
    pub topics: Items<Topic<AddedPartition>>,
}

impl Wire for AddPartitionsToTxnRequest {
    ghost use Rattle.msg_txn.specs.AddPartitions.{add_partitions_to_txn_request};

    ghost grammar = { add_partitions_to_txn_request };

    fn read(
        alloc: Global,
        cursor: &mut Cursor<'_>,
    ) -> Result<AddPartitionsToTxnRequest, ReadFault> {
        let transactional_id = cursor.read_string(alloc)?;
        let producer = cursor.read_i64()?;
        let epoch = cursor.read_i16()?;
        let topics = read_array(alloc, cursor)?;
        Ok(AddPartitionsToTxnRequest {
            transactional_id,
            producer,
            epoch,
            topics,
        })
    }

    fn put(&self, out: &mut Vec<u8>) -> Result<(), WriteFault> {
        write_string(out, &self.transactional_id)?;
        write_i64(out, self.producer)?;
        write_i16(out, self.epoch)?;
        write_array(out, &self.topics)?;
        Ok(())
    }

    fn deduct_from(&self, budget: usize) -> Option<usize> {
        let budget = deduct_string(&self.transactional_id, budget)?;
        let budget = deduct(8, budget)?;
        let budget = deduct(2, budget)?;
        deduct_array(&self.topics, budget)
    }
}

impl Wire for AddedPartition {
    ghost use Rattle.msg_txn.specs.AddPartitions.{added_partition};

    ghost grammar = { added_partition };

    fn read(alloc: Global, cursor: &mut Cursor<'_>) -> Result<AddedPartition, ReadFault> {
        let index = cursor.read_i32()?;
        let error = ErrorCode::read(alloc, cursor)?;
        Ok(AddedPartition { index, error })
    }

    fn put(&self, out: &mut Vec<u8>) -> Result<(), WriteFault> {
        write_i32(out, self.index)?;
        self.error.write(out)?;
        Ok(())
    }

    fn deduct_from(&self, budget: usize) -> Option<usize> {
        let budget = deduct(4, budget)?;
        self.error.deduct_from(budget)
    }
}

impl Wire for AddPartitionsToTxnReply {
    ghost use Rattle.msg_txn.specs.AddPartitions.{add_partitions_to_txn_reply};

    ghost grammar = { add_partitions_to_txn_reply };

    fn read(alloc: Global, cursor: &mut Cursor<'_>) -> Result<AddPartitionsToTxnReply, ReadFault> {
        let throttle = cursor.read_i32()?;
        let topics = read_array(alloc, cursor)?;
        Ok(AddPartitionsToTxnReply { throttle, topics })
    }

    fn put(&self, out: &mut Vec<u8>) -> Result<(), WriteFault> {
        write_i32(out, self.throttle)?;
        write_array(out, &self.topics)?;
        Ok(())
    }

    fn deduct_from(&self, budget: usize) -> Option<usize> {
        let budget = deduct(4, budget)?;
        deduct_array(&self.topics, budget)
    }
}
