//! TxnOffsetCommit, version 3: offsets that are committed with a transaction.

use std::alloc::Global;
use wire_types::{
    Cursor, ErrorCode, Items, ReadFault, Text, Topic, Wire, WriteFault, deduct,
    deduct_compact_nullable, deduct_compact_string, deduct_flexible_topics, read_flexible_topics,
    write_compact_nullable, write_compact_string, write_flexible_topics, write_i16, write_i32,
    write_i64, write_no_tags,
};

/// A partition and the offset to commit there, with the client's metadata.
#[derive(Drop, PartialEq, Eq)]
pub struct OffsetToStage {
    pub index: i32,
    pub offset: i64,
    /// The leader epoch of the last record that was consumed. It is read and ignored.
    pub leader_epoch: i32,
    pub metadata: Option<Text>,
}

/// Asks to commit offsets of a consumer group as part of a producer's transaction.
#[derive(Drop, PartialEq, Eq)]
pub struct TxnOffsetCommitRequest {
    pub transactional_id: Text,
    pub group: Text,
    pub producer: i64,
    pub epoch: i16,
    pub generation: i32,
    pub member: Text,
    /// The group instance id of a static member (KIP-345). It is read and ignored.
    pub instance: Option<Text>,
    pub topics: Items<Topic<OffsetToStage>>,
}

/// Whether the partition's offset is staged until the transaction ends: error code 0, or why not.
#[derive(Drop, PartialEq, Eq)]
pub struct StagedOffset {
    pub index: i32,
    pub error: ErrorCode,
}

/// Whether each partition's offset is staged, in the request's order.
#[derive(Drop, PartialEq, Eq)]
pub struct TxnOffsetCommitReply {
    pub throttle: i32,
    pub topics: Items<Topic<StagedOffset>>,
}

impl Wire for OffsetToStage {
    ghost use Rattle.msg_txn.specs.TxnOffsetCommit.{offset_to_stage};

    ghost grammar = { offset_to_stage };

    fn read(alloc: Global, cursor: &mut Cursor<'_>) -> Result<OffsetToStage, ReadFault> {
        let index = cursor.read_i32()?;
        let offset = cursor.read_i64()?;
        let leader_epoch = cursor.read_i32()?;
        let metadata = cursor.read_compact_nullable(alloc)?;
        cursor.skip_tags()?;
        Ok(OffsetToStage {
            index,
            offset,
            leader_epoch,
            metadata,
        })
    }

    fn put(&self, out: &mut Vec<u8>) -> Result<(), WriteFault> {
        write_i32(out, self.index)?;
        write_i64(out, self.offset)?;
        write_i32(out, self.leader_epoch)?;
        write_compact_nullable(out, &self.metadata)?;
        write_no_tags(out)?;
        Ok(())
    }

    fn deduct_from(&self, budget: usize) -> Option<usize> {
        let budget = deduct(4, budget)?;
        let budget = deduct(8, budget)?;
        let budget = deduct(4, budget)?;
        let budget = deduct_compact_nullable(&self.metadata, budget)?;
        deduct(1, budget)
    }
}

impl Wire for TxnOffsetCommitRequest {
    ghost use Rattle.msg_txn.specs.TxnOffsetCommit.{txn_offset_commit_request};

    ghost grammar = { txn_offset_commit_request };

    fn read(alloc: Global, cursor: &mut Cursor<'_>) -> Result<TxnOffsetCommitRequest, ReadFault> {
        let transactional_id = cursor.read_compact_string(alloc)?;
        let group = cursor.read_compact_string(alloc)?;
        let producer = cursor.read_i64()?;
        let epoch = cursor.read_i16()?;
        let generation = cursor.read_i32()?;
        let member = cursor.read_compact_string(alloc)?;
        let instance = cursor.read_compact_nullable(alloc)?;
        let topics = read_flexible_topics(alloc, cursor)?;
        cursor.skip_tags()?;
        Ok(TxnOffsetCommitRequest {
            transactional_id,
            group,
            producer,
            epoch,
            generation,
            member,
            instance,
            topics,
        })
    }

    fn put(&self, out: &mut Vec<u8>) -> Result<(), WriteFault> {
        write_compact_string(out, &self.transactional_id)?;
        write_compact_string(out, &self.group)?;
        write_i64(out, self.producer)?;
        write_i16(out, self.epoch)?;
        write_i32(out, self.generation)?;
        write_compact_string(out, &self.member)?;
        write_compact_nullable(out, &self.instance)?;
        write_flexible_topics(out, &self.topics)?;
        write_no_tags(out)?;
        Ok(())
    }

    fn deduct_from(&self, budget: usize) -> Option<usize> {
        let budget = deduct_compact_string(&self.transactional_id, budget)?;
        let budget = deduct_compact_string(&self.group, budget)?;
        let budget = deduct(8, budget)?;
        let budget = deduct(2, budget)?;
        let budget = deduct(4, budget)?;
        let budget = deduct_compact_string(&self.member, budget)?;
        let budget = deduct_compact_nullable(&self.instance, budget)?;
        let budget = deduct_flexible_topics(&self.topics, budget)?;
        deduct(1, budget)
    }
}

impl Wire for StagedOffset {
    ghost use Rattle.msg_txn.specs.TxnOffsetCommit.{staged_offset};

    ghost grammar = { staged_offset };

    fn read(alloc: Global, cursor: &mut Cursor<'_>) -> Result<StagedOffset, ReadFault> {
        let index = cursor.read_i32()?;
        let error = ErrorCode::read(alloc, cursor)?;
        cursor.skip_tags()?;
        Ok(StagedOffset { index, error })
    }

    fn put(&self, out: &mut Vec<u8>) -> Result<(), WriteFault> {
        write_i32(out, self.index)?;
        self.error.write(out)?;
        write_no_tags(out)?;
        Ok(())
    }

    fn deduct_from(&self, budget: usize) -> Option<usize> {
        let budget = deduct(4, budget)?;
        let budget = self.error.deduct_from(budget)?;
        deduct(1, budget)
    }
}

impl Wire for TxnOffsetCommitReply {
    ghost use Rattle.msg_txn.specs.TxnOffsetCommit.{txn_offset_commit_reply};

    ghost grammar = { txn_offset_commit_reply };

    fn read(alloc: Global, cursor: &mut Cursor<'_>) -> Result<TxnOffsetCommitReply, ReadFault> {
        let throttle = cursor.read_i32()?;
        let topics = read_flexible_topics(alloc, cursor)?;
        cursor.skip_tags()?;
        Ok(TxnOffsetCommitReply { throttle, topics })
    }

    fn put(&self, out: &mut Vec<u8>) -> Result<(), WriteFault> {
        write_i32(out, self.throttle)?;
        write_flexible_topics(out, &self.topics)?;
        write_no_tags(out)?;
        Ok(())
    }

    fn deduct_from(&self, budget: usize) -> Option<usize> {
        let budget = deduct(4, budget)?;
        let budget = deduct_flexible_topics(&self.topics, budget)?;
        deduct(1, budget)
    }
}
