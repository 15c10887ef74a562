//! OffsetFetch, version 7: the offsets that a group has committed.

use std::alloc::Global;
use wire_types::{
    Cursor, ErrorCode, Items, ReadFault, Text, Topic, Wire, WriteFault, deduct,
    deduct_compact_nullable, deduct_compact_string, deduct_flexible_topics,
    deduct_nullable_flexible_topics, read_flexible_topics, read_nullable_flexible_topics,
    write_bool, write_compact_nullable, write_compact_string, write_flexible_topics, write_i32,
    write_i64, write_no_tags, write_nullable_flexible_topics,
};

/// Asks for a group's committed offsets of these partitions, or of all that have one where the list is null. With
/// `require_stable` a partition with an offset staged by an open transaction answers UNSTABLE_OFFSET_COMMIT (KIP-447).
#[derive(Drop, PartialEq, Eq)]
pub struct OffsetFetchRequest {
    pub group: Text,
    pub topics: Option<Items<Topic<i32>>>,
    pub require_stable: bool,
}

/// What a partition answers: its committed offset with the client's metadata, offset -1 where there is none, or an error.
#[derive(Drop, PartialEq, Eq)]
pub struct FetchedOffset {
    pub index: i32,
    pub offset: i64,
    /// -1 always: leader epochs of commits aren't kept.
    pub leader_epoch: i32,
    pub metadata: Option<Text>,
    pub error: ErrorCode,
}

/// What each partition answers; in the request's order, where it named partitions. `error` is that of the whole request.
#[derive(Drop, PartialEq, Eq)]
pub struct OffsetFetchReply {
    pub throttle: i32,
    pub topics: Items<Topic<FetchedOffset>>,
    pub error: ErrorCode,
}

impl Wire for OffsetFetchRequest {
    ghost use Rattle.msg_group.specs.OffsetFetch.{offset_fetch_request};

    ghost grammar = { offset_fetch_request };

    fn read(alloc: Global, cursor: &mut Cursor<'_>) -> Result<OffsetFetchRequest, ReadFault> {
        let group = cursor.read_compact_string(alloc)?;
        let topics = read_nullable_flexible_topics(alloc, cursor)?;
        let require_stable = cursor.read_bool()?;
        cursor.skip_tags()?;
        Ok(OffsetFetchRequest {
            group,
            topics,
            require_stable,
        })
    }

    fn put(&self, out: &mut Vec<u8>) -> Result<(), WriteFault> {
        write_compact_string(out, &self.group)?;
        write_nullable_flexible_topics(out, &self.topics)?;
        write_bool(out, self.require_stable)?;
        write_no_tags(out)?;
        Ok(())
    }

    fn deduct_from(&self, budget: usize) -> Option<usize> {
        let budget = deduct_compact_string(&self.group, budget)?;
        let budget = deduct_nullable_flexible_topics(&self.topics, budget)?;
        let budget = deduct(1, budget)?;
        deduct(1, budget)
    }
}

impl Wire for FetchedOffset {
    ghost use Rattle.msg_group.specs.OffsetFetch.{fetched_offset};

    ghost grammar = { fetched_offset };

    fn read(alloc: Global, cursor: &mut Cursor<'_>) -> Result<FetchedOffset, ReadFault> {
        let index = cursor.read_i32()?;
        let offset = cursor.read_i64()?;
        let leader_epoch = cursor.read_i32()?;
        let metadata = cursor.read_compact_nullable(alloc)?;
        let error = ErrorCode::read(alloc, cursor)?;
        cursor.skip_tags()?;
        Ok(FetchedOffset {
            index,
            offset,
            leader_epoch,
            metadata,
            error,
        })
    }

    fn put(&self, out: &mut Vec<u8>) -> Result<(), WriteFault> {
        write_i32(out, self.index)?;
        write_i64(out, self.offset)?;
        write_i32(out, self.leader_epoch)?;
        write_compact_nullable(out, &self.metadata)?;
        self.error.write(out)?;
        write_no_tags(out)?;
        Ok(())
    }

    fn deduct_from(&self, budget: usize) -> Option<usize> {
        let budget = deduct(4, budget)?;
        let budget = deduct(8, budget)?;
        let budget = deduct(4, budget)?;
        let budget = deduct_compact_nullable(&self.metadata, budget)?;
        let budget = self.error.deduct_from(budget)?;
        deduct(1, budget)
    }
}

impl Wire for OffsetFetchReply {
    ghost use Rattle.msg_group.specs.OffsetFetch.{offset_fetch_reply};

    ghost grammar = { offset_fetch_reply };

    fn read(alloc: Global, cursor: &mut Cursor<'_>) -> Result<OffsetFetchReply, ReadFault> {
        let throttle = cursor.read_i32()?;
        let topics = read_flexible_topics(alloc, cursor)?;
        let error = ErrorCode::read(alloc, cursor)?;
        cursor.skip_tags()?;
        Ok(OffsetFetchReply {
            throttle,
            topics,
            error,
        })
    }

    fn put(&self, out: &mut Vec<u8>) -> Result<(), WriteFault> {
        write_i32(out, self.throttle)?;
        write_flexible_topics(out, &self.topics)?;
        self.error.write(out)?;
        write_no_tags(out)?;
        Ok(())
    }

    fn deduct_from(&self, budget: usize) -> Option<usize> {
        let budget = deduct(4, budget)?;
        let budget = deduct_flexible_topics(&self.topics, budget)?;
        let budget = self.error.deduct_from(budget)?;
        deduct(1, budget)
    }
}
