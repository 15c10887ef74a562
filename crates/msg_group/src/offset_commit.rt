//! OffsetCommit, version 2: a group's offsets are committed.

use std::alloc::Global;
use wire_types::{
    Cursor, ErrorCode, Items, ReadFault, Text, Topic, Wire, WriteFault, deduct, deduct_array,
    deduct_nullable, deduct_string, read_array, write_array, write_i32, write_i64, write_nullable,
    write_string,
};

/// A partition and the offset to commit there, with the client's metadata.
#[derive(Drop, PartialEq, Eq)]
pub struct OffsetToCommit {
    pub index: i32,
    pub offset: i64,
    pub metadata: Option<Text>,
}

/// Asks to commit offsets of a group, as a member of a generation or, with generation -1 and an empty member id, as none.
#[derive(Drop, PartialEq, Eq)]
pub struct OffsetCommitRequest {
    pub group: Text,
    pub generation: i32,
    pub member: Text,
    /// How long, in milliseconds, the offsets are to be kept. It is read and ignored: they are kept without end.
    pub retention: i64,
    pub topics: Items<Topic<OffsetToCommit>>,
}

/// Whether the partition's offset was committed: error code 0, or why not.
#[derive(Drop, PartialEq, Eq)]
pub struct CommittedOffset {
    pub index: i32,
    pub error: ErrorCode,
}

/// Whether each partition's offset was committed, in the request's order.
#[derive(Drop, PartialEq, Eq)]
pub struct OffsetCommitReply {
    pub topics: Items<Topic<CommittedOffset>>,
}

impl Wire for OffsetToCommit {
    ghost use Rattle.msg_group.specs.OffsetCommit.{offset_to_commit};

    ghost grammar = { offset_to_commit };

    fn read(alloc: Global, cursor: &mut Cursor<'_>) -> Result<OffsetToCommit, ReadFault> {
        let index = cursor.read_i32()?;
        let offset = cursor.read_i64()?;
        let metadata = cursor.read_nullable(alloc)?;
        Ok(OffsetToCommit {
            index,
            offset,
            metadata,
        })
    }

    fn put(&self, out: &mut Vec<u8>) -> Result<(), WriteFault> {
        write_i32(out, self.index)?;
        write_i64(out, self.offset)?;
        write_nullable(out, &self.metadata)?;
        Ok(())
    }

    fn deduct_from(&self, budget: usize) -> Option<usize> {
        let budget = deduct(4, budget)?;
        let budget = deduct(8, budget)?;
        deduct_nullable(&self.metadata, budget)
    }
}

impl Wire for OffsetCommitRequest {
    ghost use Rattle.msg_group.specs.OffsetCommit.{offset_commit_request};

    ghost grammar = { offset_commit_request };

    fn read(alloc: Global, cursor: &mut Cursor<'_>) -> Result<OffsetCommitRequest, ReadFault> {
        let group = cursor.read_string(alloc)?;
        let generation = cursor.read_i32()?;
        let member = cursor.read_string(alloc)?;
        let retention = cursor.read_i64()?;
        let topics = read_array(alloc, cursor)?;
        Ok(OffsetCommitRequest {
            group,
            generation,
            member,
            retention,
            topics,
        })
    }

    fn put(&self, out: &mut Vec<u8>) -> Result<(), WriteFault> {
        write_string(out, &self.group)?;
        write_i32(out, self.generation)?;
        write_string(out, &self.member)?;
        write_i64(out, self.retention)?;
        write_array(out, &self.topics)?;
        Ok(())
    }

    fn deduct_from(&self, budget: usize) -> Option<usize> {
        let budget = deduct_string(&self.group, budget)?;
        let budget = deduct(4, budget)?;
        let budget = deduct_string(&self.member, budget)?;
        let budget = deduct(8, budget)?;
        deduct_array(&self.topics, budget)
    }
}

impl Wire for CommittedOffset {
    ghost use Rattle.msg_group.specs.OffsetCommit.{committed_offset};

    ghost grammar = { committed_offset };

    fn read(alloc: Global, cursor: &mut Cursor<'_>) -> Result<CommittedOffset, ReadFault> {
        let index = cursor.read_i32()?;
        let error = ErrorCode::read(alloc, cursor)?;
        Ok(CommittedOffset { index, error })
    }

    fn put(&self, out: &mut Vec<u8>) -> Result<(), WriteFault> {
        write_i32(out, self.index)?;
        self.error.write(out)?;
        Ok(())
    }

    fn deduct_from(&self, budget: usize) -> Option<usize> {
        let budget = deduct(4, budget)?;
        self.error.deduct_from(budget)
    }
}

impl Wire for OffsetCommitReply {
    ghost use Rattle.msg_group.specs.OffsetCommit.{offset_commit_reply};

    ghost grammar = { offset_commit_reply };

    fn read(alloc: Global, cursor: &mut Cursor<'_>) -> Result<OffsetCommitReply, ReadFault> {
        let topics = read_array(alloc, cursor)?;
        Ok(OffsetCommitReply { topics })
    }

    fn put(&self, out: &mut Vec<u8>) -> Result<(), WriteFault> {
        write_array(out, &self.topics)?;
        Ok(())
    }

    fn deduct_from(&self, budget: usize) -> Option<usize> {
        deduct_array(&self.topics, budget)
    }
}
