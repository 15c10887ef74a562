//! ListOffsets, version 2: where the log of a partition begins, or ends for a reader.

use crate::isolation::Isolation;
use std::alloc::Global;
use wire_types::{
    Cursor, ErrorCode, Items, ReadFault, Topic, Wire, WriteFault, deduct, deduct_array, read_array,
    write_array, write_i32, write_i64,
};

/// A partition and the timestamp whose offset is asked for: -1 asks for the end (the last stable offset with read_committed, else
/// the high watermark), -2 for the start. Any other is answered INVALID_REQUEST.
#[derive(Drop, PartialEq, Eq)]
pub struct WantedOffset {
    pub index: i32,
    pub timestamp: i64,
}

/// Asks for offsets of partitions, as a reader of this isolation level sees them.
#[derive(Drop, PartialEq, Eq)]
pub struct ListOffsetsRequest {
    /// The replica id, -1 from a consumer. It is read and ignored.
    pub replica: i32,
    pub isolation: Isolation,
    pub topics: Items<Topic<WantedOffset>>,
}

/// What a partition answers: an error with -1 for timestamp and offset, or the offset that was found, with timestamp -1.
#[derive(Drop, PartialEq, Eq)]
pub struct FoundOffset {
    pub index: i32,
    pub error: ErrorCode,
    pub timestamp: i64,
    pub offset: i64,
}

/// What each partition answers, in the request's order.
#[derive(Drop, PartialEq, Eq)]
pub struct ListOffsetsReply {
    pub throttle: i32,
    pub topics: Items<Topic<FoundOffset>>,
}

impl Wire for WantedOffset {
    ghost use Rattle.msg_data.specs.ListOffsets.{wanted_offset};

    ghost grammar = { wanted_offset };

    fn read(_alloc: Global, cursor: &mut Cursor<'_>) -> Result<WantedOffset, ReadFault> {
        let index = cursor.read_i32()?;
        let timestamp = cursor.read_i64()?;
        Ok(WantedOffset { index, timestamp })
    }

    fn put(&self, out: &mut Vec<u8>) -> Result<(), WriteFault> {
        write_i32(out, self.index)?;
        write_i64(out, self.timestamp)?;
        Ok(())
    }

    fn deduct_from(&self, budget: usize) -> Option<usize> {
        let budget = deduct(4, budget)?;
        deduct(8, budget)
    }
}

impl Wire for ListOffsetsRequest {
    ghost use Rattle.msg_data.specs.ListOffsets.{list_offsets_request};

    ghost grammar = { list_offsets_request };

    fn read(alloc: Global, cursor: &mut Cursor<'_>) -> Result<ListOffsetsRequest, ReadFault> {
        let replica = cursor.read_i32()?;
        let isolation = Isolation::read(alloc, cursor)?;
        let topics = read_array(alloc, cursor)?;
        Ok(ListOffsetsRequest {
            replica,
            isolation,
            topics,
        })
    }

    fn put(&self, out: &mut Vec<u8>) -> Result<(), WriteFault> {
        write_i32(out, self.replica)?;
        self.isolation.write(out)?;
        write_array(out, &self.topics)?;
        Ok(())
    }

    fn deduct_from(&self, budget: usize) -> Option<usize> {
        let budget = deduct(4, budget)?;
        let budget = self.isolation.deduct_from(budget)?;
        deduct_array(&self.topics, budget)
    }
}

impl Wire for FoundOffset {
    ghost use Rattle.msg_data.specs.ListOffsets.{found_offset};

    ghost grammar = { found_offset };

    fn read(alloc: Global, cursor: &mut Cursor<'_>) -> Result<FoundOffset, ReadFault> {
        let index = cursor.read_i32()?;
        let error = ErrorCode::read(alloc, cursor)?;
        let timestamp = cursor.read_i64()?;
        let offset = cursor.read_i64()?;
        Ok(FoundOffset {
            index,
            error,
            timestamp,
            offset,
        })
    }

    fn put(&self, out: &mut Vec<u8>) -> Result<(), WriteFault> {
        write_i32(out, self.index)?;
        self.error.write(out)?;
        write_i64(out, self.timestamp)?;
        write_i64(out, self.offset)?;
        Ok(())
    }

    fn deduct_from(&self, budget: usize) -> Option<usize> {
        let budget = deduct(4, budget)?;
        let budget = self.error.deduct_from(budget)?;
        let budget = deduct(8, budget)?;
        deduct(8, budget)
    }
}

impl Wire for ListOffsetsReply {
    ghost use Rattle.msg_data.specs.ListOffsets.{list_offsets_reply};

    ghost grammar = { list_offsets_reply };

    fn read(alloc: Global, cursor: &mut Cursor<'_>) -> Result<ListOffsetsReply, ReadFault> {
        let throttle = cursor.read_i32()?;
        let topics = read_array(alloc, cursor)?;
        Ok(ListOffsetsReply { throttle, topics })
    }

    fn put(&self, out: &mut Vec<u8>) -> Result<(), WriteFault> {
        write_i32(out, self.throttle)?;
        write_array(out, &self.topics)?;
        Ok(())
    }

    fn deduct_from(&self, budget: usize) -> Option<usize> {
        let budget = deduct(4, budget)?;
        deduct_array(&self.topics, budget)
    }
}
