//! Fetch, version 4: the records of partitions from an offset on.

use crate::isolation::Isolation;
use std::alloc::Global;
use wire_types::{
    Cursor, ErrorCode, Items, Pieces, ReadFault, Topic, Wire, WriteFault, deduct, deduct_array,
    deduct_nullable_array, deduct_pieces, read_array, read_nullable_array, write_array, write_i32,
    write_i64, write_nullable_array, write_pieces,
};

/// A partition to fetch from: the first offset that is wanted, and at most how many bytes.
#[derive(Drop, PartialEq, Eq)]
pub struct FetchPartition {
    pub index: i32,
    pub offset: i64,
    pub max_bytes: i32,
}

/// Asks for records of partitions.
#[derive(Drop, PartialEq, Eq)]
pub struct FetchRequest {
    /// The replica id, -1 from a consumer. It is read and ignored.
    pub replica: i32,
    /// How long, in milliseconds, an answer with neither a record nor an error may be held back. The core answers at once; only
    /// the session may hold it back (`serve` for librdkafka), for at most 100 ms.
    pub max_wait: i32,
    /// The number of bytes to wait for. It is read and ignored.
    pub min_bytes: i32,
    /// At most how many bytes of batches the whole answer has, but for a first batch that is larger.
    pub max_bytes: i32,
    pub isolation: Isolation,
    pub topics: Items<Topic<FetchPartition>>,
}

/// An aborted transaction among the served offsets: its producer id, and the offset of its first record.
#[derive(Clone, Copy, Debug, PartialEq, Eq)]
pub struct AbortedTransaction {
    pub producer: i64,
    pub first_offset: i64,
}

/// What a partition answers to a Fetch: an error, or its batches, its high watermark and its last stable offset. `aborted` lists
/// the aborted transactions for read_committed, and is null for read_uncommitted and with an error.
#[derive(Drop, PartialEq, Eq)]
pub struct FetchedRecords {
    pub index: i32,
    pub error: ErrorCode,
    pub high_watermark: i64,
    pub last_stable_offset: i64,
    pub aborted: Option<Items<AbortedTransaction>>,
    pub records: Pieces,
}

/// What each partition answers, in the request's order. Throttle times of all replies are in milliseconds, and 0 here.
#[derive(Drop, PartialEq, Eq)]
pub struct FetchReply {
    pub throttle: i32,
    pub topics: Items<Topic<FetchedRecords>>,
}

impl Wire for FetchPartition {
    ghost use Rattle.msg_data.specs.Fetch.{fetch_partition};

    ghost grammar = { fetch_partition };

    fn read(_alloc: Global, cursor: &mut Cursor<'_>) -> Result<FetchPartition, ReadFault> {
        let index = cursor.read_i32()?;
        let offset = cursor.read_i64()?;
        let max_bytes = cursor.read_i32()?;
        Ok(FetchPartition {
            index,
            offset,
            max_bytes,
        })
    }

    fn put(&self, out: &mut Vec<u8>) -> Result<(), WriteFault> {
        write_i32(out, self.index)?;
        write_i64(out, self.offset)?;
        write_i32(out, self.max_bytes)?;
        Ok(())
    }

    fn deduct_from(&self, budget: usize) -> Option<usize> {
        let budget = deduct(4, budget)?;
        let budget = deduct(8, budget)?;
        deduct(4, budget)
    }
}

impl Wire for FetchRequest {
    ghost use Rattle.msg_data.specs.Fetch.{fetch_request};

    ghost grammar = { fetch_request };

    fn read(alloc: Global, cursor: &mut Cursor<'_>) -> Result<FetchRequest, ReadFault> {
        let replica = cursor.read_i32()?;
        let max_wait = cursor.read_i32()?;
        let min_bytes = cursor.read_i32()?;
        let max_bytes = cursor.read_i32()?;
        let isolation = Isolation::read(alloc, cursor)?;
        let topics = read_array(alloc, cursor)?;
        Ok(FetchRequest {
            replica,
            max_wait,
            min_bytes,
            max_bytes,
            isolation,
            topics,
        })
    }

    fn put(&self, out: &mut Vec<u8>) -> Result<(), WriteFault> {
        write_i32(out, self.replica)?;
        write_i32(out, self.max_wait)?;
        write_i32(out, self.min_bytes)?;
        write_i32(out, self.max_bytes)?;
        self.isolation.write(out)?;
        write_array(out, &self.topics)?;
        Ok(())
    }

    fn deduct_from(&self, budget: usize) -> Option<usize> {
        let budget = deduct(4, budget)?;
        let budget = deduct(4, budget)?;
        let budget = deduct(4, budget)?;
        let budget = deduct(4, budget)?;
        let budget = self.isolation.deduct_from(budget)?;
        deduct_array(&self.topics, budget)
    }
}

impl Wire for AbortedTransaction {
    ghost use Rattle.msg_data.specs.Fetch.{aborted_transaction};

    ghost grammar = { aborted_transaction };

    fn read(_alloc: Global, cursor: &mut Cursor<'_>) -> Result<AbortedTransaction, ReadFault> {
        let producer = cursor.read_i64()?;
        let first_offset = cursor.read_i64()?;
        Ok(AbortedTransaction {
            producer,
            first_offset,
        })
    }

    fn put(&self, out: &mut Vec<u8>) -> Result<(), WriteFault> {
        write_i64(out, self.producer)?;
        write_i64(out, self.first_offset)?;
        Ok(())
    }

    fn deduct_from(&self, budget: usize) -> Option<usize> {
        let budget = deduct(8, budget)?;
        deduct(8, budget)
    }
}

impl Wire for FetchedRecords {
    ghost use Rattle.msg_data.specs.Fetch.{fetched_records};

    ghost grammar = { fetched_records };

    fn read(alloc: Global, cursor: &mut Cursor<'_>) -> Result<FetchedRecords, ReadFault> {
        let index = cursor.read_i32()?;
        let error = ErrorCode::read(alloc, cursor)?;
        let high_watermark = cursor.read_i64()?;
        let last_stable_offset = cursor.read_i64()?;
        let aborted = read_nullable_array(alloc, cursor)?;
        let records = cursor.read_pieces(alloc)?;
        Ok(FetchedRecords {
            index,
            error,
            high_watermark,
            last_stable_offset,
            aborted,
            records,
        })
    }

    fn put(&self, out: &mut Vec<u8>) -> Result<(), WriteFault> {
        write_i32(out, self.index)?;
        self.error.write(out)?;
        write_i64(out, self.high_watermark)?;
        write_i64(out, self.last_stable_offset)?;
        write_nullable_array(out, &self.aborted)?;
        write_pieces(out, &self.records)?;
        Ok(())
    }

    fn deduct_from(&self, budget: usize) -> Option<usize> {
        let budget = deduct(4, budget)?;
        let budget = self.error.deduct_from(budget)?;
        let budget = deduct(8, budget)?;
        let budget = deduct(8, budget)?;
        let budget = deduct_nullable_array(&self.aborted, budget)?;
        deduct_pieces(&self.records, budget)
    }
}

impl Wire for FetchReply {
    ghost use Rattle.msg_data.specs.Fetch.{fetch_reply};

    ghost grammar = { fetch_reply };

    fn read(alloc: Global, cursor: &mut Cursor<'_>) -> Result<FetchReply, ReadFault> {
        let throttle = cursor.read_i32()?;
        let topics = read_array(alloc, cursor)?;
        Ok(FetchReply { throttle, topics })
    }

    fn put(&self, out: &mut Vec<u8>) -> Result<(), WriteFault> {
        write_i32(out, self.throttle)?;
        write_array(out, &self.topics)?;
        Ok(())
    }

    fn deduct_from(&self, budget: usize) -> Option<usize> {
        let budget = deduct(4, budget)?;
        deduct_array(&self.topics, budget)
    }
}
