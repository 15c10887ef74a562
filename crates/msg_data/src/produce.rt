//! Produce, version 3: batches of records to be appended to partitions.

ghost use Rattle.std.specs.Io.{StartsWith};
ghost use Rattle.std.specs.Prelude.{◌≡◌, OnErr};
ghost use Rattle.wire_types.specs.Reading.{Reads};
ghost use Rattle.wire_types.specs.Schema.{nullable_bytes, nullable_string};
ghost use Rattle.wire_types.specs.Writing.{Puts};

use record_batch::SentBatch;
use std::alloc::Global;
use wire_types::{
    Boxed, Cursor, ErrorCode, Items, ReadFault, Text, Topic, Wire, WriteFault, deduct,
    deduct_array, deduct_bytes, deduct_nullable, deduct_nullable_bytes, deduct_string, read_array,
    write_array, write_bytes, write_i16, write_i32, write_i64, write_nullable,
    write_nullable_bytes, write_string,
};

/// A partition and the batch to append there, None where the records are null. `SentBatch` holds the first fault of a bad one.
#[derive(Drop, PartialEq, Eq)]
pub struct ProducedRecords {
    pub index: i32,
    pub records: Option<SentBatch>,
}

/// Asks for batches of records to be appended to partitions. With acks 0 no response is sent; the timeout, in milliseconds, is
/// ignored.
#[derive(Drop, PartialEq, Eq)]
pub struct ProduceRequest {
    /// In a block of its own, since most requests have none.
    pub transactional_id: Option<Boxed<Text>>,
    pub acks: i16,
    pub timeout: i32,
    pub topics: Items<Topic<ProducedRecords>>,
}

/// What became of a partition's batch: the offset of its first record, or an error and -1. `log_append_time` is -1 always, as
/// topics use CreateTime.
#[derive(Drop, PartialEq, Eq)]
pub struct ProducedOffset {
    pub index: i32,
    pub error: ErrorCode,
    pub base_offset: i64,
    pub log_append_time: i64,
}

/// What became of each batch, in the request's order.
#[derive(Drop, PartialEq, Eq)]
pub struct ProduceReply {
    pub topics: Items<Topic<ProducedOffset>>,
    pub throttle: i32,
}

/// Reads the nullable records of a partition, checks the batch and keeps its first fault; None for null records. A faulty batch
/// is no `ReadFault`: that is only for bytes that end too early, a length below -1, or an allocation failure.
fn read_records(alloc: Global, cursor: &mut Cursor<'_>) -> Result<Option<SentBatch>, ReadFault>
    ensures { Reads (nullable_bytes.reading cursor.old) result cursor.new }
{
    match cursor.read_nullable_bytes(alloc)? {
        Some(bytes) => Ok(Some(SentBatch::of(bytes))),
        None => Ok(None),
    }
}

/// Appends the records of a partition after their length of 32 bits, or the length -1 for None. An error leaves `out` as it was.
#[tactic(auto, unfolding(wire_types::specs::Spelling::after_count_fits, wire_types::specs::Spelling::after_null_count_fits, wire_types::specs::Spelling::after_null_count_put, wire_types::specs::Spelling::null_count_fits))]
fn write_records(out: &mut Vec<u8>, records: &Option<SentBatch>) -> Result<(), WriteFault>
    ensures spelled { Puts nullable_bytes records.now out.old.items result out.new.items }
    ensures err { OnErr result (out.new.items ≡ out.old.items) }
    ensures grown { StartsWith out.new.items out.old.items }
{
    match records {
        Some(records) => write_bytes(out, records.bytes()),
        None => write_nullable_bytes(out, &None),
    }
}

/// How many of `budget` bytes are left after the records of a partition and their length. None where they need more, or are too
/// many for the length.
#[tactic(auto, unfolding(wire_types::specs::Spelling::after_null_count_left, wire_types::specs::Spelling::null_count_fits))]
fn deduct_records(records: &Option<SentBatch>, budget: usize) -> Option<usize>
    ensures { result ≡ nullable_bytes.left records.now budget }
{
    match records {
        Some(records) => deduct_bytes(records.bytes(), budget),
        None => deduct_nullable_bytes(&None, budget),
    }
}

/// Reads a transactional id, or None for null. The error is `Malformed`, or an allocation failure.
fn read_transactional_id(
    alloc: Global,
    cursor: &mut Cursor<'_>,
) -> Result<Option<Boxed<Text>>, ReadFault>
    ensures { Reads (nullable_string.reading cursor.old) result cursor.new }
{
    match cursor.read_nullable(alloc)? {
        Some(id) => Ok(Some(Boxed::new(alloc, id)?)),
        None => Ok(None),
    }
}

/// Appends a transactional id, or null for None. `TooLong` where it is too long for its length field. An error leaves `out` as it
/// was.
#[tactic(auto, unfolding(wire_types::specs::Spelling::after_count_fits, wire_types::specs::Spelling::after_null_count_fits, wire_types::specs::Spelling::after_null_count_put, wire_types::specs::Spelling::null_count_fits, wire_types::specs::Spelling::compact_null_count_fits))]
fn write_transactional_id(out: &mut Vec<u8>, id: &Option<Boxed<Text>>) -> Result<(), WriteFault>
    ensures spelled { Puts nullable_string id.now out.old.items result out.new.items }
    ensures err { OnErr result (out.new.items ≡ out.old.items) }
    ensures grown { StartsWith out.new.items out.old.items }
{
    match id {
        Some(id) => write_string(out, id.value()),
        None => write_nullable(out, &None),
    }
}

/// How many of `budget` bytes are left after a transactional id, or null. None where it needs more, or is too long for its
/// length field.
#[tactic(auto, unfolding(wire_types::specs::Spelling::after_null_count_left, wire_types::specs::Spelling::null_count_fits))]
fn deduct_transactional_id(id: &Option<Boxed<Text>>, budget: usize) -> Option<usize>
    ensures { result ≡ nullable_string.left id.now budget }
{
    match id {
        Some(id) => deduct_string(id.value(), budget),
        None => deduct_nullable(&None, budget),
    }
}

impl Wire for ProducedRecords {
    ghost use Rattle.msg_data.specs.Produce.{produced_records};

    ghost grammar = { produced_records };

    fn read(alloc: Global, cursor: &mut Cursor<'_>) -> Result<ProducedRecords, ReadFault> {
        let index = cursor.read_i32()?;
        let records = read_records(alloc, cursor)?;
        Ok(ProducedRecords { index, records })
    }

    fn put(&self, out: &mut Vec<u8>) -> Result<(), WriteFault> {
        write_i32(out, self.index)?;
        write_records(out, &self.records)?;
        Ok(())
    }

    fn deduct_from(&self, budget: usize) -> Option<usize> {
        let budget = deduct(4, budget)?;
        deduct_records(&self.records, budget)
    }
}

impl Wire for ProduceRequest {
    ghost use Rattle.msg_data.specs.Produce.{produce_request};

    ghost grammar = { produce_request };

    fn read(alloc: Global, cursor: &mut Cursor<'_>) -> Result<ProduceRequest, ReadFault> {
        let transactional_id = read_transactional_id(alloc, cursor)?;
        let acks = cursor.read_i16()?;
        let timeout = cursor.read_i32()?;
        let topics = read_array(alloc, cursor)?;
        Ok(ProduceRequest {
            transactional_id,
            acks,
            timeout,
            topics,
        })
    }

    fn put(&self, out: &mut Vec<u8>) -> Result<(), WriteFault> {
        write_transactional_id(out, &self.transactional_id)?;
        write_i16(out, self.acks)?;
        write_i32(out, self.timeout)?;
        write_array(out, &self.topics)?;
        Ok(())
    }

    fn deduct_from(&self, budget: usize) -> Option<usize> {
        let budget = deduct_transactional_id(&self.transactional_id, budget)?;
        let budget = deduct(2, budget)?;
        let budget = deduct(4, budget)?;
        deduct_array(&self.topics, budget)
    }
}

impl Wire for ProducedOffset {
    ghost use Rattle.msg_data.specs.Produce.{produced_offset};

    ghost grammar = { produced_offset };

    fn read(alloc: Global, cursor: &mut Cursor<'_>) -> Result<ProducedOffset, ReadFault> {
        let index = cursor.read_i32()?;
        let error = ErrorCode::read(alloc, cursor)?;
        let base_offset = cursor.read_i64()?;
        let log_append_time = cursor.read_i64()?;
        Ok(ProducedOffset {
            index,
            error,
            base_offset,
            log_append_time,
        })
    }

    fn put(&self, out: &mut Vec<u8>) -> Result<(), WriteFault> {
        write_i32(out, self.index)?;
        self.error.write(out)?;
        write_i64(out, self.base_offset)?;
        write_i64(out, self.log_append_time)?;
        Ok(())
    }

    fn deduct_from(&self, budget: usize) -> Option<usize> {
        let budget = deduct(4, budget)?;
        let budget = self.error.deduct_from(budget)?;
        let budget = deduct(8, budget)?;
        deduct(8, budget)
    }
}

impl Wire for ProduceReply {
    ghost use Rattle.msg_data.specs.Produce.{produce_reply};

    ghost grammar = { produce_reply };

    fn read(alloc: Global, cursor: &mut Cursor<'_>) -> Result<ProduceReply, ReadFault> {
        let topics = read_array(alloc, cursor)?;
        let throttle = cursor.read_i32()?;
        Ok(ProduceReply { topics, throttle })
    }

    fn put(&self, out: &mut Vec<u8>) -> Result<(), WriteFault> {
        write_array(out, &self.topics)?;
        write_i32(out, self.throttle)?;
        Ok(())
    }

    fn deduct_from(&self, budget: usize) -> Option<usize> {
        let budget = deduct_array(&self.topics, budget)?;
        deduct(4, budget)
    }
}
