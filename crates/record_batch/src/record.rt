//! Records, and how they are read.

ghost use Rattle.std.specs.Prelude.{◌≡◌, ◌+ℤ◌, pos, FitsSigned};
ghost use Rattle.std.specs.Int.{w64};
ghost use Rattle.std.specs.Ordering.{int_eq};
ghost use Rattle.wire_types.specs.Reading.{Reads, Takes};
ghost use Rattle.record_batch.specs.CombinatorLaws.{filled_at};
ghost use Rattle.record_batch.specs.Record.{record_head, record_parts, record_at, records_at};
ghost use Rattle.record_batch.specs.Batch.{placed_if_found, record_at_place};

use crate::header::BatchHeader;
use std::alloc::Global;
use wire_types::{
    Bytes, Cursor, Items, Malformed, ReadFault, Wire, WriteFault, deduct_varint_bytes,
    deduct_varint_nullable_bytes, read_varint_array, write_varint_bytes,
    write_varint_nullable_bytes,
};

/// A record's header, a key and a value. The key is bytes here and needn't be UTF-8.
#[derive(Clone, Debug, Drop, PartialEq, Eq)]
pub struct Header {
    pub key: Bytes,
    pub value: Option<Bytes>,
}

/// A record, whose parts share its batch's bytes.
#[derive(Clone, Debug, Drop, PartialEq, Eq)]
pub struct Rec {
    /// Milliseconds after the batch's base timestamp.
    pub timestamp_delta: i64,
    pub key: Option<Bytes>,
    pub value: Option<Bytes>,
    pub headers: Items<Header>,
}

/// A record and its offset.
#[derive(Clone, Debug, Drop, PartialEq, Eq)]
pub struct RecordAt {
    pub offset: i64,
    pub rec: Rec,
}

impl Wire for Header {
    ghost use Rattle.record_batch.specs.Record.{header};

    ghost grammar = { header };

    fn read(alloc: Global, cursor: &mut Cursor<'_>) -> Result<Header, ReadFault> {
        let key = cursor.read_varint_bytes(alloc)?;
        let value = cursor.read_varint_nullable_bytes(alloc)?;
        Ok(Header { key, value })
    }

    fn put(&self, out: &mut Vec<u8>) -> Result<(), WriteFault> {
        write_varint_bytes(out, &self.key)?;
        write_varint_nullable_bytes(out, &self.value)?;
        Ok(())
    }

    fn deduct_from(&self, budget: usize) -> Option<usize> {
        let budget = deduct_varint_bytes(&self.key, budget)?;
        deduct_varint_nullable_bytes(&self.value, budget)
    }
}

/// Whether a record's offset delta is its place in the batch, where the first record's place is 0.
fn is_place(delta: i32, place: u32) -> bool
    ensures { result ≡ int_eq delta (pos place) }
{
    i64::from(delta) == i64::from(place)
}

/// Reads a record's attributes, which are ignored, its timestamp delta, which is returned, and its offset delta.
/// `Malformed::Range` where the offset delta isn't `place`, the record's place in the batch, counted from 0.
#[tactic(auto, unfolding(crate::specs::CombinatorLaws::fixed_at))]
pub(crate) fn read_head(cursor: &mut Cursor<'_>, place: u32) -> Result<i64, Malformed>
    ensures { Takes ((record_head place).reading cursor.old) result cursor.new }
{
    cursor.read_i8()?;
    let timestamp_delta = cursor.read_varlong()?;
    let offset_delta = cursor.read_varint()?;
    if !is_place(offset_delta, place) {
        return Err(Malformed::Range);
    }
    Ok(timestamp_delta)
}

/// Reads a record without the length before it. `place` is its place in its batch, counted from 0.
fn read_parts(alloc: Global, cursor: &mut Cursor<'_>, place: u32) -> Result<Rec, ReadFault>
    ensures { Reads ((record_parts place).reading cursor.old) result cursor.new }
{
    let timestamp_delta = read_head(cursor, place)?;
    let key = cursor.read_varint_nullable_bytes(alloc)?;
    let value = cursor.read_varint_nullable_bytes(alloc)?;
    let headers = read_varint_array(alloc, cursor)?;
    Ok(Rec {
        timestamp_delta,
        key,
        value,
        headers,
    })
}

/// As `read_parts`, for a record that has to fill `len` bytes: `Malformed::Rest` where it takes fewer, `Malformed::Short` where
/// it needs more.
#[tactic(auto, unfolding(crate::specs::CombinatorLaws::whole_value))]
fn read_filled(
    alloc: Global,
    cursor: &mut Cursor<'_>,
    place: u32,
    len: u32,
) -> Result<Rec, ReadFault>
    ensures { Reads (filled_at (record_parts place).reading len cursor.old) result cursor.new }
{
    let text = cursor.read_shared(alloc, len as usize)?;
    let mut part = Cursor::over(&text);
    let rec = read_parts(alloc, &mut part, place)?;
    if part.len() != 0 {
        return Err(ReadFault::Malformed(Malformed::Rest));
    }
    Ok(rec)
}

/// Reads a record with its length before it, as a VARINT. `place` is its place in its batch, counted from 0.
#[tactic(auto, using(crate::proofs::Sized::sized_after, crate::proofs::Sized::sized_refused))]
fn read_record(alloc: Global, cursor: &mut Cursor<'_>, place: u32) -> Result<Rec, ReadFault>
    ensures { Reads (record_at place cursor.old) result cursor.new }
{
    let len = cursor.read_varint_count()?;
    read_filled(alloc, cursor, place, len)
}

impl Rec {
    /// The record with its offset, which is its batch's base offset plus its place in the batch. The sum has to fit in an `i64`.
    fn at(self, header: &BatchHeader, place: u32) -> RecordAt
        requires { FitsSigned w64 (header.now.base_offset +ℤ pos place) }
        ensures { result ≡ record_at_place header.now.base_offset place self }
    {
        RecordAt {
            offset: header.base_offset + i64::from(place),
            rec: self,
        }
    }
}

/// Reads the `count` records of a batch, which stand one after the other, and returns them with their offsets. The offset after
/// the last has to fit in an `i64`.
pub(crate) fn read_records(
    alloc: Global,
    cursor: &mut Cursor<'_>,
    header: &BatchHeader,
    count: u32,
) -> Result<Items<RecordAt>, ReadFault>
    requires { FitsSigned w64 (header.now.base_offset +ℤ pos count) }
    ensures { Reads (placed_if_found header.now.base_offset 0 (records_at 0 count cursor.old)) result
        cursor.new }
{
    let mut recs = Items::new(alloc);
    let _base = header.base_offset;
    for place in 0..count {
        let rec = read_record(alloc, cursor, place)?;
        recs.push(rec.at(header, place))?;
    }
    Ok(recs)
}
