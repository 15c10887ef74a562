//! Walking over records, which takes no memory and keeps nothing. Each function refuses just what its reading counterpart does.

ghost use Rattle.std.specs.Prelude.{◌≡◌, MatchResult, Ok, Err, is_ok};
ghost use Rattle.wire_types.specs.Reading.{Takes, skipped_if_found, many_at};
ghost use Rattle.wire_types.specs.Schema.{varint_bytes, varint_nullable_bytes, varint_array};
ghost use Rattle.record_batch.specs.CombinatorLaws.{filled_at};
ghost use Rattle.record_batch.specs.Record.{header, record_parts, record_at, records_at, all_records};

use crate::record::read_head;
use wire_types::{Cursor, Malformed};

/// Reads bytes with their length before them as a VARINT, as a header's key has it. `Malformed::Range` for a negative length,
/// `Malformed::Short` where fewer bytes are left.
#[tactic(auto, using(wire_types::proofs::Announced::content_after, wire_types::proofs::Announced::front_refused))]
fn read_bytes<'a>(cursor: &mut Cursor<'a>) -> Result<&'a [u8], Malformed>
    ensures { MatchResult result (λ x. varint_bytes.reading cursor.old ≡ Ok (x.now, cursor.new))
        (λ e. varint_bytes.reading cursor.old ≡ Err e) }
{
    let len = cursor.read_varint_count()?;
    cursor.read_front(len as usize)
}

/// Passes over bytes with their length before them as a VARINT, where -1 is null. `Malformed::Range` for a lesser length,
/// `Malformed::Short` where fewer bytes are left.
#[tactic(auto, unfolding(wire_types::specs::Reading::after_null_count_at, wire_types::specs::Reading::null_or, wire_types::specs::Reading::null_count_at, wire_types::specs::Reading::null_or_count))]
fn skip_nullable_bytes(cursor: &mut Cursor<'_>) -> Result<(), Malformed>
    ensures { Takes (skipped_if_found (varint_nullable_bytes.reading cursor.old)) result
        cursor.new }
{
    let len = cursor.read_varint()?;
    if len < -1 {
        return Err(Malformed::Range);
    }
    if len >= 0 {
        cursor.read_front(len as usize)?;
    }
    Ok(())
}

/// Passes over one header of a record: its key and its nullable value.
fn skip_header(cursor: &mut Cursor<'_>) -> Result<(), Malformed>
    ensures { Takes (skipped_if_found (header.reading cursor.old)) result cursor.new }
{
    read_bytes(cursor)?;
    skip_nullable_bytes(cursor)
}

/// Passes over `count` headers of a record.
fn skip_some_headers(cursor: &mut Cursor<'_>, count: u32) -> Result<(), Malformed>
    ensures { Takes (skipped_if_found (many_at header.reading count cursor.old)) result cursor.new }
{
    for _ in 0..count {
        skip_header(cursor)?;
    }
    Ok(())
}

/// Passes over a record's headers with their count before them.
#[tactic(auto, using(wire_types::proofs::Announced::many_after, wire_types::proofs::Announced::many_refused))]
fn skip_headers(cursor: &mut Cursor<'_>) -> Result<(), Malformed>
    ensures { Takes (skipped_if_found ((varint_array header).reading cursor.old)) result
        cursor.new }
{
    let count = cursor.read_varint_count()?;
    skip_some_headers(cursor, count)
}

/// Passes over a record without the length before it. `place` is its place in its batch, counted from 0.
fn skip_parts(cursor: &mut Cursor<'_>, place: u32) -> Result<(), Malformed>
    ensures { Takes (skipped_if_found ((record_parts place).reading cursor.old)) result cursor.new }
{
    read_head(cursor, place)?;
    skip_nullable_bytes(cursor)?;
    skip_nullable_bytes(cursor)?;
    skip_headers(cursor)
}

/// As `skip_parts`, for a record that has to fill `len` bytes: `Malformed::Rest` where it takes fewer, `Malformed::Short` where
/// it needs more.
#[tactic(auto, unfolding(crate::specs::CombinatorLaws::whole_value))]
fn skip_filled(cursor: &mut Cursor<'_>, place: u32, len: u32) -> Result<(), Malformed>
    ensures { Takes (skipped_if_found (filled_at (record_parts place).reading len cursor.old))
        result cursor.new }
{
    let mut part = Cursor::new(cursor.read_front(len as usize)?);
    skip_parts(&mut part, place)?;
    if part.len() != 0 {
        return Err(Malformed::Rest);
    }
    Ok(())
}

/// Passes over a record with its length before it, as a VARINT. `place` is its place in its batch, counted from 0.
#[tactic(auto, using(crate::proofs::Sized::sized_after, crate::proofs::Sized::sized_refused))]
fn skip_record(cursor: &mut Cursor<'_>, place: u32) -> Result<(), Malformed>
    ensures { Takes (skipped_if_found (record_at place cursor.old)) result cursor.new }
{
    let len = cursor.read_varint_count()?;
    skip_filled(cursor, place, len)
}

/// Passes over the `count` records of a batch, of which the first has place 0.
fn skip_records(cursor: &mut Cursor<'_>, count: u32) -> Result<(), Malformed>
    ensures { Takes (skipped_if_found (records_at 0 count cursor.old)) result cursor.new }
{
    for place in 0..count {
        skip_record(cursor, place)?;
    }
    Ok(())
}

/// Whether the bytes are exactly `count` well-formed records of a batch, the first at place 0, and no bytes more.
#[tactic(auto, unfolding(crate::specs::CombinatorLaws::whole_value))]
pub(crate) fn are_records(bytes: &[u8], count: u32) -> bool
    ensures { result ≡ is_ok (all_records count bytes.now) }
{
    let mut cursor = Cursor::new(bytes);
    match skip_records(&mut cursor, count) {
        Ok(()) => cursor.len() == 0,
        Err(_) => false,
    }
}
