//! Values one after the other after their count: ARRAY, nullable ARRAY, COMPACT_ARRAY, and those whose count is a VARINT.

ghost use Rattle.std.specs.Io.{StartsWith};
ghost use Rattle.std.specs.Prelude.{◌≡◌, ◌+◌, ◌<◌, ◌++◌, ◌^◌, None, Some, OnErr, Ok, Err};
ghost use Rattle.wire_types.specs.Reading.{Reads, many_at, all_at};
ghost use Rattle.wire_types.specs.Writing.{Writes, Puts};
ghost use Rattle.wire_types.specs.Spelling.{left_after, varint_written, many_fit, many_written, many_left};
ghost use Rattle.wire_types.specs.Combinators.{items};
ghost use Rattle.wire_types.specs.Schema.{array, nullable_array, compact_array, compact_nullable_array, varint_array};

use crate::budget::deduct;
use crate::counts::{
    deduct_compact_count, deduct_count, deduct_varint_count, write_compact_count,
    write_compact_null, write_count, write_null, write_varint_count,
};
use crate::cursor::Cursor;
use crate::fault::{Malformed, ReadFault, WriteFault};
use crate::items::Items;
use crate::wire::Wire;
use std::alloc::Global;

/// Reads `count` values one after the other. Memory is taken at once, for as many values as there are bytes left at most, since
/// each value has a byte at least.
fn read_many<T: Wire>(
    alloc: Global,
    cursor: &mut Cursor<'_>,
    count: u32,
) -> Result<Items<T>, ReadFault>
    ensures { Reads (many_at T.grammar.reading count cursor.old) result cursor.new }
{
    let most = cursor.len().min(count as usize);
    let mut items = Items::with_capacity(alloc, most)?;
    for _ in 0..count {
        items.push(T::read(alloc, cursor)?)?;
    }
    Ok(items)
}

/// Reads `count` values. `Malformed::Short` for a count above the number of bytes left, before any value is read.
#[tactic(auto, unfolding(crate::specs::Reading::items_at))]
fn read_items<T: Wire>(
    alloc: Global,
    cursor: &mut Cursor<'_>,
    count: u32,
) -> Result<Items<T>, ReadFault>
    ensures { Reads ((items T.grammar).reading count cursor.old) result cursor.new }
{
    if cursor.len() < count as usize {
        return Err(ReadFault::Malformed(Malformed::Short));
    }
    read_many(alloc, cursor, count)
}

/// Reads `count` values, which have to be all the bytes that are left: `Malformed::Rest` where bytes follow them.
#[tactic(auto, unfolding(crate::specs::Reading::all_at))]
pub fn read_all<T: Wire>(
    alloc: Global,
    cursor: &mut Cursor<'_>,
    count: u32,
) -> Result<Items<T>, ReadFault>
    ensures { Reads (all_at T.grammar.reading count cursor.old) result cursor.new }
{
    let items = read_many(alloc, cursor, count)?;
    if cursor.len() != 0 {
        return Err(ReadFault::Malformed(Malformed::Rest));
    }
    Ok(items)
}

/// Appends the values one after the other, without their count. An error leaves `out` as it was.
#[tactic(auto, unfolding(crate::specs::Spelling::many_fit, crate::specs::Spelling::many_written))]
fn write_many<T: Wire>(out: &mut Vec<u8>, items: &[T]) -> Result<(), WriteFault>
    ensures spelled { Writes (many_fit T.grammar.fits items.now)
        (out.old.items ++ many_written T.grammar.written items.now) result out.new.items }
    ensures err { OnErr result (out.new.items ≡ out.old.items) }
    ensures grown { StartsWith out.new.items out.old.items }
{
    let start = out.len();
    for item in items {
        match item.write(out) {
            Ok(()) => {}
            Err(fault) => {
                out.truncate(start);
                return Err(fault);
            }
        }
    }
    Ok(())
}

/// How many of `budget` bytes are left after these values, one after the other and without their count. None where they need
/// more, or where a length or a count is too large for its field.
fn deduct_all<T: Wire>(items: &[T], budget: usize) -> Option<usize>
    ensures { result ≡ many_left T.grammar.left items.now budget }
{
    let mut left = budget;
    for item in items {
        left = item.deduct_from(left)?;
    }
    Some(left)
}

/// Reads an ARRAY of the protocol guide: a count in four bytes (INT32), and that many values. `Malformed::Range` for a negative
/// count, `Malformed::Short` for one above the number of bytes left.
#[tactic(auto, using(crate::proofs::Announced::many_after, crate::proofs::Announced::many_refused))]
pub fn read_array<T: Wire>(alloc: Global, cursor: &mut Cursor<'_>) -> Result<Items<T>, ReadFault>
    ensures { Reads ((array T.grammar).reading cursor.old) result cursor.new }
{
    match cursor.read_count() {
        Ok(count) => read_many(alloc, cursor, count),
        Err(malformed) => Err(ReadFault::from(malformed)),
    }
}

/// Appends an ARRAY. `TooLong` where a count or a length is too large for its field. An error leaves `out` as it was.
#[tactic(auto, unfolding(crate::specs::Spelling::after_count_fits))]
pub fn write_array<T: Wire>(out: &mut Vec<u8>, items: &Items<T>) -> Result<(), WriteFault>
    ensures spelled { Puts (array T.grammar) items.now out.old.items result out.new.items }
    ensures err { OnErr result (out.new.items ≡ out.old.items) }
    ensures grown { StartsWith out.new.items out.old.items }
{
    let start = out.len();
    write_count(out, items.len())?;
    let rest = write_many(out, items.as_slice());
    if rest.is_err() {
        out.truncate(start);
    }
    rest
}

/// How many of `budget` bytes are left after the values as an ARRAY. None where they need more, or where a length or a count is
/// too large for its field.
pub fn deduct_array<T: Wire>(items: &Items<T>, budget: usize) -> Option<usize>
    ensures { result ≡ (array T.grammar).left items.now budget }
{
    let budget = deduct_count(items.len(), budget)?;
    deduct_all(items.as_slice(), budget)
}

/// Reads a nullable ARRAY: as `read_array`, but None where the count is -1.
#[tactic(auto, unfolding(crate::specs::Reading::after_null_count_at, crate::specs::Reading::null_or))]
pub fn read_nullable_array<T: Wire>(
    alloc: Global,
    cursor: &mut Cursor<'_>,
) -> Result<Option<Items<T>>, ReadFault>
    ensures { Reads ((nullable_array T.grammar).reading cursor.old) result cursor.new }
{
    match cursor.read_null_count()? {
        None => Ok(None),
        Some(count) => Ok(Some(read_items(alloc, cursor, count)?)),
    }
}

/// As `write_array`, but None is written as the count -1.
#[tactic(auto, unfolding(crate::specs::Spelling::after_count_fits, crate::specs::Spelling::after_null_count_fits, crate::specs::Spelling::after_null_count_put, crate::specs::Spelling::null_count_fits, crate::specs::Spelling::compact_null_count_fits))]
pub fn write_nullable_array<T: Wire>(
    out: &mut Vec<u8>,
    items: &Option<Items<T>>,
) -> Result<(), WriteFault>
    ensures spelled { Puts (nullable_array T.grammar) items.now out.old.items result out.new.items }
    ensures err { OnErr result (out.new.items ≡ out.old.items) }
    ensures grown { StartsWith out.new.items out.old.items }
{
    match items {
        None => write_null(out)?,
        Some(items) => write_array(out, items)?,
    }
    Ok(())
}

/// As `deduct_array`, but for a nullable ARRAY: its null takes four bytes.
#[tactic(auto, unfolding(crate::specs::Spelling::after_null_count_left, crate::specs::Spelling::null_count_fits))]
pub fn deduct_nullable_array<T: Wire>(items: &Option<Items<T>>, budget: usize) -> Option<usize>
    ensures { result ≡ (nullable_array T.grammar).left items.now budget }
{
    match items {
        None => deduct(4, budget),
        Some(items) => deduct_array(items, budget),
    }
}

/// Reads a COMPACT_ARRAY: the count plus one as an UNSIGNED_VARINT, and that many values. `Malformed::Range` where the number is
/// 0 (null), `Malformed::Short` for a count above the number of bytes left.
#[tactic(auto, using(crate::proofs::Announced::many_after, crate::proofs::Announced::many_refused))]
pub fn read_compact_array<T: Wire>(
    alloc: Global,
    cursor: &mut Cursor<'_>,
) -> Result<Items<T>, ReadFault>
    ensures { Reads ((compact_array T.grammar).reading cursor.old) result cursor.new }
{
    match cursor.read_compact_count() {
        Ok(count) => read_many(alloc, cursor, count),
        Err(malformed) => Err(ReadFault::from(malformed)),
    }
}

/// Appends a COMPACT_ARRAY. `TooLong` where a count or a length is too large for its field. An error leaves `out` as it was.
#[tactic(auto, unfolding(crate::specs::Spelling::after_count_fits))]
pub fn write_compact_array<T: Wire>(out: &mut Vec<u8>, items: &Items<T>) -> Result<(), WriteFault>
    ensures spelled { Puts (compact_array T.grammar) items.now out.old.items result out.new.items }
    ensures err { OnErr result (out.new.items ≡ out.old.items) }
    ensures grown { StartsWith out.new.items out.old.items }
{
    let start = out.len();
    write_compact_count(out, items.len())?;
    let rest = write_many(out, items.as_slice());
    if rest.is_err() {
        out.truncate(start);
    }
    rest
}

/// How many of `budget` bytes are left after the values as a COMPACT_ARRAY. None where they need more, or where a length or a
/// count is too large for its field.
pub fn deduct_compact_array<T: Wire>(items: &Items<T>, budget: usize) -> Option<usize>
    ensures { result ≡ (compact_array T.grammar).left items.now budget }
{
    let budget = deduct_compact_count(items.len(), budget)?;
    deduct_all(items.as_slice(), budget)
}

/// Reads a nullable COMPACT_ARRAY: as `read_compact_array`, but None where the first number is 0.
#[tactic(auto, unfolding(crate::specs::Reading::after_null_count_at, crate::specs::Reading::null_or))]
pub fn read_compact_nullable_array<T: Wire>(
    alloc: Global,
    cursor: &mut Cursor<'_>,
) -> Result<Option<Items<T>>, ReadFault>
    ensures { Reads ((compact_nullable_array T.grammar).reading cursor.old) result cursor.new }
{
    match cursor.read_compact_null_count()? {
        None => Ok(None),
        Some(count) => Ok(Some(read_items(alloc, cursor, count)?)),
    }
}

/// As `write_compact_array`, but None is written as the number 0.
#[tactic(auto, unfolding(crate::specs::Spelling::after_count_fits, crate::specs::Spelling::after_null_count_fits, crate::specs::Spelling::after_null_count_put, crate::specs::Spelling::null_count_fits, crate::specs::Spelling::compact_null_count_fits))]
pub fn write_compact_nullable_array<T: Wire>(
    out: &mut Vec<u8>,
    items: &Option<Items<T>>,
) -> Result<(), WriteFault>
    ensures spelled { Puts (compact_nullable_array T.grammar) items.now out.old.items result
        out.new.items }
    ensures err { OnErr result (out.new.items ≡ out.old.items) }
    ensures grown { StartsWith out.new.items out.old.items }
{
    match items {
        None => write_compact_null(out)?,
        Some(items) => write_compact_array(out, items)?,
    }
    Ok(())
}

/// As `deduct_compact_array`, but for a nullable COMPACT_ARRAY: its null takes one byte.
#[tactic(auto, unfolding(crate::specs::Spelling::after_null_count_left, crate::specs::Spelling::null_count_fits, crate::specs::Spelling::compact_null_count_fits, crate::specs::Spelling::compact_null_count_written, crate::specs::Spelling::varint_written))]
pub fn deduct_compact_nullable_array<T: Wire>(
    items: &Option<Items<T>>,
    budget: usize,
) -> Option<usize>
    ensures { result ≡ (compact_nullable_array T.grammar).left items.now budget }
{
    match items {
        None => deduct(1, budget),
        Some(items) => deduct_compact_array(items, budget),
    }
}

/// Reads an array as the headers of a record are: a count as a VARINT, and that many values. `Malformed::Range` for a negative
/// count, `Malformed::Short` for one above the number of bytes left.
#[tactic(auto, using(crate::proofs::Announced::many_after, crate::proofs::Announced::many_refused))]
pub fn read_varint_array<T: Wire>(
    alloc: Global,
    cursor: &mut Cursor<'_>,
) -> Result<Items<T>, ReadFault>
    ensures { Reads ((varint_array T.grammar).reading cursor.old) result cursor.new }
{
    match cursor.read_varint_count() {
        Ok(count) => read_many(alloc, cursor, count),
        Err(malformed) => Err(ReadFault::from(malformed)),
    }
}

/// Appends an array whose count is a VARINT. `TooLong` where a count or a length is too large for its field. An error leaves
/// `out` as it was.
#[tactic(auto, unfolding(crate::specs::Spelling::after_count_fits))]
pub fn write_varint_array<T: Wire>(out: &mut Vec<u8>, items: &Items<T>) -> Result<(), WriteFault>
    ensures spelled { Puts (varint_array T.grammar) items.now out.old.items result out.new.items }
    ensures err { OnErr result (out.new.items ≡ out.old.items) }
    ensures grown { StartsWith out.new.items out.old.items }
{
    let start = out.len();
    write_varint_count(out, items.len())?;
    let rest = write_many(out, items.as_slice());
    if rest.is_err() {
        out.truncate(start);
    }
    rest
}

/// How many of `budget` bytes are left after an array whose count is a VARINT. None where they need more, or where a length or a
/// count is too large for its field.
pub fn deduct_varint_array<T: Wire>(items: &Items<T>, budget: usize) -> Option<usize>
    ensures { result ≡ (varint_array T.grammar).left items.now budget }
{
    let budget = deduct_varint_count(items.len(), budget)?;
    deduct_all(items.as_slice(), budget)
}

impl<T: Wire> Wire for Items<T> {
    ghost grammar = { array T.grammar };

    fn read(alloc: Global, cursor: &mut Cursor<'_>) -> Result<Items<T>, ReadFault> {
        read_array(alloc, cursor)
    }

    fn put(&self, out: &mut Vec<u8>) -> Result<(), WriteFault> {
        write_array(out, self)
    }

    fn deduct_from(&self, budget: usize) -> Option<usize> {
        deduct_array(self, budget)
    }
}
