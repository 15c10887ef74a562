//! Texts of UTF-8: STRING, NULLABLE_STRING, COMPACT_STRING, COMPACT_NULLABLE_STRING.

ghost use Rattle.std.specs.Io.{StartsWith};
ghost use Rattle.std.specs.Prelude.{◌≡◌, ◌+◌, ◌<◌, ◌^◌, None, Some, OnErr, Ok, Err};
ghost use Rattle.wire_types.specs.Reading.{Reads, utf8_at};
ghost use Rattle.wire_types.specs.Writing.{Puts};
ghost use Rattle.wire_types.specs.Spelling.{left_after, varint_written};
ghost use Rattle.wire_types.specs.Schema.{string, nullable_string, compact_string, compact_nullable_string};

use crate::budget::deduct;
use crate::counts::{
    deduct_compact_count, deduct_count16, write_compact_count, write_compact_null, write_count16,
    write_null16,
};
use crate::cursor::Cursor;
use crate::fault::{Malformed, ReadFault, WriteFault};
use crate::text::Text;
use crate::wire::Wire;
use std::alloc::Global;

impl<'a> Cursor<'a> {
    /// Reads the next `len` bytes as a text: a part of the shared bytes, or a copy where the cursor has none. `Malformed::Short`
    /// where fewer are left, `Malformed::Utf8` where they aren't UTF-8.
    #[tactic(auto, unfolding(crate::specs::Reading::utf8_at))]
    fn read_utf8(&mut self, alloc: Global, len: usize) -> Result<Text, ReadFault>
        ensures { Reads (utf8_at len self.old) result self.new }
    {
        let front = self.read_shared(alloc, len)?;
        match Text::from_shared(front) {
            Some(text) => Ok(text),
            None => Err(ReadFault::Malformed(Malformed::Utf8)),
        }
    }

    /// Reads a STRING of the protocol guide: a length in two bytes (INT16), and a text of so many bytes. `Malformed::Range` for a
    /// negative length; else as `read_utf8`.
    #[tactic(auto, unfolding(crate::specs::Reading::after_count_at))]
    pub fn read_string(&mut self, alloc: Global) -> Result<Text, ReadFault>
        ensures { Reads (string.reading self.old) result self.new }
    {
        let len = self.read_count16()?;
        self.read_utf8(alloc, len as usize)
    }

    /// Reads a NULLABLE_STRING: as `read_string`, but None where the length is -1.
    #[tactic(auto, unfolding(crate::specs::Reading::after_null_count_at, crate::specs::Reading::null_or))]
    pub fn read_nullable(&mut self, alloc: Global) -> Result<Option<Text>, ReadFault>
        ensures { Reads (nullable_string.reading self.old) result self.new }
    {
        match self.read_null_count16()? {
            None => Ok(None),
            Some(len) => Ok(Some(self.read_utf8(alloc, len as usize)?)),
        }
    }

    /// Reads a COMPACT_STRING: the length plus one as an UNSIGNED_VARINT, and a text of so many bytes. `Malformed::Range` where
    /// the number is 0 (null); else as `read_utf8`.
    #[tactic(auto, using(crate::proofs::Announced::content_after, crate::proofs::Announced::utf8_refused))]
    pub fn read_compact_string(&mut self, alloc: Global) -> Result<Text, ReadFault>
        ensures { Reads (compact_string.reading self.old) result self.new }
    {
        let len = self.read_compact_count()?;
        self.read_utf8(alloc, len as usize)
    }

    /// Reads a COMPACT_NULLABLE_STRING: as `read_compact_string`, but None where the first number is 0.
    #[tactic(auto, unfolding(crate::specs::Reading::after_null_count_at, crate::specs::Reading::null_or))]
    pub fn read_compact_nullable(&mut self, alloc: Global) -> Result<Option<Text>, ReadFault>
        ensures { Reads (compact_nullable_string.reading self.old) result self.new }
    {
        match self.read_compact_null_count()? {
            None => Ok(None),
            Some(len) => Ok(Some(self.read_utf8(alloc, len as usize)?)),
        }
    }
}

/// Appends a STRING. `TooLong` above 32767 bytes. An error leaves `out` as it was.
#[tactic(auto, unfolding(crate::specs::Spelling::after_count_fits))]
pub fn write_string(out: &mut Vec<u8>, value: &Text) -> Result<(), WriteFault>
    ensures spelled { Puts string value.now out.old.items result out.new.items }
    ensures err { OnErr result (out.new.items ≡ out.old.items) }
    ensures grown { StartsWith out.new.items out.old.items }
{
    let start = out.len();
    write_count16(out, value.len())?;
    let rest = out.extend_from_slice(value.as_bytes());
    if rest.is_err() {
        out.truncate(start);
    }
    Ok(rest?)
}

/// Appends a NULLABLE_STRING: as `write_string`, but None as the length -1.
#[tactic(auto, unfolding(crate::specs::Spelling::after_count_fits, crate::specs::Spelling::after_null_count_fits, crate::specs::Spelling::after_null_count_put, crate::specs::Spelling::null_count_fits, crate::specs::Spelling::compact_null_count_fits))]
pub fn write_nullable(out: &mut Vec<u8>, value: &Option<Text>) -> Result<(), WriteFault>
    ensures spelled { Puts nullable_string value.now out.old.items result out.new.items }
    ensures err { OnErr result (out.new.items ≡ out.old.items) }
    ensures grown { StartsWith out.new.items out.old.items }
{
    match value {
        None => write_null16(out)?,
        Some(value) => write_string(out, value)?,
    }
    Ok(())
}

/// Appends a COMPACT_STRING. `TooLong` above 2^32 - 2 bytes. An error leaves `out` as it was.
#[tactic(auto, unfolding(crate::specs::Spelling::after_count_fits))]
pub fn write_compact_string(out: &mut Vec<u8>, value: &Text) -> Result<(), WriteFault>
    ensures spelled { Puts compact_string value.now out.old.items result out.new.items }
    ensures err { OnErr result (out.new.items ≡ out.old.items) }
    ensures grown { StartsWith out.new.items out.old.items }
{
    let start = out.len();
    write_compact_count(out, value.len())?;
    let rest = out.extend_from_slice(value.as_bytes());
    if rest.is_err() {
        out.truncate(start);
    }
    Ok(rest?)
}

/// Appends a COMPACT_NULLABLE_STRING: as `write_compact_string`, but None as the number 0.
#[tactic(auto, unfolding(crate::specs::Spelling::after_count_fits, crate::specs::Spelling::after_null_count_fits, crate::specs::Spelling::after_null_count_put, crate::specs::Spelling::null_count_fits, crate::specs::Spelling::compact_null_count_fits))]
pub fn write_compact_nullable(out: &mut Vec<u8>, value: &Option<Text>) -> Result<(), WriteFault>
    ensures spelled { Puts compact_nullable_string value.now out.old.items result out.new.items }
    ensures err { OnErr result (out.new.items ≡ out.old.items) }
    ensures grown { StartsWith out.new.items out.old.items }
{
    match value {
        None => write_compact_null(out)?,
        Some(value) => write_compact_string(out, value)?,
    }
    Ok(())
}

/// How many of `budget` bytes are left after the text as a STRING. None where it needs more, or is too long for its length field.
pub fn deduct_string(value: &Text, budget: usize) -> Option<usize>
    ensures { result ≡ string.left value.now budget }
{
    let budget = deduct_count16(value.len(), budget)?;
    deduct(value.len(), budget)
}

/// As `deduct_string`, but for a NULLABLE_STRING: a null takes two bytes.
#[tactic(auto, unfolding(crate::specs::Spelling::after_null_count_left, crate::specs::Spelling::null_count_fits))]
pub fn deduct_nullable(value: &Option<Text>, budget: usize) -> Option<usize>
    ensures { result ≡ nullable_string.left value.now budget }
{
    match value {
        None => deduct(2, budget),
        Some(value) => deduct_string(value, budget),
    }
}

/// How many of `budget` bytes are left after the text as a COMPACT_STRING. None where it needs more, or is too long for its
/// length field.
pub fn deduct_compact_string(value: &Text, budget: usize) -> Option<usize>
    ensures { result ≡ compact_string.left value.now budget }
{
    let budget = deduct_compact_count(value.len(), budget)?;
    deduct(value.len(), budget)
}

/// As `deduct_compact_string`, but for a COMPACT_NULLABLE_STRING: a null takes one byte.
#[tactic(auto, unfolding(crate::specs::Spelling::after_null_count_left, crate::specs::Spelling::null_count_fits, crate::specs::Spelling::compact_null_count_fits, crate::specs::Spelling::compact_null_count_written, crate::specs::Spelling::varint_written))]
pub fn deduct_compact_nullable(value: &Option<Text>, budget: usize) -> Option<usize>
    ensures { result ≡ compact_nullable_string.left value.now budget }
{
    match value {
        None => deduct(1, budget),
        Some(value) => deduct_compact_string(value, budget),
    }
}

impl Wire for Text {
    ghost grammar = { string };

    fn read(alloc: Global, cursor: &mut Cursor<'_>) -> Result<Text, ReadFault> {
        cursor.read_string(alloc)
    }

    fn put(&self, out: &mut Vec<u8>) -> Result<(), WriteFault> {
        write_string(out, self)
    }

    fn deduct_from(&self, budget: usize) -> Option<usize> {
        deduct_string(self, budget)
    }
}
