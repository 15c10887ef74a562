//! Lengths and counts, in each form that stands before a text, bytes or an array.

ghost use Rattle.std.specs.Io.{StartsWith};
ghost use Rattle.std.specs.Prelude.{◌≡◌, ◌+◌, ◌<◌, ◌^◌, length, None, Some, OnOk, OnErr, Ok, Err, nat_lt, if◌then◌else◌};
ghost use Rattle.wire_types.specs.Reading.{Takes, counted_at};
ghost use Rattle.wire_types.specs.declared.fault.Malformed.TheVariants.{Short};
ghost use Rattle.wire_types.specs.Writing.{Puts};
ghost use Rattle.wire_types.specs.Spelling.{left_after};
ghost use Rattle.wire_types.specs.Schema.{null_count16, null_count32, compact_null_count, varint_null_count, varint_count, count16, count32, compact_count};

use crate::budget::deduct;
use crate::cursor::Cursor;
use crate::fault::{Malformed, WriteFault};
use crate::numbers::{write_i16, write_i32};
use crate::varints::{deduct_varint, varint_len, write_uvarint, write_varint};
use std::alloc::AllocError;

impl<'a> Cursor<'a> {
    /// Reads a count in two bytes (INT16), or None for -1. `Malformed::Range` for another negative number; the bytes left aren't
    /// counted here.
    #[tactic(auto, unfolding(crate::specs::Reading::null_count_at, crate::specs::Reading::null_or_count))]
    pub(crate) fn read_null_count16(&mut self) -> Result<Option<u16>, Malformed>
        ensures { Takes (null_count16.reading self.old) result self.new }
    {
        let count = self.read_i16()?;
        if count < -1 {
            return Err(Malformed::Range);
        }
        Ok(if count == -1 {
            None
        } else {
            Some(count as u16)
        })
    }

    /// As `read_null_count16`, but -1 is `Malformed::Range` too.
    #[tactic(auto, unfolding(crate::specs::Reading::required_at, crate::specs::Reading::not_null))]
    pub(crate) fn read_count16(&mut self) -> Result<u16, Malformed>
        ensures { Takes (count16.reading self.old) result self.new }
    {
        match self.read_null_count16()? {
            None => Err(Malformed::Range),
            Some(count) => Ok(count),
        }
    }

    /// Reads a count in four bytes (INT32), or None for -1. `Malformed::Range` for another negative number; the bytes left aren't
    /// counted here.
    #[tactic(auto, unfolding(crate::specs::Reading::null_count_at, crate::specs::Reading::null_or_count))]
    pub(crate) fn read_null_count(&mut self) -> Result<Option<u32>, Malformed>
        ensures { Takes (null_count32.reading self.old) result self.new }
    {
        let count = self.read_i32()?;
        if count < -1 {
            return Err(Malformed::Range);
        }
        Ok(if count == -1 {
            None
        } else {
            Some(count as u32)
        })
    }

    /// Returns the count, or `Malformed::Short` where it is above the number of bytes left.
    fn within(&self, count: u32) -> Result<u32, Malformed>
        ensures { result ≡ (if nat_lt (length self.now) count then Err Short else Ok count) }
    {
        if self.len() < count as usize {
            return Err(Malformed::Short);
        }
        Ok(count)
    }

    /// Reads a count in four bytes (INT32). `Malformed::Range` where it is negative, `Malformed::Short` where it is above the
    /// number of bytes left after it.
    #[tactic(auto, unfolding(crate::specs::Reading::counted_at, crate::specs::Reading::required_at, crate::specs::Reading::not_null))]
    pub fn read_count(&mut self) -> Result<u32, Malformed>
        ensures { Takes (counted_at count32.reading self.old) result self.new }
    {
        match self.read_null_count()? {
            None => Err(Malformed::Range),
            Some(count) => self.within(count),
        }
    }

    /// Reads a count from an UNSIGNED_VARINT that is one more, or None for 0. The bytes left aren't counted here.
    #[tactic(auto, unfolding(crate::specs::Reading::compact_null_count_at, crate::specs::Reading::one_less))]
    pub(crate) fn read_compact_null_count(&mut self) -> Result<Option<u32>, Malformed>
        ensures { Takes (compact_null_count.reading self.old) result self.new }
    {
        let count = self.read_uvarint()?;
        Ok(if count == 0 { None } else { Some(count - 1) })
    }

    /// Reads a count from an UNSIGNED_VARINT that is one more. `Malformed::Range` where the number is 0 (null),
    /// `Malformed::Short` where the count is above the number of bytes left after it.
    #[tactic(auto, unfolding(crate::specs::Reading::counted_at, crate::specs::Reading::required_at, crate::specs::Reading::not_null))]
    pub fn read_compact_count(&mut self) -> Result<u32, Malformed>
        ensures { Takes (counted_at compact_count.reading self.old) result self.new }
    {
        match self.read_compact_null_count()? {
            None => Err(Malformed::Range),
            Some(count) => self.within(count),
        }
    }

    /// Reads a count as a VARINT, or None for -1. `Malformed::Range` for another negative number; the bytes left aren't counted
    /// here.
    #[tactic(auto, unfolding(crate::specs::Reading::null_count_at, crate::specs::Reading::null_or_count))]
    pub(crate) fn read_varint_null_count(&mut self) -> Result<Option<u32>, Malformed>
        ensures { Takes (varint_null_count.reading self.old) result self.new }
    {
        let count = self.read_varint()?;
        if count < -1 {
            return Err(Malformed::Range);
        }
        Ok(if count == -1 {
            None
        } else {
            Some(count as u32)
        })
    }

    /// Reads a count as a VARINT. `Malformed::Range` where it is negative, `Malformed::Short` where it is above the number of
    /// bytes left after it.
    #[tactic(auto, unfolding(crate::specs::Reading::counted_at, crate::specs::Reading::required_at, crate::specs::Reading::not_null))]
    pub fn read_varint_count(&mut self) -> Result<u32, Malformed>
        ensures { Takes (counted_at varint_count.reading self.old) result self.new }
    {
        match self.read_varint_null_count()? {
            None => Err(Malformed::Range),
            Some(count) => self.within(count),
        }
    }
}

/// Appends a count in two bytes (INT16). `TooLong` above 32767. An error leaves `out` as it was.
#[tactic(auto, unfolding(crate::specs::Spelling::null_count_fits, crate::specs::Spelling::int_written))]
pub(crate) fn write_count16(out: &mut Vec<u8>, count: usize) -> Result<(), WriteFault>
    ensures spelled { Puts count16 count out.old.items result out.new.items }
    ensures err { OnErr result (out.new.items ≡ out.old.items) }
    ensures grown { StartsWith out.new.items out.old.items }
{
    if count >= 32_768 {
        return Err(WriteFault::TooLong);
    }
    out.extend_from_slice(&(count as u16).to_be_bytes())?;
    Ok(())
}

/// Appends -1 in two bytes, the length of a null string. An error leaves `out` as it was.
pub(crate) fn write_null16(out: &mut Vec<u8>) -> Result<(), AllocError>
    ensures ok { OnOk result (out.new.items ≡ null_count16.put out.old.items None) }
    ensures err { OnErr result (out.new.items ≡ out.old.items) }
    ensures grown { StartsWith out.new.items out.old.items }
{
    write_i16(out, -1)
}

/// Appends a count in four bytes (INT32). `TooLong` above 2^31 - 1. An error leaves `out` as it was.
#[tactic(auto, unfolding(crate::specs::Spelling::null_count_fits, crate::specs::Spelling::int_written))]
pub fn write_count(out: &mut Vec<u8>, count: usize) -> Result<(), WriteFault>
    ensures spelled { Puts count32 count out.old.items result out.new.items }
    ensures err { OnErr result (out.new.items ≡ out.old.items) }
    ensures grown { StartsWith out.new.items out.old.items }
{
    if count >= 2_147_483_648 {
        return Err(WriteFault::TooLong);
    }
    out.extend_from_slice(&(count as u32).to_be_bytes())?;
    Ok(())
}

/// Appends -1 in four bytes, the count of a null array or of null bytes. An error leaves `out` as it was.
pub(crate) fn write_null(out: &mut Vec<u8>) -> Result<(), AllocError>
    ensures ok { OnOk result (out.new.items ≡ null_count32.put out.old.items None) }
    ensures err { OnErr result (out.new.items ≡ out.old.items) }
    ensures grown { StartsWith out.new.items out.old.items }
{
    write_i32(out, -1)
}

/// Appends the count plus one as an UNSIGNED_VARINT. `TooLong` above 2^32 - 2. An error leaves `out` as it was.
#[tactic(auto, unfolding(crate::specs::Spelling::compact_null_count_written, crate::specs::Spelling::compact_null_count_fits))]
pub fn write_compact_count(out: &mut Vec<u8>, count: usize) -> Result<(), WriteFault>
    ensures spelled { Puts compact_count count out.old.items result out.new.items }
    ensures err { OnErr result (out.new.items ≡ out.old.items) }
    ensures grown { StartsWith out.new.items out.old.items }
{
    if count >= 4_294_967_295 {
        return Err(WriteFault::TooLong);
    }
    write_uvarint(out, count as u32 + 1)?;
    Ok(())
}

/// Appends the number 0 as an UNSIGNED_VARINT, which stands for null in the compact forms. An error leaves `out` as it was.
#[tactic(auto, unfolding(crate::specs::Spelling::compact_null_count_written))]
pub(crate) fn write_compact_null(out: &mut Vec<u8>) -> Result<(), AllocError>
    ensures ok { OnOk result (out.new.items ≡ compact_null_count.put out.old.items None) }
    ensures err { OnErr result (out.new.items ≡ out.old.items) }
    ensures grown { StartsWith out.new.items out.old.items }
{
    write_uvarint(out, 0)
}

/// Appends a count as a VARINT. `TooLong` above 2^31 - 1. An error leaves `out` as it was.
#[tactic(auto, unfolding(crate::specs::Spelling::null_count_fits))]
pub fn write_varint_count(out: &mut Vec<u8>, count: usize) -> Result<(), WriteFault>
    ensures spelled { Puts varint_count count out.old.items result out.new.items }
    ensures err { OnErr result (out.new.items ≡ out.old.items) }
    ensures grown { StartsWith out.new.items out.old.items }
{
    if count >= 2_147_483_648 {
        return Err(WriteFault::TooLong);
    }
    write_varint(out, count as i32)?;
    Ok(())
}

/// Appends -1 as a VARINT, the length of a null key or value. An error leaves `out` as it was.
pub(crate) fn write_varint_null(out: &mut Vec<u8>) -> Result<(), AllocError>
    ensures ok { OnOk result (out.new.items ≡ varint_null_count.put out.old.items None) }
    ensures err { OnErr result (out.new.items ≡ out.old.items) }
    ensures grown { StartsWith out.new.items out.old.items }
{
    write_varint(out, -1)
}

/// How many of `budget` bytes are left after the two bytes of a count. None for a count above 32767, or where `budget` is less.
#[tactic(auto, unfolding(crate::specs::Spelling::null_count_fits, crate::specs::Spelling::left_after))]
pub(crate) fn deduct_count16(count: usize, budget: usize) -> Option<usize>
    ensures { result ≡ count16.left count budget }
{
    if count >= 32_768 {
        return None;
    }
    deduct(2, budget)
}

/// How many of `budget` bytes are left after the four bytes of a count. None for a count above 2^31 - 1, or where `budget` is
/// less.
#[tactic(auto, unfolding(crate::specs::Spelling::null_count_fits, crate::specs::Spelling::left_after))]
pub(crate) fn deduct_count(count: usize, budget: usize) -> Option<usize>
    ensures { result ≡ count32.left count budget }
{
    if count >= 2_147_483_648 {
        return None;
    }
    deduct(4, budget)
}

/// How many of `budget` bytes are left after the count plus one as an UNSIGNED_VARINT. None for a count above 2^32 - 2, or where
/// `budget` is less.
#[tactic(auto, unfolding(crate::specs::Spelling::compact_null_count_fits, crate::specs::Spelling::compact_null_count_written, crate::specs::Spelling::left_after))]
pub(crate) fn deduct_compact_count(count: usize, budget: usize) -> Option<usize>
    ensures { result ≡ compact_count.left count budget }
{
    if count >= 4_294_967_295 {
        return None;
    }
    deduct(varint_len(4, count as u64 + 1), budget)
}

/// How many of `budget` bytes are left after a count as a VARINT. None for a count above 2^31 - 1, or where `budget` is less.
#[tactic(auto, unfolding(crate::specs::Spelling::null_count_fits))]
pub(crate) fn deduct_varint_count(count: usize, budget: usize) -> Option<usize>
    ensures { result ≡ varint_count.left count budget }
{
    if count >= 2_147_483_648 {
        return None;
    }
    deduct_varint(count as i32, budget)
}
