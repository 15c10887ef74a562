//! The protocol's byte strings: BYTES, NULLABLE_BYTES, their compact forms, and those whose length is a VARINT.

ghost use Rattle.std.specs.Io.{StartsWith};
ghost use Rattle.std.specs.Prelude.{◌≡◌, ◌+◌, ◌<◌, ◌^◌, None, Some, OnErr, Ok};
ghost use Rattle.wire_types.specs.Reading.{Reads};
ghost use Rattle.wire_types.specs.Writing.{Puts};
ghost use Rattle.wire_types.specs.Spelling.{varint_written};
ghost use Rattle.wire_types.specs.Schema.{bytes, nullable_bytes, compact_bytes, compact_nullable_bytes, varint_bytes, varint_nullable_bytes};

use crate::budget::deduct;
use crate::counts::{
    deduct_compact_count, deduct_count, deduct_varint_count, write_compact_count,
    write_compact_null, write_count, write_null, write_varint_count, write_varint_null,
};
use crate::cursor::Cursor;
use crate::fault::{ReadFault, WriteFault};
use crate::shared_bytes::Bytes;
use crate::varints::deduct_varint;
use std::alloc::Global;

impl<'a> Cursor<'a> {
    /// Reads BYTES of the protocol guide: a length in four bytes (INT32), and so many bytes. `Malformed::Range` for a negative
    /// length, `Malformed::Short` where fewer bytes are left. A cursor over shared bytes (`Cursor::over`) gives a part of them,
    /// another one a copy.
    #[tactic(auto, using(crate::proofs::Announced::content_after, crate::proofs::Announced::front_refused))]
    pub fn read_bytes(&mut self, alloc: Global) -> Result<Bytes, ReadFault>
        ensures { Reads (bytes.reading self.old) result self.new }
    {
        let len = self.read_count()?;
        self.read_shared(alloc, len as usize)
    }

    /// Reads NULLABLE_BYTES: as `read_bytes`, but None where the length is -1.
    #[tactic(auto, unfolding(crate::specs::Reading::after_null_count_at, crate::specs::Reading::null_or))]
    pub fn read_nullable_bytes(&mut self, alloc: Global) -> Result<Option<Bytes>, ReadFault>
        ensures { Reads (nullable_bytes.reading self.old) result self.new }
    {
        match self.read_null_count()? {
            None => Ok(None),
            Some(len) => Ok(Some(self.read_shared(alloc, len as usize)?)),
        }
    }

    /// Reads COMPACT_BYTES: the length plus one as an UNSIGNED_VARINT, and so many bytes. `Malformed::Range` where the number is
    /// 0 (null), `Malformed::Short` where fewer bytes are left. Copied or not as by `read_bytes`.
    #[tactic(auto, using(crate::proofs::Announced::content_after, crate::proofs::Announced::front_refused))]
    pub fn read_compact_bytes(&mut self, alloc: Global) -> Result<Bytes, ReadFault>
        ensures { Reads (compact_bytes.reading self.old) result self.new }
    {
        let len = self.read_compact_count()?;
        self.read_shared(alloc, len as usize)
    }

    /// Reads COMPACT_NULLABLE_BYTES: as `read_compact_bytes`, but None where the first number is 0.
    #[tactic(auto, unfolding(crate::specs::Reading::after_null_count_at, crate::specs::Reading::null_or))]
    pub fn read_compact_nullable_bytes(&mut self, alloc: Global) -> Result<Option<Bytes>, ReadFault>
        ensures { Reads (compact_nullable_bytes.reading self.old) result self.new }
    {
        match self.read_compact_null_count()? {
            None => Ok(None),
            Some(len) => Ok(Some(self.read_shared(alloc, len as usize)?)),
        }
    }

    /// Reads bytes as the key of a record's header is: a length as a VARINT, and so many bytes. `Malformed::Range` for a negative
    /// length, `Malformed::Short` where fewer bytes are left. Copied or not as by `read_bytes`.
    #[tactic(auto, using(crate::proofs::Announced::content_after, crate::proofs::Announced::front_refused))]
    pub fn read_varint_bytes(&mut self, alloc: Global) -> Result<Bytes, ReadFault>
        ensures { Reads (varint_bytes.reading self.old) result self.new }
    {
        let len = self.read_varint_count()?;
        self.read_shared(alloc, len as usize)
    }

    /// Reads bytes as a record's key or value is: as `read_varint_bytes`, but None where the length is -1.
    #[tactic(auto, unfolding(crate::specs::Reading::after_null_count_at, crate::specs::Reading::null_or))]
    pub fn read_varint_nullable_bytes(&mut self, alloc: Global) -> Result<Option<Bytes>, ReadFault>
        ensures { Reads (varint_nullable_bytes.reading self.old) result self.new }
    {
        match self.read_varint_null_count()? {
            None => Ok(None),
            Some(len) => Ok(Some(self.read_shared(alloc, len as usize)?)),
        }
    }
}

/// Appends BYTES. `TooLong` above 2^31 - 1 bytes. An error leaves `out` as it was.
#[tactic(auto, unfolding(crate::specs::Spelling::after_count_fits))]
pub fn write_bytes(out: &mut Vec<u8>, value: &Bytes) -> Result<(), WriteFault>
    ensures spelled { Puts bytes value.now out.old.items result out.new.items }
    ensures err { OnErr result (out.new.items ≡ out.old.items) }
    ensures grown { StartsWith out.new.items out.old.items }
{
    let start = out.len();
    write_count(out, value.len())?;
    let rest = out.extend_from_slice(value.as_slice());
    if rest.is_err() {
        out.truncate(start);
    }
    Ok(rest?)
}

/// Appends NULLABLE_BYTES: as `write_bytes`, but None as the length -1.
#[tactic(auto, unfolding(crate::specs::Spelling::after_count_fits, crate::specs::Spelling::after_null_count_fits, crate::specs::Spelling::after_null_count_put, crate::specs::Spelling::null_count_fits, crate::specs::Spelling::compact_null_count_fits))]
pub fn write_nullable_bytes(out: &mut Vec<u8>, value: &Option<Bytes>) -> Result<(), WriteFault>
    ensures spelled { Puts nullable_bytes value.now out.old.items result out.new.items }
    ensures err { OnErr result (out.new.items ≡ out.old.items) }
    ensures grown { StartsWith out.new.items out.old.items }
{
    match value {
        None => write_null(out)?,
        Some(value) => write_bytes(out, value)?,
    }
    Ok(())
}

/// Appends COMPACT_BYTES. `TooLong` above 2^32 - 2 bytes. An error leaves `out` as it was.
#[tactic(auto, unfolding(crate::specs::Spelling::after_count_fits))]
pub fn write_compact_bytes(out: &mut Vec<u8>, value: &Bytes) -> Result<(), WriteFault>
    ensures spelled { Puts compact_bytes value.now out.old.items result out.new.items }
    ensures err { OnErr result (out.new.items ≡ out.old.items) }
    ensures grown { StartsWith out.new.items out.old.items }
{
    let start = out.len();
    write_compact_count(out, value.len())?;
    let rest = out.extend_from_slice(value.as_slice());
    if rest.is_err() {
        out.truncate(start);
    }
    Ok(rest?)
}

/// Appends COMPACT_NULLABLE_BYTES: as `write_compact_bytes`, but None as the number 0.
#[tactic(auto, unfolding(crate::specs::Spelling::after_count_fits, crate::specs::Spelling::after_null_count_fits, crate::specs::Spelling::after_null_count_put, crate::specs::Spelling::null_count_fits, crate::specs::Spelling::compact_null_count_fits))]
pub fn write_compact_nullable_bytes(
    out: &mut Vec<u8>,
    value: &Option<Bytes>,
) -> Result<(), WriteFault>
    ensures spelled { Puts compact_nullable_bytes value.now out.old.items result out.new.items }
    ensures err { OnErr result (out.new.items ≡ out.old.items) }
    ensures grown { StartsWith out.new.items out.old.items }
{
    match value {
        None => write_compact_null(out)?,
        Some(value) => write_compact_bytes(out, value)?,
    }
    Ok(())
}

/// Appends a length as a VARINT, and the bytes. `TooLong` above 2^31 - 1 bytes. An error leaves `out` as it was.
#[tactic(auto, unfolding(crate::specs::Spelling::after_count_fits))]
pub fn write_varint_bytes(out: &mut Vec<u8>, value: &Bytes) -> Result<(), WriteFault>
    ensures spelled { Puts varint_bytes value.now out.old.items result out.new.items }
    ensures err { OnErr result (out.new.items ≡ out.old.items) }
    ensures grown { StartsWith out.new.items out.old.items }
{
    let start = out.len();
    write_varint_count(out, value.len())?;
    let rest = out.extend_from_slice(value.as_slice());
    if rest.is_err() {
        out.truncate(start);
    }
    Ok(rest?)
}

/// As `write_varint_bytes`, but None is written as the length -1.
#[tactic(auto, unfolding(crate::specs::Spelling::after_count_fits, crate::specs::Spelling::after_null_count_fits, crate::specs::Spelling::after_null_count_put, crate::specs::Spelling::null_count_fits))]
pub fn write_varint_nullable_bytes(
    out: &mut Vec<u8>,
    value: &Option<Bytes>,
) -> Result<(), WriteFault>
    ensures spelled { Puts varint_nullable_bytes value.now out.old.items result out.new.items }
    ensures err { OnErr result (out.new.items ≡ out.old.items) }
    ensures grown { StartsWith out.new.items out.old.items }
{
    match value {
        None => write_varint_null(out)?,
        Some(value) => write_varint_bytes(out, value)?,
    }
    Ok(())
}

/// How many of `budget` bytes are left after the value as BYTES. None where they need more, or are too many for their length
/// field.
pub fn deduct_bytes(value: &Bytes, budget: usize) -> Option<usize>
    ensures { result ≡ bytes.left value.now budget }
{
    let budget = deduct_count(value.len(), budget)?;
    deduct(value.len(), budget)
}

/// As `deduct_bytes`, but for NULLABLE_BYTES: a null takes four bytes.
#[tactic(auto, unfolding(crate::specs::Spelling::after_null_count_left, crate::specs::Spelling::null_count_fits))]
pub fn deduct_nullable_bytes(value: &Option<Bytes>, budget: usize) -> Option<usize>
    ensures { result ≡ nullable_bytes.left value.now budget }
{
    match value {
        None => deduct(4, budget),
        Some(value) => deduct_bytes(value, budget),
    }
}

/// How many of `budget` bytes are left after the value as COMPACT_BYTES. None where they need more, or are too many for their
/// length field.
pub fn deduct_compact_bytes(value: &Bytes, budget: usize) -> Option<usize>
    ensures { result ≡ compact_bytes.left value.now budget }
{
    let budget = deduct_compact_count(value.len(), budget)?;
    deduct(value.len(), budget)
}

/// As `deduct_compact_bytes`, but for COMPACT_NULLABLE_BYTES: a null takes one byte.
#[tactic(auto, unfolding(crate::specs::Spelling::after_null_count_left, crate::specs::Spelling::null_count_fits, crate::specs::Spelling::compact_null_count_fits, crate::specs::Spelling::compact_null_count_written, crate::specs::Spelling::varint_written))]
pub fn deduct_compact_nullable_bytes(value: &Option<Bytes>, budget: usize) -> Option<usize>
    ensures { result ≡ compact_nullable_bytes.left value.now budget }
{
    match value {
        None => deduct(1, budget),
        Some(value) => deduct_compact_bytes(value, budget),
    }
}

/// How many of `budget` bytes are left after the value with its length before it as a VARINT. None where they need more, or are
/// too many for their length field.
pub fn deduct_varint_bytes(value: &Bytes, budget: usize) -> Option<usize>
    ensures { result ≡ varint_bytes.left value.now budget }
{
    let budget = deduct_varint_count(value.len(), budget)?;
    deduct(value.len(), budget)
}

/// As `deduct_varint_bytes`, but None is the length -1, which takes one byte.
#[tactic(auto, unfolding(crate::specs::Spelling::after_null_count_left, crate::specs::Spelling::null_count_fits))]
pub fn deduct_varint_nullable_bytes(value: &Option<Bytes>, budget: usize) -> Option<usize>
    ensures { result ≡ varint_nullable_bytes.left value.now budget }
{
    match value {
        None => deduct_varint(-1, budget),
        Some(value) => deduct_varint_bytes(value, budget),
    }
}
