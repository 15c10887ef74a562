//! The numbers of a fixed width, big-endian, and truth values: INT8, INT16, INT32, INT64, UINT32, BOOLEAN. A read gives
//! `Malformed::Short` where too few bytes are left. A write fails on an allocation failure only, and leaves the bytes as they
//! were.

ghost use Rattle.std.specs.Io.{StartsWith};
ghost use Rattle.std.specs.Prelude.{◌≡◌, ◌+◌, ◌<◌, ◌++◌, ◌^◌, OnOk, OnErr, Ok};
ghost use Rattle.wire_types.specs.Reading.{Takes, nat_at, int_at, bool_at, front_at};
ghost use Rattle.wire_types.specs.Spelling.{left_after};
ghost use Rattle.std.specs.Int.{w8, w16, w32, w64, to_be_bytes};
ghost use Rattle.wire_types.specs.Schema.{int8, int16, int32, int64, uint32, boolean};

use crate::budget::deduct;
use crate::cursor::Cursor;
use crate::fault::{Malformed, ReadFault, WriteFault};
use crate::wire::Wire;
use std::alloc::{AllocError, Global};

impl<'a> Cursor<'a> {
    /// Reads an INT8 of the protocol guide, in one byte.
    #[tactic(auto, unfolding(crate::specs::Reading::nat_at, crate::specs::Reading::int_at, crate::specs::Reading::front_at))]
    pub fn read_i8(&mut self) -> Result<i8, Malformed>
        ensures { Takes (int_at w8 self.old) result self.new }
    {
        Ok(i8::from_be_bytes([self.read_byte()?]))
    }

    /// Reads an INT16, in two bytes.
    #[tactic(auto, unfolding(crate::specs::Reading::nat_at, crate::specs::Reading::int_at, crate::specs::Reading::front_at))]
    pub fn read_i16(&mut self) -> Result<i16, Malformed>
        ensures { Takes (int_at w16 self.old) result self.new }
    {
        let front = self.read_front(2)?;
        Ok(i16::from_be_bytes([front[0], front[1]]))
    }

    /// Reads an INT32, in four bytes.
    #[tactic(auto, unfolding(crate::specs::Reading::nat_at, crate::specs::Reading::int_at, crate::specs::Reading::front_at))]
    pub fn read_i32(&mut self) -> Result<i32, Malformed>
        ensures { Takes (int_at w32 self.old) result self.new }
    {
        let front = self.read_front(4)?;
        Ok(i32::from_be_bytes([front[0], front[1], front[2], front[3]]))
    }

    /// Reads an INT64, in eight bytes.
    #[tactic(auto, unfolding(crate::specs::Reading::nat_at, crate::specs::Reading::int_at, crate::specs::Reading::front_at))]
    pub fn read_i64(&mut self) -> Result<i64, Malformed>
        ensures { Takes (int_at w64 self.old) result self.new }
    {
        let front = self.read_front(8)?;
        Ok(i64::from_be_bytes([
            front[0], front[1], front[2], front[3], front[4], front[5], front[6], front[7],
        ]))
    }

    /// Reads a UINT32, in four bytes.
    #[tactic(auto, unfolding(crate::specs::Reading::nat_at, crate::specs::Reading::front_at))]
    pub fn read_u32(&mut self) -> Result<u32, Malformed>
        ensures { Takes (nat_at w32 self.old) result self.new }
    {
        let front = self.read_front(4)?;
        Ok(u32::from_be_bytes([front[0], front[1], front[2], front[3]]))
    }

    /// Reads a BOOLEAN, in one byte: 0 is false, and any other true.
    #[tactic(auto, unfolding(crate::specs::Reading::bool_at, crate::specs::Reading::front_at))]
    pub fn read_bool(&mut self) -> Result<bool, Malformed>
        ensures { Takes (bool_at self.old) result self.new }
    {
        Ok(self.read_byte()? != 0)
    }
}

/// Appends an INT8, in one byte.
#[tactic(auto, unfolding(crate::specs::Spelling::int_written))]
pub fn write_i8(out: &mut Vec<u8>, number: i8) -> Result<(), AllocError>
    ensures ok { OnOk result (out.new.items ≡ out.old.items ++ int8.written number) }
    ensures err { OnErr result (out.new.items ≡ out.old.items) }
    ensures grown { StartsWith out.new.items out.old.items }
{
    out.extend_from_slice(&number.to_be_bytes())
}

/// Appends an INT16, in two bytes.
#[tactic(auto, unfolding(crate::specs::Spelling::int_written))]
pub fn write_i16(out: &mut Vec<u8>, number: i16) -> Result<(), AllocError>
    ensures ok { OnOk result (out.new.items ≡ out.old.items ++ int16.written number) }
    ensures err { OnErr result (out.new.items ≡ out.old.items) }
    ensures grown { StartsWith out.new.items out.old.items }
{
    out.extend_from_slice(&number.to_be_bytes())
}

/// Appends an INT32, in four bytes.
#[tactic(auto, unfolding(crate::specs::Spelling::int_written))]
pub fn write_i32(out: &mut Vec<u8>, number: i32) -> Result<(), AllocError>
    ensures ok { OnOk result (out.new.items ≡ out.old.items ++ int32.written number) }
    ensures err { OnErr result (out.new.items ≡ out.old.items) }
    ensures grown { StartsWith out.new.items out.old.items }
{
    out.extend_from_slice(&number.to_be_bytes())
}

/// Appends an INT64, in eight bytes.
#[tactic(auto, unfolding(crate::specs::Spelling::int_written))]
pub fn write_i64(out: &mut Vec<u8>, number: i64) -> Result<(), AllocError>
    ensures ok { OnOk result (out.new.items ≡ out.old.items ++ int64.written number) }
    ensures err { OnErr result (out.new.items ≡ out.old.items) }
    ensures grown { StartsWith out.new.items out.old.items }
{
    out.extend_from_slice(&number.to_be_bytes())
}

/// Appends a UINT32, in four bytes.
pub fn write_u32(out: &mut Vec<u8>, number: u32) -> Result<(), AllocError>
    ensures ok { OnOk result (out.new.items ≡ uint32.put out.old.items number) }
    ensures err { OnErr result (out.new.items ≡ out.old.items) }
    ensures grown { StartsWith out.new.items out.old.items }
{
    out.extend_from_slice(&number.to_be_bytes())
}

/// Appends a BOOLEAN: 1 for true, 0 for false.
#[tactic(auto, unfolding(crate::specs::Spelling::bool_written))]
pub fn write_bool(out: &mut Vec<u8>, truth: bool) -> Result<(), AllocError>
    ensures ok { OnOk result (out.new.items ≡ boolean.put out.old.items truth) }
    ensures err { OnErr result (out.new.items ≡ out.old.items) }
    ensures grown { StartsWith out.new.items out.old.items }
{
    out.push(if truth { 1 } else { 0 })?;
    Ok(())
}

impl Wire for i32 {
    ghost grammar = { int32 };

    fn read(_alloc: Global, cursor: &mut Cursor<'_>) -> Result<i32, ReadFault> {
        Ok(cursor.read_i32()?)
    }

    fn put(&self, out: &mut Vec<u8>) -> Result<(), WriteFault> {
        Ok(write_i32(out, *self)?)
    }

    fn deduct_from(&self, budget: usize) -> Option<usize> {
        deduct(4, budget)
    }
}
