//! Numbers of variable length: UNSIGNED_VARINT, VARINT, VARLONG. A read takes longer forms than needed too; a write gives the
//! shortest. A write fails on an allocation failure only, and leaves the bytes as they were.

ghost use Rattle.std.specs.Io.{StartsWith};
ghost use Rattle.std.specs.Prelude.{◌≡◌, ◌+◌, ◌<◌, ◌≤◌, ◌++◌, ◌^◌, length, OnOk, OnErr, IfOk, Ok, Err};
ghost use Rattle.wire_types.specs.Reading.{Takes, varint_at, varint_limit};
ghost use Rattle.wire_types.specs.Spelling.{varint_written};
ghost use Rattle.wire_types.specs.Zigzag.{zigzag};
ghost use Rattle.wire_types.specs.Schema.{uvarint, uvarlong, varint, varlong};

use crate::budget::deduct;
use crate::cursor::Cursor;
use crate::fault::Malformed;
use std::alloc::AllocError;

impl<'a> Cursor<'a> {
    /// Reads a number of variable length byte by byte, seven bits in each and the lowest first. At most `more` bytes may follow
    /// the first; of a number of all these bytes the last is at most `top`. `Malformed::Range` for a longer or larger number,
    /// `Malformed::Short` where the bytes end before it does.
    #[tactic(auto, unfolding(crate::specs::Reading::varint_at, crate::specs::Reading::varint_limit))]
    fn read_varint_slowly(&mut self, more: u32, top: u8) -> Result<u64, Malformed>
        requires { varint_limit more top ≤ 2 ^ 64 }
        ensures found { Takes (varint_at more top self.old) result self.new }
        ensures bound { IfOk result (λ n. n < varint_limit more top) }
    {
        let first = self.read_byte()?;
        if more == 0 {
            return if top < first {
                Err(Malformed::Range)
            } else {
                Ok(first as u64)
            };
        }
        if first < 128 {
            return Ok(first as u64);
        }
        let high = self.read_varint_slowly(more - 1, top)?;
        Ok((first - 128) as u64 + 128 * high)
    }

    /// As `read_varint_slowly`, for `more` of two at least, but with no call for each byte of a number of one or two bytes, as
    /// most are.
    #[inline(always)]
    #[tactic(auto, using(crate::proofs::FirstBytes::first_bytes))]
    fn read_varint_within(&mut self, more: u32, top: u8) -> Result<u64, Malformed>
        requires enough { 2 ≤ more }
        requires bounded { varint_limit more top ≤ 2 ^ 64 }
        ensures found { Takes (varint_at more top self.old) result self.new }
        ensures bound { IfOk result (λ n. n < varint_limit more top) }
    {
        let first = self.read_byte()?;
        if first < 128 {
            return Ok(first as u64);
        }
        let second = self.read_byte()?;
        if second < 128 {
            return Ok((first - 128) as u64 + 128 * second as u64);
        }
        let high = self.read_varint_slowly(more - 2, top)?;
        Ok((first - 128) as u64 + 128 * ((second - 128) as u64 + 128 * high))
    }

    /// Reads an UNSIGNED_VARINT of the protocol guide: an unsigned number of 32 bits in up to five bytes. `Malformed::Range` for
    /// a longer or larger one.
    #[tactic(auto, unfolding(crate::specs::Reading::varint_limit))]
    pub fn read_uvarint(&mut self) -> Result<u32, Malformed>
        ensures { Takes (uvarint.reading self.old) result self.new }
    {
        Ok(self.read_varint_within(4, 15)? as u32)
    }

    /// Reads an unsigned number of 64 bits in up to ten bytes. `Malformed::Range` for a longer or larger one.
    #[tactic(auto, unfolding(crate::specs::Reading::varint_limit))]
    fn read_uvarlong(&mut self) -> Result<u64, Malformed>
        ensures { Takes (uvarlong.reading self.old) result self.new }
    {
        self.read_varint_within(9, 1)
    }

    /// Reads a VARINT: a signed number of 32 bits in zigzag form, in up to five bytes. `Malformed::Range` for a longer or larger
    /// one.
    pub fn read_varint(&mut self) -> Result<i32, Malformed>
        ensures { Takes (varint.reading self.old) result self.new }
    {
        let number = self.read_uvarint()?;
        let half = (number / 2) as i32;
        Ok(if number % 2 == 0 { half } else { -half - 1 })
    }

    /// Reads a VARLONG: a signed number of 64 bits in zigzag form, in up to ten bytes. `Malformed::Range` for a longer or larger
    /// one.
    pub fn read_varlong(&mut self) -> Result<i64, Malformed>
        ensures { Takes (varlong.reading self.old) result self.new }
    {
        let number = self.read_uvarlong()?;
        let half = (number / 2) as i64;
        Ok(if number % 2 == 0 { half } else { -half - 1 })
    }
}

/// Appends a number of variable length in its shortest form. At most `more` bytes may follow the first, and `number` has to fit:
/// with all these bytes the last one is at most `top`.
#[tactic(auto, unfolding(crate::specs::Spelling::varint_written, crate::specs::Reading::varint_limit))]
fn write_varint_within(out: &mut Vec<u8>, more: u32, top: u8, number: u64) -> Result<(), AllocError>
    requires { number < varint_limit more top }
    ensures ok { OnOk result (out.new.items ≡ out.old.items ++ varint_written more number) }
    ensures err { OnErr result (out.new.items ≡ out.old.items) }
    ensures grown { StartsWith out.new.items out.old.items }
{
    if more == 0 || number < 128 {
        out.push(number as u8)?;
        return Ok(());
    }
    out.push((number % 128) as u8 + 128)?;
    match write_varint_within(out, more - 1, top, number / 128) {
        Ok(()) => Ok(()),
        Err(AllocError) => {
            out.pop();
            Err(AllocError)
        }
    }
}

/// Appends an UNSIGNED_VARINT, of up to five bytes.
#[tactic(auto, unfolding(crate::specs::Reading::varint_limit))]
pub fn write_uvarint(out: &mut Vec<u8>, number: u32) -> Result<(), AllocError>
    ensures ok { OnOk result (out.new.items ≡ uvarint.put out.old.items number) }
    ensures err { OnErr result (out.new.items ≡ out.old.items) }
    ensures grown { StartsWith out.new.items out.old.items }
{
    write_varint_within(out, 4, 15, number as u64)
}

/// Appends an unsigned number of 64 bits as a number of variable length, of up to ten bytes.
#[tactic(auto, unfolding(crate::specs::Reading::varint_limit))]
fn write_uvarlong(out: &mut Vec<u8>, number: u64) -> Result<(), AllocError>
    ensures ok { OnOk result (out.new.items ≡ uvarlong.put out.old.items number) }
    ensures err { OnErr result (out.new.items ≡ out.old.items) }
    ensures grown { StartsWith out.new.items out.old.items }
{
    write_varint_within(out, 9, 1, number)
}

/// A signed number of 32 bits in zigzag form: 0, -1, 1, -2 become 0, 1, 2, 3.
fn zigzag(number: i32) -> u32
    ensures { result ≡ zigzag number }
{
    if number < 0 {
        2 * ((-(number + 1)) as u32) + 1
    } else {
        2 * (number as u32)
    }
}

/// A signed number of 64 bits in zigzag form: 0, -1, 1, -2 become 0, 1, 2, 3.
fn long_zigzag(number: i64) -> u64
    ensures { result ≡ zigzag number }
{
    if number < 0 {
        2 * ((-(number + 1)) as u64) + 1
    } else {
        2 * (number as u64)
    }
}

/// Appends a VARINT, of up to five bytes.
pub fn write_varint(out: &mut Vec<u8>, number: i32) -> Result<(), AllocError>
    ensures ok { OnOk result (out.new.items ≡ varint.put out.old.items number) }
    ensures err { OnErr result (out.new.items ≡ out.old.items) }
    ensures grown { StartsWith out.new.items out.old.items }
{
    write_uvarint(out, zigzag(number))
}

/// Appends a VARLONG, of up to ten bytes.
pub fn write_varlong(out: &mut Vec<u8>, number: i64) -> Result<(), AllocError>
    ensures ok { OnOk result (out.new.items ≡ varlong.put out.old.items number) }
    ensures err { OnErr result (out.new.items ≡ out.old.items) }
    ensures grown { StartsWith out.new.items out.old.items }
{
    write_uvarlong(out, long_zigzag(number))
}

/// How many bytes a number of variable length takes in its shortest form, where at most `more` may follow the first.
#[tactic(auto, unfolding(crate::specs::Spelling::varint_written))]
pub(crate) fn varint_len(more: u32, number: u64) -> usize
    ensures { (result ≡ length (varint_written more number)) × (result ≤ more + 1) }
{
    if number < 128 || more == 0 {
        return 1;
    }
    varint_len(more - 1, number / 128) + 1
}

/// How many of `budget` bytes are left after a VARINT; None where `budget` is less than its size.
pub fn deduct_varint(number: i32, budget: usize) -> Option<usize>
    ensures { result ≡ varint.left number budget }
{
    deduct(varint_len(4, zigzag(number) as u64), budget)
}

/// How many of `budget` bytes are left after a VARLONG; None where `budget` is less than its size.
pub fn deduct_varlong(number: i64, budget: usize) -> Option<usize>
    ensures { result ≡ varlong.left number budget }
{
    deduct(varint_len(9, long_zigzag(number)), budget)
}
