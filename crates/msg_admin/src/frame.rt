//! A header and a body as a frame, after their size.

ghost use Rattle.std.specs.Prelude.{◌≡◌};
ghost use Rattle.wire_types.specs.Combinators.{◌⨟◌};
ghost use Rattle.msg_admin.specs.Header.{with_header_tags};
ghost use Rattle.msg_admin.specs.Frame.{GivesFrame, TellsSize};

use crate::header::{deduct_header, write_header};
use std::alloc::Global;
use wire_types::{Bytes, Wire, WriteFault, write_i32};

/// The greatest size that a frame's size field can tell: 2^31 - 1.
const GREATEST: usize = 2_147_483_647;

/// The frame of a header and a body: the size of all that follows in four bytes, the header, empty tagged fields where `flexible`
/// is set, and the body. `TooLong` if a length or the size is too large for its field; `NoMemory` on an allocation failure.
pub(crate) fn write_frame<H: Wire, B: Wire>(
    alloc: Global,
    flexible: bool,
    header: &H,
    body: &B,
) -> Result<Bytes, WriteFault>
    ensures { GivesFrame (with_header_tags flexible H.grammar ⨟ B.grammar) (header.now, body.now)
        result }
{
    let Some(size) = frame_size(flexible, header, body) else {
        return Err(WriteFault::TooLong);
    };
    let mut out = Vec::with_capacity(alloc, 4 + size)?;
    write_i32(&mut out, size as i32)?;
    write_header(&mut out, flexible, header)?;
    body.write(&mut out)?;
    Ok(Bytes::from_vec(out)?)
}

/// How many bytes a header, its empty tagged fields where `flexible` is set, and a body have, which is what the frame's size
/// field holds; the field's own four aren't counted. None if a length in them or the size is too large for its field.
fn frame_size<H: Wire, B: Wire>(flexible: bool, header: &H, body: &B) -> Option<usize>
    ensures { TellsSize (with_header_tags flexible H.grammar ⨟ B.grammar) (header.now, body.now)
        result }
{
    match deduct_both(flexible, header, body, GREATEST) {
        Some(left) => Some(GREATEST - left),
        None => None,
    }
}

/// How many of `budget` bytes are left after a header and a body. None if they need more, or can't be written.
fn deduct_both<H: Wire, B: Wire>(
    flexible: bool,
    header: &H,
    body: &B,
    budget: usize,
) -> Option<usize>
    ensures { result ≡ (with_header_tags flexible H.grammar ⨟ B.grammar).left (header.now, body.now)
        budget }
{
    let budget = deduct_header(flexible, header, budget)?;
    body.deduct_from(budget)
}

/// As `write_frame`, for a request whose body is empty.
pub(crate) fn write_header_frame<H: Wire>(
    alloc: Global,
    flexible: bool,
    header: &H,
) -> Result<Bytes, WriteFault>
    ensures { GivesFrame (with_header_tags flexible H.grammar) header.now result }
{
    let Some(count) = header_size(flexible, header) else {
        return Err(WriteFault::TooLong);
    };
    let mut out = Vec::with_capacity(alloc, 4 + count)?;
    write_i32(&mut out, count as i32)?;
    write_header(&mut out, flexible, header)?;
    Ok(Bytes::from_vec(out)?)
}

/// As `frame_size`, for a header with an empty body.
fn header_size<H: Wire>(flexible: bool, header: &H) -> Option<usize>
    ensures { TellsSize (with_header_tags flexible H.grammar) header.now result }
{
    match deduct_header(flexible, header, GREATEST) {
        Some(budget) => Some(GREATEST - budget),
        None => None,
    }
}
