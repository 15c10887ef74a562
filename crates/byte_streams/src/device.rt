//! Reads a whole input and writes whole texts, over any reader and writer.

ghost use Rattle.std.specs.Prelude.{◌≡◌, ℕ, ◌+◌, ◌-◌, ◌<◌, ◌≤◌, length, vec_len, IfOk, IfSome};
ghost use Rattle.std.specs.Io.{ReadsAtMost, WritesAtMost};
ghost use Rattle.std.specs.Io.KnownBytes.{ReadConsumes, WriteAppends};
ghost use Rattle.byte_streams.specs.Device.{TakesWithin, Wrote};

use std::alloc::{AllocError, Global};
use std::io;
use std::io::{ErrorKind, Read, Write};
use thiserror::Error;

/// The greatest number of bytes that an input may have: 1 GiB.
pub const INPUT_LIMIT: usize = 1_073_741_824;

/// How often in a row a call that was interrupted is made again.
const RETRIES: u32 = 1_000;

/// How many bytes `read_input` asks a reader for at a time.
const PIECE: usize = 16_384;

/// Why an input could not be read whole.
#[derive(Clone, Copy, Debug, PartialEq, Eq, Error)]
pub enum InputFault {
    /// A read failed.
    #[error("the input can't be read")]
    Read,
    /// The input goes on after the limit.
    #[error("the input has more than 1,073,741,824 bytes")]
    TooLong,
    /// There was an allocation failure.
    #[error("there is not enough memory")]
    NoMemory,
}

impl From<AllocError> for InputFault {
    ghost use Rattle.byte_streams.specs.declared.device.InputFault.TheVariants as fault_case;

    ghost from_gives = { λ _ fault. fault ≡ fault_case.NoMemory };

    fn from(_: AllocError) -> InputFault {
        InputFault::NoMemory
    }
}

impl From<io::Error> for InputFault {
    ghost use Rattle.byte_streams.specs.declared.device.InputFault.TheVariants as fault_case;

    ghost from_gives = { λ _ fault. fault ≡ fault_case.Read };

    fn from(_: io::Error) -> InputFault {
        InputFault::Read
    }
}

/// Reads once into `piece` and returns how many bytes came, where 0 is the end of the input. A read that fails with `Interrupted`
/// is made again, up to 1,000 times; every other error is returned as it is.
fn read_some<R: Read>(reader: &mut R, piece: &mut [u8]) -> io::Result<usize>
    ensures bound { ReadsAtMost result piece.new }
    ensures bytes { ReadConsumes (R.remaining reader.old) (R.remaining reader.new) result
        piece.new }
{
    for _ in 0..RETRIES {
        match reader.read(piece) {
            Ok(count) => return Ok(count),
            Err(error) => {
                if error.kind() != ErrorKind::Interrupted {
                    return Err(error);
                }
            }
        }
    }
    reader.read(piece)
}

/// Reads the whole input, to its end. `TooLong` as soon as it has more than `INPUT_LIMIT` bytes, `Read` where a read fails, and
/// `NoMemory` on an allocation failure; what was read by then is lost.
#[tactic(auto, using(crate::proofs::Taken::taken_more, crate::proofs::Taken::taken_kept))]
pub fn read_input<R: Read>(alloc: Global, reader: &mut R) -> Result<Vec<u8>, InputFault>
    ensures whole { IfOk result
        (λ bytes. IfSome (R.remaining reader.old) (λ input. input ≡ bytes.items)) }
    ensures within { IfOk result (λ bytes. vec_len bytes ≤ INPUT_LIMIT) }
    ensures too_long { result ≡ Err InputFault.TooLong → IfSome (R.remaining reader.old)
        (λ input. INPUT_LIMIT < length input) }
    ensures bounded { TakesWithin (R.remaining reader.old) (R.remaining reader.new) }
{
    let mut input = Vec::new(alloc);
    let mut piece = [0u8; PIECE];
    loop {
        let count = read_some(reader, &mut piece)?;
        if count == 0 {
            return Ok(input);
        }
        if count > INPUT_LIMIT - input.len() {
            return Err(InputFault::TooLong);
        }
        input.extend_from_slice(&piece[..count])?;
    }
}

/// Writes once and returns how many bytes were written from the front. A write that fails with `Interrupted` is made again, up to
/// 1,000 times; every other error is returned as it is.
fn write_some<W: Write>(writer: &mut W, bytes: &[u8]) -> io::Result<usize>
    ensures bound { WritesAtMost result bytes.now }
    ensures bytes { WriteAppends (W.contents writer.old) (W.contents writer.new) result bytes.now }
{
    for _ in 0..RETRIES {
        match writer.write(bytes) {
            Ok(count) => return Ok(count),
            Err(error) => {
                if error.kind() != ErrorKind::Interrupted {
                    return Err(error);
                }
            }
        }
    }
    writer.write(bytes)
}

/// Writes all the bytes, but doesn't flush. An error is the writer's, or `WriteZero` where the writer takes no bytes; the first
/// part of the bytes may be written by then.
pub fn write_whole<W: Write>(writer: &mut W, bytes: &[u8]) -> io::Result<()>
    ensures { Wrote (W.contents writer.old) (W.contents writer.new) bytes.now result }
{
    let mut rest = bytes;
    while !rest.is_empty() {
        let count = write_some(writer, rest)?;
        if count == 0 {
            return Err(ErrorKind::WriteZero.into());
        }
        rest = &rest[count..];
    }
    Ok(())
}
