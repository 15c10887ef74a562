//! Readers and writers that fail and are interrupted.

ghost use Rattle.std.specs.Prelude.{Some};

use byte_streams::{InputFault, read_input, write_whole};
use std::io;
use std::io::{ErrorKind, Read, Write};
use std::test::Fail;

/// A reader that is interrupted some times before each piece.
#[derive(Drop)]
struct Flaky<'a> {
    bytes: &'a [u8],
    interruptions: u32,
    left: u32,
}

impl Read for Flaky<'_> {
    ghost remaining = { λ r. Some r.bytes.now };

    /// Is interrupted as often as is due, and then reads a piece.
    fn read(&mut self, piece: &mut [u8]) -> io::Result<usize> {
        if self.left > 0 {
            self.left -= 1;
            return Err(ErrorKind::Interrupted.into());
        }
        self.left = self.interruptions;
        self.bytes.read(piece)
    }
}

/// A writer that takes one byte at a time and fails once it is full.
#[derive(Drop)]
struct Narrow {
    held: Vec<u8>,
    budget: usize,
}

impl Write for Narrow {
    /// Takes one byte, or fails once it is full.
    fn write(&mut self, bytes: &[u8]) -> io::Result<usize> {
        if self.budget == 0 || bytes.is_empty() {
            return Err(ErrorKind::StorageFull.into());
        }
        self.budget -= 1;
        self.held.push(bytes[0])?;
        Ok(1)
    }

    /// Does nothing.
    fn flush(&mut self) -> io::Result<()> {
        Ok(())
    }
}

/// A read that is interrupted up to 1,000 times in a row is made again; one more interruption is a fault.
#[test]
fn tries_again_a_thousand_times(rt: HostRuntime) -> Result<(), Fail> {
    for (interruptions, succeeds) in [(0, true), (1_000, true), (1_001, false)] {
        let mut reader = Flaky {
            bytes: b"abc",
            interruptions,
            left: interruptions,
        };
        match read_input(rt.alloc(), &mut reader) {
            Ok(input) => assert!(rt; succeeds && input.as_slice() == b"abc".as_slice()),
            Err(fault) => assert!(rt; !succeeds && fault == InputFault::Read),
        }
    }
    Ok(())
}

/// A text is written byte by byte; where that fails, its front stands written.
#[test]
fn writes_from_the_front(rt: HostRuntime) -> Result<(), Fail> {
    for (budget, succeeds, held) in [(3, true, "abc"), (2, false, "ab"), (0, false, "")] {
        let mut writer = Narrow {
            held: Vec::new(rt.alloc()),
            budget,
        };
        assert!(rt; write_whole(&mut writer, b"abc").is_ok() == succeeds);
        assert!(rt; writer.held.as_slice() == held.as_bytes());
    }
    Ok(())
}
