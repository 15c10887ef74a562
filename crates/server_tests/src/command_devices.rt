//! Readers and writers that fail at one call after the other.

ghost use Rattle.std.specs.Prelude.{None};

use commands::{check, replay};
use std::alloc::Global;
use std::io;
use std::io::{ErrorKind, Read, Write, sink};
use std::test::Fail;

const SETTINGS: &[u8] = b"node_id = 1\nhost = \"h\"\nport = 1\n";

const INPUT: &[u8] =
    b"node_id = 1\nhost = \"h\"\nport = 1\n---\nreq a h 00000000\nreq a h 00000000\n";

/// Whether a command is `check`, and not `replay`; its input; and what it writes.
const COMMANDS: [(bool, &[u8], &[u8]); 2] = [
    (true, SETTINGS, b"settings ok\n"),
    (false, INPUT, b"closed\nclosed\n"),
];

/// A reader of one byte at a time, that fails after so many reads.
#[derive(Drop)]
struct Failing<'a> {
    bytes: &'a [u8],
    reads: usize,
}

impl Read for Failing<'_> {
    ghost remaining = { λ _. None };

    /// Gives one byte, or fails where no more reads are left.
    fn read(&mut self, piece: &mut [u8]) -> io::Result<usize> {
        if self.reads == 0 || piece.is_empty() {
            return Err(ErrorKind::BrokenPipe.into());
        }
        self.reads -= 1;
        self.bytes.read(&mut piece[..1])
    }
}

/// A writer of one byte at a time, that keeps what is written, and fails after so many writes.
#[derive(Drop)]
struct Narrow {
    held: Vec<u8>,
    writes: usize,
}

impl Write for Narrow {
    /// Takes one byte, or fails where no more writes are left.
    fn write(&mut self, bytes: &[u8]) -> io::Result<usize> {
        if self.writes == 0 || bytes.is_empty() {
            return Err(ErrorKind::StorageFull.into());
        }
        self.writes -= 1;
        self.held.push(bytes[0])?;
        Ok(1)
    }

    /// Does nothing.
    fn flush(&mut self) -> io::Result<()> {
        Ok(())
    }
}

/// How a command ended, and what it wrote.
#[derive(Drop)]
struct Ran {
    status: u8,
    written: Vec<u8>,
}

/// Runs `check` or `replay`, of which the first reads `SETTINGS` and the second `INPUT`, with so many reads and writes that don't fail.
fn run(alloc: Global, is_check: bool, reads: usize, writes: usize) -> Ran {
    let bytes = if is_check { SETTINGS } else { INPUT };
    let mut reader = Failing { bytes, reads };
    let mut writer = Narrow {
        held: Vec::new(alloc),
        writes,
    };
    let status = if is_check {
        check(alloc, &mut reader, &mut writer, &mut sink())
    } else {
        replay(alloc, &mut reader, &mut writer, &mut sink())
    };
    Ran {
        status,
        written: writer.held,
    }
}

/// Where a read of its input fails, a command ends with the status 1 and writes nothing; it is done, with the status 0, where the
/// read succeeds that finds the input's end.
#[test]
fn failing_reads(rt: HostRuntime) -> Result<(), Fail> {
    for (is_check, input, answer) in COMMANDS {
        for reads in 0..input.len() + 2 {
            let ran = run(rt.alloc(), is_check, reads, answer.len());
            let is_whole = reads > input.len();
            assert_eq!(rt; ran.status == 0, is_whole);
            assert!(rt; ran.written.as_slice() == if is_whole { answer } else { b"" });
        }
    }
    Ok(())
}

/// Where a write of its output fails, a command ends with the status 1, and the answer's front is written.
#[test]
fn failing_writes(rt: HostRuntime) -> Result<(), Fail> {
    for (is_check, input, answer) in COMMANDS {
        for writes in 0..answer.len() + 1 {
            let ran = run(rt.alloc(), is_check, input.len() + 1, writes);
            assert_eq!(rt; ran.status == 0, writes == answer.len());
            assert!(rt; ran.written.as_slice() == &answer[..writes]);
        }
    }
    Ok(())
}
