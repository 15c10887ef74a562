//! Readers and writers that fail at one call after the other, are interrupted, or give one byte at a time.

ghost use Rattle.std.specs.Prelude.{None};

use crate::clients::{METADATA, METADATA_TOLD, serve};
use session_pool::{EndReason, Limits};
use std::alloc::Global;
use std::io;
use std::io::{ErrorKind, Read, Write};
use std::sync::Wait;
use std::sync::atomic::{AtomicU64, Ordering};
use std::test::Fail;
use test_frames::{HANDSHAKE, HANDSHAKE_TOLD, LOGIN, LOGIN_TOLD, bytes_of};

/// A reader of one byte at a time, which is interrupted `interruptions` times before each, and fails after so many reads.
#[derive(Drop)]
struct Slow<'a> {
    bytes: &'a [u8],
    interruptions: u32,
    interrupted: u32,
    reads: usize,
}

impl<'a> Slow<'a> {
    /// A reader of these bytes that is interrupted so often before each, and fails after so many reads that give a byte or the
    /// end.
    fn new(bytes: &'a [u8], interruptions: u32, reads: usize) -> Slow<'a> {
        Slow {
            bytes,
            interruptions,
            interrupted: 0,
            reads,
        }
    }
}

impl Read for Slow<'_> {
    ghost remaining = { λ _. None };

    /// Is interrupted as often as is due; then gives one byte, or fails where no more reads are left.
    fn read(&mut self, piece: &mut [u8]) -> io::Result<usize> {
        if self.interrupted < self.interruptions {
            self.interrupted += 1;
            return Err(ErrorKind::Interrupted.into());
        }
        self.interrupted = 0;
        if self.reads == 0 || piece.is_empty() {
            return Err(ErrorKind::BrokenPipe.into());
        }
        self.reads -= 1;
        self.bytes.read(&mut piece[..1])
    }
}

/// A reader that counts its reads.
#[derive(Drop)]
struct Counted<'a> {
    bytes: &'a [u8],
    reads: &'a AtomicU64,
}

impl Read for Counted<'_> {
    ghost remaining = { λ _. None };

    /// Counts the read, and reads.
    fn read(&mut self, piece: &mut [u8]) -> io::Result<usize> {
        self.reads.fetch_add(1, Ordering::SeqCst);
        self.bytes.read(piece)
    }
}

/// A writer of one byte at a time, that keeps what is written, and fails after so many writes.
#[derive(Drop)]
struct Narrow {
    held: Vec<u8>,
    writes: usize,
}

impl Write for Narrow {
    /// Takes one byte, or fails where no more writes are left.
    fn write(&mut self, bytes: &[u8]) -> io::Result<usize> {
        if self.writes == 0 || bytes.is_empty() {
            return Err(ErrorKind::StorageFull.into());
        }
        self.writes -= 1;
        self.held.push(bytes[0])?;
        Ok(1)
    }

    /// Does nothing.
    fn flush(&mut self) -> io::Result<()> {
        Ok(())
    }
}

/// A writer that counts its writes.
#[derive(Drop)]
struct Counting {
    writes: usize,
}

impl Write for Counting {
    /// Counts the write, and takes all bytes.
    fn write(&mut self, bytes: &[u8]) -> io::Result<usize> {
        self.writes = self.writes.wrapping_add(1);
        Ok(bytes.len())
    }

    /// Does nothing.
    fn flush(&mut self) -> io::Result<()> {
        Ok(())
    }
}

/// Why a session over a reader ended, and what was written to it.
fn told<R: Wait + Drop, Rd: Read + Drop>(
    rt: R,
    alloc: Global,
    reader: Rd,
) -> Result<(EndReason, Vec<u8>), Fail> {
    let mut written = Vec::new(alloc);
    let end = serve(rt, alloc, reader, &mut written, Limits::default())?;
    Ok((end.why, written))
}

/// A session is answered the same whether its input comes at once or a byte at a time, with an interruption before each.
#[test]
fn one_byte_at_a_time(rt: HostRuntime) -> Result<(), Fail> {
    let input = bytes_of(rt.alloc(), &[HANDSHAKE, LOGIN, METADATA])?;
    let whole = bytes_of(rt.alloc(), &[HANDSHAKE_TOLD, LOGIN_TOLD, METADATA_TOLD])?;
    let (why, written) = told(rt, rt.alloc(), input.as_slice())?;
    assert!(rt; why == EndReason::Closed && written == whole);
    let slow = Slow::new(input.as_slice(), 1, usize::MAX);
    let (why, written) = told(rt, rt.alloc(), slow)?;
    assert!(rt; why == EndReason::Closed && written == whole);
    Ok(())
}

/// Where a read of a session fails, it ends with `ReadFault`; the whole frames before are answered, and nothing else is.
#[test]
fn failing_reads(rt: HostRuntime) -> Result<(), Fail> {
    let input = bytes_of(rt.alloc(), &[HANDSHAKE, LOGIN, METADATA])?;
    let whole = bytes_of(rt.alloc(), &[HANDSHAKE_TOLD, LOGIN_TOLD, METADATA_TOLD])?;
    for reads in 0..input.len() + 1 {
        let answered = match reads {
            0..=20 => 0,
            21..=45 => 21,
            46..=63 => 37,
            _ => 106,
        };
        let slow = Slow::new(input.as_slice(), 0, reads);
        let (why, written) = told(rt, rt.alloc(), slow)?;
        assert!(rt;
            why == EndReason::ReadFault && written.len() == answered,
            "{reads}"
        );
        assert!(rt; whole.as_slice().starts_with(written.as_slice()), "{reads}");
    }
    Ok(())
}

/// A thousand interruptions of a read in a row are passed over; one more is a failed read.
#[test]
fn interrupted_reads(rt: HostRuntime) -> Result<(), Fail> {
    let input = bytes_of(rt.alloc(), &[HANDSHAKE])?;
    for (interruptions, why) in [(1_000, EndReason::Closed), (1_001, EndReason::ReadFault)] {
        let slow = Slow::new(input.as_slice(), interruptions, usize::MAX);
        assert!(rt; told(rt, rt.alloc(), slow)?.0 == why, "{interruptions}");
    }
    Ok(())
}

/// Why a session ends whose writer takes so many writes of one byte, how many receipts it has, and what was written.
fn cut_off<R: Wait + Drop>(
    rt: R,
    alloc: Global,
    input: &[u8],
    writes: usize,
) -> Result<(EndReason, usize, Vec<u8>), Fail> {
    let mut narrow = Narrow {
        held: Vec::new(alloc),
        writes,
    };
    let end = serve(rt, alloc, input, &mut narrow, Limits::default())?;
    Ok((end.why, end.receipts, narrow.held))
}

/// Where a write of a session fails, it ends with `WriteFault`; the answers' front is written, and the receipt of an answered
/// event is kept.
#[test]
fn failing_writes(rt: HostRuntime) -> Result<(), Fail> {
    let input = bytes_of(rt.alloc(), &[HANDSHAKE, LOGIN, METADATA])?;
    let whole = bytes_of(rt.alloc(), &[HANDSHAKE_TOLD, LOGIN_TOLD, METADATA_TOLD])?;
    for writes in 0..whole.len() {
        let (why, receipts, held) = cut_off(rt, rt.alloc(), input.as_slice(), writes)?;
        assert!(rt; why == EndReason::WriteFault, "{writes}");
        assert!(rt; receipts == usize::from(writes >= 37), "{writes}");
        assert!(rt; held.as_slice() == &whole[..writes], "{writes}");
    }
    Ok(())
}

/// An input that is cut off at any byte ends a session between frames or inside one, and the whole frames before are answered.
#[test]
fn each_front_of_an_input(rt: HostRuntime) -> Result<(), Fail> {
    let input = bytes_of(rt.alloc(), &[HANDSHAKE, LOGIN, METADATA])?;
    let whole = bytes_of(rt.alloc(), &[HANDSHAKE_TOLD, LOGIN_TOLD, METADATA_TOLD])?;
    for len in 0..input.len() {
        let (due, answered) = match len {
            0 => (EndReason::Closed, 0),
            1..=20 => (EndReason::Cut, 0),
            21 => (EndReason::Closed, 21),
            22..=45 => (EndReason::Cut, 21),
            46 => (EndReason::Closed, 37),
            _ => (EndReason::Cut, 37),
        };
        let (why, written) = told(rt, rt.alloc(), &input[..len])?;
        assert!(rt; why == due && written.len() == answered, "{len}");
        assert!(rt; whole.as_slice().starts_with(written.as_slice()), "{len}");
    }
    Ok(())
}

/// Why a session of these bytes ended, and how many reads it made of them.
fn reads_of<R: Wait + Drop>(rt: R, alloc: Global, bytes: &[u8]) -> Result<(EndReason, u64), Fail> {
    let reads = AtomicU64::new(0);
    let counted = Counted {
        bytes,
        reads: &reads,
    };
    let (why, _) = told(rt, alloc, counted)?;
    Ok((why, reads.load(Ordering::SeqCst)))
}

/// After a login a frame of a megabyte comes in few reads: memory is taken for as much again as has come.
#[test]
fn a_long_frame_in_few_reads(rt: HostRuntime) -> Result<(), Fail> {
    let mut input = bytes_of(rt.alloc(), &[HANDSHAKE, LOGIN, "000f4240"])?;
    input.resize(21 + 25 + 4 + 1_000_000, 0)?;
    let (why, reads) = reads_of(rt, rt.alloc(), input.as_slice())?;
    assert!(rt; why == EndReason::Malformed && reads < 12);
    Ok(())
}

/// Before a login a frame of a megabyte isn't kept: it is read past by pieces of 8,192 bytes, and ends the session.
#[test]
fn a_long_frame_before_a_login(rt: HostRuntime) -> Result<(), Fail> {
    let mut input = bytes_of(rt.alloc(), &["000f4240"])?;
    input.resize(4 + 1_000_000, 0)?;
    let (why, reads) = reads_of(rt, rt.alloc(), input.as_slice())?;
    assert!(rt; why == EndReason::Login && reads > 120 && reads < 130);
    Ok(())
}

/// Frames that come at once are read in one read; the end of the input is another.
#[test]
fn one_read_for_many_frames(rt: HostRuntime) -> Result<(), Fail> {
    let input = bytes_of(rt.alloc(), &[HANDSHAKE, LOGIN, METADATA])?;
    assert!(rt; reads_of(rt, rt.alloc(), input.as_slice())? == (EndReason::Closed, 2));
    Ok(())
}

/// A session writes each of its answers in one write.
#[test]
fn one_write_for_each_answer(rt: HostRuntime) -> Result<(), Fail> {
    let input = bytes_of(rt.alloc(), &[HANDSHAKE, LOGIN, METADATA])?;
    let mut counting = Counting { writes: 0 };
    let end = serve(
        rt,
        rt.alloc(),
        input.as_slice(),
        &mut counting,
        Limits::default(),
    )?;
    assert!(rt; end.why == EndReason::Closed && counting.writes == 3);
    Ok(())
}

/// An answer of up to 65,536 bytes is written in one write; of a longer one what stands before its topics comes first. A Metadata that
/// names the topic `b` n times is answered in 29 + 36 n bytes: 65,513 for 1,819, and 65,549 for 1,820.
#[test]
fn one_write_for_the_longest_whole_answer(rt: HostRuntime) -> Result<(), Fail> {
    for (topics, writes) in [(1_819u32, 3), (1_820, 4)] {
        let mut input = bytes_of(rt.alloc(), &[HANDSHAKE, LOGIN])?;
        input.extend_from_slice(&(14 + 3 * topics).to_be_bytes())?;
        input.extend_from_slice(b"\0\x03\0\x01\0\0\0\x01\xff\xff")?;
        input.extend_from_slice(&topics.to_be_bytes())?;
        for _ in 0..topics {
            input.extend_from_slice(b"\0\x01b")?;
        }
        let mut counting = Counting { writes: 0 };
        let end = serve(
            rt,
            rt.alloc(),
            input.as_slice(),
            &mut counting,
            Limits::default(),
        )?;
        assert!(rt; end.why == EndReason::Closed && counting.writes == writes);
    }
    Ok(())
}
