//! A session that is held until another one was served.

use session_pool::Gate;
use std::io::{Cursor, Read, Write};
use std::net::OpenStream;
use std::sync::atomic::{AtomicU64, Ordering};
use std::sync::{Mutex, Wait};
use std::time::Duration;
use std::{io, thread, time};
use wire_types::Shared;

/// How many turns a wait has at most.
const TURNS: u32 = 10_000;

/// How far the two sessions have come.
#[derive(Drop)]
pub(crate) struct Flags {
    /// Not 0 once session 1 is held.
    pub(crate) held: AtomicU64,
    /// Not 0 once session 2 was served.
    pub(crate) served: AtomicU64,
    /// Not 0 once a wait ran out.
    pub(crate) late: AtomicU64,
}

impl Flags {
    /// Flags of which none is set.
    pub(crate) fn new() -> Flags {
        Flags {
            held: AtomicU64::new(0),
            served: AtomicU64::new(0),
            late: AtomicU64::new(0),
        }
    }

    /// Waits until a flag is set, for at most `TURNS` turns of a millisecond each; then sets `late`. Turns are counted, and not the
    /// time, so that a process that stands still isn't late.
    fn wait<R: time::Clock>(&self, rt: &R, flag: &AtomicU64) {
        for _ in 0..TURNS {
            if flag.load(Ordering::SeqCst) != 0 {
                return;
            }
            thread::sleep(rt, Duration::from_millis(1));
        }
        self.late.store(1, Ordering::SeqCst);
    }

    /// Sets `held`, and waits until session 2 was served, or that wait runs out.
    fn hold<R: time::Clock>(&self, rt: &R) {
        self.held.store(1, Ordering::SeqCst);
        self.wait(rt, &self.served);
    }
}

/// Where session 1 is held.
#[derive(Clone, Copy, Debug, PartialEq, Eq)]
pub(crate) enum Place {
    /// Before its first frame.
    Frame,
    /// Inside its reader's first read.
    Read,
}

/// A gate that holds session 1 before its first frame, if that is the place, and has session 2 wait until session 1 is held.
#[derive(Drop)]
pub(crate) struct Hold<R: time::Clock + Drop> {
    pub(crate) rt: R,
    pub(crate) flags: Shared<Flags>,
    pub(crate) place: Place,
    /// The number of session 2's last frame, counted from 0.
    pub(crate) last: u64,
}

impl<R: time::Clock + Drop> Gate for Hold<R> {
    /// Before a session's first frame: holds session 1, if it is held there, and has session 2 wait until session 1 is held.
    fn before(&self, session: u64, frame: u64) {
        let flags = self.flags.value();
        if frame != 0 {
            return;
        }
        if session == 2 {
            flags.wait(&self.rt, &flags.held);
        } else if self.place == Place::Frame {
            flags.hold(&self.rt);
        }
    }

    /// Notes that session 2 was served, after its last frame.
    fn after(&self, session: u64, frame: u64) {
        if session == 2 && frame == self.last {
            self.flags.value().served.store(1, Ordering::SeqCst);
        }
    }
}

/// A session's input, whose first read is held where `holds` says so.
#[derive(Drop)]
pub(crate) struct Talk<R: time::Clock + Drop> {
    pub(crate) rt: R,
    pub(crate) flags: Shared<Flags>,
    pub(crate) holds: bool,
    pub(crate) bytes: Cursor<Vec<u8>>,
}

impl<R: time::Clock + Drop> OpenStream for Talk<R> {
    /// Does nothing: no read waits.
    fn set_read_timeout(&self, _time: Option<Duration>) -> io::Result<()> {
        Ok(())
    }
}

impl<R: time::Clock + Drop> Read for Talk<R> {
    ghost use Rattle.std.specs.Prelude.{None};

    ghost remaining = { λ _. None };

    /// Holds the session at its first read, if `holds` says so, and reads its input.
    fn read(&mut self, piece: &mut [u8]) -> io::Result<usize> {
        if self.holds {
            self.holds = false;
            self.flags.value().hold(&self.rt);
        }
        self.bytes.read(piece)
    }
}

/// A session's output: keeps what is written in bytes that a test shares.
#[derive(Drop)]
pub(crate) struct Answers<R: Wait + Drop> {
    pub(crate) rt: R,
    pub(crate) bytes: Shared<Mutex<Vec<u8>>>,
}

impl<R: Wait + Drop> OpenStream for Answers<R> {
    /// Does nothing: no write waits.
    fn set_write_timeout(&self, _time: Option<Duration>) -> io::Result<()> {
        Ok(())
    }
}

impl<R: Wait + Drop> Write for Answers<R> {
    /// Keeps the bytes.
    fn write(&mut self, bytes: &[u8]) -> io::Result<usize> {
        self.bytes.value().lock(&self.rt).extend_from_slice(bytes)?;
        Ok(bytes.len())
    }

    /// Does nothing.
    fn flush(&mut self) -> io::Result<()> {
        Ok(())
    }
}
