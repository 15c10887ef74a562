//! A clock and a peer that tests move.

use std::cell::Cell;
use std::io::{ErrorKind, Read, Write};
use std::net::OpenStream;
use std::time::Duration;
use std::{io, time};

/// A clock that shows what a test sets: so many milliseconds, or, with `None`, that it can't be read.
#[derive(Drop)]
pub(crate) struct Hand {
    pub(crate) shows: Cell<Option<u64>>,
}

impl Hand {
    /// A clock that shows so many milliseconds.
    pub(crate) fn at(millis: u64) -> Hand {
        Hand {
            shows: Cell::new(Some(millis)),
        }
    }

    /// Moves the clock on by so many milliseconds; one that can't be read stays so.
    fn pass(&self, millis: u64) {
        self.shows
            .set(self.shows.get().map(|shows| shows.saturating_add(millis)));
    }
}

impl time::Clock for Hand {
    /// The milliseconds that the clock shows; an error where it can't be read.
    fn monotonic(&self) -> io::Result<Duration> {
        match self.shows.get() {
            Some(millis) => Ok(Duration::from_millis(millis)),
            None => Err(ErrorKind::Other.into()),
        }
    }

    /// As `monotonic`: the milliseconds that the clock shows, not counted from 1970.
    fn since_1970(&self) -> io::Result<Duration> {
        self.monotonic()
    }
}

/// Bytes, and how many milliseconds after the read that waits for them they come.
pub(crate) type Piece = (u64, &'static [u8]);

/// A peer that sends its pieces one after the other, and is then at its end. A read whose wait is no longer than a piece takes
/// ends after its wait.
#[derive(Drop)]
pub(crate) struct Peer<'x> {
    pub(crate) clock: &'x Hand,
    pub(crate) pieces: &'x [Piece],
    /// How many pieces were read.
    pub(crate) read: &'x Cell<usize>,
    /// For how many milliseconds a read waits at most; `None` for without end.
    pub(crate) waits: &'x Cell<Option<u64>>,
}

impl OpenStream for Peer<'_> {
    /// Notes for how long the next read waits.
    fn set_read_timeout(&self, time: Option<Duration>) -> io::Result<()> {
        let millis = time.map(|time| u64::try_from(time.as_millis()).unwrap_or(u64::MAX));
        self.waits.set(millis);
        Ok(())
    }
}

impl Read for Peer<'_> {
    ghost use Rattle.std.specs.Prelude.{None};

    ghost remaining = { λ _. None };

    /// Gives the next piece, and moves the clock on by the time that it takes. Where the wait is no longer than that, it moves
    /// the clock on by the wait and fails with `WouldBlock`.
    fn read(&mut self, piece: &mut [u8]) -> io::Result<usize> {
        let read = self.read.get();
        let Some((after, bytes)) = self.pieces.get(read) else {
            return Ok(0);
        };
        if let Some(wait) = self.waits.get() {
            if wait <= *after {
                self.clock.pass(wait);
                return Err(ErrorKind::WouldBlock.into());
            }
        }
        self.clock.pass(*after);
        self.read.set(read.saturating_add(1));
        let mut bytes = *bytes;
        bytes.read(piece)
    }
}

/// A peer that reads nothing: a write to it fails after its wait, or at once where it would wait without end.
#[derive(Drop)]
pub(crate) struct Deaf<'x> {
    pub(crate) clock: &'x Hand,
    /// For how many milliseconds a write waits at most; `None` for without end.
    pub(crate) waits: &'x Cell<Option<u64>>,
}

impl OpenStream for Deaf<'_> {
    /// Notes for how long the next write waits.
    fn set_write_timeout(&self, time: Option<Duration>) -> io::Result<()> {
        let millis = time.map(|time| u64::try_from(time.as_millis()).unwrap_or(u64::MAX));
        self.waits.set(millis);
        Ok(())
    }
}

impl Write for Deaf<'_> {
    /// Takes nothing: moves the clock on by the wait, and fails with `WouldBlock`; where the wait is without end, fails with
    /// `Other` at once.
    fn write(&mut self, _bytes: &[u8]) -> io::Result<usize> {
        match self.waits.get() {
            Some(wait) => {
                self.clock.pass(wait);
                Err(ErrorKind::WouldBlock.into())
            }
            None => Err(ErrorKind::Other.into()),
        }
    }

    /// Does nothing.
    fn flush(&mut self) -> io::Result<()> {
        Ok(())
    }
}
