//! A session's times as they pass, and what is noted of them.

use crate::limits::{Bound, Limit, Times};
use std::cell::{Cell, OnceCell};
use std::io::ErrorKind;
use std::time::{Duration, Instant};
use std::{io, time};

/// What is noted of a session by those who share it: its server notes that its user is known, and that it is to end; `Timed` and
/// `TimedWriter` note which time ran out, how many bytes were read and written, and which four came first.
#[derive(Drop)]
pub struct Notes {
    known: Cell<bool>,
    closed: Cell<bool>,
    over: Cell<Option<Limit>>,
    passed: Cell<u64>,
    /// The first four bytes of what was read first, if that has as many.
    front: OnceCell<Option<[u8; 4]>>,
}

impl Notes {
    /// Notes of a session whose user isn't known yet, of which nothing was read and no time is over.
    pub fn new() -> Notes {
        Notes {
            known: Cell::new(false),
            closed: Cell::new(false),
            over: Cell::new(None),
            passed: Cell::new(0),
            front: OnceCell::new(),
        }
    }

    /// Notes that the user is known: from now on the time for a login no longer holds.
    pub fn log_in(&self) {
        self.known.set(true);
    }

    /// Notes that the server ends the session: from now on each read and each write fails with `ConnectionAborted`, and waits for
    /// nobody.
    pub fn close(&self) {
        self.closed.set(true);
    }

    /// How many bytes were read and written since the last call; the count starts again at 0.
    pub fn take_passed(&self) -> u64 {
        let passed = self.passed.get();
        self.passed.set(0);
        passed
    }

    /// Counts bytes that were read or written.
    fn count(&self, bytes: usize) {
        self.passed
            .set(self.passed.get().saturating_add(bytes as u64));
    }

    /// Which time was over when a read or a write failed last; `None` where none was.
    pub fn over(&self) -> Option<Limit> {
        self.over.get()
    }

    /// The session's first four bytes, which tell a client that speaks another protocol; `None` where its first read brought
    /// fewer.
    pub fn front(&self) -> Option<[u8; 4]> {
        match self.front.get() {
            Some(front) => *front,
            None => None,
        }
    }
}

/// The times of a session, its notes, and when it began.
#[derive(Drop)]
pub(crate) struct Course<'x, R> {
    rt: &'x R,
    times: Times,
    notes: &'x Notes,
    /// `None` where the clock couldn't be read.
    start: Option<Instant>,
}

impl<'x, R: time::Clock> Course<'x, R> {
    /// Starts the session's clock: the session begins now.
    pub(crate) fn begin(rt: &'x R, times: Times, notes: &'x Notes) -> Course<'x, R> {
        Course {
            rt,
            times,
            notes,
            start: Instant::now(rt).ok(),
        }
    }

    /// How long ago the session began; `None` where the clock can't be read.
    pub(crate) fn now(&self) -> Option<Duration> {
        self.start?.elapsed(self.rt).ok()
    }

    /// How long the next read or write may wait, and by which limit; `None` where no limit holds. `unheard`: whether no frame has
    /// come whole yet; `begun`: when a frame began that isn't whole, counted from the session's beginning. Where no time is left,
    /// or the clock can't be read under a limit, the limit is noted, and the error is `TimedOut`; where the session is to end, it
    /// is `ConnectionAborted`.
    pub(crate) fn bound(
        &self,
        unheard: bool,
        begun: Option<Duration>,
    ) -> io::Result<Option<Bound>> {
        if self.notes.closed.get() {
            return Err(ErrorKind::ConnectionAborted.into());
        }
        let known = self.notes.known.get();
        let bound = self.times.bound(known, unheard, begun, self.now());
        if let Some(bound) = bound {
            if bound.time.is_zero() {
                self.notes.over.set(Some(bound.by));
                return Err(ErrorKind::TimedOut.into());
            }
        }
        Ok(bound)
    }

    /// Notes what a read brought: adds to the number of bytes, and keeps the first four bytes of the session's first read.
    pub(crate) fn count_read(&self, bytes: &[u8]) {
        self.notes.count(bytes.len());
        let _later = self.notes.front.set(front_of(bytes));
    }

    /// Adds to the number of bytes those that a write took.
    pub(crate) fn count_written(&self, bytes: usize) {
        self.notes.count(bytes);
    }

    /// Notes which limit ended a read or a write that waited too long, where its error is `WouldBlock` or `TimedOut`. Other
    /// errors aren't noted.
    pub(crate) fn note(&self, bound: Option<Bound>, error: &io::Error) {
        if matches!(error.kind(), ErrorKind::WouldBlock | ErrorKind::TimedOut) {
            self.notes.over.set(by_of(bound));
        }
    }
}

/// The first four bytes; `None` where there are fewer.
fn front_of(bytes: &[u8]) -> Option<[u8; 4]> {
    match bytes {
        [a, b, c, d, ..] => Some([*a, *b, *c, *d]),
        _ => None,
    }
}

/// Which limit a bound comes from; `None` without a bound.
fn by_of(bound: Option<Bound>) -> Option<Limit> {
    match bound {
        None => None,
        Some(bound) => Some(bound.by),
    }
}

/// How long a call may wait by a bound; `None`, which is without end, where there is no bound.
pub(crate) fn time_of(bound: Option<Bound>) -> Option<Duration> {
    match bound {
        None => None,
        Some(bound) => Some(bound.time),
    }
}
