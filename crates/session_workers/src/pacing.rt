//! Users that ask faster than they may, or have more sessions than they may.

use crate::guest::is_gone;
use admission::{Load, Pace, Quota, Rate};
use session_pool::ShutdownFlag;
use std::alloc::{AllocError, Global};
use std::net::TcpStream;
use std::sync::{Mutex, Wait};
use std::time::{Duration, Instant};
use std::{thread, time};
use wire_types::{Shared, Text};

/// How long a user that waits sleeps at most, before it is looked whether its peer is still there and further requests are read;
/// in nanoseconds.
const NAP: u64 = 100_000_000;

/// For how many nanoseconds a session is made to wait at most. Meanwhile it holds a worker, so one that would wait for longer is
/// let go.
const LONGEST: u64 = 10_000_000_000;

/// Makes users wait that ask faster than they may, in all their sessions together, as long as further requests are read; and counts
/// the sessions of each user, where a user may have so many.
#[derive(Drop)]
pub(crate) struct Pacing<'r, R> {
    rt: &'r R,
    alloc: Global,
    pace: Mutex<Pace>,
    /// From when on moments are counted. `None` where the clock couldn't be read, or where users may ask as fast as they like:
    /// then nobody waits.
    start: Option<Instant>,
    /// Is set once no further request is read.
    reading: &'r ShutdownFlag,
    /// Whether sessions are counted.
    counts: bool,
    /// How many sessions each user has.
    users: Mutex<Quota>,
}

impl<'r, R: Wait + time::Clock> Pacing<'r, R> {
    /// A pacing by this rate, by which no user has asked yet; `per_user` is how many sessions a user may have, `None` for any
    /// number.
    pub(crate) fn new(
        rt: &'r R,
        alloc: Global,
        rate: Rate,
        per_user: Option<u64>,
        reading: &'r ShutdownFlag,
    ) -> Pacing<'r, R> {
        let start = if rate.is_any() {
            None
        } else {
            Instant::now(rt).ok()
        };
        Pacing {
            rt,
            alloc,
            pace: Mutex::new(Pace::new(alloc, rate)),
            start,
            reading,
            counts: per_user.is_some(),
            users: Mutex::new(Quota::new(alloc, per_user.unwrap_or(0))),
        }
    }

    /// How many nanoseconds have passed since the start; `None` where that can't be told, or where users may ask as fast as they
    /// like.
    fn now(&self) -> Option<u64> {
        let passed = self.start?.elapsed(self.rt).ok()?;
        u64::try_from(passed.as_nanos()).ok()
    }

    /// Whether a wait is over before its time: no further request is read, or the peer is gone.
    fn is_cut(&self, peer: &Option<Shared<TcpStream>>) -> bool {
        if self.reading.is_closed() {
            return true;
        }
        match peer {
            Some(stream) => is_gone(stream.value()),
            None => false,
        }
    }

    /// Sleeps for so many nanoseconds, or until the wait is cut, which is looked at every 100 milliseconds.
    fn sleep(&self, time: u64, peer: &Option<Shared<TcpStream>>) {
        for _ in 0..time / NAP {
            if self.is_cut(peer) {
                return;
            }
            thread::sleep(self.rt, Duration::from_nanos(NAP));
        }
        thread::sleep(self.rt, Duration::from_nanos(time % NAP));
    }

    /// Charges a user for a request, and returns once it may ask again, no further request is read, or its peer is gone. Gives
    /// whether the session goes on: it doesn't where the user would have to wait for more than ten seconds, and then it isn't
    /// made to. It goes on at once, and nothing is charged, where there is no rate, the clock can't be read, or an allocation
    /// fails.
    pub(crate) fn pause(&self, user: &Text, load: Load, peer: &Option<Shared<TcpStream>>) -> bool {
        let Some(now) = self.now() else {
            return true;
        };
        let charged = self.pace.lock(self.rt).charge(self.alloc, user, now, load);
        let Ok(wait) = charged else {
            return true;
        };
        if LONGEST < wait {
            return false;
        }
        self.sleep(wait, peer);
        true
    }

    /// Counts one more session of a user, where sessions are counted. Gives false, and counts nothing, where the user has as many
    /// as it may. The error is an allocation failure, which counts nothing.
    pub(crate) fn enter(&self, user: &Text) -> Result<bool, AllocError> {
        if !self.counts {
            return Ok(true);
        }
        self.users.lock(self.rt).enter(self.alloc, user)
    }

    /// Counts one session of a user less, where sessions are counted.
    pub(crate) fn leave(&self, user: &Text) {
        if self.counts {
            self.users.lock(self.rt).leave(user);
        }
    }
}
