//! A writer that keeps the time of a login.

ghost use Rattle.std.specs.Prelude.{◌≡◌};
ghost use Rattle.std.specs.Io.{WritesAtMost};
ghost use Rattle.std.specs.Io.KnownBytes.{Keeps, WriteAppends};
ghost use Rattle.deadlines.specs.Timed.{timed_contents};

use crate::course::{Course, Notes, time_of};
use crate::limits::{Bound, Times};
use std::io::Write;
use std::net::OpenStream;
use std::time::Duration;
use std::{io, time};

/// A writer round a stream, which waits for its peer no longer than the times for its login and for an idle peer allow; once the
/// user is known, only the idle time holds.
#[derive(Drop)]
pub struct TimedWriter<'x, S, R> {
    stream: S,
    course: Course<'x, R>,
    /// The timeout that was set last for the stream's writes; the outer `None` before the first.
    waits: Option<Option<Duration>>,
}

impl<'x, S: Write + OpenStream, R: time::Clock> TimedWriter<'x, S, R> {
    /// A writer round a stream. Its session begins now. Which time ran out stands in `notes`.
    pub fn new(rt: &'x R, stream: S, times: Times, notes: &'x Notes) -> TimedWriter<'x, S, R>
        ensures { timed_contents S.contents result ≡ S.contents stream }
    {
        TimedWriter {
            stream,
            course: Course::begin(rt, times, notes),
            waits: None,
        }
    }

    /// Sets, before a write, how long the stream waits: the lesser of the idle time and, before the user is known, what is left
    /// of `Times::login`. The error is `TimedOut` where none is left, or the stream's.
    fn prepare(&mut self) -> io::Result<Option<Bound>>
        ensures { self.new.stream ≡ self.old.stream }
    {
        let bound = self.course.bound(false, None)?;
        let time = time_of(bound);
        if self.waits != Some(time) {
            self.stream.set_write_timeout(time)?;
            self.waits = Some(time);
        }
        Ok(bound)
    }
}

impl<'x, S: Write + OpenStream, R: time::Clock> Write for TimedWriter<'x, S, R> {
    ghost contents = { timed_contents S.contents };

    /// Writes as the stream does, and waits no longer than the login's time and the idle time allow. Where one of them is over,
    /// before the write or in it, that is noted, and the write fails.
    fn write(&mut self, bytes: &[u8]) -> io::Result<usize>
        ensures bound { WritesAtMost result bytes.now }
        ensures bytes { WriteAppends (timed_contents S.contents self.old)
            (timed_contents S.contents self.new) result bytes.now }
    {
        let bound = self.prepare()?;
        match self.stream.write(bytes) {
            Ok(count) => {
                self.course.count_written(count);
                Ok(count)
            }
            Err(error) => {
                self.course.note(bound, &error);
                Err(error)
            }
        }
    }

    /// Flushes the stream; no time is kept for that.
    fn flush(&mut self) -> io::Result<()>
        ensures bytes { Keeps (timed_contents S.contents self.old)
            (timed_contents S.contents self.new) }
    {
        self.stream.flush()
    }
}
