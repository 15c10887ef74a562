//! A reader that keeps times.

ghost use Rattle.std.specs.Prelude.{◌≡◌, ℕ, List, [], Option, ◌++◌, take, IfOk, OnErr};
ghost use Rattle.std.specs.Io.{ReadsAtMost};
ghost use Rattle.std.specs.Io.KnownBytes.{ReadConsumes};
ghost use Rattle.std.specs.declared.time.Duration.{Duration};
ghost use Rattle.deadlines.specs.Progress.{Came, IsCut, bytes_at};
ghost use Rattle.deadlines.specs.Timed.{progress_of, timed_remaining};

use crate::course::{Course, Notes, time_of};
use crate::limits::{Bound, Times};
use crate::progress::Progress;
use std::io::Read;
use std::net::OpenStream;
use std::time::Duration;
use std::{io, time};

/// A reader round a stream, which passes its bytes on unchanged, and fails once the peer has overrun one of its times.
#[derive(Drop)]
pub struct Timed<'x, S, R> {
    stream: S,
    course: Course<'x, R>,
    /// Whether no read has ended with a whole frame yet.
    unheard: bool,
    progress: Progress,
    /// The timeout that was set last for the stream's reads; the outer `None` before the first.
    waits: Option<Option<Duration>>,
}

impl<'x, S: Read + OpenStream, R: time::Clock> Timed<'x, S, R> {
    /// A reader round a stream. Its session begins now. What it reads and which time ran out stands in `notes`.
    pub fn new(rt: &'x R, stream: S, times: Times, notes: &'x Notes) -> Timed<'x, S, R>
        ensures remaining { timed_remaining S.remaining result ≡ S.remaining stream }
        ensures nothing { IsCut [] (progress_of result) }
    {
        Timed {
            stream,
            course: Course::begin(rt, times, notes),
            unheard: true,
            progress: Progress::new(),
            waits: None,
        }
    }

    /// Sets how long a read of the stream waits at most, where that has changed; `None` is without end.
    fn wait(&mut self, time: Option<Duration>) -> io::Result<()>
        ensures stream { self.new.stream ≡ self.old.stream }
        ensures progress { self.new.progress ≡ self.old.progress }
    {
        if self.waits != Some(time) {
            self.stream.set_read_timeout(time)?;
            self.waits = Some(time);
        }
        Ok(())
    }

    /// Sets, before a read, how long the stream waits: as long as its peer has time. The error is `TimedOut` where no time is
    /// left, or the stream's.
    fn prepare(&mut self) -> io::Result<Option<Bound>>
        ensures stream { self.new.stream ≡ self.old.stream }
        ensures progress { self.new.progress ≡ self.old.progress }
    {
        let bound = self.course.bound(self.unheard, self.progress.begun())?;
        self.wait(time_of(bound))?;
        Ok(bound)
    }

    /// Takes in what a read brought: counts its bytes and follows their frames. Where the clock can't be read, the bytes count as
    /// come when the session began.
    fn take_in(&mut self, bytes: &[u8])
        ensures stream { self.new.stream ≡ self.old.stream }
        ensures passed { (came : List Came) → IsCut came self.old.progress → (moment : Duration)
            × IsCut (came ++ bytes_at moment bytes.now) self.new.progress }
    {
        let now = self.course.now().unwrap_or(Duration::ZERO);
        self.course.count_read(bytes);
        self.progress.pass(bytes, now);
        if !bytes.is_empty() && self.progress.begun().is_none() {
            self.unheard = false;
        }
    }
}

impl<'x, S: Read + OpenStream, R: time::Clock> Read for Timed<'x, S, R> {
    ghost remaining = { timed_remaining S.remaining };

    /// Reads as the stream does, and waits no longer than the session's times allow. Where one of them is over, before the read
    /// or in it, that is noted, and the read fails: `TimedOut` before, the stream's error in it.
    fn read(&mut self, piece: &mut [u8]) -> io::Result<usize>
        ensures bound { ReadsAtMost result piece.new }
        ensures bytes { ReadConsumes (timed_remaining S.remaining self.old)
            (timed_remaining S.remaining self.new) result piece.new }
        ensures passed { IfOk result
            (λ count. (came : List Came) → IsCut came (progress_of self.old) → (moment : Duration)
            × IsCut (came ++ bytes_at moment (take count piece.new)) (progress_of self.new)) }
        ensures same { OnErr result (progress_of self.new ≡ progress_of self.old) }
    {
        let bound = self.prepare()?;
        match self.stream.read(piece) {
            Ok(count) => {
                self.take_in(&piece[..count]);
                Ok(count)
            }
            Err(error) => {
                self.course.note(bound, &error);
                Err(error)
            }
        }
    }
}
