//! The log for an operator: what comes out of it.

ghost use Rattle.std.specs.Prelude.{◌≡◌, IfOk, string_bytes};
ghost use Rattle.log_queue.specs.Dropped.{dropped_line};

use crate::log_message::{Level, LogMessage, Queued, SessionWords};
use crate::repeats::{Repeated, Repeats, session_line};
use crate::stamps::Stamp;
use byte_streams::write_whole;
use core_reports::{LoggedRefusal, text_of};
use crossbeam_channel::Receiver;
use std::alloc::{AllocError, Global};
use std::io::Write;
use std::sync::Wait;
use std::time;
use std::time::{Duration, SystemTime};

/// After so many seconds without a message it is written of how many further sessions the same was said.
const QUIET: u64 = 10;

/// Writes the log for an operator, in a thread of its own: that thread alone waits for whoever reads the log.
#[derive(Drop)]
pub struct LogWriter<E: Write> {
    alloc: Global,
    from: Receiver<Queued>,
    errors: E,
    /// Whether each line begins with the time of its message, and its level.
    stamps: bool,
    /// How many lines were dropped of which nothing is written yet.
    dropped: u64,
    repeats: Repeats,
}

/// The line that says how many lines were dropped, since the queue was full or an allocation failed.
fn dropped_line(alloc: Global, count: u64) -> Result<String, AllocError>
    ensures { IfOk result (λ line. string_bytes line ≡ dropped_line count) }
{
    format!(in alloc;
        "kbroker: lines left out, since nobody read them in time or memory was short: {count}\n"
    )
}

impl<E: Write + Drop> LogWriter<E> {
    /// A writer of the messages of this queue to `errors`. The error is an allocation failure.
    pub fn new(
        alloc: Global,
        from: Receiver<Queued>,
        errors: E,
        stamps: bool,
    ) -> Result<LogWriter<E>, AllocError> {
        Ok(LogWriter {
            alloc,
            from,
            errors,
            stamps,
            dropped: 0,
            repeats: Repeats::new(alloc)?,
        })
    }

    /// Writes all messages in the order in which they came into the queue, until it is to end or nobody is left to send one, and
    /// gives the writer back. Where lines were dropped, it writes how many before the next message, or at the end. Where the same
    /// is said of further sessions, it writes of how many: of the first ten, of the hundred after these, and so on, and of the
    /// others once four other things were said of sessions, no message came for ten seconds, or at `LogMessage::End`. What can't
    /// be written is lost.
    pub fn run<R: Wait + time::Clock>(mut self, rt: &R) -> E {
        for _ in rt.forever() {
            match self.from.recv_timeout(rt, Duration::from_secs(QUIET)) {
                Ok(queued) => {
                    if !self.tell(queued) {
                        break;
                    }
                }
                Err(error) => {
                    if !error.is_timeout() {
                        break;
                    }
                    self.tell_untold(SystemTime::now(rt).ok());
                }
            }
        }
        let LogWriter { errors, .. } = self;
        errors
    }

    /// Writes a message, and before it how many lines were dropped, if some were. Gives whether more messages are to come: not
    /// after `End`.
    fn tell(&mut self, queued: Queued) -> bool {
        let Queued {
            moment,
            dropped,
            message,
        } = queued;
        self.dropped = self.dropped.saturating_add(dropped);
        self.tell_dropped(moment);
        match message {
            LogMessage::Lines(level, lines) => self.write(Stamp { moment, level }, lines.as_str()),
            LogMessage::Refusals(lines) => self.tell_refusals(moment, lines.as_slice()),
            LogMessage::OfSession(said) => self.tell_of_session(moment, said),
            LogMessage::End => {
                self.tell_untold(moment);
                return false;
            }
        }
        true
    }

    /// Writes lines, each after its stamp, if lines get one. Where an allocation fails for the stamps, they are written without.
    /// What can't be written is lost.
    fn write(&mut self, stamp: Stamp, lines: &str) {
        if self.stamps {
            if let Ok(stamped) = stamp.on(self.alloc, lines) {
                let _ = write_whole(&mut self.errors, stamped.as_bytes());
                return;
            }
        }
        let _ = write_whole(&mut self.errors, lines.as_bytes());
    }

    /// Writes a line, or nothing for `None`.
    fn write_line(&mut self, moment: Option<SystemTime>, level: Level, line: Option<String>) {
        if let Some(line) = line {
            self.write(Stamp { moment, level }, line.as_str());
        }
    }

    /// Writes a line for each refusal. Where an allocation fails for them, they count as dropped.
    fn tell_refusals(&mut self, moment: Option<SystemTime>, lines: &[LoggedRefusal]) {
        match text_of(self.alloc, lines) {
            Ok(text) => self.write_line(moment, Level::Info, Some(text)),
            Err(_) => self.dropped = self.dropped.saturating_add(lines.len() as u64),
        }
    }

    /// Writes what is said of a session: in short, where that can be said in short and much was said of late. Where the last
    /// messages about sessions say the same, counts the session, and writes of how many only when that is due.
    fn tell_of_session(&mut self, moment: Option<SystemTime>, said: SessionWords) {
        let SessionWords {
            session,
            words,
            by_stranger,
        } = said;
        if self.count_again(moment, session, words.as_str()) {
            return;
        }
        let words = match by_stranger {
            Some(act) if !self.repeats.take_turn() => {
                let short = act.words();
                if self.count_again(moment, session, short) {
                    return;
                }
                String::from_str(self.alloc, short).unwrap_or(words)
            }
            _ => words,
        };
        self.tell_first(moment, session, words);
    }

    /// Counts a session, where the last messages about sessions say the same, and writes of how many when that is due. Gives
    /// whether they do.
    fn count_again(&mut self, moment: Option<SystemTime>, session: u64, words: &str) -> bool {
        let alloc = self.alloc;
        let Some(repeated) = self.repeats.find(words) else {
            return false;
        };
        if repeated.again(session) {
            let line = repeated.take_line(alloc);
            self.write_line(moment, Level::Info, line);
        }
        true
    }

    /// Writes what is said of a session, of which the last messages don't say the same.
    fn tell_first(&mut self, moment: Option<SystemTime>, session: u64, words: String) {
        let line = session_line(self.alloc, session, words.as_str()).ok();
        if let Some(forgotten) = self.repeats.keep(session, words) {
            self.tell_repeated(moment, forgotten);
        }
        self.write_line(moment, Level::Info, line);
    }

    /// Writes of how many more sessions the same was said than was written before; nothing where of none.
    fn tell_repeated(&mut self, moment: Option<SystemTime>, mut repeated: Repeated) {
        let line = repeated.take_line(self.alloc);
        self.write_line(moment, Level::Info, line);
    }

    /// Writes, for each of the last messages about sessions, of how many more it was said, and forgets it. From here on sessions
    /// are written of at length again.
    fn tell_untold(&mut self, moment: Option<SystemTime>) {
        self.repeats.start_turns();
        for _ in 0..self.repeats.len() {
            if let Some(repeated) = self.repeats.forget() {
                self.tell_repeated(moment, repeated);
            }
        }
    }

    /// Writes how many lines were dropped, if some were. After an allocation failure the count stays for the next time.
    fn tell_dropped(&mut self, moment: Option<SystemTime>) {
        if self.dropped == 0 {
            return;
        }
        if let Ok(line) = dropped_line(self.alloc, self.dropped) {
            self.write_line(moment, Level::Warn, Some(line));
            self.dropped = 0;
        }
    }
}
