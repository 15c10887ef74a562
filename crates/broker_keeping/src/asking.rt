//! Lines that ask how things stand, and their reader beside a clock.

use crate::control_command::{ControlCommand, parse_control_command};
use crate::operator_log::OperatorLog;
use authorizer::Refusal;
use byte_streams::write_whole;
use commands::content;
use core_reports::{TrailDelta, delta_since, lines_of, state_report_of, state_text};
use request_handlers::Stop;
use session_pool::{DeskLedger, LockedDesk, ShutdownFlag};
use std::alloc::{AllocError, Global};
use std::io::{BufRead, Write};
use std::sync::Wait;
use std::time;

/// The lines that are answered beside a clock, as an operator reads them.
const ASKING_LINES: &str = "`audit`, `state` and `end`";

/// Lines that steer a broker, and where each is answered.
#[derive(Drop)]
pub struct Steering<'d, I, O> {
    pub lines: I,
    pub answers: O,
    /// Is set by the line `end` or the end of the lines, and once all is served.
    pub closing: &'d ShutdownFlag,
    /// Whether the lines steer the broker in place of the clock; else the broker keeps its time beside them.
    pub without_clock: bool,
}

/// Reads lines, and answers `audit` and `state`.
#[derive(Drop)]
pub(crate) struct Asking<'d, 'r, L: DeskLedger, R: Wait, I: BufRead, O: Write> {
    alloc: Global,
    pub(crate) desk: &'d LockedDesk<L, &'r R>,
    log: &'d OperatorLog<'r, R>,
    steering: Steering<'d, I, O>,
    /// How many entries of the trail earlier answers to `audit` cover.
    told: usize,
}

/// The answer to `audit`: an audit line for each refusal, and at last `refusals N`.
fn refused_text(alloc: Global, refusals: &[Refusal]) -> Result<String, AllocError> {
    let count = refusals.len();
    let mut text = lines_of(alloc, refusals)?;
    text.push_str(format!(in alloc; "refusals {count}\n")?.as_str())?;
    Ok(text)
}

impl<'d, 'r, L: DeskLedger, R: Wait + time::Clock, I: BufRead, O: Write> Asking<
    'd,
    'r,
    L,
    R,
    I,
    O,
> {
    /// A reader of the lines of `steering`, of which none was read yet.
    pub(crate) fn new(
        alloc: Global,
        desk: &'d LockedDesk<L, &'r R>,
        log: &'d OperatorLog<'r, R>,
        steering: Steering<'d, I, O>,
    ) -> Asking<'d, 'r, L, R, I, O> {
        Asking {
            alloc,
            desk,
            log,
            steering,
            told: 0,
        }
    }

    /// Writes whole lines as an answer. That the write fails isn't reported.
    pub(crate) fn answer(&mut self, lines: &str) {
        let _ = write_whole(&mut self.steering.answers, lines.as_bytes());
    }

    /// Writes lines as an answer, or the line of `Stop::NoMemory`, where an allocation failed for them.
    pub(crate) fn answer_or_stop(&mut self, lines: Result<String, AllocError>) {
        match lines {
            Ok(lines) => self.answer(lines.as_str()),
            Err(_) => self.answer(Stop::NoMemory.line()),
        }
    }

    /// Answers `unreadable`, since a line is none of those that may come, and warns an operator. `lines` names those that may.
    pub(crate) fn answer_unreadable(&mut self, lines: &str) {
        self.answer("unreadable\n");
        self.log.tell_unreadable(lines);
    }

    /// Sets the flag that no more connections are to be taken.
    pub(crate) fn close(&self) {
        self.steering.closing.close();
    }

    /// As `close`, and logs for an operator how many connections a worker still serves; nothing where there are none.
    pub(crate) fn close_and_tell(&self) {
        self.close();
        self.log.tell_open();
    }

    /// Reads the next line, and gives the command that it is; `None` where it is none. The end of the lines is the command `end`,
    /// and so is a read that fails.
    pub(crate) fn read(&mut self) -> Option<ControlCommand> {
        let mut line = Vec::new(self.alloc);
        match self.steering.lines.read_until(b'\n', &mut line) {
            Ok(count) if count > 0 => {}
            _ => return Some(ControlCommand::End),
        }
        parse_control_command(content(line.as_slice()))
    }

    /// Answers the line `state`: how things stand in the broker, or the line of `Stop::NoMemory`.
    pub(crate) fn tell_state(&mut self) {
        let alloc = self.alloc;
        let lines = match self.desk.look(|core| state_report_of(alloc, core)) {
            Ok(report) => state_text(alloc, &report),
            Err(error) => Err(error),
        };
        self.answer_or_stop(lines);
    }

    /// Answers the line `audit`: the refusals since it was answered last, or the line of `Stop::NoMemory`, after which the next
    /// answer has these refusals too.
    pub(crate) fn tell_refusals(&mut self) {
        let (alloc, told) = (self.alloc, self.told);
        let lines = match self
            .desk
            .look(|core| delta_since(alloc, core.trail(), told))
        {
            Ok(TrailDelta { refusals, len }) => {
                let text = refused_text(alloc, refusals.as_slice());
                if text.is_ok() {
                    self.told = len;
                }
                text
            }
            Err(error) => Err(error),
        };
        self.answer_or_stop(lines);
    }
}

/// Reads lines beside a clock, which ask how things stand, until the line `end`, the end of the lines or a failed read: then no
/// more connections are taken.
#[derive(Drop)]
pub struct Attendant<'d, 'r, L: DeskLedger, R: Wait, I: BufRead, O: Write> {
    rt: &'r R,
    asking: Asking<'d, 'r, L, R, I, O>,
}

impl<'d, 'r, L: DeskLedger, R: Wait + time::Clock, I: BufRead + Drop, O: Write + Drop> Attendant<
    'd,
    'r,
    L,
    R,
    I,
    O,
> {
    /// A reader of the lines of `steering`, of which none was read yet.
    pub fn new(
        rt: &'r R,
        alloc: Global,
        desk: &'d LockedDesk<L, &'r R>,
        log: &'d OperatorLog<'r, R>,
        steering: Steering<'d, I, O>,
    ) -> Attendant<'d, 'r, L, R, I, O> {
        Attendant {
            rt,
            asking: Asking::new(alloc, desk, log, steering),
        }
    }

    /// Answers `state` and `audit`, and any other line by `unreadable`, until the line `end`, the end of the lines or a failed
    /// read. From there on no more connections are to be taken.
    pub fn attend(mut self) {
        let rt = self.rt;
        for _ in rt.forever() {
            match self.asking.read() {
                Some(ControlCommand::End) => break,
                Some(ControlCommand::Audit) => self.asking.tell_refusals(),
                Some(ControlCommand::State) => self.asking.tell_state(),
                _ => self.asking.answer_unreadable(ASKING_LINES),
            }
        }
        self.asking.close();
    }
}
