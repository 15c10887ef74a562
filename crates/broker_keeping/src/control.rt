//! The keeper's steps, by lines that steer the broker.

ghost use Rattle.std.specs.Prelude.{false};

use crate::asking::{Asking, Steering};
use crate::control_command::ControlCommand;
use crate::operator_log::OperatorLog;
use core_reports::{TickReport, front_of, front_text, moment_text, open_ones, tick_report_of};
use request_handlers::{Core, Stop};
use session_pool::{DeskLedger, EndReason, LockedDesk, Step, Steps};
use std::alloc::{AllocError, Global};
use std::io::{BufRead, Write};
use std::sync::Wait;
use std::time;
use txn_coordinator::PendingMarker;

/// The lines that steer a broker in place of the clock, as an operator reads them.
const STEERING_LINES: &str = "`tick N`, `mark`, `marks`, `audit`, `state` and `end`";

/// Which line the keeper's present step answers.
#[derive(Clone, Copy, Debug, PartialEq, Eq)]
enum InFlight {
    Nothing,
    Tick,
    Mark,
    /// `marks`, of whose markers so many are written.
    Marks(u64),
}

/// What was seen of a step while the core was locked, for the answer to its line.
#[derive(Drop)]
enum Seen {
    /// Nothing: there was no step, or an allocation failed.
    Nothing,
    /// The marker that was pending first before a mark.
    Front(Option<PendingMarker>),
    /// Which transactions were open before a tick.
    Open(Vec<bool>),
    /// What a tick did.
    TickReport(TickReport),
}

/// What a line leads to.
enum Effect {
    /// A step of the keeper; the line is answered once it is done.
    Steps(InFlight, Step),
    /// The line was answered.
    Answered,
    /// The keeper ends.
    Ends,
}

/// The keeper's steps by lines: reads them, and answers each once its step is done. Between two lines the core answers only what
/// clients ask.
#[derive(Drop)]
pub struct Control<'d, 'r, L: DeskLedger, R: Wait, I: BufRead, O: Write> {
    rt: &'r R,
    alloc: Global,
    asking: Asking<'d, 'r, L, R, I, O>,
    in_flight: InFlight,
    /// How many markers were pending after the last step.
    left: u64,
    /// What the answer to the step's line tells.
    seen: Seen,
}

/// What is answered of a step that was taken, without a line feed: the marker that was written, or the moment and which
/// transactions it aborted. The error is an allocation failure, now or when the step was seen.
fn seen_text(alloc: Global, seen: &Seen) -> Result<String, AllocError> {
    match seen {
        Seen::Front(front) => front_text(alloc, front),
        Seen::TickReport(report) => moment_text(alloc, report),
        Seen::Nothing | Seen::Open(_) => Err(AllocError),
    }
}

/// What has to be seen in the core before a step: the transactions that are open before a tick, the first pending marker before a
/// mark; `Nothing` after an allocation failure.
fn seen_before(alloc: Global, core: &Core, in_flight: InFlight) -> Seen {
    match in_flight {
        InFlight::Tick => open_ones(alloc, core).map_or(Seen::Nothing, Seen::Open),
        InFlight::Mark | InFlight::Marks(_) => front_of(core).map_or(Seen::Nothing, Seen::Front),
        InFlight::Nothing => Seen::Nothing,
    }
}

/// The line `stop N` that says why a step wasn't taken; that of `Stop::NoMemory` for any reason but a stop.
fn stop_line(why: EndReason) -> &'static str {
    match why {
        EndReason::Stopped(stop) => stop.line(),
        _ => Stop::NoMemory.line(),
    }
}

impl<'d, 'r, L: DeskLedger, R: Wait + time::Clock, I: BufRead, O: Write> Control<
    'd,
    'r,
    L,
    R,
    I,
    O,
> {
    /// A keeper's steps by the lines of `steering`, of which none was read yet.
    pub fn new(
        rt: &'r R,
        alloc: Global,
        desk: &'d LockedDesk<L, &'r R>,
        log: &'d OperatorLog<'r, R>,
        steering: Steering<'d, I, O>,
    ) -> Control<'d, 'r, L, R, I, O> {
        Control {
            rt,
            alloc,
            asking: Asking::new(alloc, desk, log, steering),
            in_flight: InFlight::Nothing,
            left: 0,
            seen: Seen::Nothing,
        }
    }

    /// Answers `markers N`, once `marks` has written all N pending markers.
    fn tell_markers(&mut self, count: u64) {
        self.in_flight = InFlight::Nothing;
        let line = format!(in self.alloc; "markers {count}\n");
        self.asking.answer_or_stop(line);
    }

    /// Does what the line `marks` asks for: a first mark, if a marker is pending; else the answer is `markers 0`.
    fn first_of_marks(&mut self) -> Effect {
        if self
            .asking
            .desk
            .look(|core| core.world().coordinator.owed())
            > 0
        {
            return Effect::Steps(InFlight::Marks(0), Step::Mark);
        }
        self.tell_markers(0);
        Effect::Answered
    }

    /// Answers a command, or gives the step that it asks for; `end` ends the keeper.
    fn obey(&mut self, command: ControlCommand) -> Effect {
        match command {
            ControlCommand::Tick(moment) => return Effect::Steps(
                InFlight::Tick,
                Step::Tick(moment),
            ),
            ControlCommand::Mark => return Effect::Steps(InFlight::Mark, Step::Mark),
            ControlCommand::Marks => return self.first_of_marks(),
            ControlCommand::Audit => self.asking.tell_refusals(),
            ControlCommand::State => self.asking.tell_state(),
            ControlCommand::End => return Effect::Ends,
        }
        Effect::Answered
    }

    /// Answers with what a step did, `moment ..` or `marker ..`, and `owed N`: how many markers are still pending.
    fn tell_step(&mut self, left: u64) {
        self.left = left;
        let alloc = self.alloc;
        let line = match seen_text(alloc, &self.seen) {
            Ok(told) => format!(in alloc; "{told} owed {left}\n"),
            Err(error) => Err(error),
        };
        self.seen = Seen::Nothing;
        self.asking.answer_or_stop(line);
        self.in_flight = match self.in_flight {
            InFlight::Marks(count) => InFlight::Marks(count.saturating_add(1)),
            _ => InFlight::Nothing,
        };
    }
}

impl<'d, 'r, L: DeskLedger, R: Wait + time::Clock, I: BufRead, O: Write> Steps
    for Control<'d, 'r, L, R, I, O> {
    /// The lines say when a marker is written, whether one is pending or not.
    ghost State = { Unit {0} };

    ghost state = { λ _. tt };

    ghost gives = { λ _ _ _ _. Unit {0} };

    ghost told = { λ _ _. tt };

    ghost halts = { false };

    /// Sees in the core what the answer to the step's line needs from before the step.
    fn before(&mut self, core: &Core) {
        self.seen = seen_before(self.alloc, core, self.in_flight);
    }

    /// Sees the moment and which transactions a tick has aborted.
    fn after(&mut self, core: &Core) {
        let report = match &self.seen {
            Seen::Open(open) => tick_report_of(self.alloc, core, open.as_slice()),
            _ => return,
        };
        self.seen = match report {
            Ok(report) => Seen::TickReport(report),
            Err(_) => Seen::Nothing,
        };
    }

    /// The step that the next line asks for; lines that ask for none are answered meanwhile. After `marks` it is a mark as long
    /// as markers are pending. `None` after `end` or the end of the lines, and then no more connections are taken.
    fn next(&mut self, _done: bool) -> Option<Step> {
        if let InFlight::Marks(count) = self.in_flight {
            if self.left > 0 {
                return Some(Step::Mark);
            }
            self.tell_markers(count);
        }
        let rt = self.rt;
        for _ in rt.forever() {
            let Some(command) = self.asking.read() else {
                self.asking.answer_unreadable(STEERING_LINES);
                continue;
            };
            match self.obey(command) {
                Effect::Steps(in_flight, step) => {
                    self.in_flight = in_flight;
                    return Some(step);
                }
                Effect::Answered => {}
                Effect::Ends => break,
            }
        }
        self.asking.close_and_tell();
        None
    }

    /// Answers the line that asked for the step: what it did, or `stop N`, where it wasn't taken. The keeper goes on either way.
    fn on_result(&mut self, outcome: Result<u64, EndReason>) -> bool {
        match outcome {
            Ok(left) => self.tell_step(left),
            Err(why) => {
                self.in_flight = InFlight::Nothing;
                self.asking.answer(stop_line(why));
            }
        }
        true
    }
}
