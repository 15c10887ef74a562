//! The log for an operator: what goes into it.

use crate::refused::refused_words;
use crate::watch::is_nearly_full;
use admission::Doorman;
use core_reports::{LoggedRefusal, Started, counts_line, counts_of, start_line, unserved_words};
use crossbeam_channel::Sender;
use log_queue::{Level, LogMessage, LogWriter, Queued, SessionWords, StrangerAct};
use request_handlers::{Core, MOST_SEATS};
use session_pool::{DeskLedger, EndReason, Gate, LockedDesk};
use std::alloc::{AllocError, Global};
use std::fmt::Display;
use std::io::Write;
use std::sync::Wait;
use std::sync::atomic::{AtomicU64, Ordering};
use std::time::{Duration, SystemTime};
use std::{io, time};
use wire_types::{Bytes, Text};

/// How many messages wait for the writer at most.
const WAITING: usize = 1_024;

/// After how many seconds of waiting for a worker it is logged that a connection is served.
const LONG: u64 = 1;

/// The log for an operator. It gets a line for each session that ends by other than `Closed`, and lines about connections that
/// wait or aren't served. Messages wait in a queue for a `LogWriter`, so nobody waits for whoever reads them: where the queue is
/// full, they are dropped, and the next message comes with the number of their lines. A message that can't be queued or allocated
/// makes nothing else fail.
#[derive(Drop)]
pub struct OperatorLog<'r, R: Wait> {
    rt: &'r R,
    alloc: Global,
    to: Sender<Queued>,
    /// How many lines were dropped of which the writer doesn't know.
    dropped: AtomicU64,
    /// How many seats were given to sessions.
    seats: AtomicU64,
    /// How many sessions were dropped since no seat was left.
    unseated: AtomicU64,
    /// How many connections were accepted for a worker.
    taken: AtomicU64,
    /// How many of those a worker has taken.
    begun: AtomicU64,
    /// How many of their sessions have ended.
    ended: AtomicU64,
    /// How many workers there are; 0 before a connection was taken.
    workers: AtomicU64,
}

impl<'r, R: Wait + time::Clock> OperatorLog<'r, R> {
    /// A log with an empty queue for 1,024 messages, which is allocated here, and the writer of what comes out of it to `errors`.
    /// The writer puts the time and the level before each line where `stamps` is set. The error is an allocation failure.
    pub fn new<E: Write + Drop>(
        rt: &'r R,
        alloc: Global,
        errors: E,
        stamps: bool,
    ) -> Result<(OperatorLog<'r, R>, LogWriter<E>), AllocError> {
        let (to, from) = crossbeam_channel::bounded(alloc, WAITING)?;
        let log = OperatorLog {
            rt,
            alloc,
            to,
            dropped: AtomicU64::new(0),
            seats: AtomicU64::new(0),
            unseated: AtomicU64::new(0),
            taken: AtomicU64::new(0),
            begun: AtomicU64::new(0),
            ended: AtomicU64::new(0),
            workers: AtomicU64::new(0),
        };
        Ok((log, LogWriter::new(alloc, from, errors, stamps)?))
    }

    /// A message with the present moment, and the number of lines that were dropped before it, which starts again at 0.
    fn queued(&self, message: LogMessage) -> Queued {
        Queued {
            moment: SystemTime::now(self.rt).ok(),
            dropped: self.dropped.swap(0, Ordering::SeqCst),
            message,
        }
    }

    /// Puts a message into the queue, and neither fails nor waits for whoever reads it. Where the queue is full, or the writer is
    /// gone, the message is dropped, and its lines are counted.
    fn hand(&self, message: LogMessage) {
        if let Err(refused) = self.to.try_send(self.rt, self.queued(message)) {
            self.drop_message(refused.into_inner());
        }
    }

    /// Logs whole lines that say how things go, and neither fails nor waits for whoever reads them. Where the queue is full, or
    /// the writer is gone, they are dropped and counted.
    pub fn info(&self, lines: String) {
        self.hand(LogMessage::Lines(Level::Info, lines));
    }

    /// Logs a line that says how things go; nothing, where an allocation failed for it.
    fn info_line(&self, line: Result<String, AllocError>) {
        if let Ok(line) = line {
            self.info(line);
        }
    }

    /// Logs a line about which somebody should do something; nothing, where an allocation failed for it.
    pub(crate) fn warn(&self, line: Result<String, AllocError>) {
        if let Ok(line) = line {
            self.hand(LogMessage::Lines(Level::Warn, line));
        }
    }

    /// Logs refusals, which the writer lays out, and neither fails nor waits for it. Where the queue is full, or the writer is
    /// gone, they are dropped and counted.
    pub(crate) fn tell_refusals(&self, lines: Vec<LoggedRefusal>) {
        self.hand(LogMessage::Refusals(lines));
    }

    /// Counts lines that aren't logged, since an allocation failed for them.
    pub(crate) fn pass_over(&self, lines: u64) {
        self.dropped.fetch_add(lines, Ordering::SeqCst);
    }

    /// Logs words about a session, and what a stranger did, if one did it; nothing where there are no words.
    fn info_of_session(
        &self,
        session: u64,
        words: Option<String>,
        by_stranger: Option<StrangerAct>,
    ) {
        if let Some(words) = words {
            self.hand(LogMessage::OfSession(SessionWords {
                session,
                words,
                by_stranger,
            }));
        }
    }

    /// Logs what is served, as a server starts.
    pub fn start(&self, core: &Core, started: Started) {
        self.info_line(start_line(self.alloc, core, started));
    }

    /// Warns where the settings tell clients another port than `listens`, on which the server listens: clients couldn't come
    /// back, unless a proxy stands between.
    pub fn warn_of_port(&self, core: &Core, listens: u16) {
        let told = core.world().node().port;
        if told != i32::from(listens) {
            self.warn(format!(in self.alloc;
                "kbroker: warning: clients are told port {told}, as the settings have it, and the server listens on {listens}\n"
            ));
        }
    }

    /// Logs how many requests, ticks and marks were answered at a desk; nothing after an allocation failure.
    pub fn tell_counts<L: DeskLedger>(&self, desk: &LockedDesk<L, &'r R>) {
        let alloc = self.alloc;
        if let Some(counts) = desk.look(|core| counts_of(alloc, core.trail())) {
            self.info_line(counts_line(alloc, &counts));
        }
    }

    /// Counts the lines of a message that is dropped, and the dropped lines whose number it carries.
    fn drop_message(&self, queued: Queued) {
        let Queued {
            dropped,
            message,
            ..
        } = queued;
        self.dropped.fetch_add(dropped, Ordering::SeqCst);
        self.dropped.fetch_add(message.lines(), Ordering::SeqCst);
    }

    /// Whether some connection waits for a worker.
    pub(crate) fn has_waiting(&self) -> bool {
        self.begun.load(Ordering::SeqCst) != self.taken.load(Ordering::SeqCst)
    }

    /// Warns that connections wait for a worker.
    pub(crate) fn tell_waiting(&self) {
        let workers = self.workers.load(Ordering::SeqCst);
        self.warn(format!(in self.alloc;
            "kbroker: connections wait for a worker, since all {workers} are taken; see --workers\n"
        ));
    }

    /// Warns that a line of standard input can't be read, and which `lines` can.
    pub(crate) fn tell_unreadable(&self, lines: &str) {
        self.warn(format!(in self.alloc;
            "kbroker: a line of standard input can't be read: there are {lines}\n"
        ));
    }

    /// How many connections have a worker that serves them.
    fn open(&self) -> u64 {
        let ended = self.ended.load(Ordering::SeqCst);
        let unseated = self.unseated.load(Ordering::SeqCst);
        let begun = self.begun.load(Ordering::SeqCst);
        begun.saturating_sub(ended.saturating_add(unseated))
    }

    /// Logs how many connections have a worker, since a stop waits for them; nothing where none has.
    pub(crate) fn tell_open(&self) {
        let open = self.open();
        if open > 0 {
            self.info_line(format!(in self.alloc;
                "kbroker: connections that are still open: {open}; the last line waits for their end, or for --grace\n"
            ));
        }
    }

    /// How many lines were dropped since a message last went into the queue: the writer doesn't know of them yet.
    pub fn dropped(&self) -> u64 {
        self.dropped.load(Ordering::SeqCst)
    }

    /// Logs that a session ended, whose it was (`nobody` before a login), from which host, and why.
    fn tell_end<D: Display + Drop>(&self, session: u64, host: &Text, who: Option<&Text>, why: D) {
        let by_stranger = if who.is_some() {
            None
        } else {
            Some(StrangerAct::Ends)
        };
        let host = host.as_str();
        let who = who.map_or("nobody", |who| who.as_str());
        let words = format!(in self.alloc; "of {who} from {host}: {why}");
        self.info_of_session(session, words.ok(), by_stranger);
    }

    /// Has the writer end after the messages that are queued. Where the queue is full this waits until it isn't, and where the
    /// writer is gone it does nothing.
    pub fn end(&self) {
        let _ = self.to.send(self.rt, self.queued(LogMessage::End));
    }
}

impl<'r, R: Wait + time::Clock> Gate for OperatorLog<'r, R> {
    /// Logs nothing.
    fn before(&self, _session: u64, _frame: u64) {}

    /// Logs nothing.
    fn after(&self, _session: u64, _frame: u64) {}

    /// Logs which api the frame asks, and which versions of the api are served.
    fn malformed(&self, session: u64, kept: &[u8]) {
        let words = unserved_words(self.alloc, kept);
        self.info_of_session(session, words, Some(StrangerAct::AsksUnserved));
    }

    /// Logs why the session's login failed, or what it asked before the login.
    fn refused(&self, session: u64, kept: &Bytes, is_answered: bool) {
        let act = if is_answered {
            StrangerAct::FailsToLogIn
        } else {
            StrangerAct::AsksTooEarly
        };
        let words = refused_words(self.alloc, kept, is_answered);
        self.info_of_session(session, words, Some(act));
    }

    /// Counts the end of a session, and logs it, unless the connection was closed between two requests.
    fn ended(&self, session: u64, host: &Text, who: Option<&Text>, why: EndReason) {
        self.ended.fetch_add(1, Ordering::SeqCst);
        if why != EndReason::Closed {
            self.tell_end(session, host, who, why);
        }
    }

    /// Counts the end of a session, and logs why it ended, in these words.
    fn ended_as(
        &self,
        session: u64,
        host: &Text,
        who: Option<&Text>,
        _why: EndReason,
        words: &str,
    ) {
        self.ended.fetch_add(1, Ordering::SeqCst);
        self.tell_end(session, host, who, words);
    }
}

impl<'r, R: Wait + time::Clock> Doorman for OperatorLog<'r, R> {
    /// Warns that connections can't be accepted for now.
    fn failed(&self, error: &io::Error) {
        self.warn(format!(in self.alloc;
            "kbroker: connections can't be accepted for now: {error}\n"
        ));
    }

    /// Logs that no more connections are taken, since so many were.
    fn used_up(&self, connections: u64) {
        self.info_line(format!(in self.alloc;
            "kbroker: no more connections are taken, since --connections is {connections}\n"
        ));
    }

    /// Warns that a connection was closed, since its host has as many as it may.
    fn turned_away(&self, host: &Text) {
        let host = host.as_str();
        self.warn(format!(in self.alloc;
            "kbroker: a connection from {host} was closed at once, since its host has as many as --per-host says\n"
        ));
    }

    /// Counts a seat that is given to a session, and warns once nine tenths of all are given.
    fn seated(&self) {
        let before = self.seats.fetch_add(1, Ordering::SeqCst);
        let given = before.saturating_add(1);
        let seats = MOST_SEATS;
        if is_nearly_full(given, seats) && !is_nearly_full(before, seats) {
            self.warn(format!(in self.alloc;
                "kbroker: {given} of at most {seats} sessions have asked; once all have, further ones are closed\n"
            ));
        }
    }

    /// Counts a session for which no seat was left, and warns of the first.
    fn unseated(&self) {
        if self.unseated.fetch_add(1, Ordering::SeqCst) == 0 {
            let seats = MOST_SEATS;
            self.warn(format!(in self.alloc;
                "kbroker: no seat is left for further sessions, since {seats} have asked\n"
            ));
        }
    }

    /// Counts a connection that is accepted for a worker.
    fn taken(&self, workers: usize) {
        self.workers.store(workers as u64, Ordering::SeqCst);
        self.taken.fetch_add(1, Ordering::SeqCst);
    }

    /// Counts a connection that a worker has taken, and logs it where it has waited for a second or more.
    fn begun(&self, host: &Text, waited: Duration) {
        self.begun.fetch_add(1, Ordering::SeqCst);
        let seconds = waited.as_secs();
        if LONG <= seconds {
            let host = host.as_str();
            self.info_line(format!(in self.alloc;
                "kbroker: a connection from {host} has waited {seconds} s for a worker, and is served now\n"
            ));
        }
    }

    /// Logs that a session is closed, since it was still open so long after a stop.
    fn closed(&self, session: u64, grace: Duration) {
        let seconds = grace.as_secs();
        self.info_line(format!(in self.alloc;
            "kbroker: session {session} is closed, since it was still open {seconds} s after the stop\n"
        ));
    }

    /// Warns that fewer workers could be started than were asked for.
    fn fewer_workers(&self, started: usize, asked: usize) {
        self.warn(format!(in self.alloc;
            "kbroker: only {started} of {asked} workers could be started\n"
        ));
    }
}
