//! A session's gate: it notes that the user is known, makes the session wait or ends it, and says that the peer took too long.

use crate::markers::markers_of;
use crate::pacing::Pacing;
use admission::Load;
use deadlines::{Limit, Notes, Times};
use request_handlers::Receipt;
use session_pool::{EndReason, Gate, SessionEnd};
use std::alloc::Global;
use std::cell::{Cell, OnceCell};
use std::net::TcpStream;
use std::str::from_utf8;
use std::sync::Wait;
use std::time;
use std::time::Duration;
use wire_types::{Bytes, Shared, Text};

/// Why the server ends a session whose user is known.
#[derive(Clone, Copy, Debug, PartialEq, Eq)]
enum Closing {
    /// The user has as many sessions as it may.
    UserIsFull,
    /// The user asked so fast that the session would have to wait for more than ten seconds.
    TooFast,
    /// An allocation failed, by which the user's sessions are counted.
    NoMemory,
}

impl Closing {
    /// What an operator is told.
    fn words(self) -> &'static str {
        match self {
            Closing::UserIsFull => "its user has as many sessions as --per-user says",
            Closing::TooFast => {
                "its user asked so fast that it would have to wait for more than 10 seconds; see --rate and --rate-bytes"
            }
            Closing::NoMemory => "there is not enough memory to count its user's sessions",
        }
    }
}

/// The gate of one session: notes that its user is known and who that is, ends it where that user has too many sessions or asks
/// much too fast, makes it wait after a frame where the user asks faster than it may, and leaves all else to the gate of all
/// sessions.
#[derive(Drop)]
pub(crate) struct Noting<'x, 'r, G, R> {
    gate: &'x G,
    notes: &'x Notes,
    pacing: &'x Pacing<'r, R>,
    /// The session's connection, if it has one.
    peer: Option<Shared<TcpStream>>,
    who: OnceCell<Text>,
    /// Whether the session counts among those of its user.
    counted: Cell<bool>,
    /// How many markers the session's last request comes to.
    markers: Cell<u64>,
    closing: Cell<Option<Closing>>,
}

impl<'x, 'r, G, R> Noting<'x, 'r, G, R> {
    /// The gate of a session over this connection, whose user isn't known yet.
    pub(crate) fn new(
        gate: &'x G,
        notes: &'x Notes,
        pacing: &'x Pacing<'r, R>,
        peer: Option<Shared<TcpStream>>,
    ) -> Noting<'x, 'r, G, R> {
        Noting {
            gate,
            notes,
            pacing,
            peer,
            who: OnceCell::new(),
            counted: Cell::new(false),
            markers: Cell::new(0),
            closing: Cell::new(None),
        }
    }

    /// The principal that has logged in; `None` before that, and where its name couldn't be copied.
    pub(crate) fn who(&self) -> Option<&Text> {
        self.who.get()
    }

    /// Ends the session before its next frame.
    fn close(&self, why: Closing) {
        self.closing.set(Some(why));
        self.notes.close();
    }

    /// What the session's last request is charged for, which is noted no longer.
    fn take_load(&self) -> Load {
        let markers = self.markers.get();
        self.markers.set(0);
        Load {
            events: markers.saturating_add(1),
            bytes: self.notes.take_passed(),
        }
    }
}

impl<'x, 'r, G: Gate, R: Wait + time::Clock> Noting<'x, 'r, G, R> {
    /// Counts the session among those of its user; ends it, where the user has as many as it may, or an allocation fails for that.
    fn enter(&self, who: &Text) {
        match self.pacing.enter(who) {
            Ok(true) => self.counted.set(self.who().is_some()),
            Ok(false) => self.close(Closing::UserIsFull),
            Err(_) => self.close(Closing::NoMemory),
        }
    }

    /// Takes the session from those of its user, if it counts among them.
    fn leave(&self) {
        if let (Some(who), true) = (self.who(), self.counted.get()) {
            self.pacing.leave(who);
        }
    }

    /// Tells the gate of all sessions that the session has ended, and why; in words, by `ended_as`, where more is known of the
    /// reason than `end.why`. From here on the session doesn't count among those of its user.
    pub(crate) fn tell_end<S>(
        &self,
        alloc: Global,
        session: u64,
        host: &Text,
        times: Times,
        end: &SessionEnd<S>,
    ) {
        self.leave();
        let who = self.who();
        if let Some(closing) = self.closing.get() {
            return self
                .gate
                .ended_as(session, host, who, end.why, closing.words());
        }
        match words_of_end(alloc, end.why, times, self.notes) {
            Some(words) => self
                .gate
                .ended_as(session, host, who, end.why, words.as_str()),
            None => self.gate.ended(session, host, who, end.why),
        }
    }
}

impl<'x, 'r, G: Gate, R: Wait + time::Clock> Gate for Noting<'x, 'r, G, R> {
    /// Tells the gate of all sessions that a frame is about to be read.
    fn before(&self, session: u64, frame: u64) {
        self.gate.before(session, frame);
    }

    /// Notes to how many markers the event comes, and tells the gate of all sessions of its receipt.
    fn answered(&self, receipt: &Receipt) {
        self.markers.set(markers_of(receipt));
        self.gate.answered(receipt);
    }

    /// Notes that the user is known, and who it is, counts the session among those of its user, and tells the gate of all
    /// sessions. Where an allocation fails for the name, the session is never made to wait.
    fn logged_in(&self, session: u64, who: &Text) {
        self.notes.log_in();
        if let Ok(who) = who.clone() {
            let _another = self.who.set(who);
        }
        self.enter(who);
        self.gate.logged_in(session, who);
    }

    /// Tells the gate of all sessions. Then, where a user is known, charges it for one request and the markers that it comes to,
    /// and for as many bytes as were read and written since the last call, also where no frame came; waits where it asks faster
    /// than it may, and ends the session where it does so by far.
    fn after(&self, session: u64, frame: u64) {
        self.gate.after(session, frame);
        let load = self.take_load();
        if let (Some(who), None) = (self.who(), self.closing.get()) {
            if !self.pacing.pause(who, load, &self.peer) {
                self.close(Closing::TooFast);
            }
        }
    }

    /// Tells the gate of all sessions of a frame that is no request that is served.
    fn malformed(&self, session: u64, kept: &[u8]) {
        self.gate.malformed(session, kept);
    }

    /// Tells the gate of all sessions of a frame that has ended the session, since its user isn't known.
    fn refused(&self, session: u64, kept: &Bytes, is_answered: bool) {
        self.gate.refused(session, kept, is_answered);
    }

    /// Tells the gate of all sessions that the session has ended, and why.
    fn ended(&self, session: u64, host: &Text, who: Option<&Text>, why: EndReason) {
        self.gate.ended(session, host, who, why);
    }

    /// Tells the gate of all sessions that the session has ended, and why, in these words.
    fn ended_as(&self, session: u64, host: &Text, who: Option<&Text>, why: EndReason, words: &str) {
        self.gate.ended_as(session, host, who, why, words);
    }
}

/// Says what took longer than this time, in whole seconds; `None` after an allocation failure.
fn words_of(alloc: Global, what: &str, time: Duration) -> Option<String> {
    let seconds = time.as_secs();
    let unit = if seconds == 1 { "second" } else { "seconds" };
    format!(in alloc; "{what} took longer than {seconds} {unit}").ok()
}

/// Says which of its times a peer has overrun, its login's or a frame's; `None` for the idle time, where none was over, or after
/// an allocation failure.
fn overdue(alloc: Global, times: Times, over: Option<Limit>) -> Option<String> {
    match over? {
        Limit::Idle => None,
        Limit::Login => words_of(alloc, "its login", times.login),
        Limit::Frame => words_of(alloc, "a frame", times.frame),
    }
}

/// The first byte of a TLS record that holds a handshake, and the first of its version (RFC 8446, section 5.1).
const TLS_HANDSHAKE: [u8; 2] = [22, 3];

/// Says that a session's first four bytes look like TLS or HTTP; `None` where they don't.
fn foreign(front: [u8; 4]) -> Option<&'static str> {
    if front.starts_with(&TLS_HANDSHAKE) {
        return Some(
            "its first bytes look like TLS, which isn't served: clients take security.protocol=SASL_PLAINTEXT",
        );
    }
    match from_utf8(&front) {
        // Methods of HTTP (RFC 9110, section 9.3), and the preface of its second version (RFC 9113, section 3.4).
        Ok(
            "GET " | "HEAD" | "POST" | "PUT " | "DELE" | "CONN" | "OPTI" | "TRAC" | "PATC" | "PRI ",
        ) => Some("its first bytes look like HTTP, which isn't served"),
        _ => None,
    }
}

/// More of why a session has ended than `why` tells, in words: which of its times the peer has overrun, where a read or a write
/// failed; or what its first bytes look like, where a frame's size was wrong. `None` where no more is known, or after an
/// allocation failure.
fn words_of_end(alloc: Global, why: EndReason, times: Times, notes: &Notes) -> Option<String> {
    match why {
        EndReason::ReadFault | EndReason::WriteFault => overdue(alloc, times, notes.over()),
        EndReason::BadFrame => String::from_str(alloc, foreign(notes.front()?)?).ok(),
        _ => None,
    }
}
