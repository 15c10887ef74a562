//! Sessions of which the log says the same: a client that tries again and again says nothing new.

use circular_buffer::HeapCircularBuffer;
use std::alloc::{AllocError, Global};

/// How many different messages about sessions are remembered at most, to compare the next one with them.
const RECENT: usize = 4;

/// Of how many more sessions the same is said until that is written the first time. From then on it takes ten times as many each
/// time.
const FEW: u64 = 10;

/// The log's line that says `words` of a session.
pub(crate) fn session_line(alloc: Global, session: u64, words: &str) -> Result<String, AllocError> {
    format!(in alloc; "kbroker: session {session} {words}\n")
}

/// What the log says of a session, and of how many more since.
#[derive(Drop)]
pub(crate) struct Repeated {
    words: String,
    /// The latest session of which it was said.
    session: u64,
    /// Of how many more sessions it was said than is written.
    untold: u64,
    /// Of how many more sessions it must be said until that is written.
    due: u64,
}

impl Repeated {
    /// What is said of a first session, which is written at once.
    fn first(session: u64, words: String) -> Repeated {
        Repeated {
            words,
            session,
            untold: 0,
            due: FEW,
        }
    }

    /// Counts one more session of which it is said. Gives whether that is to be written.
    pub(crate) fn again(&mut self, session: u64) -> bool {
        self.session = session;
        self.untold = self.untold.saturating_add(1);
        self.due <= self.untold
    }

    /// The line that says of how many more sessions it was said, or that session's own line where of one; then counts from 0
    /// again. `None` where of none, or after an allocation failure, which loses the count.
    pub(crate) fn take_line(&mut self, alloc: Global) -> Option<String> {
        let (untold, session) = (self.untold, self.session);
        if untold == 0 {
            return None;
        }
        let words = self.words.as_str();
        let line = if untold == 1 {
            session_line(alloc, session, words)
        } else {
            format!(in alloc; "kbroker: {untold} more sessions, up to session {session}: {words}\n")
        };
        if self.due <= untold {
            self.due = self.due.saturating_mul(FEW);
        }
        self.untold = 0;
        line.ok()
    }
}

/// So many different things are said at length of sessions whose peers nobody knows, until it was quiet again.
const TURNS: u64 = 10;

/// The last messages about sessions.
#[derive(Drop)]
pub(crate) struct Repeats {
    latest: HeapCircularBuffer<Repeated>,
    /// How many more things may be said at length of sessions whose peers nobody knows.
    turns: u64,
}

impl Repeats {
    /// Remembers no message yet. Memory for four is allocated here; the error is an allocation failure.
    pub(crate) fn new(alloc: Global) -> Result<Repeats, AllocError> {
        Ok(Repeats {
            latest: HeapCircularBuffer::with_capacity(alloc, RECENT)?,
            turns: TURNS,
        })
    }

    /// Whether one more thing may be said at length of a session whose peer nobody knows: of ten of them, since `start_turns`.
    pub(crate) fn take_turn(&mut self) -> bool {
        let has_turn = self.turns > 0;
        self.turns = self.turns.saturating_sub(1);
        has_turn
    }

    /// Lets ten more things be said at length.
    pub(crate) fn start_turns(&mut self) {
        self.turns = TURNS;
    }

    /// The message in these words, if it is among the last four; else `None`.
    pub(crate) fn find(&mut self, words: &str) -> Option<&mut Repeated> {
        let place = self
            .latest
            .iter()
            .position(|repeated| repeated.words.as_str() == words)?;
        self.latest.get_mut(place)
    }

    /// Remembers what is said of a first session, and gives the oldest message, if it is forgotten for that.
    pub(crate) fn keep(&mut self, session: u64, words: String) -> Option<Repeated> {
        self.latest.push_back(Repeated::first(session, words))
    }

    /// Forgets the oldest message, and gives it; `None` where there is none.
    pub(crate) fn forget(&mut self) -> Option<Repeated> {
        self.latest.pop_front()
    }

    /// How many messages are remembered.
    pub(crate) fn len(&self) -> usize {
        self.latest.len()
    }
}
