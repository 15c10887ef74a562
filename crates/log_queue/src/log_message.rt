//! A message of the log for an operator.

ghost use Rattle.std.specs.Prelude.{◌≡◌, ◌==◌};
ghost use Rattle.std.specs.List.{count_by};

use core_reports::LoggedRefusal;
use std::time::SystemTime;

/// How much a message matters.
#[derive(Clone, Copy, Debug, PartialEq, Eq)]
pub enum Level {
    /// It says how things go.
    Info,
    /// Somebody should do something about it.
    Warn,
}

impl Level {
    /// The level's name, as logs have it.
    pub(crate) fn name(self) -> &'static str {
        match self {
            Level::Info => "INFO",
            Level::Warn => "WARN",
        }
    }
}

/// What somebody did who hasn't logged in. It is said in few words where much is said of sessions whose peers nobody knows: they
/// choose names, and so could make each line a new one.
#[derive(Clone, Copy, Debug, PartialEq, Eq)]
pub enum StrangerAct {
    FailsToLogIn,
    AsksTooEarly,
    AsksUnserved,
    Ends,
}

impl StrangerAct {
    /// Without a line feed.
    pub(crate) fn words(self) -> &'static str {
        match self {
            StrangerAct::FailsToLogIn => "fails to log in",
            StrangerAct::AsksTooEarly => "asks before its login, or out of its order",
            StrangerAct::AsksUnserved => "asks what isn't served",
            StrangerAct::Ends => "ends before its login",
        }
    }
}

/// What is said of a session.
#[derive(Drop)]
pub struct SessionWords {
    /// The session's number.
    pub session: u64,
    /// Without a line feed.
    pub words: String,
    /// What is said in their place where much is said of strangers; `None` where the words are said in any case.
    pub by_stranger: Option<StrangerAct>,
}

/// A message in the queue of the log.
#[derive(Drop)]
pub enum LogMessage {
    /// Whole lines, each with its line feed.
    Lines(Level, String),
    /// Refusals, which the writer lays out.
    Refusals(Vec<LoggedRefusal>),
    /// Something about a session, which may be said of other sessions too.
    OfSession(SessionWords),
    /// No more messages come.
    End,
}

/// How many line feeds a text has.
fn lines_in(text: &str) -> u64
    ensures { result ≡ count_by (λ byte. byte == 10) text.now }
{
    text.as_bytes()
        .iter()
        .filter(|byte| **byte == b'\n')
        .count() as u64
}

impl LogMessage {
    /// How many lines of the log the message makes.
    pub fn lines(&self) -> u64 {
        match self {
            LogMessage::Lines(_, lines) => lines_in(lines.as_str()),
            LogMessage::Refusals(lines) => lines.len() as u64,
            LogMessage::OfSession(_) => 1,
            LogMessage::End => 0,
        }
    }
}

/// A message that waits for the writer of the log.
#[derive(Drop)]
pub struct Queued {
    /// When the message came; `None` where the clock couldn't be read.
    pub moment: Option<SystemTime>,
    /// How many lines were dropped before it of which no earlier message tells.
    pub dropped: u64,
    pub message: LogMessage,
}
