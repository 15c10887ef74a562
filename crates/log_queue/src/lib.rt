//! The log for an operator, from a message to the lines that are written of it.
//!
//! Messages wait in a queue, each with its moment (`Queued`), so that nobody who has something to say waits for whoever reads the
//! log. `LogWriter` writes them in a thread of its own: with time and level where that is asked for, and of sessions of which the
//! same is said how many they were. What it holds and writes is bounded, whoever sends what: a message has at most 500 refusals,
//! whose names are cut, and strangers are told of at length ten times.
#![tactic(auto)]

mod log_message;
mod log_writer;
mod repeats;
mod stamps;

pub use log_message::{Level, LogMessage, Queued, SessionWords, StrangerAct};
pub use log_writer::LogWriter;
