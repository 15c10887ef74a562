//! Times that a peer has: from a session's beginning until its user is known, and from a frame's first byte to its last.
//!
//! `Timed` is a reader round a stream. It passes the stream's bytes on unchanged, follows the frames in them by their size
//! fields, and before each read sets how long the stream waits at most: as long as is left of the time that ends first. Where
//! none is left it fails and reads nothing. `TimedWriter` does the same for the answers before a login: a peer that doesn't read
//! them isn't waited for any longer than one that says nothing.
#![tactic(auto)]

mod course;
mod limits;
mod progress;
mod timed;
mod written;

pub use course::Notes;
pub use limits::{Limit, Times};
pub use timed::Timed;
pub use written::TimedWriter;
