//! The system's reasons, in the words of its own tools where they are better known than the library's.

use std::io;
use std::io::ErrorKind;
use thiserror::Error;

/// The error number of a file that isn't open, on Linux.
const EBADF: i32 = 9;

/// Why the system can't open or read something.
#[derive(Clone, Copy, Debug, PartialEq, Eq, Error)]
pub enum Reason {
    /// There is no such file.
    #[error("no such file or directory")]
    Missing,
    /// It isn't open, as standard input where the program was started with that closed.
    #[error("it is closed")]
    Closed,
    /// Another one.
    #[error("{0}")]
    Other(ErrorKind),
}

impl Reason {
    /// The system's reason for this error.
    pub fn of(error: &io::Error) -> Reason {
        match (error.raw_os_error(), error.kind()) {
            (Some(EBADF), _) => Reason::Closed,
            (_, ErrorKind::NotFound) => Reason::Missing,
            (_, kind) => Reason::Other(kind),
        }
    }
}
