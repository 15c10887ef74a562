//! A reader that notes why it can't be read.

use crate::reason::Reason;
use std::io;
use std::io::Read;

/// A reader that keeps the system's reason why its last read failed.
#[derive(Drop)]
pub struct Noted<R> {
    reader: R,
    reason: Option<Reason>,
}

impl<R: Read> Noted<R> {
    /// A reader round this one, of which no read has failed.
    pub fn new(reader: R) -> Noted<R> {
        Noted {
            reader,
            reason: None,
        }
    }

    /// The system's reason why the last read failed; `None` where it didn't, or none was made.
    pub fn reason(&self) -> Option<Reason> {
        self.reason
    }
}

impl<R: Read> Read for Noted<R> {
    ghost remaining = { λ n. R.remaining n.reader };

    /// Reads as the reader does, and keeps the system's reason where that fails.
    fn read(&mut self, piece: &mut [u8]) -> io::Result<usize> {
        let read = self.reader.read(piece);
        self.reason = match &read {
            Ok(_) => None,
            Err(error) => Some(Reason::of(error)),
        };
        read
    }
}
