//! Standard input, which isn't waited for once a flag is set.

use libc::STDIN_FILENO;
use libc::net::{POLLIN, poll};
use libc::types::pollfd;
use session_pool::ShutdownFlag;
use std::io;
use std::io::Read;
use std::sync::Wait;

/// For how long at most standard input is waited for before the flag is looked at again, in milliseconds.
const TURN: i32 = 100;

/// Whether standard input has something to read, or is at its end, after at most so many milliseconds; also true where that can't
/// be told.
fn is_ready(milliseconds: i32) -> bool {
    let mut asked = [pollfd {
        fd: STDIN_FILENO,
        events: POLLIN,
        revents: 0,
    }];
    poll(&mut asked, milliseconds) != 0
}

/// A reader of standard input, which is at its end once `closing` is set, even while nothing comes.
#[derive(Drop)]
pub(crate) struct Awaited<'r, 'x, R, I> {
    rt: &'r R,
    input: I,
    closing: &'x ShutdownFlag,
}

impl<'r, 'x, R: Wait, I: Read> Awaited<'r, 'x, R, I> {
    /// A reader of standard input by `input`, until `closing` is set. `input` should not buffer: bytes that it has taken already
    /// don't count as something to read.
    pub(crate) fn new(rt: &'r R, input: I, closing: &'x ShutdownFlag) -> Awaited<'r, 'x, R, I> {
        Awaited { rt, input, closing }
    }
}

impl<'r, 'x, R: Wait, I: Read> Read for Awaited<'r, 'x, R, I> {
    /// Waits until standard input has something to read, and reads it. Gives 0, its end, once `closing` is set, which is looked
    /// at every 100 milliseconds.
    fn read(&mut self, piece: &mut [u8]) -> io::Result<usize> {
        for _ in self.rt.forever() {
            if self.closing.is_closed() {
                return Ok(0);
            }
            if is_ready(TURN) {
                return self.input.read(piece);
            }
        }
        unreachable!()
    }
}
