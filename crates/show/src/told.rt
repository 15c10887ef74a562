//! Answers that `replay` printed earlier.

use crate::answer::{Answers, push_stop};
use commands::{Order, content, split_line};
use hex::FromHexError;
use message_words::{Sheet, push_closed, push_no_answer, push_response, push_silence};
use request_handlers::Stop;
use std::alloc::{AllocError, Global};
use std::str::from_utf8;
use wire_types::Bytes;

/// The text that an earlier `replay` printed, from the first line on that isn't taken yet.
#[derive(Drop)]
pub(crate) struct Told<'a> {
    left: &'a [u8],
}

/// Whether a text begins with a line about a refusal, `denied ..` or `unmatched ..`.
fn is_refusal(text: &[u8]) -> bool {
    text.starts_with(b"denied ".as_slice()) || text.starts_with(b"unmatched ".as_slice())
}

/// The stop that a printed line `stop N` tells; `None` for any other line.
fn stop_in(line: &[u8]) -> Option<Stop> {
    let stops = [Stop::NoMemory, Stop::TrailFull, Stop::Down];
    stops
        .iter()
        .copied()
        .find(|stop| content(stop.line().as_bytes()) == line)
}

/// The bytes that a line of hexadecimal digits spells; `None` for any other line. The error is an allocation failure.
fn bytes_in(alloc: Global, line: &[u8]) -> Result<Option<Bytes>, AllocError> {
    let Ok(digits) = from_utf8(line) else {
        return Ok(None);
    };
    match hex::decode(alloc, digits) {
        Ok(bytes) => Ok(Some(Bytes::from_vec(bytes)?)),
        Err(FromHexError::OutOfMemory) => Err(AllocError),
        Err(_) => Ok(None),
    }
}

/// Appends that a printed line is no answer, and the line, quoted or in hexadecimal digits.
fn push_no_reply(sheet: &mut Sheet, line: &[u8]) -> Result<(), AllocError> {
    sheet.push_bytes("answer unreadable", line)
}

/// Appends the answer to a frame, as a printed line has it: `-`, `closed`, or a response in hexadecimal digits. Of any other line
/// it says that it is no answer.
fn push_frame_answer(sheet: &mut Sheet, frame: &Bytes, line: &[u8]) -> Result<(), AllocError> {
    if line == b"-".as_slice() {
        return push_silence(sheet);
    }
    if line == b"closed".as_slice() {
        return push_closed(sheet);
    }
    match bytes_in(sheet.alloc(), line)? {
        Some(response) => push_response(sheet, frame, &response),
        None => push_no_reply(sheet, line),
    }
}

/// Appends the answer to an order, as a printed line has it; nothing for `-` after a mark or a tick. Gives the stop, if the line
/// tells one.
fn push_line_answer(
    sheet: &mut Sheet,
    order: &Order,
    line: &[u8],
) -> Result<Option<Stop>, AllocError> {
    if let Some(stop) = stop_in(line) {
        push_stop(sheet, stop)?;
        return Ok(Some(stop));
    }
    match order {
        Order::Ask(sent) => push_frame_answer(sheet, &sent.frame, line)?,
        Order::Mark | Order::Tick(_) => {
            if line != b"-".as_slice() {
                push_no_reply(sheet, line)?;
            }
        }
    }
    Ok(None)
}

impl<'a> Told<'a> {
    /// Answers from a text that `replay` printed, beginning with its first line.
    pub(crate) fn new(answers: &'a [u8]) -> Told<'a> {
        Told { left: answers }
    }

    /// Takes the next line, without its line feed; `None` at the end of the text.
    fn next_line(&mut self) -> Option<&'a [u8]> {
        if self.left.is_empty() {
            return None;
        }
        let (line, left) = split_line(self.left);
        self.left = left;
        Some(content(line))
    }

    /// Takes the lines about refusals that come next, and appends them under `refused`; nothing where none come.
    fn push_refusals(&mut self, sheet: &mut Sheet) -> Result<(), AllocError> {
        if !is_refusal(self.left) {
            return Ok(());
        }
        sheet.begin("refused")?;
        for _ in 0..self.left.len() {
            if !is_refusal(self.left) {
                break;
            }
            let line = self.next_line().unwrap_or(&[]);
            sheet.push_line(from_utf8(line).unwrap_or("a line that is not UTF-8"))?;
        }
        sheet.end();
        Ok(())
    }
}

impl Answers for Told<'_> {
    /// Takes the lines that answer an order, and appends what they say; where no line is left, that the answers end before the
    /// order. Gives the stop, if the first line tells one.
    fn push_answer(&mut self, sheet: &mut Sheet, order: Order) -> Result<Option<Stop>, AllocError> {
        let Some(line) = self.next_line() else {
            push_no_answer(sheet, "none, the answers end before it")?;
            return Ok(None);
        };
        let stop = push_line_answer(sheet, &order, line)?;
        self.push_refusals(sheet)?;
        Ok(stop)
    }
}
