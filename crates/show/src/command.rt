//! The command that shows a script.

ghost use Rattle.std.specs.Prelude.{◌≡◌, ◌↔◌, ◌≤◌, IfSome, Ok, length};
ghost use Rattle.byte_streams.specs.Device.{TakesWithin};
ghost use Rattle.show.specs.declared.outcome.Shown.TheVariants.{Whole};

use crate::noted::Noted;
use crate::outcome::{ShowFault, Shown};
use crate::reason::Reason;
use crate::script::show_script;
use byte_streams::{INPUT_LIMIT, InputFault, read_input};
use std::alloc::Global;
use std::fmt::Display;
use std::fs;
use std::io::{Read, Write};
use std::rt::Files;

/// The exit status where each line was shown.
const SHOWN: u8 = 0;

/// The exit status of a script that wasn't shown to its end.
const FAILED: u8 = 1;

/// Why a file can't be opened or read, and the system's reason where it has one.
struct Unread {
    why: &'static str,
    reason: Option<Reason>,
}

/// Prints `kbroker: WHAT: WHY`, with both texts raw. That an allocation or a write fails isn't reported.
pub fn explain<E: Write>(alloc: Global, errors: &mut E, what: &str, why: &str) {
    if let Ok(text) = format!(in alloc; "kbroker: {what}: {why}\n") {
        let _ = errors.write_all(text.as_bytes());
    }
}

/// Prints `kbroker: WHAT: WHY: REASON`, the last being the system's reason, which is left out after an allocation failure. That a
/// write fails isn't reported.
pub fn explain_by<E: Write>(alloc: Global, errors: &mut E, what: &str, why: &str, reason: Reason) {
    match format!(in alloc; "{why}: {reason}") {
        Ok(why) => explain(alloc, errors, what, why.as_str()),
        Err(_) => explain(alloc, errors, what, why),
    }
}

/// Says why an input can't be read: a read failed, it is too long, or an allocation failed.
fn sentence_of(fault: InputFault) -> &'static str {
    match fault {
        InputFault::Read => "it can't be read",
        InputFault::TooLong => "it has more than 1,073,741,824 bytes",
        InputFault::NoMemory => "there is not enough memory",
    }
}

/// Reads a whole file. The error says why the file can't be opened or read, with the system's reason where it has one.
fn read_file<T: Files>(rt: &T, alloc: Global, path: &str) -> Result<Vec<u8>, Unread> {
    let mut file = match fs::open(rt, path) {
        Ok(file) => Noted::new(file),
        Err(error) => {
            return Err(Unread {
                why: "the file can't be opened",
                reason: Some(Reason::of(&error)),
            });
        }
    };
    match read_input(alloc, &mut file) {
        Ok(text) => Ok(text),
        Err(fault) => Err(Unread {
            why: sentence_of(fault),
            reason: file.reason(),
        }),
    }
}

/// Prints why the script's input, which is called `what`, can't be read, and gives the exit status 1.
fn give_up<E: Write>(alloc: Global, errors: &mut E, what: &str, fault: InputFault) -> u8
    ensures { result ≡ 1 }
{
    explain(alloc, errors, what, sentence_of(fault));
    FAILED
}

/// Prints why the file of the answers can't be read, and gives the exit status 1.
fn give_up_answers<E: Write>(alloc: Global, errors: &mut E, path: &str, unread: Unread) -> u8
    ensures { result ≡ 1 }
{
    let Unread { why, reason } = unread;
    match reason {
        Some(reason) => explain_by(alloc, errors, path, why, reason),
        None => explain(alloc, errors, path, why),
    }
    FAILED
}

/// Prints at which line, counted from 1, and why a script was shown no further, and gives the exit status 1.
fn end_at<E: Write, Y: Display + Drop>(alloc: Global, errors: &mut E, number: u64, why: Y) -> u8
    ensures { result ≡ 1 }
{
    if let (Ok(what), Ok(why)) = (
        format!(in alloc; "line {number}"),
        format!(in alloc; "{why}"),
    ) {
        explain(alloc, errors, what.as_str(), why.as_str());
    }
    FAILED
}

/// Prints why a script wasn't shown to its end, if it wasn't, and gives the exit status, 0 or 1.
fn end_of<E: Write>(alloc: Global, errors: &mut E, shown: Result<Shown, ShowFault>) -> u8
    ensures whole { (result ≡ 0) ↔ (shown ≡ Ok Whole) }
    ensures status { result ≤ 1 }
{
    match shown {
        Ok(Shown::Whole) => SHOWN,
        Ok(Shown::Refused(fault)) => {
            explain(alloc, errors, "settings", fault.name());
            FAILED
        }
        Ok(Shown::Unreadable(number, why)) => end_at(alloc, errors, number, why),
        Ok(Shown::Stopped(number, why)) => end_at(alloc, errors, number, why),
        Err(ShowFault::NoMemory) => {
            explain(alloc, errors, "show", "there is not enough memory");
            FAILED
        }
        Err(ShowFault::Write) => {
            explain(alloc, errors, "show", "the text can't be written");
            FAILED
        }
    }
}

/// Shows the script that `reader` gives to `writer`, with the answers in the file `answers`, or made anew where it is `None`, and
/// says to `errors` why where the script isn't shown to its end. `name` is what the input is called there. Gives the exit status:
/// 0 where each line was shown, else 1.
pub fn show_and_explain<T: Files, R: Read, W: Write, E: Write>(
    rt: &T,
    alloc: Global,
    name: &str,
    answers: Option<&str>,
    reader: &mut R,
    writer: &mut W,
    errors: &mut E,
) -> u8
    ensures status { result ≤ 1 }
    ensures shown { result ≡ 0 → IfSome (R.remaining reader.old)
        (λ input. length input ≤ INPUT_LIMIT) }
    ensures bounded { TakesWithin (R.remaining reader.old) (R.remaining reader.new) }
{
    let input = match read_input(alloc, reader) {
        Ok(input) => input,
        Err(fault) => return give_up(alloc, errors, name, fault),
    };
    let Some(path) = answers else {
        let shown = show_script(alloc, input.as_slice(), None, writer);
        return end_of(alloc, errors, shown);
    };
    let answers = match read_file(rt, alloc, path) {
        Ok(answers) => answers,
        Err(unread) => return give_up_answers(alloc, errors, path, unread),
    };
    let shown = show_script(alloc, input.as_slice(), Some(answers.as_slice()), writer);
    end_of(alloc, errors, shown)
}
