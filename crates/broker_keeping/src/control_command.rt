//! What a line asks for that steers the broker.

ghost use Rattle.std.specs.Prelude.{◌≡◌};
ghost use Rattle.broker_keeping.specs.ControlCommand.{command_in, command_of};

use commands::parse_number;
use std::str::from_utf8;

/// A line that steers the broker or asks how things stand.
#[derive(Clone, Copy, Debug, PartialEq, Eq)]
pub(crate) enum ControlCommand {
    /// The clock shows a moment, in milliseconds.
    Tick(u64),
    /// The first marker that is pending is to be written.
    Mark,
    /// All pending markers are to be written.
    Marks,
    /// The refusals since the last `audit` are asked for.
    Audit,
    /// How things stand is asked for.
    State,
    /// No more connections are to be taken.
    End,
}

/// The command that a line is, `tick N`, `mark`, `marks`, `audit`, `state` or `end`; `None` for any other line.
fn parse_text(text: &str) -> Option<ControlCommand>
    ensures { result ≡ command_in text.now }
{
    if text == "mark" {
        return Some(ControlCommand::Mark);
    }
    if text == "marks" {
        return Some(ControlCommand::Marks);
    }
    if text == "audit" {
        return Some(ControlCommand::Audit);
    }
    if text == "state" {
        return Some(ControlCommand::State);
    }
    if text == "end" {
        return Some(ControlCommand::End);
    }
    let (first, rest) = text.split_once(' ')?;
    if first != "tick" {
        return None;
    }
    match parse_number(rest) {
        Some(moment) => Some(ControlCommand::Tick(moment)),
        None => None,
    }
}

/// The command that a line is, given without its line feed; `None` where it is none, or not UTF-8.
pub(crate) fn parse_control_command(line: &[u8]) -> Option<ControlCommand>
    ensures { result ≡ command_of line.now }
{
    match from_utf8(line) {
        Ok(text) => parse_text(text),
        Err(_) => None,
    }
}
