//! The commands `replay` and `check`: settings and a script in, what the broker answers out; settings in, what is
//! wrong with them out.

ghost use Rattle.std.specs.Prelude.{◌≡◌, [], IfOk, IfSome, IfErr};
ghost use Rattle.byte_streams.specs.Device.{TakesWithin, Wrote};
ghost use Rattle.request_handlers.specs.Core.{first_core};
ghost use Rattle.commands.specs.Lines.{lines_of};
ghost use Rattle.commands.specs.Replay.{script_answer, refused_answer, input_answer, replay_answer};
ghost use Rattle.commands.specs.Check.{settings_answer, check_answer, answer_to, command_answer};
ghost use Rattle.commands.specs.Printed.{Printed, last_words, EndsEarly, Replayed};
ghost use Rattle.commands.specs.declared.cause.Early.TheVariants.{Write as EarlyWrite};

use crate::cause::{Cause, Early};
use crate::command::Command;
use crate::hints::{has_return, lines_before, separator_hint};
use crate::lines::{split_input, split_line};
use crate::open::warn;
use crate::text::{is_closed, refused_text};
use crate::turn::{Turn, line_turn};
use byte_streams::{InputFault, read_input, write_whole};
use request_handlers::{Core, Stop};
use settings_text::{SettingsFault, document_of_text};
use std::alloc::Global;
use std::fmt::Display;
use std::io::{Read, Write};
use wire_types::Block;

/// What is said where an input has settings alone.
const NO_SCRIPT: &str =
    "there is no line `---` after the settings, so there is no script to answer";

/// Writes a whole text. The error is `Write`, and after it some of the text may be written, from the front.
fn write_text<W: Write>(writer: &mut W, text: &str) -> Result<(), Early>
    ensures wrote { Wrote (W.contents writer.old) (W.contents writer.new) text.now result }
    ensures cause { IfErr result (λ early. early ≡ EarlyWrite) }
{
    match write_whole(writer, text.as_bytes()) {
        Ok(()) => Ok(()),
        Err(_) => Err(Early::Write),
    }
}

/// What a sentence speaks of: the settings, a line, or the run as a whole.
pub(crate) enum Place {
    Settings,
    /// The line of this number of the whole input, counted from 1.
    Line(u64),
    Run,
}

/// Prints a sentence to `errors`: what went wrong, and where. That an allocation or a write fails isn't reported.
pub(crate) fn explain<E: Write, D: Display + Drop>(
    alloc: Global,
    errors: &mut E,
    place: Place,
    sentence: D,
) {
    let text = match place {
        Place::Settings => format!(in alloc; "kbroker: settings: {sentence}\n"),
        Place::Line(number) => {
            format!(in alloc; "kbroker: line {number} of the input: {sentence}\n")
        }
        Place::Run => format!(in alloc; "kbroker: {sentence}\n"),
    };
    if let Ok(text) = text {
        let _ = write_text(errors, text.as_str());
    }
}

/// Prints why the line of this number ends its script, and whether it ends with a carriage return. A failure isn't reported.
fn explain_line<E: Write>(alloc: Global, errors: &mut E, number: u64, line: &[u8], cause: Cause) {
    explain(alloc, errors, Place::Line(number), cause);
    if has_return(line) {
        let sentence = "it ends with a carriage return";
        explain(alloc, errors, Place::Line(number), sentence);
    }
}

/// Where the line of this number was answered `closed` (`text` is its answer), prints what that means. A failure isn't reported.
fn explain_closed<E: Write>(alloc: Global, errors: &mut E, number: u64, text: &String) {
    if is_closed(text) {
        let sentence = "here the broker would close the connection; `kbroker show` tells why";
        explain(alloc, errors, Place::Line(number), sentence);
    }
}

/// Answers a script line by line, and prints each answer, until a line ends the script. `before` lines stand before it in its
/// input. Gives the exit status: 0 where each line was answered, else 1. The error is `Write`, or `Script` after an allocation
/// failure.
fn run_script<W: Write, E: Write>(
    alloc: Global,
    mut core: Core,
    script: &[u8],
    before: u64,
    writer: &mut W,
    errors: &mut E,
) -> Result<u8, Early>
    requires { core ≡ first_core core.settings }
    ensures { Printed (W.contents writer.old) (W.contents writer.new)
        (script_answer core.settings [] 1 (lines_of script.now)) result }
{
    let mut rest = script;
    let mut block = Block::new(alloc);
    let mut number: u64 = 1;
    while !rest.is_empty() {
        let (line, more) = split_line(rest);
        match line_turn(alloc, &mut core, &mut block, number, line) {
            Ok(Turn::Goes(text)) => {
                if write_text(writer, text.as_str()).is_err() {
                    return Err(Early::Write);
                }
                explain_closed(alloc, errors, before.saturating_add(number), &text);
            }
            Ok(Turn::Ends(text, cause)) => {
                if write_text(writer, text.as_str()).is_err() {
                    return Err(Early::Write);
                }
                explain_line(alloc, errors, before.saturating_add(number), line, cause);
                return Ok(1);
            }
            Err(_) => return Err(Early::Script),
        }
        rest = more;
        number += 1;
    }
    Ok(0)
}

/// Prints `settings refused: FAULT` to `writer`, says why to `errors`, and gives the exit status 1. The error is `Write`, or
/// `Settings` after an allocation failure.
pub(crate) fn refuse<W: Write, E: Write>(
    alloc: Global,
    text: &[u8],
    fault: SettingsFault,
    writer: &mut W,
    errors: &mut E,
) -> Result<u8, Early>
    ensures printed { Printed (W.contents writer.old) (W.contents writer.new) (refused_answer fault)
        result }
    ensures failed { IfOk result (λ status. status ≡ 1) }
{
    let Ok(line) = refused_text(alloc, fault) else {
        return Err(Early::Settings);
    };
    write_text(writer, line.as_str())?;
    if let Ok(sentence) = settings_text::explain(alloc, text, fault) {
        explain(alloc, errors, Place::Settings, sentence.as_str());
    }
    if let Some(hint) = separator_hint(text) {
        explain(alloc, errors, Place::Settings, hint);
    }
    Ok(1)
}

/// Replays a whole input: opens a broker with its settings, and answers its script. Gives the exit status, 1 also where the
/// settings are refused. Without a line `---` it says so to `errors`, and answers nothing.
fn answer_input<W: Write, E: Write>(
    alloc: Global,
    input: &[u8],
    writer: &mut W,
    errors: &mut E,
) -> Result<u8, Early>
    ensures { Printed (W.contents writer.old) (W.contents writer.new) (input_answer input.now)
        result }
{
    let (text, script) = split_input(input);
    let settings = match document_of_text(alloc, text) {
        Ok(document) => document.settings,
        Err(SettingsFault::NoMemory) => return Err(Early::Settings),
        Err(fault) => return refuse(alloc, text, fault, writer, errors),
    };
    match Core::open_checked(alloc, settings) {
        Ok(core) => {
            if text.len() == input.len() {
                explain(alloc, errors, Place::Run, NO_SCRIPT);
            }
            let before = lines_before(input, script);
            run_script(alloc, core, script, before, writer, errors)
        }
        Err(_) => Err(Early::Settings),
    }
}

/// Prints `settings ok`, and warnings to `errors`; or that the settings are refused, and why. Gives the exit status, 0 or 1.
fn check_settings<W: Write, E: Write>(
    alloc: Global,
    input: &[u8],
    writer: &mut W,
    errors: &mut E,
) -> Result<u8, Early>
    ensures { Printed (W.contents writer.old) (W.contents writer.new) (settings_answer input.now)
        result }
{
    match document_of_text(alloc, input) {
        Ok(document) => {
            write_text(writer, "settings ok\n")?;
            warn(alloc, &document, errors);
            Ok(0)
        }
        Err(SettingsFault::NoMemory) => Err(Early::Settings),
        Err(fault) => refuse(alloc, input, fault, writer, errors),
    }
}

/// Runs a command on a whole input, and gives the exit status.
fn answer_to<W: Write, E: Write>(
    alloc: Global,
    command: Command,
    input: &[u8],
    writer: &mut W,
    errors: &mut E,
) -> Result<u8, Early>
    ensures { Printed (W.contents writer.old) (W.contents writer.new) (answer_to command input.now)
        result }
{
    match command {
        Command::Replay => answer_input(alloc, input, writer, errors),
        Command::Check => check_settings(alloc, input, writer, errors),
    }
}

/// Reads the whole input, runs a command on it, and gives the exit status. The error says why that ended early.
fn run_whole<R: Read, W: Write, E: Write>(
    alloc: Global,
    command: Command,
    reader: &mut R,
    writer: &mut W,
    errors: &mut E,
) -> Result<u8, Early>
    ensures prints { IfSome (R.remaining reader.old)
        (λ input. Printed (W.contents writer.old) (W.contents writer.new)
        (command_answer command input) result) }
    ensures bounded { TakesWithin (R.remaining reader.old) (R.remaining reader.new) }
{
    match read_input(alloc, reader) {
        Ok(input) => answer_to(alloc, command, input.as_slice(), writer, errors),
        Err(InputFault::NoMemory) => Err(Early::Settings),
        Err(InputFault::Read) => Err(Early::Read),
        Err(InputFault::TooLong) => Err(Early::TooLong),
    }
}

/// What is printed last where a run ends early: a line where an allocation failed, and else nothing.
fn last_words(early: Early) -> &'static str
    ensures { result.now ≡ last_words early }
{
    match early {
        Early::Settings => "settings refused: NoMemory\n",
        Early::Script => Stop::NoMemory.line(),
        Early::Read | Early::TooLong | Early::Write => "",
    }
}

/// Prints the last line of a run that ends early, if it has one. That the write fails isn't reported.
pub(crate) fn end_early<W: Write>(writer: &mut W, early: Early)
    ensures { EndsEarly (W.contents writer.old) (W.contents writer.new) early }
{
    let _ = write_text(writer, last_words(early));
}

/// Runs a command on all that the reader gives, says in sentences to `errors` what went wrong, and gives the exit status, which
/// is 1 where the run ends early.
fn run_command<R: Read, W: Write, E: Write>(
    alloc: Global,
    command: Command,
    reader: &mut R,
    writer: &mut W,
    errors: &mut E,
) -> u8
    ensures prints { IfSome (R.remaining reader.old)
        (λ input. Replayed (W.contents writer.old) (W.contents writer.new)
        (command_answer command input) result) }
    ensures bounded { TakesWithin (R.remaining reader.old) (R.remaining reader.new) }
{
    match run_whole(alloc, command, reader, writer, errors) {
        Ok(status) => status,
        Err(early) => {
            end_early(writer, early);
            explain(alloc, errors, Place::Run, early);
            1
        }
    }
}

/// The command `replay`: reads the whole input, opens a broker with the settings up to a line `---`, and answers the lines of the
/// script after that, until one ends it. Says in sentences to `errors` what went wrong, and gives the exit status: 0 where each
/// line was answered, else 1.
pub fn replay<R: Read, W: Write, E: Write>(
    alloc: Global,
    reader: &mut R,
    writer: &mut W,
    errors: &mut E,
) -> u8
    ensures prints { IfSome (R.remaining reader.old)
        (λ input. Replayed (W.contents writer.old) (W.contents writer.new) (replay_answer input)
        result) }
    ensures bounded { TakesWithin (R.remaining reader.old) (R.remaining reader.new) }
{
    run_command(alloc, Command::Replay, reader, writer, errors)
}

/// The command `check`: reads settings up to the end of the input, prints `settings ok`, or `settings refused: FAULT` with their
/// first fault, says in sentences to `errors` what is wrong or doubtful, and gives the exit status, 0 or 1.
pub fn check<R: Read, W: Write, E: Write>(
    alloc: Global,
    reader: &mut R,
    writer: &mut W,
    errors: &mut E,
) -> u8
    ensures prints { IfSome (R.remaining reader.old)
        (λ input. Replayed (W.contents writer.old) (W.contents writer.new) (check_answer input)
        result) }
    ensures bounded { TakesWithin (R.remaining reader.old) (R.remaining reader.new) }
{
    run_command(alloc, Command::Check, reader, writer, errors)
}
