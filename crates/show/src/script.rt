//! A script, line by line.

use crate::answer::{Answers, NoAnswers};
use crate::outcome::{ShowFault, Shown};
use crate::sent::push_sent;
use crate::told::Told;
use byte_streams::write_whole;
use commands::{Order, Unreadable, content, parse_order, split_input};
use message_words::Sheet;
use request_handlers::Core;
use settings_text::{SettingsFault, document_of_text};
use std::alloc::{AllocError, Global};
use std::io::Write;
use wire_types::Block;

const LINE_FEED: u8 = b'\n';

/// Writes a whole text; the error is `Write`.
fn write_text<W: Write>(writer: &mut W, text: &str) -> Result<(), ShowFault> {
    match write_whole(writer, text.as_bytes()) {
        Ok(()) => Ok(()),
        Err(_) => Err(ShowFault::Write),
    }
}

/// Appends what an order of the line with this number asks for. What follows stands indented under it until the caller calls
/// `Sheet::end`.
fn push_order(sheet: &mut Sheet, number: u64, order: &Order) -> Result<(), AllocError> {
    match order {
        Order::Ask(sent) => push_sent(sheet, number, sent),
        Order::Mark => {
            let line = format!(in sheet.alloc(); "line {number}: mark")?;
            sheet.begin(line.as_str())
        }
        Order::Tick(moment) => {
            let line = format!(in sheet.alloc(); "line {number}: tick {moment}")?;
            sheet.begin(line.as_str())
        }
    }
}

/// Appends an order of the line with this number, and indented under it the answer. Gives `Stopped` where the broker stops at it;
/// else `None`. Only after an allocation failure the indentation stays.
fn push_turn<A: Answers>(
    sheet: &mut Sheet,
    answers: &mut A,
    number: u64,
    order: Order,
) -> Result<Option<Shown>, AllocError> {
    push_order(sheet, number, &order)?;
    let stop = answers.push_answer(sheet, order)?;
    sheet.end();
    match stop {
        Some(stop) => Ok(Some(Shown::Stopped(number, stop))),
        None => Ok(None),
    }
}

/// Appends that the line of this number can't be read, and why. Gives `Unreadable`, since the script ends there.
fn push_unreadable(
    sheet: &mut Sheet,
    number: u64,
    unreadable: Unreadable,
) -> Result<Option<Shown>, AllocError> {
    let line = format!(in sheet.alloc(); "line {number}: unreadable: {unreadable}")?;
    sheet.push_line(line.as_str())?;
    Ok(Some(Shown::Unreadable(number, unreadable)))
}

/// Whether an order is a request, which is shown on several lines, so that an empty line separates it from the others.
fn is_long(order: &Result<Order, Unreadable>) -> bool {
    matches!(order, Ok(Order::Ask(_)))
}

/// Shows each line of a script and its answer, numbered from 1, up to one that ends the script, and gives how far it was shown.
/// The error is an allocation failure or a failed write.
fn show_lines<A: Answers, W: Write>(
    alloc: Global,
    script: &[u8],
    answers: &mut A,
    writer: &mut W,
) -> Result<Shown, ShowFault> {
    let mut sheet = Sheet::new(alloc);
    let mut block = Block::new(alloc);
    let mut number: u64 = 0;
    let mut after_long = false;
    for line in script.split_inclusive(|byte| *byte == LINE_FEED) {
        let order = parse_order(alloc, &mut block, content(line))?;
        let long = is_long(&order);
        if number != 0 && (long || after_long) {
            sheet.push_empty_line()?;
        }
        after_long = long;
        number = number.saturating_add(1);
        let end = match order {
            Ok(order) => push_turn(&mut sheet, answers, number, order)?,
            Err(unreadable) => push_unreadable(&mut sheet, number, unreadable)?,
        };
        write_text(writer, sheet.as_str())?;
        sheet.clear();
        if let Some(shown) = end {
            return Ok(shown);
        }
    }
    Ok(Shown::Whole)
}

/// Writes `settings refused: FAULT`, and gives `Refused`.
fn show_refused<W: Write>(
    alloc: Global,
    fault: SettingsFault,
    writer: &mut W,
) -> Result<Shown, ShowFault> {
    let name = fault.name();
    let line = format!(in alloc; "settings refused: {name}\n")?;
    write_text(writer, line.as_str())?;
    Ok(Shown::Refused(fault))
}

/// Shows a script, whose answers a broker opened with these settings makes anew; or writes that the settings are refused.
fn show_anew<W: Write>(
    alloc: Global,
    settings: &[u8],
    script: &[u8],
    writer: &mut W,
) -> Result<Shown, ShowFault> {
    let settings = match document_of_text(alloc, settings) {
        Ok(document) => document.settings,
        Err(SettingsFault::NoMemory) => return Err(ShowFault::NoMemory),
        Err(fault) => return show_refused(alloc, fault, writer),
    };
    match Core::open_checked(alloc, settings) {
        Ok(mut core) => show_lines(alloc, script, &mut core, writer),
        Err(_) => Err(ShowFault::NoMemory),
    }
}

/// Shows a script: for each line what it asks for, and its answer.
///
/// The input is what `replay` reads, and each line is answered as there. With `answers`, the text that an earlier `replay` of it
/// printed, the answers are taken from that text in turn, and the settings aren't looked at. An input without a line `---` has no
/// settings: without `answers` its requests alone are shown.
pub fn show_script<W: Write>(
    alloc: Global,
    input: &[u8],
    answers: Option<&[u8]>,
    writer: &mut W,
) -> Result<Shown, ShowFault> {
    let (front, after) = split_input(input);
    let has_settings = front.len() < input.len();
    let script = if has_settings { after } else { input };
    match answers {
        Some(answers) => show_lines(alloc, script, &mut Told::new(answers), writer),
        None => {
            if has_settings {
                show_anew(alloc, front, script, writer)
            } else {
                show_lines(alloc, script, &mut NoAnswers, writer)
            }
        }
    }
}
