//! Hands the events of a script to a core, and once more the one that was stopped; or serves a session. It is for
//! `tests/refused_memory/test_refused_runs.py` and `test_refused_sessions.py`, which refuse each of its allocations in turn.
//!
//! Standard input is settings, a line `---`, and a line for each event: `mark`, `tick N`, or `USER HOST FRAME`, the frame in
//! hexadecimal digits and without its size field. The argument says whether the core is handed them as a list (`run`) or one by
//! one (`step`). With `session` each line is a frame with its size field, and all are one session's.
#![tactic(auto)]

mod session;

ghost use Rattle.std.specs.Prelude.{IfSome};
ghost use Rattle.std.specs.List.{AllByRecursion};
ghost use Rattle.request_handlers.specs.Bounds.{EventFits};

use crate::session::Script;
use acl_binding::Caller;
use audit_trail::{Event, is_same_event, is_same_reply};
use byte_streams::read_input;
use msg_admin::{FRAME_LIMIT, read_request, write_reply};
use request_handlers::{Core, Receipt, Stop};
use settings_text::document_of_text;
use std::alloc::{AllocError, Global};
use std::io;
use std::io::Write;
use std::process::ExitCode;
use wire_types::{Bytes, Shared, Text};

/// The exit status where the core was never opened, or the script can't be read.
const NOT_BEGUN: u8 = 3;

/// The event of a request of the principal `User:USER` at this host, whose frame comes in hexadecimal digits, without its size
/// field. `None` where the frame is no request that is served, or after an allocation failure.
fn asked(alloc: Global, user: &str, host: &str, digits: &str) -> Option<Event>
    ensures { IfSome result EventFits }
{
    let frame = Bytes::from_vec(hex::decode(alloc, digits).ok()?).ok()?;
    if frame.len() > FRAME_LIMIT {
        return None;
    }
    let (header, request) = read_request(alloc, &frame).ok()?;
    let caller = Caller {
        who: Text::from_string(format!(in alloc; "User:{user}").ok()?).ok()?,
        host: Text::of(alloc, host).ok()?,
    };
    let caller = Shared::new(alloc, caller).ok()?;
    Some(Event::Ask {
        caller,
        client: Shared::new(alloc, header.client).ok()?,
        request,
    })
}

/// The event of a script's line: `mark`, `tick N`, or `USER HOST FRAME`. `None` where the line is none of these, or after an
/// allocation failure.
fn event_of(alloc: Global, line: &str) -> Option<Event>
    ensures { IfSome result EventFits }
{
    if line == "mark" {
        return Some(Event::Mark);
    }
    let (first, rest) = line.split_once(' ')?;
    if first == "tick" {
        return Some(Event::Tick(rest.parse::<u64>().ok()?));
    }
    let (host, digits) = rest.split_once(' ')?;
    asked(alloc, first, host, digits)
}

/// The events of all lines of a script that end with a line feed. `None` where such a line is no event, or after an allocation
/// failure.
#[tactic(auto, using(crate::proofs::Fits::fits_more))]
fn events_of(alloc: Global, script: &str) -> Option<Vec<Event>>
    ensures { IfSome result (λ events. AllByRecursion EventFits events.items) }
{
    let mut events = Vec::new(alloc);
    let mut rest = script;
    for _ in 0..script.len() {
        let Some((line, more)) = rest.split_once('\n') else {
            break;
        };
        let event = event_of(alloc, line)?;
        events.push(event).ok()?;
        rest = more;
    }
    Some(events)
}

/// The event of the script's line at this place, counted from 0. `None` where there is no such line, or it is no event, or after
/// an allocation failure.
fn event_at(alloc: Global, script: &str, place: usize) -> Option<Event>
    ensures { IfSome result EventFits }
{
    let mut rest = script;
    for _ in 0..place {
        let (_line, more) = rest.split_once('\n')?;
        rest = more;
    }
    let (line, _more) = rest.split_once('\n')?;
    event_of(alloc, line)
}

/// Hands the first `count` events of a script to the core one by one, up to the first stop. Returns the receipts, and the stop,
/// if there was one. The error is an allocation failure outside the core.
fn step_each(
    alloc: Global,
    core: &mut Core,
    script: &str,
    count: usize,
) -> Result<(Vec<Receipt>, Option<Stop>), AllocError> {
    let mut receipts = Vec::new(alloc);
    for place in 0..count {
        let Some(event) = event_at(alloc, script, place) else {
            return Err(AllocError);
        };
        match core.step(event) {
            Ok(receipt) => receipts.push(receipt)?,
            Err(stop) => return Ok((receipts, Some(stop))),
        }
    }
    Ok((receipts, None))
}

/// The line that is printed for an event: its place in the trail and its response under correlation id 0, or `stop N`. The error
/// is an allocation failure, or that the reply is too long.
fn told(alloc: Global, outcome: &Result<Receipt, Stop>) -> Result<String, AllocError> {
    match outcome {
        Ok(receipt) => match write_reply(alloc, 0, receipt.reply()) {
            Ok(frame) => format!(in alloc;
                "{} {}\n",
                receipt.place(),
                hex::encode(alloc, frame.as_slice())?
            ),
            Err(_) => Err(AllocError),
        },
        Err(Stop::NoMemory) => String::from_str(alloc, "stop 1\n"),
        Err(Stop::TrailFull) => String::from_str(alloc, "stop 2\n"),
        Err(Stop::Down) => String::from_str(alloc, "stop 3\n"),
    }
}

/// Whether the trail's entries are the events and replies of these receipts, in order, and no others.
fn is_history(core: &Core, receipts: &[Receipt]) -> bool {
    let trail = core.trail();
    for (place, receipt) in receipts.iter().enumerate() {
        match trail.entry(place) {
            Some(entry)
                if is_same_event(entry.event.value(), receipt.event())
                    && is_same_reply(entry.reply.value(), receipt.reply()) => {}
            _ => return false,
        }
    }
    trail.len() == receipts.len()
}

/// Prints a line for each receipt and for the stop, then `trail N`, how long the trail is, if it has just the receipts' entries,
/// else `another trail`. The event that was stopped is then handed in once more, and its line printed.
fn tell<W: Write>(
    alloc: Global,
    core: &mut Core,
    script: &str,
    receipts: Vec<Receipt>,
    stop: Option<Stop>,
    writer: &mut W,
) -> io::Result<()> {
    let count = receipts.len();
    let is_told = is_history(core, receipts.as_slice());
    for receipt in receipts {
        writer.write_all(told(alloc, &Ok(receipt))?.as_bytes())?;
    }
    if let Some(stop) = stop {
        writer.write_all(told(alloc, &Err(stop))?.as_bytes())?;
    }
    if is_told {
        writer.write_all(format!(in alloc; "trail {count}\n")?.as_bytes())?;
    } else {
        writer.write_all(b"another trail\n")?;
    }
    if stop.is_some() {
        let Some(event) = event_at(alloc, script, count) else {
            return Ok(());
        };
        let outcome = core.step(event);
        writer.write_all(told(alloc, &outcome)?.as_bytes())?;
    }
    Ok(())
}

/// A core opened with the settings in this text. `None` where they have a fault, or after an allocation failure.
fn open(alloc: Global, settings: &str) -> Option<Core> {
    let document = document_of_text(alloc, settings.as_bytes()).ok()?;
    Core::open_checked(alloc, document.settings).ok()
}

/// Hands the events of a script to a core, all in one call (`at_once`) or one by one, and prints what came of them. The exit
/// status is 0, or 3 where the core can't be opened or a line is no event, or an allocation fails for them. The error is a later
/// allocation failure outside the core, a reply that is too long, or a failed write.
fn hand_in<W: Write>(
    alloc: Global,
    settings: &str,
    script: &str,
    at_once: bool,
    writer: &mut W,
) -> io::Result<ExitCode> {
    let (Some(mut core), Some(events)) = (open(alloc, settings), events_of(alloc, script)) else {
        return Ok(ExitCode::from(NOT_BEGUN));
    };
    let (receipts, stop) = if at_once {
        core.run(events)
    } else {
        step_each(alloc, &mut core, script, events.len())?
    };
    tell(alloc, &mut core, script, receipts, stop, writer)?;
    Ok(ExitCode::SUCCESS)
}

/// Reads the settings and the script from standard input, and runs the script as the arguments say: `run`, `step`, which is the
/// default, or `session`. The exit status is 3 where that can't begin.
fn main(rt: HostRuntime) -> io::Result<ExitCode> {
    let alloc = rt.alloc();
    let words: Vec<String> = std::env::args(&rt)?.collect(alloc)?;
    let at_once = words.iter().any(|word| word.as_str() == "run");
    let in_session = words.iter().any(|word| word.as_str() == "session");
    let Ok(input) = read_input(alloc, &mut rt.reader()) else {
        return Ok(ExitCode::from(NOT_BEGUN));
    };
    let Ok(text) = std::str::from_utf8(input.as_slice()) else {
        return Ok(ExitCode::from(NOT_BEGUN));
    };
    let Some((settings, script)) = text.split_once("---\n") else {
        return Ok(ExitCode::from(NOT_BEGUN));
    };
    let mut writer = io::writer(&rt);
    if !in_session {
        return hand_in(alloc, settings, script, at_once, &mut writer);
    }
    let Some(script) = Script::of(alloc, settings, script) else {
        return Ok(ExitCode::from(NOT_BEGUN));
    };
    session::tell(rt, alloc, script, &mut writer)?;
    Ok(ExitCode::SUCCESS)
}
