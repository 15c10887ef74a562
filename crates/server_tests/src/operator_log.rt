//! The log for an operator: messages are written in their order, and those that the full queue drops are counted.

use admission::Doorman;
use broker_keeping::OperatorLog;
use session_pool::{EndReason, Gate};
use std::alloc::Global;
use std::ops::Range;
use std::str::from_utf8;
use std::sync::Wait;
use std::test::Fail;
use std::time::Duration;
use std::{thread, time};
use wire_types::Text;

/// So many messages wait for the writer.
const WAITING: u64 = 1_024;

/// Logs as many lines as fill the queue, and then two messages of three lines, which are dropped.
fn fill<R: Wait + time::Clock>(alloc: Global, log: &OperatorLog<'_, R>) -> Result<(), Fail> {
    for number in 0..WAITING {
        log.info(format!(in alloc; "line {number}\n")?);
    }
    log.info(String::from_str(alloc, "one\ntwo\n")?);
    log.info(String::from_str(alloc, "three\n")?);
    Ok(())
}

/// What the writer writes after `fill`: the lines that fill the queue, that `dropped` lines were left out, and `last`.
fn due(alloc: Global, dropped: u64, last: &str) -> Result<String, Fail> {
    let mut text = String::new(alloc);
    for number in 0..WAITING {
        text.push_str(format!(in alloc; "line {number}\n")?.as_str())?;
    }
    let line = "kbroker: lines left out, since nobody read them in time or memory was short";
    text.push_str(format!(in alloc; "{line}: {dropped}\n")?.as_str())?;
    text.push_str(last)?;
    Ok(text)
}

/// Logs the line `last` until the queue takes it, while a writer empties the queue, and returns how often it was dropped; an
/// error after 10,000 tries.
fn say_last<R: Wait + time::Clock>(
    rt: &R,
    alloc: Global,
    log: &OperatorLog<'_, R>,
) -> Result<u64, Fail> {
    for dropped in 0..10_000 {
        log.info(String::from_str(alloc, "last\n")?);
        if log.dropped() == 0 {
            return Ok(dropped);
        }
        thread::sleep(rt, Duration::from_millis(1));
    }
    Err(Fail::from("no room"))
}

/// Messages that come while the queue is full are dropped, and their lines are counted and told at the end.
#[test]
fn what_has_no_room_is_counted(rt: HostRuntime) -> Result<(), Fail> {
    let alloc = rt.alloc();
    let (log, log_writer) = OperatorLog::new(&rt, alloc, Vec::<u8>::new(alloc), false)?;
    fill(alloc, &log)?;
    assert_eq!(rt; log.dropped(), 3);
    let (handle, log) = (&rt, &log);
    let (written, _) = thread::join(handle, move || log_writer.run(handle), move || log.end());
    assert!(rt; written.as_slice() == due(alloc, 3, "")?.as_bytes());
    assert_eq!(rt; log.dropped(), 0);
    Ok(())
}

/// How many lines were dropped is written before the next message that goes into the queue.
#[test]
fn what_was_left_out_is_told_before_what_is_said_next(rt: HostRuntime) -> Result<(), Fail> {
    let alloc = rt.alloc();
    let (log, log_writer) = OperatorLog::new(&rt, alloc, Vec::<u8>::new(alloc), false)?;
    fill(alloc, &log)?;
    let (handle, log) = (&rt, &log);
    let (written, dropped) = thread::join(
        handle,
        move || log_writer.run(handle),
        move || {
            let dropped = say_last(handle, alloc, log);
            log.end();
            dropped
        },
    );
    let dropped = dropped?.saturating_add(3);
    assert!(rt; written.as_slice() == due(alloc, dropped, "last\n")?.as_bytes());
    Ok(())
}

/// Where the writer of the log is gone, messages are dropped, and nobody waits for it.
#[test]
fn a_writer_that_is_gone_is_not_waited_for(rt: HostRuntime) -> Result<(), Fail> {
    let alloc = rt.alloc();
    let (log, log_writer) = OperatorLog::new(&rt, alloc, Vec::<u8>::new(alloc), false)?;
    drop(log_writer);
    log.info(String::from_str(alloc, "one\n")?);
    assert_eq!(rt; log.dropped(), 1);
    log.end();
    Ok(())
}

/// That no seat is left is written once, however many sessions find none.
#[test]
fn that_no_seat_is_left_is_written_once(rt: HostRuntime) -> Result<(), Fail> {
    let alloc = rt.alloc();
    let (log, log_writer) = OperatorLog::new(&rt, alloc, Vec::<u8>::new(alloc), false)?;
    log.unseated();
    log.unseated();
    log.end();
    let written = log_writer.run(&rt);
    let due = "kbroker: no seat is left for further sessions, since 1048576 have asked\n";
    assert!(rt; written.as_slice() == due.as_bytes());
    Ok(())
}

/// Logs that the sessions of these numbers, of nobody at 10.0.0.5, ended inside a request.
fn cut<R: Wait + time::Clock>(
    alloc: Global,
    log: &OperatorLog<'_, R>,
    numbers: Range<u64>,
) -> Result<(), Fail> {
    let host = Text::of(alloc, "10.0.0.5")?;
    for number in numbers {
        log.ended(number, &host, None, EndReason::Cut);
    }
    Ok(())
}

/// Where the same is said of twelve sessions, the first is written in full, the next ten in one line, and the last at the end.
#[test]
fn the_same_of_further_sessions_is_counted(rt: HostRuntime) -> Result<(), Fail> {
    let alloc = rt.alloc();
    let (log, log_writer) = OperatorLog::new(&rt, alloc, Vec::<u8>::new(alloc), false)?;
    cut(alloc, &log, 0..12)?;
    log.end();
    let written = log_writer.run(&rt);
    let due =
        "kbroker: session 0 of nobody from 10.0.0.5: the connection was closed inside a request
kbroker: 10 more sessions, up to session 10: of nobody from 10.0.0.5: the connection was closed inside a request
kbroker: session 11 of nobody from 10.0.0.5: the connection was closed inside a request
";
    assert!(rt; written.as_slice() == due.as_bytes());
    Ok(())
}

/// Messages about sessions are compared with the last four. Where one of these is forgotten, it is written first of how many more
/// sessions the same was said.
#[test]
fn the_latest_four_sayings_are_compared(rt: HostRuntime) -> Result<(), Fail> {
    let alloc = rt.alloc();
    let (log, log_writer) = OperatorLog::new(&rt, alloc, Vec::<u8>::new(alloc), false)?;
    cut(alloc, &log, 0..3)?;
    for why in [
        EndReason::ReadFault,
        EndReason::WriteFault,
        EndReason::BadFrame,
        EndReason::Malformed,
    ] {
        log.ended(7, &Text::of(alloc, "10.0.0.5")?, None, why);
    }
    cut(alloc, &log, 8..9)?;
    log.end();
    let written = log_writer.run(&rt);
    let due =
        "kbroker: session 0 of nobody from 10.0.0.5: the connection was closed inside a request
kbroker: session 7 of nobody from 10.0.0.5: a read failed
kbroker: session 7 of nobody from 10.0.0.5: a write failed
kbroker: session 7 of nobody from 10.0.0.5: a frame is shorter than a request can be, or longer than the limit
kbroker: 2 more sessions, up to session 2: of nobody from 10.0.0.5: the connection was closed inside a request
kbroker: session 7 of nobody from 10.0.0.5: a frame is no request that is served
kbroker: session 8 of nobody from 10.0.0.5: the connection was closed inside a request
";
    assert!(rt; written.as_slice() == due.as_bytes());
    Ok(())
}

/// Whether a text has the form of a moment in UTC, to the millisecond (RFC 3339, section 5.6).
fn is_moment(text: &str) -> bool {
    let form = "dddd-dd-ddTdd:dd:dd.dddZ";
    text.len() == form.len()
        && text.as_bytes().iter().zip(form.as_bytes().iter()).all(|(byte, due)| byte == due
            || (*due == b'd' && byte.is_ascii_digit()))
}

/// What stands after the moment and this level at a line's front; `None` where the line doesn't begin with both.
fn after_stamp<'a>(line: &'a str, level: &str) -> Option<&'a str> {
    let (moment, rest) = line.split_once(' ')?;
    let (told, rest) = rest.split_once(' ')?;
    if is_moment(moment) && told == level {
        Some(rest)
    } else {
        None
    }
}

/// With stamps each line of the log begins with its moment and its level, also each of two lines of one message.
#[test]
fn each_line_begins_with_its_moment_and_its_level(rt: HostRuntime) -> Result<(), Fail> {
    let alloc = rt.alloc();
    let (log, log_writer) = OperatorLog::new(&rt, alloc, Vec::<u8>::new(alloc), true)?;
    log.info(String::from_str(alloc, "one\ntwo\n")?);
    log.fewer_workers(1, 2);
    cut(alloc, &log, 3..4)?;
    log.end();
    let written = log_writer.run(&rt);
    let Ok(written) = from_utf8(written.as_slice()) else {
        return Err(Fail::from("no text"));
    };
    let mut lines = written.lines();
    let due = [
        ("INFO", "one"),
        ("INFO", "two"),
        ("WARN", "kbroker: only 1 of 2 workers could be started"),
        (
            "INFO",
            "kbroker: session 3 of nobody from 10.0.0.5: the connection was closed inside a request",
        ),
    ];
    for (level, text) in due {
        assert!(rt; lines.next().and_then(|line| after_stamp(line, level)) == Some(text));
    }
    assert!(rt; lines.next().is_none());
    Ok(())
}
