//! Answers that a core gives anew.

ghost use Rattle.std.specs.Prelude.{◌≤◌, length};
ghost use Rattle.request_handlers.specs.Bounds.{EventFits};

use crate::answer::{Answers, push_stop};
use audit_trail::{Event, line};
use authorizer::Refusal;
use commands::{Order, Sent};
use message_words::{Sheet, push_closed, push_sent_reply, push_served_versions, push_silence};
use msg_admin::{FRAME_LIMIT, Frame, Reply, decode_frame, write_reply};
use request_handlers::{Core, Stop};
use std::alloc::AllocError;
use wire_types::WriteFault;

/// Appends the field `answer` for the reply to a request: its fields, or that nothing is sent, or that it is too long and the
/// connection is closed.
fn push_request_reply(
    sheet: &mut Sheet,
    correlation: i32,
    reply: &Reply,
) -> Result<(), AllocError> {
    match write_reply(sheet.alloc(), correlation, reply) {
        Ok(response) => {
            if response.is_empty() {
                return push_silence(sheet);
            }
            push_sent_reply(sheet, correlation, correlation, reply)
        }
        Err(WriteFault::TooLong) => push_closed(sheet),
        Err(WriteFault::NoMemory) => Err(AllocError),
    }
}

/// Appends `refused`, and under it an audit line for each part of an event that was refused; nothing where none was.
fn push_refusals(sheet: &mut Sheet, refusals: &[Refusal]) -> Result<(), AllocError> {
    if refusals.is_empty() {
        return Ok(());
    }
    sheet.begin("refused")?;
    for refusal in refusals {
        let line = line(sheet.alloc(), refusal)?;
        sheet.push_line(line.as_str())?;
    }
    sheet.end();
    Ok(())
}

/// The refusals of the event at a place of the trail; none where the trail has no such place.
fn refusals_at(core: &Core, place: u64) -> &[Refusal] {
    match core.trail().entry(place as usize) {
        Some(entry) => entry.refusals.as_slice(),
        None => &[],
    }
}

/// Hands an event to the core, and appends its reply and its refusals; the reply only if `correlation`, the id of the request, is
/// given. If the core takes no more events, appends the stop and gives it, else gives `None`. The error is an allocation failure,
/// the core's too.
fn push_step(
    core: &mut Core,
    sheet: &mut Sheet,
    correlation: Option<i32>,
    event: Event,
) -> Result<Option<Stop>, AllocError>
    requires { EventFits event }
{
    match core.step(event) {
        Ok(receipt) => {
            if let Some(correlation) = correlation {
                push_request_reply(sheet, correlation, receipt.reply())?;
            }
            push_refusals(sheet, refusals_at(core, receipt.place()))?;
            Ok(None)
        }
        Err(Stop::NoMemory) => Err(AllocError),
        Err(stop) => {
            push_stop(sheet, stop)?;
            Ok(Some(stop))
        }
    }
}

/// Answers a frame that isn't too long, and appends the answer: a request by the core, any other frame as the broker would. Gives
/// the stop where the core takes no more events.
fn push_request_step(
    core: &mut Core,
    sheet: &mut Sheet,
    sent: Sent,
) -> Result<Option<Stop>, AllocError>
    requires { length sent.frame ≤ FRAME_LIMIT }
{
    let Sent { caller, frame } = sent;
    let alloc = sheet.alloc();
    match decode_frame(alloc, &frame)? {
        Frame::Request(header, request) => {
            let caller = core.trail().share_caller(alloc, caller)?;
            let event = Event::ask(alloc, caller, header.client, request)?;
            push_step(core, sheet, Some(header.correlation), event)
        }
        Frame::OtherApiVersions(correlation) => {
            push_served_versions(sheet, &frame, correlation)?;
            Ok(None)
        }
        Frame::Malformed(_) => {
            push_closed(sheet)?;
            Ok(None)
        }
    }
}

/// As `push_request_step`; where the frame is longer than one may be, appends that the connection is closed.
fn push_frame_step(
    core: &mut Core,
    sheet: &mut Sheet,
    sent: Sent,
) -> Result<Option<Stop>, AllocError> {
    if sent.frame.len() > FRAME_LIMIT {
        push_closed(sheet)?;
        return Ok(None);
    }
    push_request_step(core, sheet, sent)
}

impl Answers for Core {
    /// Has the core do what an order asks for, and appends what it answers; of a mark or a tick only the refusals.
    fn push_answer(&mut self, sheet: &mut Sheet, order: Order) -> Result<Option<Stop>, AllocError> {
        match order {
            Order::Ask(sent) => push_frame_step(self, sheet, sent),
            Order::Mark => push_step(self, sheet, None, Event::Mark),
            Order::Tick(moment) => push_step(self, sheet, None, Event::Tick(moment)),
        }
    }
}
