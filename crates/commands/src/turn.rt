//! What a line of a script does.

ghost use Rattle.std.specs.Prelude.{◌≡◌, ◌≤◌, ◌++◌, false, length, IfOk, string_bytes};
ghost use Rattle.msg_admin.specs.Decode.{frame_at};
ghost use Rattle.msg_admin.specs.Request.{Fits};
ghost use Rattle.audit_trail.specs.declared.event.Event.TheVariants as events;
ghost use Rattle.request_handlers.specs.Bounds.{EventFits};
ghost use Rattle.request_handlers.specs.Core.{events_of};
ghost use Rattle.audit_trail.specs.Line.{audit_lines};
ghost use Rattle.commands.specs.Replay.{refusals_at, reply_line, IsTransition, step_transition, request_transition, frame_transition, unasked_transition, order_transition, line_transition};

use crate::cause::Cause;
use crate::lines::content;
use crate::order::{Order, Sent, parse_order};
use crate::text::{closed_text, reply_text, served_versions_text, unreadable_text};
use acl_binding::Caller;
use audit_trail::{Event, push_audit_lines};
use authorizer::Refusal;
use msg_admin::{FRAME_LIMIT, Frame, Header, Request, decode_frame};
use request_handlers::{Core, Receipt, Stop};
use std::alloc::{AllocError, Global};
use wire_types::Block;

/// What a line of a script does.
#[derive(Debug, Drop)]
pub(crate) enum Turn {
    /// Prints this, and the script goes on.
    Goes(String),
    /// Prints this, and the script ends.
    Ends(String, Cause),
}

/// The refusals of the event at a place of the trail; none where the trail has no such place.
fn refusals_at(core: &Core, place: u64) -> &[Refusal]
    ensures { result.now ≡ refusals_at core.now.trail place }
{
    match core.trail().entry(place as usize) {
        Some(entry) => entry.refusals.as_slice(),
        None => &[],
    }
}

/// What is printed for an event that was answered: its response, and an audit line for each of its parts that was refused.
fn receipt_text(
    alloc: Global,
    core: &Core,
    correlation: i32,
    receipt: &Receipt,
) -> Result<String, AllocError>
    ensures { IfOk result
        (λ text. string_bytes text ≡ reply_line correlation receipt.now.reply
        ++ audit_lines (refusals_at core.now.trail receipt.now.place)) }
{
    let mut text = reply_text(alloc, correlation, receipt.reply())?;
    push_audit_lines(alloc, &mut text, refusals_at(core, receipt.place()))?;
    Ok(text)
}

/// Hands an event to the core, and gives what is printed: the answer, or the stop that ends the script. The error is an
/// allocation failure, the core's too.
fn step(alloc: Global, core: &mut Core, correlation: i32, event: Event) -> Result<Turn, AllocError>
    requires up { core.old.down ≡ false }
    requires fits { EventFits event }
    ensures { IfOk result
        (IsTransition (step_transition core.old.settings (events_of core.old.trail) correlation
        event) core.old.settings core.new) }
{
    match core.step(event) {
        Ok(receipt) => Ok(Turn::Goes(receipt_text(alloc, core, correlation, &receipt)?)),
        Err(Stop::NoMemory) => Err(AllocError),
        Err(stop) => Ok(Turn::Ends(String::from_str(alloc, stop.line())?, Cause::Stop(stop))),
    }
}

/// Hands a request of this caller to the core, and gives what is printed. The error is an allocation failure.
fn ask(
    alloc: Global,
    core: &mut Core,
    caller: Caller,
    header: Header,
    request: Request,
) -> Result<Turn, AllocError>
    requires up { core.old.down ≡ false }
    requires fits { Fits request }
    ensures { IfOk result
        (IsTransition (step_transition core.old.settings (events_of core.old.trail)
        header.correlation (events.Ask caller header.client request)) core.old.settings
        core.new) }
{
    let correlation = header.correlation;
    let caller = core.trail().share_caller(alloc, caller)?;
    let event = Event::ask(alloc, caller, header.client, request)?;
    step(alloc, core, correlation, event)
}

/// Answers a frame that isn't too long, and gives what is printed: `closed` where it is no request that is served. The error is
/// an allocation failure.
fn request_turn(alloc: Global, core: &mut Core, sent: Sent) -> Result<Turn, AllocError>
    requires up { core.old.down ≡ false }
    requires fits { length sent.frame ≤ FRAME_LIMIT }
    ensures { IfOk result
        (IsTransition (request_transition core.old.settings (events_of core.old.trail) sent.caller
        (frame_at sent.frame)) core.old.settings core.new) }
{
    let Sent { caller, frame } = sent;
    match decode_frame(alloc, &frame)? {
        Frame::Request(header, request) => ask(alloc, core, caller, header, request),
        Frame::OtherApiVersions(correlation) => {
            Ok(Turn::Goes(served_versions_text(alloc, correlation)?))
        }
        Frame::Malformed(_) => Ok(Turn::Goes(closed_text(alloc)?)),
    }
}

/// As `request_turn`, but also `closed` where the frame is longer than a frame may be, 104,857,600 bytes.
fn frame_turn(alloc: Global, core: &mut Core, sent: Sent) -> Result<Turn, AllocError>
    requires up { core.old.down ≡ false }
    ensures { IfOk result
        (IsTransition (frame_transition core.old.settings (events_of core.old.trail) sent)
        core.old.settings core.new) }
{
    if sent.frame.len() > FRAME_LIMIT {
        return Ok(Turn::Goes(closed_text(alloc)?));
    }
    request_turn(alloc, core, sent)
}

/// Hands the core an event that no client asked for, a tick or a mark. Its reply isn't sent, so `-` is printed, and its refusals,
/// if it has any.
fn unasked_turn(alloc: Global, core: &mut Core, event: Event) -> Result<Turn, AllocError>
    requires up { core.old.down ≡ false }
    requires fits { EventFits event }
    ensures { IfOk result
        (IsTransition (unasked_transition core.old.settings (events_of core.old.trail) event)
        core.old.settings core.new) }
{
    step(alloc, core, 0, event)
}

/// Does what a line asks for, and gives what is printed. The error is an allocation failure.
fn order_turn(alloc: Global, core: &mut Core, order: Order) -> Result<Turn, AllocError>
    requires up { core.old.down ≡ false }
    ensures { IfOk result
        (IsTransition (order_transition core.old.settings (events_of core.old.trail) order)
        core.old.settings core.new) }
{
    match order {
        Order::Ask(sent) => frame_turn(alloc, core, sent),
        Order::Mark => unasked_turn(alloc, core, Event::Mark),
        Order::Tick(moment) => unasked_turn(alloc, core, Event::Tick(moment)),
    }
}

/// Reads the line of this number, counted from 1, does what it asks for, and gives what is printed. A line that can't be read
/// ends the script. The error is an allocation failure.
pub(crate) fn line_turn(
    alloc: Global,
    core: &mut Core,
    block: &mut Block,
    number: u64,
    line: &[u8],
) -> Result<Turn, AllocError>
    requires up { core.old.down ≡ false }
    ensures { IfOk result
        (IsTransition (line_transition core.old.settings (events_of core.old.trail) number line.now)
        core.old.settings core.new) }
{
    match parse_order(alloc, block, content(line))? {
        Ok(order) => order_turn(alloc, core, order),
        Err(unreadable) => Ok(Turn::Ends(
            unreadable_text(alloc, number)?,
            Cause::Unreadable(unreadable),
        )),
    }
}
