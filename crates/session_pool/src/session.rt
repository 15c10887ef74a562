//! One session: frames in, answers out.

ghost use Rattle.std.specs.Prelude.{◌≡◌, ◌+◌, ◌≤◌, vec_len};
ghost use Rattle.msg_admin.specs.declared.request.TheConstants.{FRAME_LIMIT as LIMIT};
ghost use Rattle.frame_streams.specs.Readers.{frames_left};
ghost use Rattle.frame_streams.specs.Reads.{Took, TookLast};
ghost use Rattle.session_pool.specs.Asks.{setting_of};
ghost use Rattle.session_pool.specs.Sessions.{TurnsOn, SessionOf};
ghost use Rattle.session_pool.specs.Turns.{most_kept, Sends, SendsParts, Finishes, why_of};

use crate::context::SessionContext;
use crate::desk::Desk;
use crate::end_reason::EndReason;
use crate::gate::Gate;
use crate::respond::{SessionAction, respond};
use crate::response::Response;
use byte_streams::write_whole;
use frame_streams::{Came, FrameReader, SendFault};
use msg_admin::FRAME_LIMIT;
use request_handlers::Receipt;
use sasl_login::{Fresh, SessionState, longest_login};
use settings_text::Users;
use std::alloc::Global;
use std::io::{BufReader, Read, Write};
use wire_types::{Bytes, WriteFault};

/// What a session leaves: a receipt for each event that was answered, in order, its seat, and why it ended.
#[derive(Drop)]
pub struct SessionEnd<S> {
    pub receipts: Vec<Receipt>,
    pub seat: S,
    pub why: EndReason,
}

/// How far a session has come at its desk: its seat, and a receipt for each event that was answered, in order.
#[derive(Drop)]
pub(crate) struct Progress<S> {
    pub(crate) seat: S,
    pub(crate) receipts: Vec<Receipt>,
}

/// How many bytes a frame may have after its size field, at most 104,857,600, and how many frames a session may send.
#[derive(Clone, Copy, Debug, PartialEq, Eq)]
pub struct Limits {
    pub frame: u32,
    pub frames: u64,
}

impl Default for Limits {
    ghost use Rattle.msg_admin.specs.declared.request.TheConstants.{FRAME_LIMIT as LIMIT};

    /// Frames of up to 104,857,600 bytes, and 1,000,000 of them.
    fn default() -> Limits
        ensures { result ≡ record { frame = LIMIT; frames = 1000000 } }
    {
        Limits {
            frame: FRAME_LIMIT as u32,
            frames: 1_000_000,
        }
    }
}

/// Why a session ends whose reply can't be written as a response: it is too long, or an allocation failed.
fn why_of(fault: WriteFault) -> EndReason
    ensures { result ≡ why_of fault }
{
    match fault {
        WriteFault::NoMemory => EndReason::NoMemory,
        WriteFault::TooLong => EndReason::TooLong,
    }
}

/// Writes bytes, and then gives `next`; or `WriteFault`, where the write fails.
fn send<W: Write>(
    writer: &mut W,
    bytes: &Bytes,
    next: Result<SessionState, EndReason>,
) -> Result<SessionState, EndReason>
    ensures { Sends (W.contents writer.old) (W.contents writer.new) bytes.now next result }
{
    match write_whole(writer, bytes.as_slice()) {
        Ok(()) => next,
        Err(_) => Err(EndReason::WriteFault),
    }
}

/// Writes a response, and then gives `next`; or `WriteFault` or `NoMemory`, where that fails.
fn send_response<W: Write>(
    alloc: Global,
    writer: &mut W,
    response: &Response,
    next: Result<SessionState, EndReason>,
) -> Result<SessionState, EndReason>
    ensures { SendsParts (W.contents writer.old) (W.contents writer.new) response.now next result }
{
    match response.send(alloc, writer) {
        Ok(()) => next,
        Err(SendFault::NoMemory) => Err(EndReason::NoMemory),
        Err(SendFault::Write) => Err(EndReason::WriteFault),
    }
}

/// Writes the answer that a frame led to, if there is one, and gives the session's next state, or why it ends.
fn finish<W: Write>(
    alloc: Global,
    writer: &mut W,
    outcome: SessionAction,
) -> Result<SessionState, EndReason>
    ensures { Finishes (W.contents writer.old) (W.contents writer.new) outcome result }
{
    match outcome {
        SessionAction::Tells(bytes, state) => send(writer, &bytes, Ok(state)),
        SessionAction::Answers(response, known) => {
            send_response(alloc, writer, &response, Ok(SessionState::Known(known)))
        }
        SessionAction::Refuses(bytes) => send(writer, &bytes, Err(EndReason::Login)),
        SessionAction::Malformed => Err(EndReason::Malformed),
        SessionAction::NoMemory => Err(EndReason::NoMemory),
        SessionAction::Stopped(stop) => Err(EndReason::Stopped(stop)),
        SessionAction::Unsent(fault) => Err(why_of(fault)),
    }
}

/// The longest SaslHandshake, and what a SaslAuthenticate has before its message at most: a header and the message's length.
const LONGEST_HANDSHAKE: usize = 65_546;

const LONGEST_BEFORE_MESSAGE: usize = 32_781;

/// How long a frame may be that is kept whole: `limit` once the user is known; before that the longest SaslAuthenticate that logs
/// a user in, or the longest SaslHandshake, if that is longer, but at most `limit`.
fn most_kept(users: &Users, state: &SessionState, limit: u32) -> u32
    ensures { result ≡ most_kept users.now limit state.now }
{
    if state.is_known() {
        return limit;
    }
    let login = LONGEST_BEFORE_MESSAGE.saturating_add(longest_login(users));
    login.max(LONGEST_HANDSHAKE).min(limit as usize) as u32
}

/// Tells the gate of the receipt at this place of `receipts`, if there is one.
fn tell_receipt<G: Gate>(gate: &G, receipts: &[Receipt], place: usize) {
    if let Some(receipt) = receipts.get(place) {
        gate.answered(receipt);
    }
}

/// Tells the gate of a frame that is no request that is served, or that ends the session since its user isn't known.
fn tell_unserved<G: Gate>(gate: &G, session: u64, outcome: &SessionAction, came: &Came) {
    match outcome {
        SessionAction::Malformed => gate.malformed(session, came.kept.as_slice()),
        SessionAction::Refuses(answer) => gate.refused(session, &came.kept, !answer.is_empty()),
        _ => {}
    }
}

/// Tells the gate, before the next frame, of a user whom this frame has logged in and whose answer is written.
fn tell_login<G: Gate>(
    gate: &G,
    session: u64,
    was_known: bool,
    next: &Result<SessionState, EndReason>,
) {
    if let Ok(SessionState::Known(known)) = next {
        if !was_known {
            gate.logged_in(session, known.who());
        }
    }
}

/// Reads and answers one frame, and gives the session's next state, or why it ends. The gate is told of the event's receipt and
/// of a frame that isn't served before the answer is written, and of a login after that.
fn turn<S, Rd: Read, Wr: Write, D: Desk<S>, G: Gate>(
    alloc: Global,
    context: &SessionContext<'_, D, G>,
    reader: &mut FrameReader<Rd>,
    writer: &mut Wr,
    state: SessionState,
    progress: Progress<S>,
) -> (Progress<S>, Result<SessionState, EndReason>)
    requires { context.now.limits.frame ≤ LIMIT }
    ensures risen { (D.view result.0.seat).count + vec_len progress.receipts
        ≡ (D.view progress.seat).count + vec_len result.0.receipts }
    ensures turns { Took (frames_left Rd.remaining reader.old) (frames_left Rd.remaining reader.new)
        (TurnsOn (setting_of context.now.login D.may_stop) context.now.limits.frame state
        (Wr.contents writer.old) (Wr.contents writer.new) progress.receipts.items
        result.0.receipts.items result.1) }
{
    let (login, limit, gate) = (&context.login, context.limits.frame, context.gate);
    let most = most_kept(login.users, &state, limit);
    let was_known = state.is_known();
    let came = match reader.read(alloc, was_known, most, limit) {
        Ok(came) => came,
        Err(fault) => return (progress, Err(EndReason::from(fault))),
    };
    let place = progress.receipts.len();
    let (progress, outcome) = respond(alloc, login, context.desk, state, &came, progress);
    tell_receipt(gate, progress.receipts.as_slice(), place);
    tell_unserved(gate, context.session, &outcome, &came);
    let next = finish(alloc, writer, outcome);
    tell_login(gate, context.session, was_known, &next);
    (progress, next)
}

/// Reads and answers frames until the session ends, and calls the gate before and after each.
fn serve<S, Rd: Read, Wr: Write, D: Desk<S>, G: Gate>(
    alloc: Global,
    context: &SessionContext<'_, D, G>,
    reader: &mut FrameReader<Rd>,
    writer: &mut Wr,
    seat: S,
) -> SessionEnd<S>
    requires { context.now.limits.frame ≤ LIMIT }
    ensures risen { (D.view result.seat).count ≡ (D.view seat).count + vec_len result.receipts }
    ensures session { Took (frames_left Rd.remaining reader.old) (frames_left Rd.remaining reader.new)
        (SessionOf (setting_of context.now.login D.may_stop) context.now.limits.frames
        context.now.limits.frame (Wr.contents writer.old) (Wr.contents writer.new)
        result.receipts.items result.why) }
{
    let mut progress = Progress {
        seat,
        receipts: Vec::new(alloc),
    };
    let mut state = SessionState::Fresh(Fresh::new());
    for frame in 0..context.limits.frames {
        context.gate.before(context.session, frame);
        let (come, outcome) = turn(alloc, context, reader, writer, state, progress);
        context.gate.after(context.session, frame);
        progress = come;
        match outcome {
            Ok(next) => state = next,
            Err(why) => {
                let Progress { seat, receipts } = progress;
                return SessionEnd {
                    receipts,
                    seat,
                    why,
                };
            }
        }
    }
    let Progress { seat, receipts } = progress;
    SessionEnd {
        receipts,
        seat,
        why: EndReason::Limit,
    }
}

/// Serves a session until its input ends, an error closes it, or `limits.frames` were served. The reader is read through a
/// buffer, and dropped with it; each answer of up to 65,536 bytes is one write, where the writer takes it whole. Of the end the
/// gate isn't told: the caller does that.
#[tactic(auto, using(crate::proofs::Sessions::nothing_done))]
pub fn serve_session<S, Rd: Read + Drop, Wr: Write, D: Desk<S>, G: Gate>(
    alloc: Global,
    context: &SessionContext<'_, D, G>,
    reader: Rd,
    writer: &mut Wr,
    seat: S,
) -> SessionEnd<S>
    requires { context.now.limits.frame ≤ LIMIT }
    ensures risen { (D.view result.seat).count ≡ (D.view seat).count + vec_len result.receipts }
    ensures session { TookLast (Rd.remaining reader)
        (SessionOf (setting_of context.now.login D.may_stop) context.now.limits.frames
        context.now.limits.frame (Wr.contents writer.old) (Wr.contents writer.new)
        result.receipts.items result.why) }
{
    match BufReader::new(alloc, reader) {
        Ok(reader) => {
            let mut reader = FrameReader::new(alloc, reader);
            serve(alloc, context, &mut reader, writer, seat)
        }
        Err(_) => SessionEnd {
            receipts: Vec::new(alloc),
            seat,
            why: EndReason::NoMemory,
        },
    }
}
