//! What a frame leads to.

ghost use Rattle.std.specs.Prelude.{◌≡◌, ◌+◌, ◌≤◌, ℕ, List, [], None, length, vec_len, MatchResult};
ghost use Rattle.msg_admin.specs.declared.request.TheConstants.{FRAME_LIMIT as LIMIT};
ghost use Rattle.msg_admin.specs.Request.{Fits, request_at};
ghost use Rattle.msg_admin.specs.Versions.{unsupported_response};
ghost use Rattle.request_handlers.specs.Bounds.{EventFits};
ghost use Rattle.sasl_login.specs.declared.login.SessionState.TheVariants as state;
ghost use Rattle.session_pool.specs.declared.respond.SessionAction.TheVariants as outcome;
ghost use Rattle.session_pool.specs.Asks.{Tells, Submits, Refuses, setting_of, step_of, step_if_readable, request_step, fresh_step, offered_step, known_step, mechanism_step, logs_in};
ghost use Rattle.sasl_login.specs.LoginMessage.{login_of};
ghost use Rattle.session_pool.specs.Turns.{CameOf, Says, Meant};

use crate::begin::{Begun, begin};
use crate::context::LoginContext;
use crate::desk::Desk;
use crate::response::Response;
use crate::session::Progress;
use audit_trail::Event;
use frame_streams::Came;
use msg_admin::{FRAME_LIMIT, Header, Request, read_request, write_unsupported_versions};
use request_handlers::Stop;
use sasl_login::{
    Closed, Fresh, Known, ListedVersions, LoginFault, Offered, SessionState, write_handshake,
    write_login, write_versions,
};
use std::alloc::{AllocError, Global};
use wire_types::{Bytes, ErrorCode, ReadFault, Text, WriteFault};

/// What a frame leads to.
#[derive(Drop)]
pub(crate) enum SessionAction {
    /// The session answers this itself, and goes on in this state.
    Tells(Bytes, SessionState),
    /// The core has answered: its reply is sent, and the session goes on.
    Answers(Response, Known),
    /// This last answer is sent, none where it has no bytes, and the session ends, since nobody logged in.
    Refuses(Bytes),
    /// The frame is no request that is served, and the session ends.
    Malformed,
    /// An allocation failed before anything was submitted, and the session ends.
    NoMemory,
    /// The core didn't take the event, and the session ends.
    Stopped(Stop),
    /// The core has answered, but its reply can't be written as a response, and the session ends.
    Unsent(WriteFault),
}

/// An answer of the session's own, after which it goes on in this state; `NoMemory` where the answer couldn't be allocated.
fn tell(answer: Result<Bytes, AllocError>, state: SessionState) -> SessionAction
    ensures { MatchResult answer (λ bytes. result ≡ outcome.Tells bytes state)
        (λ _. result ≡ outcome.NoMemory) }
{
    match answer {
        Ok(bytes) => SessionAction::Tells(bytes, state),
        Err(_) => SessionAction::NoMemory,
    }
}

/// A last answer, with which the session ends, since the login failed; `NoMemory` where the answer couldn't be allocated.
fn refuse(answer: Result<Bytes, AllocError>) -> SessionAction
    ensures { MatchResult answer (λ bytes. result ≡ outcome.Refuses bytes)
        (λ _. result ≡ outcome.NoMemory) }
{
    match answer {
        Ok(bytes) => SessionAction::Refuses(bytes),
        Err(_) => SessionAction::NoMemory,
    }
}

/// The session ends without an answer, since nobody has logged in.
fn close() -> SessionAction
    ensures { result ≡ outcome.Refuses [] }
{
    SessionAction::Refuses(Bytes::new())
}

/// Answers a SaslHandshake: agrees on the mechanism PLAIN, or refuses any other with UNSUPPORTED_SASL_MECHANISM (33) and ends the
/// session.
fn offer(alloc: Global, correlation: i32, fresh: Fresh, mechanism: &[u8]) -> SessionAction
    ensures { Says (mechanism_step correlation mechanism.now) result }
{
    match fresh.offer(mechanism) {
        Ok(offered) => {
            let answer = write_handshake(alloc, correlation, ErrorCode::None);
            tell(answer, SessionState::Offered(offered))
        }
        Err(Closed(code)) => refuse(write_handshake(alloc, correlation, code)),
    }
}

/// Answers a SaslAuthenticate: logs the user in whom the message names, or refuses it with SASL_AUTHENTICATION_FAILED (58) and
/// ends the session.
fn log_in(
    alloc: Global,
    login: &LoginContext<'_>,
    correlation: i32,
    offered: Offered,
    message: &[u8],
) -> SessionAction
    ensures { Says (logs_in correlation (login_of login.now.users.now message.now)) result }
{
    match offered.login(alloc, login.users, login.host, message) {
        Ok(known) => {
            let answer = write_login(alloc, correlation, ErrorCode::None);
            tell(answer, SessionState::Known(known))
        }
        Err(LoginFault::Closed(Closed(code))) => refuse(write_login(alloc, correlation, code)),
        Err(LoginFault::NoMemory) => SessionAction::NoMemory,
    }
}

/// Answers a request before a mechanism is agreed on: an ApiVersions or a SaslHandshake. After any other the session is closed.
fn on_fresh(
    alloc: Global,
    listed: ListedVersions,
    correlation: i32,
    fresh: Fresh,
    request: &Request,
) -> SessionAction
    ensures { Says (fresh_step listed correlation request.now) result }
{
    match request {
        Request::ApiVersions => {
            let answer = write_versions(alloc, correlation, listed);
            tell(answer, SessionState::Fresh(fresh))
        }
        Request::SaslHandshake(message) => {
            offer(
                alloc,
                correlation,
                fresh,
                message.value().mechanism.as_bytes(),
            )
        }
        _ => close(),
    }
}

/// Answers a request between the SaslHandshake and the login: an ApiVersions or a SaslAuthenticate. After any other the session
/// is closed.
fn on_offered(
    alloc: Global,
    login: &LoginContext<'_>,
    correlation: i32,
    offered: Offered,
    request: &Request,
) -> SessionAction
    ensures { Says (offered_step login.now.listed login.now.users.now correlation request.now) result }
{
    match request {
        Request::ApiVersions => {
            let answer = write_versions(alloc, correlation, login.listed);
            tell(answer, SessionState::Offered(offered))
        }
        Request::SaslAuthenticate(message) => {
            let message = message.value().auth.as_slice();
            log_in(alloc, login, correlation, offered, message)
        }
        _ => close(),
    }
}

/// Hands an event to the desk, keeps its receipt in `progress`, and gives its answer. Memory for the receipt is taken before, so
/// that no receipt is lost.
fn submit<S, D: Desk<S>>(
    alloc: Global,
    desk: &D,
    correlation: i32,
    event: Event,
    known: Known,
    progress: Progress<S>,
) -> (Progress<S>, SessionAction)
    requires { EventFits event }
    ensures risen { (D.view result.0.seat).count + vec_len progress.receipts
        ≡ (D.view progress.seat).count + vec_len result.0.receipts }
    ensures meant { Meant D.may_stop (Submits correlation event (state.Known known))
        progress.receipts.items result.0.receipts.items result.1 }
{
    let Progress { seat, mut receipts } = progress;
    if receipts.reserve(1).is_err() {
        return (Progress { seat, receipts }, SessionAction::NoMemory);
    }
    let (seat, answer) = desk.submit(seat, event);
    match answer {
        Ok(receipt) => {
            let answer = Response::of(alloc, correlation, &receipt);
            receipts.push_reserved(receipt);
            let progress = Progress { seat, receipts };
            match answer {
                Ok(response) => (progress, SessionAction::Answers(response, known)),
                Err(fault) => (progress, SessionAction::Unsent(fault)),
            }
        }
        Err(stop) => (Progress { seat, receipts }, SessionAction::Stopped(stop)),
    }
}

/// Has the core answer a request of a user who has logged in, by the desk.
fn on_known<S, D: Desk<S>>(
    alloc: Global,
    host: &Text,
    desk: &D,
    known: Known,
    header: Header,
    request: Request,
    progress: Progress<S>,
) -> (Progress<S>, SessionAction)
    requires { Fits request }
    ensures risen { (D.view result.0.seat).count + vec_len progress.receipts
        ≡ (D.view progress.seat).count + vec_len result.0.receipts }
    ensures meant { Meant D.may_stop (known_step known.who host.now header request)
        progress.receipts.items result.0.receipts.items result.1 }
{
    let correlation = header.correlation;
    match known.ask(alloc, host, header, request) {
        Ok(event) => submit(alloc, desk, correlation, event, known, progress),
        Err(_) => (progress, SessionAction::NoMemory),
    }
}

/// Answers a request in whatever state the session is, by the session itself before a login, by the core after it.
#[tactic(auto, using(crate::proofs::Sessions::said))]
fn on_request<S, D: Desk<S>>(
    alloc: Global,
    login: &LoginContext<'_>,
    desk: &D,
    state: SessionState,
    header: Header,
    request: Request,
    progress: Progress<S>,
) -> (Progress<S>, SessionAction)
    requires { Fits request }
    ensures risen { (D.view result.0.seat).count + vec_len progress.receipts
        ≡ (D.view progress.seat).count + vec_len result.0.receipts }
    ensures meant { Meant D.may_stop
        (request_step (setting_of login.now D.may_stop) state header request)
        progress.receipts.items result.0.receipts.items result.1 }
{
    let correlation = header.correlation;
    match state {
        SessionState::Fresh(fresh) => {
            let outcome = on_fresh(alloc, login.listed, correlation, fresh, &request);
            (progress, outcome)
        }
        SessionState::Offered(offered) => {
            let outcome = on_offered(alloc, login, correlation, offered, &request);
            (progress, outcome)
        }
        SessionState::Known(known) => {
            on_known(alloc, login.host, desk, known, header, request, progress)
        }
    }
}

/// Answers an ApiVersions in a version that isn't served: UNSUPPORTED_VERSION, and which versions of ApiVersions are served
/// (KIP-511). The session goes on.
fn tell_served(alloc: Global, correlation: i32, state: SessionState) -> SessionAction
    ensures { Says (Tells (unsupported_response correlation) state) result }
{
    tell(write_unsupported_versions(alloc, correlation), state)
}

/// Answers a SaslAuthenticate that is longer than any right one with SASL_AUTHENTICATION_FAILED (58), and ends the session.
fn refuse_login(alloc: Global, correlation: i32) -> SessionAction
    ensures { Says (logs_in correlation None) result }
{
    refuse(write_login(alloc, correlation, ErrorCode::SaslAuthenticationFailed))
}

/// Reads the request of a frame that was kept whole, and answers it. The outcome is `Malformed` where the frame is no request
/// that is served.
#[tactic(auto, using(crate::proofs::Sessions::said))]
fn read<S, D: Desk<S>>(
    alloc: Global,
    login: &LoginContext<'_>,
    desk: &D,
    state: SessionState,
    frame: &Bytes,
    progress: Progress<S>,
) -> (Progress<S>, SessionAction)
    requires { length frame.now ≤ LIMIT }
    ensures risen { (D.view result.0.seat).count + vec_len progress.receipts
        ≡ (D.view progress.seat).count + vec_len result.0.receipts }
    ensures meant { Meant D.may_stop
        (step_if_readable (setting_of login.now D.may_stop) state (request_at frame.now))
        progress.receipts.items result.0.receipts.items result.1 }
{
    match read_request(alloc, frame) {
        Ok((header, request)) => {
            on_request(alloc, login, desk, state, header, request, progress)
        }
        Err(ReadFault::Malformed(_)) => (progress, SessionAction::Malformed),
        Err(ReadFault::NoMemory) => (progress, SessionAction::NoMemory),
    }
}

/// Answers a frame of which `came` is kept, by the session itself or by the desk, and gives what is to be sent and whether the
/// session goes on. The frame's body is read only where its first bytes and its length don't decide.
pub(crate) fn respond<S, D: Desk<S>>(
    alloc: Global,
    login: &LoginContext<'_>,
    desk: &D,
    state: SessionState,
    came: &Came,
    progress: Progress<S>,
) -> (Progress<S>, SessionAction)
    requires { (length came.now.kept ≤ came.now.size) × (came.now.size ≤ LIMIT) }
    ensures risen { (D.view result.0.seat).count + vec_len progress.receipts
        ≡ (D.view progress.seat).count + vec_len result.0.receipts }
    ensures meant { (limit : ℕ) (frame : List ℕ)
        → CameOf (setting_of login.now D.may_stop) limit state came.now frame
        → Meant D.may_stop (step_of (setting_of login.now D.may_stop) state frame)
        progress.receipts.items result.0.receipts.items result.1 }
{
    match begin(&state, came) {
        Begun::OtherVersion(correlation) => (progress, tell_served(alloc, correlation, state)),
        Begun::Unserved => (progress, close()),
        Begun::Overlong(correlation) => (progress, refuse_login(alloc, correlation)),
        Begun::Unreadable => (progress, SessionAction::Malformed),
        Begun::Whole => read(alloc, login, desk, state, &came.kept, progress),
    }
}
