//! Serves the connections of a listener, and settles the books.

ghost use Rattle.std.specs.Prelude.{◌≡◌, ℕ, ◌+◌, List, [], length, IfOk, IfSome, string_bytes};
ghost use Rattle.settings.specs.declared.settings.Settings.{Settings};
ghost use Rattle.broker_server.specs.Counted.{receipts_of, IsCounted};
ghost use Rattle.broker_server.specs.Lines.{listening_line};
ghost use Rattle.broker_server.specs.Serves.{IsLast, Serves};
ghost use Rattle.request_handlers.specs.Seats.{most_seats};
ghost use Rattle.session_workers.specs.Ends.{AreEnds, AsksNothing};

use crate::lines::{Failure, Unbegun, failure_line, listening_line, settled_line};
use broker_keeping::{
    Attendant, Control, LogWriter, OperatorLog, Started, Steering, Ticks, Timekeeper, Watch,
};
use byte_streams::write_whole;
use request_handlers::{Core, MOST_SEATS, Receipt, Seat};
use session_pool::{DeskLedger, LockedDesk, SessionEnd, ShutdownFlag, Users};
use session_workers::{
    ConnectionOptions, Ended, PoolFault, Service, SettleFault, Settled, serve_connections, settle,
};
use std::alloc::{AllocError, Global};
use std::io::{BufRead, Write};
use std::marker::Brand;
use std::net::{Net, TcpListener, TcpStream};
use std::sync::Wait;
use std::sync::ledger::Blank;
use std::thread::Threads;
use std::{thread, time};
use wire_types::Shared;

/// The exit status where all is served and settled.
const SETTLED: u8 = 0;

/// The exit status where it isn't.
const FAILED: u8 = 1;

/// How a broker serves.
#[derive(Clone, Copy, Debug, PartialEq, Eq)]
pub struct ServeOptions {
    /// Which version of the program serves.
    pub version: &'static str,
    /// How many ACL bindings the settings have.
    pub bindings: usize,
    pub connections: ConnectionOptions,
    /// Whether each refusal is logged as it happens. Ignored where lines steer the broker in place of the clock.
    pub audit: bool,
    /// Whether each line of the log for an operator begins with its time and its level.
    pub log_times: bool,
}

/// What a broker serves, to whom and how, and who steers it, if lines do.
#[derive(Drop)]
pub struct Server<'x, I, O> {
    pub listener: &'x TcpListener,
    pub users: &'x Shared<Users>,
    pub options: ServeOptions,
    pub steering: Option<Steering<'x, I, O>>,
}

/// The receipts of each end, in their order.
fn receipts_of<L: DeskLedger>(
    alloc: Global,
    ends: Vec<SessionEnd<Seat<L>>>,
) -> Result<Vec<Vec<Receipt>>, AllocError>
    ensures { IfOk result (λ receipts. receipts.items ≡ receipts_of ends.items) }
{
    ends.into_iter().map(|end| end.receipts).collect(alloc)
}

/// How many sessions have ended: those whose ends are kept, without the keeper's, and the others. `None` where 64 bits don't
/// count them.
#[tactic(auto, using(crate::proofs::Counting::ends_at_least))]
fn sessions_of<L: DeskLedger>(ends: &[SessionEnd<Seat<L>>], others: u64) -> Option<u64>
    requires { AreEnds AsksNothing ends.now }
    ensures { IfSome result (λ sessions. sessions + 1 ≡ length ends.now + others) }
{
    let kept = (ends.len() - 1) as u64;
    kept.checked_add(others)
}

/// Compares the receipts of all ends with the desk's trail, and gives how many sessions there were, and how many events and
/// refusals the trail has. The error says why receipts and trail don't agree, or that an allocation failed or 64 bits don't count
/// the sessions.
#[tactic(auto, using(crate::proofs::Counting::counted))]
fn settle_ends<L: DeskLedger, R: Wait + Drop>(
    alloc: Global,
    desk: LockedDesk<L, R>,
    ended: Ended<L>,
) -> Result<(u64, Settled), Failure>
    requires { AreEnds AsksNothing ended.ends.items }
    ensures counted { IfOk result (λ told. IsCounted L.settings told.0 told.1) }
    ensures all { IfOk result (λ told. told.0 + 1 ≡ length ended.ends.items + ended.others) }
{
    let Ended { ends, others } = ended;
    let Some(sessions) = sessions_of(ends.as_slice(), others) else {
        return Err(Failure::Pool(PoolFault::NoMemory));
    };
    let Ok(receipts) = receipts_of(alloc, ends) else {
        return Err(Failure::Settle(SettleFault::NoMemory));
    };
    match settle(alloc, &desk.close(), receipts.as_slice()) {
        Ok(settled) => Ok((sessions, settled)),
        Err(fault) => Err(Failure::Settle(fault)),
    }
}

/// Serves a listener's connections, while the keeper tells the core the time by the clock. Connections are taken until `closing`
/// is set, if it is given.
fn serve_clocked<
    'x,
    'r,
    L: DeskLedger + Send + Sync,
    R: Net<Listener = TcpListener, Stream = TcpStream> + Threads + Wait + time::Clock + Sync,
>(
    rt: &'r R,
    alloc: Global,
    desk: &'x LockedDesk<L, &'r R>,
    service: Service<'x>,
    audit: bool,
    closing: Option<&'x ShutdownFlag>,
    log: &'x OperatorLog<'r, R>,
) -> Result<Ended<L>, PoolFault>
    ensures { IfOk result (λ ended. AreEnds AsksNothing ended.ends.items) }
{
    let here: &'x R = rt;
    let watch = Watch::new(alloc, desk, log, audit);
    let ticks = Ticks::new(rt, desk);
    let keeper = Timekeeper::new(ticks, watch);
    serve_connections(here, alloc, desk, service, closing, keeper, log)
}

/// Serves a listener's connections by the clock, while a thread of its own reads and answers lines, until all is served and the
/// lines end. Where no thread can be made for the lines, nothing is served, and the error is `NoThread`.
fn serve_attended<
    'x,
    'r,
    L: DeskLedger + Send + Sync,
    R: Net<Listener = TcpListener, Stream = TcpStream> + Threads + Wait + time::Clock + Sync,
    I: BufRead + Drop + Send,
    O: Write + Drop + Send,
>(
    rt: &'r R,
    alloc: Global,
    desk: &'x LockedDesk<L, &'r R>,
    service: Service<'x>,
    audit: bool,
    steering: Steering<'x, I, O>,
    log: &'x OperatorLog<'r, R>,
) -> Result<Ended<L>, PoolFault>
    ensures { IfOk result (λ ended. AreEnds AsksNothing ended.ends.items) }
{
    let here: &'x R = rt;
    let Service {
        listener,
        users,
        options,
    } = service;
    let closing = steering.closing;
    let attendant = Attendant::new(rt, alloc, desk, log, steering);
    thread::scope(
        thread::scope_env(),
        here,
        move |scope| -> Result<Ended<L>, PoolFault>
            ensures { IfOk result (λ ended. AreEnds AsksNothing ended.ends.items) }
        {
            let attending = scope.spawn(move || attendant.attend());
            if attending.is_err() {
                return Err(PoolFault::NoThread);
            }
            let service = Service {
                listener,
                users,
                options,
            };
            let ended = serve_clocked(rt, alloc, desk, service, audit, Some(closing), log);
            closing.close();
            ended
        },
    )
}

/// Serves a listener's connections, while the keeper does its steps: those that lines ask for, where they steer the broker in
/// place of the clock, and else those of the clock.
fn serve_steps<
    'x,
    'r,
    L: DeskLedger + Send + Sync,
    R: Net<Listener = TcpListener, Stream = TcpStream> + Threads + Wait + time::Clock + Sync,
    I: BufRead + Drop + Send,
    O: Write + Drop + Send,
>(
    rt: &'r R,
    alloc: Global,
    desk: &'x LockedDesk<L, &'r R>,
    server: Server<'x, I, O>,
    log: &'x OperatorLog<'r, R>,
) -> Result<Ended<L>, PoolFault>
    ensures { IfOk result (λ ended. AreEnds AsksNothing ended.ends.items) }
{
    let Server {
        listener,
        users,
        options,
        steering,
    } = server;
    let audit = options.audit;
    let service = Service {
        listener,
        users,
        options: options.connections,
    };
    let Some(steering) = steering else {
        return serve_clocked(rt, alloc, desk, service, audit, None, log);
    };
    if !steering.without_clock {
        return serve_attended(rt, alloc, desk, service, audit, steering, log);
    }
    let here: &'x R = rt;
    let closing = Some(steering.closing);
    let keeper = Control::new(rt, alloc, desk, log, steering);
    serve_connections(here, alloc, desk, service, closing, keeper, log)
}

/// Serves a listener's connections, while a thread of its own writes the log for an operator. Where no thread can be made for the
/// log, nothing is served, and the error is `NoThread`. It returns once the log is written, or can't be.
fn serve_kept<
    'x,
    'r,
    L: DeskLedger + Send + Sync,
    R: Net<Listener = TcpListener, Stream = TcpStream> + Threads + Wait + time::Clock + Sync,
    E: Write + Drop + Send,
    I: BufRead + Drop + Send,
    O: Write + Drop + Send,
>(
    rt: &'r R,
    alloc: Global,
    desk: &'x LockedDesk<L, &'r R>,
    server: Server<'x, I, O>,
    log: &'x OperatorLog<'r, R>,
    log_writer: LogWriter<E>,
) -> Result<Ended<L>, PoolFault>
    ensures { IfOk result (λ ended. AreEnds AsksNothing ended.ends.items) }
{
    let here: &'x R = rt;
    thread::scope(
        thread::scope_env(),
        here,
        move |scope| -> Result<Ended<L>, PoolFault>
            ensures { IfOk result (λ ended. AreEnds AsksNothing ended.ends.items) }
        {
            let telling = scope.spawn(move || drop(log_writer.run(here)));
            if telling.is_err() {
                return Err(PoolFault::NoThread);
            }
            let ended = serve_steps(rt, alloc, desk, server, log);
            log.tell_counts(desk);
            log.end();
            ended
        },
    )
}

/// Serves a listener's connections at a desk, and then settles its core: gives how many sessions there were, and how many events
/// and refusals the trail has. `blank` is the ledger of the desk, still empty: it has a part for each seat, and one more.
fn serve_at<
    'r,
    L: DeskLedger + Send + Sync,
    R: Net<Listener = TcpListener, Stream = TcpStream> + Threads + Wait + time::Clock + Sync,
    E: Write + Drop + Send,
    I: BufRead + Drop + Send,
    O: Write + Drop + Send,
>(
    rt: &'r R,
    alloc: Global,
    blank: Blank,
    core: Core,
    server: Server<'_, I, O>,
    log: &OperatorLog<'r, R>,
    log_writer: LogWriter<E>,
) -> Result<(u64, Settled), Failure>
    requires settings { core.settings ≡ L.settings }
    requires empty { core.trail ≡ [] }
    requires ledger { (blank.name ≡ L.name) × (blank.parts ≡ L.parts)
        × (blank.parts ≡ most_seats + 1) }
    ensures { IfOk result (λ told. IsCounted L.settings told.0 told.1) }
{
    let desk: LockedDesk<L, &'r R> = LockedDesk::new(core, blank, rt);
    match serve_kept(rt, alloc, &desk, server, log, log_writer) {
        Ok(ended) => settle_ends(alloc, desk, ended),
        Err(fault) => Err(Failure::Pool(fault)),
    }
}

/// As `serve_at`, with a ledger of its own, by which each event gets its receipt.
fn serve_booked<
    'r,
    R: Net<Listener = TcpListener, Stream = TcpStream> + Threads + Wait + time::Clock + Sync,
    E: Write + Drop + Send,
    I: BufRead + Drop + Send,
    O: Write + Drop + Send,
>(
    rt: &'r R,
    alloc: Global,
    core: Core,
    server: Server<'_, I, O>,
    log: &OperatorLog<'r, R>,
    log_writer: LogWriter<E>,
) -> Result<(u64, Settled), Failure>
    requires { core.trail ≡ [] }
    ensures { IfOk result (λ told. IsCounted core.settings told.0 told.1) }
{
    let blank = Blank::new(MOST_SEATS + 1);
    serve_at::<Brand, R, E, I, O>(rt, alloc, blank, core, server, log, log_writer)
}

/// Whether the broker keeps its own time: lines don't steer it in place of the clock.
fn keeps_time<I, O>(steering: &Option<Steering<'_, I, O>>) -> bool {
    match steering {
        Some(steering) => !steering.without_clock,
        None => true,
    }
}

/// As `serve_booked`, while the log for an operator is written to `errors`, which begins with what is served and with a warning
/// where clients are told another port. The error is also `Pool` where an allocation fails for the log.
fn serve_told<
    R: Net<Listener = TcpListener, Stream = TcpStream> + Threads + Wait + time::Clock + Sync,
    E: Write + Drop + Send,
    I: BufRead + Drop + Send,
    O: Write + Drop + Send,
>(
    rt: &R,
    alloc: Global,
    core: Core,
    server: Server<'_, I, O>,
    errors: E,
) -> Result<(u64, Settled), Failure>
    requires { core.trail ≡ [] }
    ensures { IfOk result (λ told. IsCounted core.settings told.0 told.1) }
{
    let options = server.options;
    let Ok((log, log_writer)) = OperatorLog::new(rt, alloc, errors, options.log_times) else {
        return Err(Failure::Pool(PoolFault::NoMemory));
    };
    log.start(
        &core,
        Started {
            version: options.version,
            bindings: options.bindings,
            users: server.users.value().len(),
            workers: options.connections.workers,
            has_clock: keeps_time(&server.steering),
        },
    );
    if let Ok(address) = server.listener.local_addr() {
        log.warn_of_port(&core, address.port());
    }
    serve_booked(rt, alloc, core, server, &log, log_writer)
}

/// The first line, `listening on ADDRESS`. The error is `NoAddress` where the listener can't tell its address, `NoMemory` after
/// an allocation failure.
fn first_line(alloc: Global, listener: &TcpListener) -> Result<String, Unbegun>
    ensures { IfOk result
        (λ text. (address : List ℕ) × (string_bytes text ≡ listening_line address)) }
{
    let Ok(address) = listener.local_addr() else {
        return Err(Unbegun::NoAddress);
    };
    let Ok(address) = format!(in alloc; "{address}") else {
        return Err(Unbegun::NoMemory);
    };
    match listening_line(alloc, address.as_str()) {
        Ok(line) => Ok(line),
        Err(_) => Err(Unbegun::NoMemory),
    }
}

/// The last line for an outcome, and the exit status, 0 or 1; `None` after an allocation failure.
fn last_line(alloc: Global, outcome: Result<(u64, Settled), Failure>) -> Option<(String, u8)>
    ensures { (settings : Settings) → IfOk outcome (λ told. IsCounted settings told.0 told.1)
        → IfSome result (λ told. IsLast settings told.1 (string_bytes told.0)) }
{
    match outcome {
        Ok((sessions, settled)) => Some((settled_line(alloc, sessions, settled).ok()?, SETTLED)),
        Err(failure) => Some((failure_line(alloc, failure).ok()?, FAILED)),
    }
}

/// Tells an operator that the first line can't be written to standard output. That this can't be written either isn't reported.
fn tell_unwritten<E: Write + Drop>(mut errors: E) {
    let line = "kbroker: standard output: where the server listens can't be written\n";
    let _ = write_whole(&mut errors, line.as_bytes());
}

/// Prints `listening on ADDRESS`, serves connections until as many were served as are served in all or no more are taken, settles
/// the books and prints how that went. Gives the exit status: 0 where all was served and settled, else 1. Where the listener
/// can't tell its address, or an allocation fails for the first line, it prints that and serves nothing; where the first line
/// can't be written, it says so to `errors` and serves nothing. An allocation that fails for the last line leaves it out.
///
/// `errors` gets the log for an operator: first what is served, and a warning where clients are told another port; why a session
/// ended, where it didn't end between two requests; that the clock stops, where the core takes no more of its steps; what becomes
/// of connections that wait or aren't served; at last how many requests, ticks and marks were answered; and the line of each
/// refusal, where `audit` is set and no lines stand in the clock's place. A thread of its own writes
/// to `errors`, and nobody else waits for it: 1,024 messages are queued at most, and further ones are dropped and counted. The
/// last line alone comes after the log is written, or can't be.
///
/// Where lines steer the server, connections are taken until the lines end or have it end, or all is served. Where they do so
/// without a clock, a tick or a marker step comes only by a line.
#[tactic(auto, using(crate::proofs::Served::unbegun_said))]
pub fn serve<
    R: Net<Listener = TcpListener, Stream = TcpStream> + Threads + Wait + time::Clock + Sync,
    W: Write,
    E: Write + Drop + Send,
    I: BufRead + Drop + Send,
    O: Write + Drop + Send,
>(rt: &R, alloc: Global, core: Core, server: Server<'_, I, O>, writer: &mut W, errors: E) -> u8
    requires { core.trail ≡ [] }
    ensures { Serves core.settings (W.contents writer.old) (W.contents writer.new) result }
{
    let first = match first_line(alloc, server.listener) {
        Ok(first) => first,
        Err(unbegun) => {
            let _ = write_whole(writer, unbegun.line().as_bytes());
            return FAILED;
        }
    };
    match write_whole(writer, first.as_bytes()) {
        Ok(()) => {}
        Err(_) => {
            tell_unwritten(errors);
            return FAILED;
        }
    }
    let outcome = serve_told(rt, alloc, core, server, errors);
    let Some((last, status)) = last_line(alloc, outcome) else {
        return FAILED;
    };
    match write_whole(writer, last.as_bytes()) {
        Ok(()) => status,
        Err(_) => FAILED,
    }
}
