//! A server to which strangers come: it goes on, keeps nothing of those that ask nothing, and lets in only so many connections of
//! a host.

ghost use Rattle.std.specs.Prelude.{◌≡◌, ◌+◌, []};
ghost use Rattle.request_handlers.specs.Seats.{most_seats};

use crate::served::{METADATA_TOLD, PATIENCE};
use crate::together::Ticks;
use admission::{Doorman, Rate};
use request_handlers::{Core, MOST_SEATS};
use session_pool::{Clocked, DeskLedger, Gate, ListedVersions, LockedDesk, ShutdownFlag, Users};
use session_workers::{ConnectionOptions, Service, SessionOptions, serve_connections};
use std::alloc::Global;
use std::io::{Read, Write};
use std::marker::Brand;
use std::net::{Net, Shutdown, SocketAddr, TcpListener, TcpStream};
use std::sync::Wait;
use std::sync::atomic::{AtomicU64, Ordering};
use std::sync::ledger::Blank;
use std::test::Fail;
use std::thread::Threads;
use std::time::Duration;
use std::{io, thread, time};
use test_frames::{HANDSHAKE, HANDSHAKE_TOLD, LOGIN, LOGIN_TOLD, METADATA, bytes_of, core, users};
use wire_types::{Shared, Text};

/// Counts the connections that are turned away, and those for which no seat is left.
#[derive(Drop)]
struct Counting {
    turned_away: AtomicU64,
    unseated: AtomicU64,
}

impl Gate for Counting {
    /// Does nothing.
    fn before(&self, _session: u64, _frame: u64) {}

    /// Does nothing.
    fn after(&self, _session: u64, _frame: u64) {}
}

impl Doorman for Counting {
    /// Counts the call.
    fn turned_away(&self, _host: &Text) {
        self.turned_away.fetch_add(1, Ordering::SeqCst);
    }

    /// Counts the call.
    fn unseated(&self) {
        self.unseated.fetch_add(1, Ordering::SeqCst);
    }
}

/// What is left of the sessions of a server, and what its doorman was told.
#[derive(Clone, Copy, Debug, PartialEq, Eq)]
struct Left {
    /// How many ends are kept, the keeper's among them.
    ends: usize,
    /// How many sessions more ended, without a receipt.
    others: u64,
    turned_away: u64,
    unseated: u64,
}

/// Where a server listens, who may log in, and the flag that has it take no more connections.
#[derive(Drop)]
struct Site {
    users: Shared<Users>,
    listener: TcpListener,
    address: SocketAddr,
    closing: ShutdownFlag,
}

impl Site {
    /// A listener on a free port of 127.0.0.1, and who may log in there.
    fn open<R: Net<Listener = TcpListener, Stream = TcpStream>>(
        rt: &R,
        alloc: Global,
    ) -> Result<Site, Fail> {
        let users = Shared::new(alloc, users(alloc)?).ok().ok_or("users")?;
        let listener = TcpListener::bind(rt, "127.0.0.1:0")?;
        let address = listener.local_addr()?;
        Ok(Site {
            users,
            listener,
            address,
            closing: ShutdownFlag::new(),
        })
    }

    /// Has the server take no more connections, and returns `said`, which is what its clients found before that.
    fn close_after(&self, said: Result<bool, Fail>) -> Result<bool, Fail> {
        self.closing.close();
        said
    }
}

/// Serves the connections of a site until it is closed, by two workers, at a desk of which `given` seats are used up first.
/// `per_host` is how many connections a host may have at once. Returns what is left of the sessions; `None` where the desk hasn't
/// so many seats, or the sessions' ends are given up.
fn serve_at<
    L: DeskLedger + Send + Sync,
    R: Net<Listener = TcpListener, Stream = TcpStream> + Threads + Wait + time::Clock + Copy + Sync,
>(
    rt: &R,
    alloc: Global,
    core: Core,
    blank: Blank,
    given: u64,
    per_host: Option<u64>,
    site: &Site,
) -> Option<Left>
    requires settings { core.settings ≡ L.settings }
    requires empty { core.trail ≡ [] }
    requires ledger { (blank.name ≡ L.name) × (blank.parts ≡ L.parts)
        × (blank.parts ≡ most_seats + 1) }
{
    let desk: LockedDesk<L, &R> = LockedDesk::new(core, blank, rt);
    for _ in 0..given {
        desk.seat()?;
    }
    let options = ConnectionOptions {
        workers: 2,
        connections: 0,
        endless: true,
        per_host,
        open: None,
        grace: None,
        idle: Some(Duration::from_secs(PATIENCE)),
        login_within: Duration::from_secs(PATIENCE),
        frame_within: Duration::from_secs(PATIENCE),
        sessions: SessionOptions {
            listed: ListedVersions::AsServed,
            per_user: None,
            rate: Rate::ANY,
        },
        patience: None,
    };
    let told = Counting {
        turned_away: AtomicU64::new(0),
        unseated: AtomicU64::new(0),
    };
    let steps = Clocked::new(Ticks { rt: *rt, moment: 0 });
    let closing = Some(&site.closing);
    let service = Service {
        listener: &site.listener,
        users: &site.users,
        options,
    };
    let ended = serve_connections(rt, alloc, &desk, service, closing, steps, &told).ok()?;
    Some(Left {
        ends: ended.ends.len(),
        others: ended.others,
        turned_away: told.turned_away.load(Ordering::SeqCst),
        unseated: told.unseated.load(Ordering::SeqCst),
    })
}

/// As `serve_at`, with a ledger of its own. `given` of the desk's 1,048,576 seats are used up first; `None` where it hasn't so
/// many, or the sessions' ends are given up.
fn serve_site<
    R: Net<Listener = TcpListener, Stream = TcpStream> + Threads + Wait + time::Clock + Copy + Sync,
>(rt: &R, alloc: Global, core: Core, given: u64, per_host: Option<u64>, site: &Site) -> Option<Left>
    requires { core.trail ≡ [] }
{
    serve_at::<Brand, R>(
        rt,
        alloc,
        core,
        Blank::new(MOST_SEATS + 1),
        given,
        per_host,
        site,
    )
}

/// Sends `said` over a connection and then closes its writing half, which stays open where `said` is empty, and returns all that
/// comes until the server closes. An error where a read waits for 20 seconds, or the connection breaks.
fn told(alloc: Global, mut stream: TcpStream, said: &[u8]) -> io::Result<Vec<u8>> {
    stream.set_read_timeout(Some(Duration::from_secs(PATIENCE)))?;
    stream.write_all(said)?;
    if !said.is_empty() {
        stream.shutdown(Shutdown::Write)?;
    }
    let mut bytes = Vec::new(alloc);
    stream.read_to_end(&mut bytes)?;
    Ok(bytes)
}

/// Whether the server closes a connection over which nothing is sent, without an answer.
fn is_closed(alloc: Global, stream: TcpStream) -> bool {
    told(alloc, stream, b"").is_ok_and(|bytes| bytes.is_empty())
}

/// Whether a client that logs in as ann and asks for all topics is sent just the answers to that.
fn is_answered(alloc: Global, client: TcpStream) -> Result<bool, Fail> {
    let said = bytes_of(alloc, &[HANDSHAKE, LOGIN, METADATA])?;
    let due = bytes_of(alloc, &[HANDSHAKE_TOLD, LOGIN_TOLD, METADATA_TOLD])?;
    Ok(told(alloc, client, said.as_slice()).is_ok_and(|bytes| bytes == due))
}

/// Whether a client is answered that comes after `strangers` connections which close at once.
fn after_strangers<R: Net<Stream = TcpStream>>(
    rt: &R,
    alloc: Global,
    address: SocketAddr,
    strangers: u64,
) -> Result<bool, Fail> {
    for _ in 0..strangers {
        TcpStream::connect(rt, address)?;
    }
    is_answered(alloc, TcpStream::connect(rt, address)?)
}

/// Of 300 connections that ask nothing only their number is kept, and the client after them is answered.
#[test]
fn strangers_leave_a_number(rt: HostRuntime) -> Result<(), Fail> {
    let alloc = rt.alloc();
    let site = Site::open(&rt, alloc)?;
    let core = core(alloc).ok_or("core")?;
    let (handle, place) = (&rt, &site);
    let (left, said) = thread::join(
        handle,
        move ||
            requires { core.trail ≡ [] }
        { serve_site(handle, alloc, core, 0, None, place) },
        move || place.close_after(after_strangers(handle, alloc, place.address, 300)),
    );
    let said = said?;
    let left = left.ok_or("left")?;
    assert!(rt; said);
    assert!(rt; left.ends == 2 && left.others == 300, "{left:?}");
    Ok(())
}

/// Connections that ask nothing use up no seats: where a desk has one for each of two workers and one for the keeper, 300 of them
/// are served, and then a client.
#[test]
fn strangers_use_up_no_seats(rt: HostRuntime) -> Result<(), Fail> {
    let alloc = rt.alloc();
    let site = Site::open(&rt, alloc)?;
    let core = core(alloc).ok_or("core")?;
    let (handle, place) = (&rt, &site);
    let (left, said) = thread::join(
        handle,
        move ||
            requires { core.trail ≡ [] }
        { serve_site(handle, alloc, core, MOST_SEATS - 3, None, place) },
        move || place.close_after(after_strangers(handle, alloc, place.address, 300)),
    );
    let said = said?;
    let left = left.ok_or("left")?;
    assert!(rt; said);
    assert!(rt;
        left.ends == 2 && left.others == 300 && left.unseated == 0,
        "{left:?}"
    );
    Ok(())
}

/// Whether the server closes each of two connections, one after the other, over which nothing is sent.
fn two_are_closed<R: Net<Stream = TcpStream>>(
    rt: &R,
    alloc: Global,
    address: SocketAddr,
) -> Result<bool, Fail> {
    let first = is_closed(alloc, TcpStream::connect(rt, address)?);
    let second = is_closed(alloc, TcpStream::connect(rt, address)?);
    Ok(first && second)
}

/// Where no seat is left, each connection is closed, and the doorman is told.
#[test]
fn where_no_seat_is_left(rt: HostRuntime) -> Result<(), Fail> {
    let alloc = rt.alloc();
    let site = Site::open(&rt, alloc)?;
    let core = core(alloc).ok_or("core")?;
    let (handle, place) = (&rt, &site);
    let (left, said) = thread::join(
        handle,
        move ||
            requires { core.trail ≡ [] }
        { serve_site(handle, alloc, core, MOST_SEATS - 1, None, place) },
        move || place.close_after(two_are_closed(handle, alloc, place.address)),
    );
    let said = said?;
    let left = left.ok_or("left")?;
    assert!(rt; said);
    assert!(rt;
        left.ends == 1 && left.others == 0 && left.unseated == 2,
        "{left:?}"
    );
    Ok(())
}

/// Whether one is answered of up to 100 clients that come one after the other, with a tenth of a second between two; those before
/// it are turned away. That lasts less than the 20 seconds after which the server lets go of a connection that asks nothing.
fn is_let_in<R: Net<Stream = TcpStream> + time::Clock>(
    rt: &R,
    alloc: Global,
    address: SocketAddr,
) -> Result<bool, Fail> {
    for _ in 0..100 {
        if is_answered(alloc, TcpStream::connect(rt, address)?)? {
            return Ok(true);
        }
        thread::sleep(rt, Duration::from_millis(100));
    }
    Ok(false)
}

/// Whether a second connection of a host is closed at once while the first is open, and one that comes after the first has closed
/// is answered.
fn one_at_a_time<R: Net<Stream = TcpStream> + time::Clock>(
    rt: &R,
    alloc: Global,
    address: SocketAddr,
) -> Result<bool, Fail> {
    let open = TcpStream::connect(rt, address)?;
    let other_closed = is_closed(alloc, TcpStream::connect(rt, address)?);
    drop(open);
    Ok(other_closed && is_let_in(rt, alloc, address)?)
}

/// Where a host may have one connection, another one is turned away while it is open, and the next one is served.
#[test]
fn one_connection_of_a_host(rt: HostRuntime) -> Result<(), Fail> {
    let alloc = rt.alloc();
    let site = Site::open(&rt, alloc)?;
    let core = core(alloc).ok_or("core")?;
    let (handle, place) = (&rt, &site);
    let (left, said) = thread::join(
        handle,
        move ||
            requires { core.trail ≡ [] }
        { serve_site(handle, alloc, core, 0, Some(1), place) },
        move || place.close_after(one_at_a_time(handle, alloc, place.address)),
    );
    let said = said?;
    let left = left.ok_or("left")?;
    assert!(rt; said);
    assert!(rt;
        left.ends == 2 && left.others == 1 && left.turned_away > 0,
        "{left:?}"
    );
    Ok(())
}
