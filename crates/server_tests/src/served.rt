//! A server over a bound listener: two clients log in on loopback, and each asks for all topics. And what ends a keeper's rest at
//! a desk.

ghost use Rattle.std.specs.Prelude.{◌≡◌, ◌+◌, []};
ghost use Rattle.request_handlers.specs.Seats.{most_seats};

use admission::Rate;
use arguments::VERSION;
use broker_keeping::Steering;
use broker_server::{ServeOptions, Server, serve};
use request_handlers::{Core, MOST_SEATS};
use session_pool::{Desk, DeskLedger, ListedVersions, LockedDesk, Users};
use session_workers::{ConnectionOptions, SessionOptions};
use settings_text::{Document, document_of_text};
use std::alloc::Global;
use std::io::{Cursor, ErrorKind, Read, Write};
use std::marker::Brand;
use std::net::{Net, Shutdown, SocketAddr, TcpListener, TcpStream};
use std::sync::Wait;
use std::sync::ledger::Blank;
use std::test::Fail;
use std::thread::Threads;
use std::time::{Duration, Instant};
use std::{io, thread, time};
use test_frames::{
    HANDSHAKE, HANDSHAKE_TOLD, LOGIN, LOGIN_TOLD, METADATA, bytes_of, core, event_of, users,
};
use wire_types::Shared;

/// Broker 1 at `h` and port 9092, which is the controller, and the topic `b` with its one partition.
pub(crate) const METADATA_TOLD: &str = "00000041000000030000000100000001000168\
    00002384ffff0000000100000001000000016200000000010000000000000000000100000001000000010000000100000001";

/// How long each wait of these tests lasts at most, in seconds.
pub(crate) const PATIENCE: u64 = 20;

/// A writer whose reader has gone: each write fails.
#[derive(Drop)]
struct Gone;

impl Write for Gone {
    /// Fails, since nobody reads any more.
    fn write(&mut self, _bytes: &[u8]) -> io::Result<usize> {
        Err(ErrorKind::BrokenPipe.into())
    }

    /// Does nothing.
    fn flush(&mut self) -> io::Result<()> {
        Ok(())
    }
}

/// Serves two connections of a listener, by two workers, with the log to `errors`, and returns the exit status and what was
/// printed.
fn serve_two<
    'x,
    R: Net<Listener = TcpListener, Stream = TcpStream> + Threads + Wait + time::Clock + Sync,
    E: Write + Drop + Send,
>(
    rt: &R,
    alloc: Global,
    core: Core,
    users: &'x Shared<Users>,
    listener: &'x TcpListener,
    errors: E,
) -> (u8, Vec<u8>)
    requires { core.trail ≡ [] }
{
    let patience = Some(Duration::from_secs(PATIENCE));
    let options = ServeOptions {
        version: VERSION,
        bindings: 0,
        connections: ConnectionOptions {
            workers: 2,
            connections: 2,
            endless: false,
            per_host: None,
            open: patience,
            grace: None,
            idle: patience,
            login_within: Duration::from_secs(PATIENCE),
            frame_within: Duration::from_secs(PATIENCE),
            sessions: SessionOptions {
                listed: ListedVersions::AsServed,
                per_user: None,
                rate: Rate::ANY,
            },
            patience: None,
        },
        audit: false,
        log_times: false,
    };
    let steering: Option<Steering<'_, Cursor<Vec<u8>>, Vec<u8>>> = None;
    let mut printed = Vec::new(alloc);
    let server = Server {
        listener,
        users,
        options,
        steering,
    };
    let status = serve(rt, alloc, core, server, &mut printed, errors);
    (status, printed)
}

/// Connects, logs in as ann, asks for all topics and closes the writing half, all before any answer is read. Returns the stream,
/// whose reads wait at most 20 seconds.
fn begin<R: Net<Stream = TcpStream>>(
    rt: &R,
    alloc: Global,
    address: SocketAddr,
) -> Result<TcpStream, Fail> {
    let mut stream = TcpStream::connect(rt, address)?;
    stream.set_read_timeout(Some(Duration::from_secs(PATIENCE)))?;
    stream.write_all(bytes_of(alloc, &[HANDSHAKE, LOGIN, METADATA])?.as_slice())?;
    stream.shutdown(Shutdown::Write)?;
    Ok(stream)
}

/// All bytes that a client is sent, up to the end of the connection.
fn told(alloc: Global, mut stream: TcpStream) -> Result<Vec<u8>, Fail> {
    let mut bytes = Vec::new(alloc);
    stream.read_to_end(&mut bytes)?;
    Ok(bytes)
}

/// What each of two clients is sent, where both have sent all before the answers of the first are read.
fn ask_twice<R: Net<Stream = TcpStream>>(
    rt: &R,
    alloc: Global,
    address: SocketAddr,
) -> Result<(Vec<u8>, Vec<u8>), Fail> {
    let one = begin(rt, alloc, address)?;
    let two = begin(rt, alloc, address)?;
    Ok((told(alloc, one)?, told(alloc, two)?))
}

/// Two clients over loopback are answered at once, and the server's last line tells of two sessions.
#[test]
fn two_clients_on_loopback(rt: HostRuntime) -> Result<(), Fail> {
    let alloc = rt.alloc();
    let users = Shared::new(alloc, users(alloc)?).ok().ok_or("users")?;
    let core = core(alloc).ok_or("core")?;
    let listener = TcpListener::bind(&rt, "127.0.0.1:0")?;
    let address = listener.local_addr()?;
    let (handle, people, door) = (&rt, &users, &listener);
    let ((status, printed), answers) = thread::join(
        handle,
        move ||
            requires { core.trail ≡ [] }
        { serve_two(handle, alloc, core, people, door, Vec::<u8>::new(alloc)) },
        move || ask_twice(handle, alloc, address),
    );
    let (one, two) = answers?;
    let due = bytes_of(alloc, &[HANDSHAKE_TOLD, LOGIN_TOLD, METADATA_TOLD])?;
    assert!(rt; one == due && two == due);
    let printed = String::from_utf8(printed).ok().ok_or("text")?;
    let first = format!(in alloc; "listening on {address}\nsessions 2 events ")?;
    assert!(rt; printed.starts_with(first.as_str()), "{printed}");
    assert!(rt; printed.ends_with(" refusals 0\n"), "{printed}");
    assert_eq!(rt; status, 0);
    Ok(())
}

/// What a client is sent that comes after a connection which ended inside its first frame.
fn ask_after_a_cut<R: Net<Stream = TcpStream>>(
    rt: &R,
    alloc: Global,
    address: SocketAddr,
) -> Result<Vec<u8>, Fail> {
    let mut cut = TcpStream::connect(rt, address)?;
    cut.set_read_timeout(Some(Duration::from_secs(PATIENCE)))?;
    cut.write_all(b"\0")?;
    cut.shutdown(Shutdown::Write)?;
    told(alloc, cut)?;
    let client = begin(rt, alloc, address)?;
    told(alloc, client)
}

/// Where nobody reads the log any more, the next session is served all the same.
#[test]
fn an_operator_that_has_gone(rt: HostRuntime) -> Result<(), Fail> {
    let alloc = rt.alloc();
    let users = Shared::new(alloc, users(alloc)?).ok().ok_or("users")?;
    let core = core(alloc).ok_or("core")?;
    let listener = TcpListener::bind(&rt, "127.0.0.1:0")?;
    let address = listener.local_addr()?;
    let (handle, people, door) = (&rt, &users, &listener);
    let ((status, printed), answer) = thread::join(
        handle,
        move ||
            requires { core.trail ≡ [] }
        { serve_two(handle, alloc, core, people, door, Gone) },
        move || ask_after_a_cut(handle, alloc, address),
    );
    assert!(rt; answer? == bytes_of(alloc, &[HANDSHAKE_TOLD, LOGIN_TOLD, METADATA_TOLD])?);
    let printed = String::from_utf8(printed).ok().ok_or("text")?;
    assert!(rt; printed.ends_with(" refusals 0\n"), "{printed}");
    assert_eq!(rt; status, 0);
    Ok(())
}

/// Ann may do all.
const OF_ANN: &str = "node_id = 1\nhost = \"h\"\nport = 9092\nsupers = [\"User:ann\"]\n\
    [[topic]]\nname = \"b\"\npartitions = 1\n";

/// Ann initializes the transactional id `t`, which gets producer id 0 and epoch 0.
const INIT: &str = "000000110016000000000003ffff0001740000ea60";

/// The transaction takes in partition 0 of `b`.
const ADD: &str = "000000260018000000000004ffff000174000000000000000000000000000100016200000001\
    00000000";

/// The transaction commits.
const COMMIT: &str = "00000018001a000000000005ffff0001740000000000000000000001";

/// How long a rest at a desk lasts, of `most` at most, after ann's requests in these frames were answered there.
fn rested_on<L: DeskLedger, R: Wait + time::Clock + Copy>(
    rt: R,
    alloc: Global,
    core: Core,
    blank: Blank,
    frames: &[&str],
    most: Duration,
) -> Result<Duration, Fail>
    requires settings { core.settings ≡ L.settings }
    requires empty { core.trail ≡ [] }
    requires ledger { (blank.name ≡ L.name) × (blank.parts ≡ L.parts)
        × (blank.parts ≡ most_seats + 1) }
{
    let desk: LockedDesk<L, R> = LockedDesk::new(core, blank, rt);
    let mut seat = desk.seat().ok_or("seat")?;
    for frame in frames {
        let event = event_of(alloc, *frame).ok_or("event")?;
        let (back, answer) = desk.submit(seat, event);
        answer.ok().ok_or("answer")?;
        seat = back;
    }
    let start = Instant::now(&rt)?;
    desk.rest(&rt, most);
    Ok(start.elapsed(&rt)?)
}

/// As `rested_on`, at a new desk by `OF_ANN`.
fn rested<R: Wait + time::Clock + Copy>(
    rt: R,
    alloc: Global,
    frames: &[&str],
    most: Duration,
) -> Result<Duration, Fail> {
    let Document { settings, .. } = document_of_text(alloc, OF_ANN.as_bytes())
        .ok()
        .ok_or("settings")?;
    let core = Core::open_checked(alloc, settings)?;
    rested_on::<Brand, R>(rt, alloc, core, Blank::new(MOST_SEATS + 1), frames, most)
}

/// The keeper's rest ends at once after a commit, which leaves a marker to be written.
#[test]
fn a_rest_ends_once_a_marker_is_pending(rt: HostRuntime) -> Result<(), Fail> {
    let most = Duration::from_secs(PATIENCE);
    let passed = rested(rt, rt.alloc(), &[INIT, ADD, COMMIT], most)?;
    assert!(rt; passed < Duration::from_secs(PATIENCE / 2));
    Ok(())
}

/// Where no marker is pending a rest lasts. It may end early, so one of five has to.
#[test]
fn a_rest_lasts_where_no_marker_is_pending(rt: HostRuntime) -> Result<(), Fail> {
    let most = Duration::from_millis(100);
    let mut lasted = false;
    for _ in 0..5 {
        lasted = lasted || most <= rested(rt, rt.alloc(), &[INIT, ADD], most)?;
    }
    assert!(rt; lasted);
    Ok(())
}
