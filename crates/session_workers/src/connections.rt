//! Workers for a listener's connections.

ghost use Rattle.std.specs.Prelude.{IfOk};
ghost use Rattle.session_workers.specs.Ends.{AreEnds, IsOfSteps};

use crate::accept::Door;
use crate::guest::OpenConnections;
use crate::patience::Patient;
use crate::sessions::Ended;
use crate::workers::{PoolFault, ServerContext, SessionOptions, serve_all};
use admission::{Doorman, Quota};
use session_pool::{DeskLedger, Gate, LockedDesk, ShutdownFlag, Steps, Users};
use std::alloc::Global;
use std::net::{Net, TcpListener, TcpStream};
use std::sync::{Mutex, Wait};
use std::thread::Threads;
use std::time::Duration;
use std::{thread, time};
use wire_types::Shared;

/// How a listener's connections are served.
#[derive(Clone, Copy, Debug, PartialEq, Eq)]
pub struct ConnectionOptions {
    /// So many connections are served at once. 257 more wait for a worker, and the others in the listener's queue.
    pub workers: usize,
    /// So many are served in all; without effect where `endless` holds.
    pub connections: u64,
    /// Whether connections are served without end, and not counted.
    pub endless: bool,
    /// So many connections of one host, or of one network of IPv6 (`network_of`), are served or wait for a worker at once; `None`
    /// for any number.
    pub per_host: Option<u64>,
    /// For so long connections are taken; `None` for always.
    pub open: Option<Duration>,
    /// Once the time of `open` has passed, or someone has closed, no further request is read, and each connection that is still
    /// open so long after that is closed. With `None` connections are served to their end.
    pub grace: Option<Duration>,
    /// After so long a wait for its peer a session ends, `None` for never. It is above zero.
    pub idle: Option<Duration>,
    /// Within so long from its beginning a session's user is known, or the session ends. It is the time for a first frame too.
    pub login_within: Duration,
    /// Within so long a frame comes, from its first byte to its last, or its session ends.
    pub frame_within: Duration,
    pub sessions: SessionOptions,
    /// For how long at most the answer to a Fetch that brings no record is held back, within the request's max_wait_ms; `None`
    /// for not at all.
    pub patience: Option<Duration>,
}

/// The connections of a listener, who may log in, and how they are served.
#[derive(Clone, Copy)]
pub struct Service<'x> {
    pub listener: &'x TcpListener,
    pub users: &'x Shared<Users>,
    pub options: ConnectionOptions,
}

/// How many connections wait for a worker in the workers' queue; one more waits for room there. Each has a descriptor, of which a
/// process mostly has 1,024.
const WAITING: usize = 256;

/// As `serve_connections`, with all that the threads share borrowed for one lifetime.
fn serve_lent<
    'x,
    'r,
    L: DeskLedger + Send + Sync,
    R: Net<Listener = TcpListener, Stream = TcpStream> + Threads + Wait + time::Clock + Sync,
    K: Steps + Drop,
    G: Gate + Doorman + Sync,
>(
    rt: &'x R,
    alloc: Global,
    desk: &'x LockedDesk<L, &'r R>,
    listener: &'x TcpListener,
    closing: Option<&'x ShutdownFlag>,
    door: Door<'x, R, G>,
    steps: K,
) -> Result<Ended<L>, PoolFault>
    ensures { IfOk result (λ ended. AreEnds (IsOfSteps K.gives K.told K.halts (K.state steps)) ended.ends.items) }
{
    let (to, from) = crossbeam_channel::bounded(alloc, WAITING).map_err(|_| PoolFault::NoMemory)?;
    let (options, reading, gate) = (door.options, door.reading, door.doorman);
    thread::scope(
        thread::scope_env(),
        rt,
        move |scope| -> Result<Ended<L>, PoolFault>
            ensures { IfOk result (λ ended. AreEnds (IsOfSteps K.gives K.told K.halts (K.state steps)) ended.ends.items) }
        {
            let accepting = scope.spawn(move || door.accept_all(listener, closing, to));
            if accepting.is_err() {
                return Err(PoolFault::NoThread);
            }
            let patient = Patient::new(rt, gate, options.patience);
            let server = ServerContext {
                options: options.sessions,
                desk,
                gate: &patient,
                doorman: gate,
                reading,
            };
            let ended = serve_all(rt, alloc, &server, from, options.workers, steps);
            // Without workers nobody reads the lines' end.
            if let Some(closing) = closing {
                closing.close();
            }
            ended
        },
    )
}

/// Serves the connections of a listener at a desk, while the keeper does its steps on the calling thread. A thread of its own
/// accepts them, as long as the options say, and no longer than until `closing` is set, if it is given; then it sees them out,
/// where there is a grace. `closing` is set too once all is served. Gives what is left of the sessions and, as the last end, the
/// keeper's. The error is `NoMemory`, `NoThread` where no thread can be made to accept or to serve, or `NoSeat`.
pub fn serve_connections<
    'x,
    'r,
    L: DeskLedger + Send + Sync,
    R: Net<Listener = TcpListener, Stream = TcpStream> + Threads + Wait + time::Clock + Sync,
    K: Steps + Drop,
    G: Gate + Doorman + Sync,
>(
    rt: &'x R,
    alloc: Global,
    desk: &'x LockedDesk<L, &'r R>,
    service: Service<'x>,
    closing: Option<&'x ShutdownFlag>,
    steps: K,
    gate: &'x G,
) -> Result<Ended<L>, PoolFault>
    ensures { IfOk result (λ ended. AreEnds (IsOfSteps K.gives K.told K.halts (K.state steps)) ended.ends.items) }
{
    let Service {
        listener,
        users,
        options,
    } = service;
    let hosts = Mutex::new(Quota::new(alloc, options.per_host.unwrap_or(0)));
    let open = OpenConnections::new(alloc);
    let reading = ShutdownFlag::new();
    let door = Door {
        rt,
        alloc,
        users,
        options,
        hosts: &hosts,
        open: &open,
        reading: &reading,
        doorman: gate,
    };
    serve_lent(rt, alloc, desk, listener, closing, door, steps)
}
