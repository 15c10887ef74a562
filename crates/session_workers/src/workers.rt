//! Worker threads, which take jobs from a channel.

ghost use Rattle.std.specs.Prelude.{◌≡◌, IfOk};
ghost use Rattle.request_handlers.specs.Seats.{fresh_seat};
ghost use Rattle.session_workers.specs.Ends.{AreEnds, IsOfSteps};
ghost use Rattle.session_workers.specs.Faults.{fault_name};

use crate::job::{Job, WorkerContext, waited};
use crate::keeper::keep;
use crate::pacing::Pacing;
use crate::sessions::{Ended, Sessions, Unused};
use admission::{Doorman, Rate};
use crossbeam_channel::Receiver;
use request_handlers::Seat;
use session_pool::{DeskLedger, Gate, ListedVersions, LockedDesk, ShutdownFlag, Steps};
use std::alloc::{AllocError, Global};
use std::io::{Read, Write};
use std::net::OpenStream;
use std::sync::Wait;
use std::sync::atomic::{AtomicU64, Ordering};
use std::thread::{JoinHandle, Threads};
use std::{thread, time};
use thiserror::Error;

/// Why the ends of all sessions are given up, or none was served.
#[derive(Clone, Copy, Debug, PartialEq, Eq, Error)]
pub enum PoolFault {
    /// An allocation failed for the workers' queue, a worker's handle or an end, or more sessions ended than 64 bits count.
    #[error("there is not enough memory for the ends of the sessions")]
    NoMemory = 1,
    /// No worker could be started, or no thread that accepts connections.
    #[error("no worker thread could be started")]
    NoThread = 2,
    /// No seat was left for the keeper.
    #[error("no seat is left for the keeper")]
    NoSeat = 3,
}

impl PoolFault {
    /// The fault's name, as `settle failed:` prints it.
    pub fn name(self) -> &'static str
        ensures { result.now ≡ fault_name self }
    {
        match self {
            PoolFault::NoMemory => "NoMemory",
            PoolFault::NoThread => "NoThread",
            PoolFault::NoSeat => "NoSeat",
        }
    }
}

/// How sessions are served, whatever their connections.
#[derive(Clone, Copy, Debug, PartialEq, Eq)]
pub struct SessionOptions {
    /// How the versions that are served are listed before a login.
    pub listed: ListedVersions,
    /// So many sessions of one user are served at once; `None` for any number. A further one ends after its login.
    pub per_user: Option<u64>,
    /// How fast each user may ask.
    pub rate: Rate,
}

/// The handle of a thread that serves jobs and gives what is left of its sessions.
type Worker<L> = JoinHandle<Result<Sessions<L>, AllocError>>;

/// The seat that came back from the last session, or else a new one from the desk; `None` where no seat is left.
fn seat_of<L: DeskLedger, R: Wait>(
    desk: &LockedDesk<L, R>,
    back: Option<Unused<L>>,
) -> Option<Unused<L>> {
    match back {
        Some(unused) => Some(unused),
        None => Some(Unused { seat: desk.seat()? }),
    }
}

/// What one worker does: serves jobs until the channel is closed, and gives what is left of their sessions. The seat of a session
/// that ended without a receipt serves the next one. Where no seat is left, a job is dropped, and the doorman is told. After an
/// allocation failure it serves no more, and gives up what was left.
fn work<
    L: DeskLedger,
    R: Wait,
    Rd: Read + OpenStream + Drop,
    Wr: Write + OpenStream + Drop,
    G: Gate,
    D: Doorman,
    T: Wait + time::Clock,
>(
    context: &WorkerContext<'_, '_, L, R, G, D, T>,
    jobs: &Receiver<Job<Rd, Wr>>,
) -> Result<Sessions<L>, AllocError> {
    let (rt, doorman) = (context.rt, context.doorman);
    let mut sessions = Sessions::new(context.alloc);
    let mut back = None;
    for _ in rt.forever() {
        let Ok(job) = jobs.recv(rt) else {
            break;
        };
        doorman.begun(&job.host, waited(rt, job.taken));
        let is_back = back.is_some();
        match seat_of(context.desk, back) {
            Some(seat) => {
                if !is_back {
                    doorman.seated();
                }
                let done = context.serve(seat, job);
                (sessions, back) = sessions.add(done)?;
            }
            None => {
                back = None;
                drop(job);
                doorman.unseated();
            }
        }
    }
    Ok(sessions)
}

/// Waits for all workers to end, and gives what is left of their sessions. The error is that of a worker, or an allocation
/// failure.
fn join_all<L: DeskLedger, T: Threads>(
    rt: &T,
    alloc: Global,
    workers: Vec<Worker<L>>,
) -> Result<Sessions<L>, AllocError> {
    let mut sessions = Sessions::new(alloc);
    for worker in workers {
        sessions = sessions.join(worker.join(rt)?)?;
    }
    Ok(sessions)
}

/// Does the keeper's steps on the calling thread, then waits for all workers to end, and gives the ends of their sessions, and
/// after these the keeper's. The error is `NoMemory`.
#[tactic(auto, using(crate::proofs::Keeping::are_ends))]
fn keep_and_join<L: DeskLedger, R: Wait, K: Steps + Drop, T: Threads + Wait>(
    rt: &T,
    alloc: Global,
    desk: &LockedDesk<L, R>,
    seat: Seat<L>,
    steps: K,
    running: &AtomicU64,
    workers: Vec<Worker<L>>,
) -> Result<Ended<L>, PoolFault>
    requires { seat ≡ fresh_seat }
    ensures { IfOk result (λ ended. AreEnds (IsOfSteps K.gives K.told K.halts (K.state steps)) ended.ends.items) }
{
    let mut steps = steps;
    let keeper = keep(rt, alloc, desk, seat, &mut steps, running);
    let Ok(Sessions { mut kept, others }) = join_all(rt, alloc, workers) else {
        return Err(PoolFault::NoMemory);
    };
    match kept.push(keeper) {
        Ok(()) => Ok(Ended { ends: kept, others }),
        Err(_) => Err(PoolFault::NoMemory),
    }
}

/// As `serve_all`, with all that the threads share borrowed for one lifetime. `running` counts the workers that haven't
/// ended.
fn serve_lent<
    'x,
    'r,
    L: DeskLedger + Send + Sync,
    R: Wait + Sync,
    Rd: Read + OpenStream + Drop + Send,
    Wr: Write + OpenStream + Drop + Send,
    K: Steps + Drop,
    G: Gate + Sync,
    D: Doorman + Sync,
    T: Threads + Wait + time::Clock + Sync,
>(
    context: &'x WorkerContext<'x, 'r, L, R, G, D, T>,
    jobs: &'x Receiver<Job<Rd, Wr>>,
    running: &'x AtomicU64,
    workers: usize,
    steps: K,
) -> Result<Ended<L>, PoolFault>
    ensures { IfOk result (λ ended. AreEnds (IsOfSteps K.gives K.told K.halts (K.state steps)) ended.ends.items) }
{
    let (rt, alloc) = (context.rt, context.alloc);
    thread::scope(
        thread::scope_env(),
        rt,
        move |scope| -> Result<Ended<L>, PoolFault>
            ensures { IfOk result (λ ended. AreEnds (IsOfSteps K.gives K.told K.halts (K.state steps)) ended.ends.items) }
        {
            let Some(seat) = context.desk.seat() else {
                return Err(PoolFault::NoSeat);
            };
            let mut handles: Vec<Worker<L>> = Vec::with_capacity(alloc, workers).map_err(
                |_| PoolFault::NoMemory,
            )?;
            for _ in 0..workers {
                running.fetch_add(1, Ordering::SeqCst);
                let worker = scope.spawn(move || {
                    let sessions = work(context, jobs);
                    running.fetch_sub(1, Ordering::SeqCst);
                    sessions
                });
                match worker {
                    Ok(handle) => handles.push(handle).map_err(|_| PoolFault::NoMemory)?,
                    Err(_) => {
                        running.fetch_sub(1, Ordering::SeqCst);
                        break;
                    }
                }
            }
            if handles.is_empty() {
                return Err(PoolFault::NoThread);
            }
            if handles.len() < workers {
                context.doorman.fewer_workers(handles.len(), workers);
            }
            keep_and_join(rt, alloc, context.desk, seat, steps, running, handles)
        },
    )
}

/// How the sessions of a server are served, and who is told of them.
#[derive(Drop)]
pub struct ServerContext<'x, L: DeskLedger, R: Wait, G, D> {
    pub options: SessionOptions,
    pub desk: &'x LockedDesk<L, R>,
    pub gate: &'x G,
    pub doorman: &'x D,
    /// Is set once no further request is read. A user that is made to wait goes on then.
    pub reading: &'x ShutdownFlag,
}

/// Serves the jobs of the channel by so many worker threads, until the channel is closed and all are served; by fewer, where no
/// more can be started. Meanwhile the keeper does the steps that `steps` gives it, on the calling thread: by a clock (`Clocked`) a
/// tick at each of its moments, and after each as many marks as markers are pending. Gives the ends, the keeper's last; after a
/// fault they are given up: `NoMemory`, `NoThread` or `NoSeat`.
pub fn serve_all<
    L: DeskLedger + Send + Sync,
    R: Wait + Sync,
    Rd: Read + OpenStream + Drop + Send,
    Wr: Write + OpenStream + Drop + Send,
    K: Steps + Drop,
    G: Gate + Sync,
    D: Doorman + Sync,
    T: Threads + Wait + time::Clock + Sync,
>(
    rt: &T,
    alloc: Global,
    server: &ServerContext<'_, L, R, G, D>,
    jobs: Receiver<Job<Rd, Wr>>,
    workers: usize,
    steps: K,
) -> Result<Ended<L>, PoolFault>
    ensures { IfOk result (λ ended. AreEnds (IsOfSteps K.gives K.told K.halts (K.state steps)) ended.ends.items) }
{
    let SessionOptions {
        listed,
        per_user,
        rate,
    } = server.options;
    let running = AtomicU64::new(0);
    let pacing = Pacing::new(rt, alloc, rate, per_user, server.reading);
    let context = WorkerContext {
        rt,
        alloc,
        listed,
        desk: server.desk,
        gate: server.gate,
        doorman: server.doorman,
        pacing: &pacing,
    };
    serve_lent(&context, &jobs, &running, workers, steps)
}
