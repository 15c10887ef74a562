//! That sessions run at once: session 1 is held until session 2 has logged in, produced a record and fetched it back.

ghost use Rattle.std.specs.Prelude.{◌≡◌, ◌+◌, [], is_some, not};
ghost use Rattle.request_handlers.specs.Seats.{most_seats};

use crate::hold::{Answers, Flags, Hold, Place, Talk};
use acl_binding::Caller;
use admission::Rate;
use audit_trail::{Event, Trail};
use crossbeam_channel::Sender;
use deadlines::Times;
use msg_admin::Request;
use request_handlers::{Core, MOST_SEATS, Receipt, Seat};
use session_pool::{
    Clock, Clocked, DeskLedger, EndReason, Limits, ListedVersions, LockedDesk, Quiet, SessionEnd,
    ShutdownFlag, Users,
};
use session_workers::{Job, ServerContext, SessionOptions, serve_all, settle};
use std::alloc::Global;
use std::io::Cursor;
use std::marker::Brand;
use std::sync::atomic::Ordering;
use std::sync::ledger::{Blank, Ledger};
use std::sync::{Mutex, Wait};
use std::test::Fail;
use std::thread::Threads;
use std::time::Duration;
use std::{thread, time};
use test_frames::{
    FETCH, FETCH_TOLD, HANDSHAKE, HANDSHAKE_TOLD, LOGIN, LOGIN_TOLD, METADATA, METADATA_TOLD,
    PRODUCE, PRODUCE_TOLD, bytes_of, core, event_of, users,
};
use wire_types::{Shared, Text};

/// A clock that counts milliseconds, one for each sleep of a millisecond, until all workers have ended.
#[derive(Drop)]
pub(crate) struct Ticks<R: time::Clock + Drop> {
    pub(crate) rt: R,
    pub(crate) moment: u64,
}

impl<R: time::Clock + Drop> Clock for Ticks<R> {
    /// A moment until all workers have ended, and none then.
    ghost gives = { λ _ done moment _. is_some moment ≡ not done };

    /// The next millisecond, after a sleep of one; `None` once all workers have ended.
    fn next(&mut self, done: bool) -> Option<u64> {
        if done {
            return None;
        }
        thread::sleep(&self.rt, Duration::from_millis(1));
        self.moment = self.moment.wrapping_add(1);
        Some(self.moment)
    }
}

/// What came of two sessions and the keeper.
#[derive(Clone, Copy, Debug, PartialEq, Eq)]
struct Came {
    ends: usize,
    /// How many of the ends have the reason `Closed`.
    closed: usize,
    receipts: usize,
    entries: usize,
    /// How many events the settled core has; `None` where it can't be settled.
    settled: Option<u64>,
    /// Whether a wait ran out.
    late: bool,
    /// Whether the trail's requests are those that session 2 sent, and then that of session 1.
    told: bool,
    /// Whether each session was answered what is due, byte for byte.
    answered: bool,
}

/// What both sessions are answered, as it was written to each.
#[derive(Drop)]
struct Written {
    one: Shared<Mutex<Vec<u8>>>,
    two: Shared<Mutex<Vec<u8>>>,
}

impl Written {
    /// Bytes for both sessions, to which nothing was written yet.
    fn new(alloc: Global) -> Result<Written, Fail> {
        Ok(Written {
            one: nothing(alloc)?,
            two: nothing(alloc)?,
        })
    }

    /// Whether session 1 was told of the topic, and session 2 that its record was produced at offset 0, and what it fetched.
    fn is_due<R: Wait>(&self, rt: &R, alloc: Global) -> Result<bool, Fail> {
        let one = [HANDSHAKE_TOLD, LOGIN_TOLD, METADATA_TOLD];
        let two = [HANDSHAKE_TOLD, LOGIN_TOLD, PRODUCE_TOLD, FETCH_TOLD];
        Ok(
            are(rt, &self.one, &bytes_of(alloc, &one)?)
                && are(rt, &self.two, &bytes_of(alloc, &two)?),
        )
    }
}

/// Shared bytes, to which nothing was written yet.
fn nothing(alloc: Global) -> Result<Shared<Mutex<Vec<u8>>>, Fail> {
    Ok(
        Shared::new(alloc, Mutex::new(Vec::new(alloc)))
            .ok()
            .ok_or("answers")?,
    )
}

/// Whether these bytes were written, and no others.
fn are<R: Wait>(rt: &R, written: &Shared<Mutex<Vec<u8>>>, due: &[u8]) -> bool {
    written.value().lock(rt).as_slice() == due
}

/// A session's input of these frames; `holds` says that its first read is held.
fn talk_of<R: Wait + time::Clock + Copy>(
    rt: R,
    alloc: Global,
    frames: &[&str],
    flags: &Shared<Flags>,
    holds: bool,
) -> Result<Talk<R>, Fail> {
    Ok(Talk {
        rt,
        flags: flags.share()?,
        holds,
        bytes: Cursor::new(bytes_of(alloc, frames)?),
    })
}

/// The job of a session of a peer at 10.0.0.5, for a worker to serve; what is written to it goes to `written`.
fn job_of<R: Wait + time::Clock + Copy>(
    rt: R,
    alloc: Global,
    session: u64,
    reader: Talk<R>,
    written: &Shared<Mutex<Vec<u8>>>,
    users: &Shared<Users>,
) -> Result<Job<Talk<R>, Answers<R>>, Fail> {
    Ok(Job {
        session,
        reader,
        writer: Answers {
            rt,
            bytes: written.share()?,
        },
        peer: None,
        host: Text::of(alloc, "10.0.0.5")?,
        users: users.share()?,
        limits: Limits::default(),
        times: Times {
            idle: None,
            first: Duration::from_secs(60),
            login: Duration::from_secs(60),
            frame: Duration::from_secs(60),
        },
        taken: None,
    })
}

/// Sends the jobs of both sessions to the workers: session 1, held at `place`, asks for all topics, and session 2 produces a
/// record and fetches it.
fn send_both<R: Wait + time::Clock + Copy>(
    rt: R,
    alloc: Global,
    to: &Sender<Job<Talk<R>, Answers<R>>>,
    flags: &Shared<Flags>,
    written: &Written,
    place: Place,
) -> Result<(), Fail> {
    let users = Shared::new(alloc, users(alloc)?).ok().ok_or("users")?;
    let holds = place == Place::Read;
    let one = talk_of(rt, alloc, &[HANDSHAKE, LOGIN, METADATA], flags, holds)?;
    let two = talk_of(rt, alloc, &[HANDSHAKE, LOGIN, PRODUCE, FETCH], flags, false)?;
    let one = job_of(rt, alloc, 1, one, &written.one, &users)?;
    let two = job_of(rt, alloc, 2, two, &written.two, &users)?;
    to.send(&rt, one).ok().ok_or("send")?;
    to.send(&rt, two).ok().ok_or("send")?;
    Ok(())
}

/// Serves both sessions at a desk by so many workers, and returns their ends and the keeper's.
fn serve_both<L: DeskLedger + Send + Sync, R: Threads + Wait + time::Clock + Copy + Send + Sync>(
    rt: R,
    alloc: Global,
    desk: &LockedDesk<L, R>,
    flags: &Shared<Flags>,
    written: &Written,
    place: Place,
    workers: usize,
) -> Result<Vec<SessionEnd<Seat<L>>>, Fail> {
    let gate = Hold {
        rt,
        flags: flags.share()?,
        place,
        last: 3,
    };
    let (to, from) = crossbeam_channel::unbounded(alloc)?;
    send_both(rt, alloc, &to, flags, written, place)?;
    drop(to);
    let reading = ShutdownFlag::new();
    let server = ServerContext {
        options: SessionOptions {
            listed: ListedVersions::AsServed,
            per_user: None,
            rate: Rate::ANY,
        },
        desk,
        gate: &gate,
        doorman: &(),
        reading: &reading,
    };
    let steps = Clocked::new(Ticks { rt, moment: 0 });
    match serve_all(&rt, alloc, &server, from, workers, steps) {
        Ok(ended) => Ok(ended.ends),
        Err(_) => Err(Fail::from("served")),
    }
}

/// Whether a request is that of this frame, and its caller is ann.
fn is_told(alloc: Global, caller: &Caller, request: &Request, frame: &str) -> bool {
    match event_of(alloc, frame) {
        Some(Event::Ask { request: sent, .. }) => {
            caller.who.as_str() == "User:ann" && *request == sent
        }
        _ => false,
    }
}

/// Whether the requests in a trail are those of these frames of ann, in this order.
fn are_told(alloc: Global, trail: &Trail, frames: &[&str]) -> bool {
    let mut found = 0usize;
    for place in 0..trail.len() {
        let Some(entry) = trail.entry(place) else {
            return false;
        };
        if let Event::Ask {
            caller,
            request,
            ..
        } = entry.event.value()
        {
            match frames.get(found) {
                Some(frame) if is_told(alloc, caller.value(), request, *frame) => {
                    found = found.wrapping_add(1);
                }
                _ => return false,
            }
        }
    }
    found == frames.len()
}

/// How many of these ends have the reason `Closed`.
fn closed_in<L: Ledger>(ends: &[SessionEnd<Seat<L>>]) -> usize {
    let mut closed = 0usize;
    for end in ends {
        closed = closed.wrapping_add(usize::from(end.why == EndReason::Closed));
    }
    closed
}

/// The receipts of each end, in the order of the ends, and how many receipts there are in all.
fn receipts_of<L: Ledger>(
    alloc: Global,
    ends: Vec<SessionEnd<Seat<L>>>,
) -> Result<(Vec<Vec<Receipt>>, usize), Fail> {
    let mut receipts = Vec::new(alloc);
    let mut count = 0usize;
    for end in ends {
        count = count.wrapping_add(end.receipts.len());
        receipts.push(end.receipts)?;
    }
    Ok((receipts, count))
}

/// What came of the sessions at a desk: how they ended, what they were answered, and whether the books settle.
fn came_of<L: Ledger>(
    alloc: Global,
    quiet: &Quiet<L>,
    ends: Vec<SessionEnd<Seat<L>>>,
    late: bool,
    answered: bool,
) -> Result<Came, Fail> {
    let closed = closed_in(ends.as_slice());
    let (receipts, count) = receipts_of(alloc, ends)?;
    let settled = match settle(alloc, quiet, receipts.as_slice()) {
        Ok(settled) => Some(settled.events),
        Err(_) => None,
    };
    let trail = quiet.core().trail();
    Ok(Came {
        ends: receipts.len(),
        closed,
        receipts: count,
        entries: trail.len(),
        settled,
        late,
        told: are_told(alloc, trail, &[PRODUCE, FETCH, METADATA]),
        answered,
    })
}

/// Serves both sessions at a desk with the blank's seats, session 1 held at `place`, and returns what came of them.
fn run_at<L: DeskLedger + Send + Sync, R: Threads + Wait + time::Clock + Copy + Send + Sync>(
    rt: R,
    alloc: Global,
    core: Core,
    blank: Blank,
    place: Place,
    workers: usize,
) -> Result<Came, Fail>
    requires settings { core.settings ≡ L.settings }
    requires empty { core.trail ≡ [] }
    requires ledger { (blank.name ≡ L.name) × (blank.parts ≡ L.parts)
        × (blank.parts ≡ most_seats + 1) }
{
    let flags = Shared::new(alloc, Flags::new()).ok().ok_or("flags")?;
    let desk: LockedDesk<L, R> = LockedDesk::new(core, blank, rt);
    let written = Written::new(alloc)?;
    let ends = serve_both(rt, alloc, &desk, &flags, &written, place, workers)?;
    let late = flags.value().late.load(Ordering::SeqCst) != 0;
    let answered = written.is_due(&rt, alloc)?;
    came_of(alloc, &desk.close(), ends, late, answered)
}

/// As `run_at`, at a desk of its own.
fn run<R: Threads + Wait + time::Clock + Copy + Send + Sync>(
    rt: R,
    alloc: Global,
    place: Place,
    workers: usize,
) -> Result<Came, Fail> {
    let core = core(alloc).ok_or("core")?;
    run_at::<Brand, R>(rt, alloc, core, Blank::new(MOST_SEATS + 1), place, workers)
}

/// While session 1 is held before its first frame or in its first read, session 2 logs in, produces a record and fetches it.
#[test]
fn a_session_goes_on_while_another_is_held(rt: HostRuntime) -> Result<(), Fail> {
    for place in [Place::Frame, Place::Read] {
        let came = run(rt, rt.alloc(), place, 2)?;
        assert!(rt; !came.late && came.told, "{place:?}");
        assert!(rt; came.answered, "{place:?}");
        assert!(rt; came.ends == 3 && came.closed == 3, "{place:?}");
        assert!(rt; came.receipts == came.entries, "{place:?}");
        assert!(rt; came.settled == Some(came.entries as u64), "{place:?}");
    }
    Ok(())
}
