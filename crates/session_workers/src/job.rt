//! A session that is to be served.

ghost use Rattle.std.specs.Prelude.{◌≤◌};
ghost use Rattle.msg_admin.specs.declared.request.TheConstants.{FRAME_LIMIT as LIMIT};

use crate::pacing::Pacing;
use crate::sessions::{Done, Unused};
use crate::times::Noting;
use deadlines::{Notes, Timed, TimedWriter, Times};
use session_pool::{
    DeskLedger, Gate, Limits, ListedVersions, LockedDesk, LoginContext, SessionContext, Users,
    serve_session,
};
use std::alloc::Global;
use std::io::{Read, Write};
use std::net::{OpenStream, TcpStream};
use std::sync::Wait;
use std::time;
use std::time::{Duration, Instant};
use wire_types::{Shared, Text};

/// A session that is to be served: its number, what it reads and writes, the peer's host, who may log in, its limits, and the
/// times that the peer has from when a worker takes the session.
#[derive(Drop)]
pub struct Job<Rd, Wr> {
    pub session: u64,
    pub reader: Rd,
    pub writer: Wr,
    /// Its connection, if it has one: by it is seen whether the peer of a session that is made to wait is still there.
    pub peer: Option<Shared<TcpStream>>,
    pub host: Text,
    pub users: Shared<Users>,
    pub limits: Limits,
    pub times: Times,
    /// When its connection was accepted; `None` where the clock couldn't be read. The wait for a worker since then is taken off
    /// the times for a first frame and for a login (`Times::after`).
    pub taken: Option<Instant>,
    pub ghost within: { limits.frame ≤ LIMIT },
}

/// How long ago this moment is, at which a connection was accepted; zero where that can't be told.
pub(crate) fn waited<T: time::Clock>(rt: &T, taken: Option<Instant>) -> Duration {
    let Some(taken) = taken else {
        return Duration::ZERO;
    };
    taken.elapsed(rt).unwrap_or(Duration::ZERO)
}

/// What all workers share: how versions are listed before a login, the desk, the gate and the doorman, what holds users to
/// how fast they may ask and how many sessions they may have.
#[derive(Drop)]
pub(crate) struct WorkerContext<'x, 'r, L: DeskLedger, R: Wait, G, D, T> {
    pub(crate) rt: &'x T,
    pub(crate) alloc: Global,
    pub(crate) listed: ListedVersions,
    pub(crate) desk: &'x LockedDesk<L, R>,
    pub(crate) gate: &'x G,
    pub(crate) doorman: &'x D,
    pub(crate) pacing: &'x Pacing<'r, T>,
}

impl<'x, 'r, L: DeskLedger, R: Wait, G: Gate, D, T: Wait + time::Clock> WorkerContext<
    'x,
    'r,
    L,
    R,
    G,
    D,
    T,
> {
    /// Serves a session from its first frame to its last, by a seat that no session has used, and tells the gate why it ended.
    pub(crate) fn serve<Rd: Read + OpenStream + Drop, Wr: Write + OpenStream + Drop>(
        &self,
        seat: Unused<L>,
        job: Job<Rd, Wr>,
    ) -> Done<L> {
        let Unused { seat } = seat;
        let Job {
            session,
            reader,
            writer,
            peer,
            host,
            users,
            limits,
            times,
            taken,
        } = job;
        let left = times.after(waited(self.rt, taken));
        let notes = Notes::new();
        let reader = Timed::new(self.rt, reader, left, &notes);
        let mut writer = TimedWriter::new(self.rt, writer, left, &notes);
        let noting = Noting::new(self.gate, &notes, self.pacing, peer);
        let context = SessionContext {
            session,
            login: LoginContext {
                host: &host,
                users: users.value(),
                listed: self.listed,
            },
            limits,
            desk: self.desk,
            gate: &noting,
        };
        let end = serve_session(self.alloc, &context, reader, &mut writer, seat);
        noting.tell_end(self.alloc, session, &host, times, &end);
        Done { end }
    }
}
