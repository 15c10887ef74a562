//! Connections that become jobs.

use crate::connections::ConnectionOptions;
use crate::guest::{Counted, Entered, Guest, OpenConnections, Requests};
use crate::job::Job;
use admission::{Doorman, Quota, host_of, network_of};
use crossbeam_channel::Sender;
use deadlines::Times;
use session_pool::{Limits, ShutdownFlag, Users};
use std::alloc::{AllocError, Global};
use std::io::ErrorKind;
use std::net::{Shutdown, SocketAddr, TcpListener, TcpStream};
use std::sync::{Mutex, Wait};
use std::time::{Duration, Instant};
use std::{io, thread, time};
use wire_types::{Shared, Text};

/// A session over a connection.
pub(crate) type Connection<'x, R> = Job<Requests<'x>, Guest<'x, R>>;

/// In milliseconds: how long the accepting thread waits before it asks a listener again that had no connection to give, or
/// couldn't give it, and before it looks again whether the workers' queue has room, or a connection is open.
const TURN: u64 = 10;

/// For how many seconds after the doorman was told that a connection is turned away it isn't told of another one.
const QUIET: u64 = 1;

/// How long something goes on: from the moment `since` on, for `time`, if there is an end to it, and until `closing` is closed,
/// if there is such a flag.
#[derive(Clone, Copy)]
struct Term<'x> {
    since: Instant,
    time: Option<Duration>,
    closing: Option<&'x ShutdownFlag>,
}

impl<'x> Term<'x> {
    /// A term that begins now. The error is the clock's, where it can't be read.
    fn begin<R: time::Clock>(
        rt: &R,
        time: Option<Duration>,
        closing: Option<&'x ShutdownFlag>,
    ) -> io::Result<Term<'x>> {
        let since = Instant::now(rt)?;
        Ok(Term {
            since,
            time,
            closing,
        })
    }

    /// Whether the term is over: its time has passed, or someone has closed. Where the clock can't be read, the time has passed.
    fn is_over<R: time::Clock>(&self, rt: &R) -> bool {
        if let Some(closing) = self.closing {
            if closing.is_closed() {
                return true;
            }
        }
        match (self.time, self.since.elapsed(rt)) {
            (None, _) => false,
            (Some(time), Ok(passed)) => time <= passed,
            (Some(_), Err(_)) => true,
        }
    }
}

/// Sleeps for 10 milliseconds.
fn rest<R: time::Clock>(rt: &R) {
    thread::sleep(rt, Duration::from_millis(TURN));
}

/// Waits for a connection, and gives it, or why it couldn't be accepted. `None` once the term is over: no more are taken. With a
/// term the listener must not block; without one this waits in the listener.
fn next_connection<R: Wait + time::Clock>(
    rt: &R,
    listener: &TcpListener,
    opening: Option<Term<'_>>,
) -> Option<io::Result<(TcpStream, SocketAddr)>> {
    let Some(opening) = opening else {
        return Some(listener.accept());
    };
    for _ in rt.forever() {
        if opening.is_over(rt) {
            break;
        }
        match listener.accept() {
            Err(error) if error.kind() == ErrorKind::WouldBlock => rest(rt),
            taken => return Some(taken),
        }
    }
    None
}

/// What an accepted connection comes to.
#[derive(Drop)]
enum Taken<'x, R: Wait> {
    /// A session over it.
    Session(Connection<'x, R>),
    /// It was closed, since this host has as many as it may.
    TurnedAway(Text),
}

/// What the doorman was told.
#[derive(Clone, Copy)]
struct Told {
    /// Whether the last connection couldn't be accepted.
    failed: bool,
    /// When the doorman was last told that a connection was turned away.
    turned_away: Option<Instant>,
}

/// By what connections are let in, and who is told of those that wait or aren't served.
#[derive(Drop)]
pub(crate) struct Door<'x, R, D> {
    pub(crate) rt: &'x R,
    pub(crate) alloc: Global,
    pub(crate) users: &'x Shared<Users>,
    pub(crate) options: ConnectionOptions,
    /// The hosts of the connections that are served or wait. Where a host may have any number, they aren't counted.
    pub(crate) hosts: &'x Mutex<Quota>,
    pub(crate) open: &'x OpenConnections,
    /// Is set once no further request is read.
    pub(crate) reading: &'x ShutdownFlag,
    pub(crate) doorman: &'x D,
}

impl<'x, R: Wait + time::Clock, D: Doorman> Door<'x, R, D> {
    /// The session over an accepted connection, for a worker to serve; sets TCP_NODELAY. The connection is among the open ones
    /// until the job is dropped. The error is the socket's, or an allocation failure.
    fn job_of(
        &self,
        session: u64,
        stream: TcpStream,
        host: Text,
        counted: Option<Counted<'x, R>>,
    ) -> io::Result<Connection<'x, R>> {
        stream.set_nodelay(true)?;
        let stream = Shared::new(self.alloc, stream).map_err(|_| AllocError)?;
        let entered = Entered::enter(self.rt, self.open, session, &stream)?;
        let peer = stream.share()?;
        Ok(Job {
            session,
            reader: Requests {
                stream: stream.share()?,
                reading: self.reading,
            },
            writer: Guest {
                stream,
                entered,
                counted,
            },
            peer: Some(peer),
            host,
            users: self.users.share()?,
            limits: Limits::default(),
            taken: Instant::now(self.rt).ok(),
            times: Times {
                idle: self.options.idle,
                first: self.options.login_within,
                login: self.options.login_within,
                frame: self.options.frame_within,
            },
        })
    }

    /// Makes a session of an accepted connection, unless its host has as many as it may: then it is turned away. The host is the
    /// peer's address (`host_of`), and of IPv6 all addresses of a network count as one (`network_of`). The error says why the
    /// connection couldn't be accepted, or its session not be made.
    fn take(
        &self,
        session: u64,
        taken: io::Result<(TcpStream, SocketAddr)>,
    ) -> io::Result<Taken<'x, R>> {
        let (stream, peer) = taken?;
        let host = host_of(self.alloc, peer.ip())?;
        let counted = match self.options.per_host {
            None => None,
            Some(_) => {
                let network = network_of(self.alloc, peer.ip())?;
                match Counted::enter(self.rt, self.alloc, self.hosts, &network)? {
                    Some(counted) => Some(counted),
                    None => return Ok(Taken::TurnedAway(host)),
                }
            }
        };
        Ok(Taken::Session(self.job_of(session, stream, host, counted)?))
    }

    /// Whether `session` connections are as many as are served in all; never where they are served without end.
    fn is_used_up(&self, session: u64) -> bool {
        !self.options.endless && session >= self.options.connections
    }

    /// Whether the doorman was told less than a second ago that a connection was turned away, or the clock can't tell.
    fn is_just_told(&self, told: &Told) -> bool {
        match told.turned_away {
            Some(moment) => match moment.elapsed(self.rt) {
                Ok(passed) => passed < Duration::from_secs(QUIET),
                Err(_) => true,
            },
            None => false,
        }
    }

    /// Tells the doorman of a connection that isn't served, and notes that in `told`: the first in a row of those that can't be
    /// accepted, and one a second of those that are turned away.
    fn tell(&self, taken: &io::Result<Taken<'x, R>>, told: &mut Told) {
        match taken {
            Ok(Taken::Session(_)) => {}
            Ok(Taken::TurnedAway(host)) => {
                if !self.is_just_told(told) {
                    self.doorman.turned_away(host);
                    told.turned_away = Instant::now(self.rt).ok();
                }
            }
            Err(error) => {
                if !told.failed {
                    self.doorman.failed(error);
                }
            }
        }
        told.failed = taken.is_err();
    }

    /// Whether connections that wait for a worker are given up: there is a grace, and the term is over.
    fn is_over(&self, opening: Option<Term<'_>>) -> bool {
        match (self.options.grace, opening) {
            (Some(_), Some(opening)) => opening.is_over(self.rt),
            _ => false,
        }
    }

    /// Hands a job to the workers, once their queue has room for it. Gives whether it did; else, where there are no workers, or
    /// the term is over and there is a grace, the job is dropped, which closes its connection.
    fn hand_in(
        &self,
        opening: Option<Term<'_>>,
        jobs: &Sender<Connection<'x, R>>,
        job: Connection<'x, R>,
    ) -> bool {
        let mut job = job;
        for _ in self.rt.forever() {
            let Err(refused) = jobs.send_timeout(self.rt, job, Duration::from_millis(TURN)) else {
                return true;
            };
            if !refused.is_timeout() || self.is_over(opening) {
                return false;
            }
            job = refused.into_inner();
        }
        unreachable!()
    }

    /// Accepts connections and hands each to the workers, until as many were taken as are served in all, the term is over, or
    /// there are no workers; then closes the workers' queue. A connection that can't be accepted counts as taken, one that is
    /// turned away doesn't.
    fn accept_until(
        &self,
        listener: &TcpListener,
        opening: Option<Term<'_>>,
        jobs: Sender<Connection<'x, R>>,
    ) {
        let mut session: u64 = 0;
        let mut told = Told {
            failed: false,
            turned_away: None,
        };
        for _ in self.rt.forever() {
            if self.is_used_up(session) {
                self.doorman.used_up(session);
                break;
            }
            let Some(taken) = next_connection(self.rt, listener, opening) else {
                break;
            };
            let taken = self.take(session, taken);
            self.tell(&taken, &mut told);
            match taken {
                Ok(Taken::Session(job)) => {
                    self.doorman.taken(self.options.workers);
                    if !self.hand_in(opening, &jobs, job) {
                        break;
                    }
                }
                Ok(Taken::TurnedAway(_host)) => continue,
                Err(_error) => rest(self.rt),
            }
            session = session.wrapping_add(1);
        }
    }

    /// Waits until no connection is open any more, or the term is over; looks every 10 milliseconds.
    fn wait_out(&self, term: Term<'_>) {
        for _ in self.rt.forever() {
            if self.open.is_empty(self.rt) || term.is_over(self.rt) {
                break;
            }
            rest(self.rt);
        }
    }

    /// Tells the doorman of each connection that is still open after the grace; of none, where an allocation fails for that.
    fn tell_closed(&self, grace: Duration) {
        if let Ok(sessions) = self.open.sessions(self.rt, self.alloc) {
            for session in sessions {
                self.doorman.closed(session, grace);
            }
        }
    }

    /// Sees the open connections out. They are served until the term is over; then no further request is read, and those that are
    /// still open after the grace are closed. Returns once none is open, or they are closed.
    fn see_out(&self, opening: Term<'_>, grace: Duration) {
        self.wait_out(opening);
        self.reading.close();
        self.open.shut_down(self.rt, Shutdown::Read);
        if let Ok(term) = Term::begin(self.rt, Some(grace), None) {
            self.wait_out(term);
        }
        self.tell_closed(grace);
        self.open.shut_down(self.rt, Shutdown::Both);
    }

    /// Accepts a listener's connections and hands each to the workers, until as many were taken as are served in all, the
    /// options' time `open` has passed, `closing` is set, or there are no workers. Then those that are open are seen out
    /// (`see_out`), where there is a grace, and `open` or `closing` is given; else they are served to their end. With `open` or
    /// `closing` none is accepted where the listener can't be made not to block, or the clock not be read.
    pub(crate) fn accept_all(
        &self,
        listener: &TcpListener,
        closing: Option<&ShutdownFlag>,
        jobs: Sender<Connection<'x, R>>,
    ) {
        let open = self.options.open;
        if open.is_none() && closing.is_none() {
            return self.accept_until(listener, None, jobs);
        }
        // From here on the listener doesn't wait for a connection.
        if listener.set_nonblocking(true).is_err() {
            return;
        }
        let Ok(opening) = Term::begin(self.rt, open, closing) else {
            return;
        };
        self.accept_until(listener, Some(opening), jobs);
        if let Some(grace) = self.options.grace {
            self.see_out(opening, grace);
        }
    }
}
