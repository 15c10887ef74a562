//! The times of a session, and what they leave.

ghost use Rattle.std.specs.Prelude.{◌≡◌, ◌*◌, IfSome, IfNone, None, Some, option_map};
ghost use Rattle.std.specs.Duration.{as_nanos};
ghost use Rattle.deadlines.specs.declared.limits.Limit.{Limit};
ghost use Rattle.deadlines.specs.declared.limits.Times.{Times};
ghost use Rattle.deadlines.specs.Limits.{IsBound, IsLeast, IsLesser, nanos_left, nanos_left_by, login_time, time_after};

use std::time::Duration;

/// Which of a peer's times a wait is bound by.
#[derive(Clone, Copy, Debug, PartialEq, Eq)]
pub enum Limit {
    /// One wait for the peer, in a read or a write.
    Idle,
    /// The login, from the session's beginning until its user is known; before a first whole frame the time `Times::first`.
    Login,
    /// A frame, from its first byte to its last.
    Frame,
}

/// How long a peer may take.
#[derive(Clone, Copy, Debug, PartialEq, Eq)]
pub struct Times {
    /// For one wait; `None` for any time.
    pub idle: Option<Duration>,
    /// From the session's beginning until a first frame is whole.
    pub first: Duration,
    /// From the session's beginning until its user is known, where a frame has come.
    pub login: Duration,
    /// For each frame, from its first byte to its last.
    pub frame: Duration,
}

/// For how long a read or a write may wait at most, and by which limit.
#[derive(Clone, Copy, Debug, PartialEq, Eq)]
pub(crate) struct Bound {
    pub(crate) time: Duration,
    pub(crate) by: Limit,
}

/// What is left at `now` of a time that began at `since`, both counted from the session's beginning: nothing once it is over, or
/// where `now` is `None`, since the clock can't be read.
fn left(time: Duration, since: Duration, now: Option<Duration>) -> Duration
    ensures { as_nanos result ≡ nanos_left time (as_nanos since) now }
{
    match now {
        None => Duration::ZERO,
        Some(now) => time.saturating_sub(now.saturating_sub(since)),
    }
}

/// The bound that leaves less time, `one` where they are equal; `None` only where neither holds.
fn lesser(one: Option<Bound>, other: Option<Bound>) -> Option<Bound>
    ensures { IsLesser one other result }
{
    match (one, other) {
        (Some(first), Some(second)) if second.time < first.time => other,
        (None, _) => other,
        _ => one,
    }
}

/// The bound of a limit by which `time` is left; never `None`.
fn bound_by(by: Limit, time: Duration) -> Option<Bound>
    ensures { IsBound by (Some (as_nanos time)) result }
{
    Some(Bound { time, by })
}

/// The least time that a wait in line leaves for a first frame, in milliseconds: whoever has something to say has said it by
/// then.
const LEAST_FIRST: u64 = 250;

/// The least time that a wait in line leaves for a login, in milliseconds: three requests, each sent once the answer before it
/// has come, over a way of a tenth of a second there and back.
const LEAST_LOGIN: u64 = 400;

/// What a wait of so long leaves of a time: the rest of it, but at least so many milliseconds, or all of it where it has less.
fn time_after(least: u64, time: Duration, waited: Duration) -> Duration
    ensures { as_nanos result ≡ time_after (least * 1000000) (as_nanos time) (as_nanos waited) }
{
    let least = Duration::from_millis(least);
    let rest = time.saturating_sub(waited);
    if least <= rest {
        rest
    } else if time < least {
        time
    } else {
        least
    }
}

impl Times {
    /// These times for a peer whose connection waited so long for a free worker. The wait is taken off `first`, which keeps at
    /// least 250 ms, and off `login`, which keeps at least 400 ms, or all that they had where it was less. So whoever waits for a
    /// worker after many peers that say nothing, or no more than their first frame, needn't wait for each of them as long as for
    /// the first.
    pub fn after(self, waited: Duration) -> Times
        ensures first { as_nanos result.first ≡ time_after 250000000 (as_nanos self.first)
            (as_nanos waited) }
        ensures login { as_nanos result.login ≡ time_after 400000000 (as_nanos self.login)
            (as_nanos waited) }
        ensures others { result ≡ record self { first = result.first; login = result.login } }
    {
        Times {
            first: time_after(LEAST_FIRST, self.first, waited),
            login: time_after(LEAST_LOGIN, self.login, waited),
            ..self
        }
    }

    /// The bound of the idle time; `None` if there is no such time.
    fn idle_bound(&self) -> Option<Bound>
        ensures { IsBound Limit.Idle (option_map as_nanos self.now.idle) result }
    {
        match self.idle {
            None => None,
            Some(time) => bound_by(Limit::Idle, time),
        }
    }

    /// How long a peer may take from the session's beginning until its user is known: `first` as long as no frame has come whole
    /// (`unheard`), then `login`.
    fn login_time(&self, unheard: bool) -> Duration
        ensures { result ≡ login_time self.now unheard }
    {
        if unheard { self.first } else { self.login }
    }

    /// What is left at `now` of the time for the login; `None` once the user is known.
    fn login_bound(&self, known: bool, unheard: bool, now: Option<Duration>) -> Option<Bound>
        ensures { (begun : _)
            → IsBound Limit.Login (nanos_left_by self.now known unheard begun now Limit.Login)
            result }
    {
        if known {
            None
        } else {
            bound_by(
                Limit::Login,
                left(self.login_time(unheard), Duration::ZERO, now),
            )
        }
    }

    /// What is left at `now` of the time for a frame that began at `begun`; `None` where none has begun.
    fn frame_bound(&self, begun: Option<Duration>, now: Option<Duration>) -> Option<Bound>
        ensures { (known unheard : _)
            → IsBound Limit.Frame (nanos_left_by self.now known unheard begun now Limit.Frame)
            result }
    {
        match begun {
            None => None,
            Some(since) => bound_by(Limit::Frame, left(self.frame, since, now)),
        }
    }

    /// How long the next read or write may wait: the least that the idle time, the login's and the frame's leave at `now`, and
    /// which of them that is. `None` where none of them holds.
    pub(crate) fn bound(
        &self,
        known: bool,
        unheard: bool,
        begun: Option<Duration>,
        now: Option<Duration>,
    ) -> Option<Bound>
        ensures some { IfSome result (IsLeast (nanos_left_by self.now known unheard begun now)) }
        ensures none { IfNone result
            ((limit : Limit) → nanos_left_by self.now known unheard begun now limit ≡ None) }
    {
        let least = lesser(self.idle_bound(), self.login_bound(known, unheard, now));
        lesser(least, self.frame_bound(begun, now))
    }
}
