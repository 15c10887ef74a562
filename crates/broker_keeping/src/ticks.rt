//! The keeper's clock.

ghost use Rattle.std.specs.Prelude.{◌≡◌, is_some, not};

use session_pool::{Clock, DeskLedger, LockedDesk};
use std::sync::Wait;
use std::time;
use std::time::{Duration, Instant};

/// How long the clock rests before each moment, in milliseconds, unless it is woken.
const REST: u64 = 100;

/// Gives the milliseconds since its start about ten times a second, until all workers have ended. Where a step of a session
/// leaves pending markers and there were none before, it gives them at once, since the keeper writes pending markers after a
/// tick.
#[derive(Drop)]
pub struct Ticks<'d, 'r, L: DeskLedger, R: Wait + time::Clock> {
    rt: &'r R,
    desk: &'d LockedDesk<L, &'r R>,
    start: Option<Instant>,
}

impl<'d, 'r, L: DeskLedger, R: Wait + time::Clock> Ticks<'d, 'r, L, R> {
    /// A clock that starts at once; it shows 0 for good where the system's clock can't be read.
    pub fn new(rt: &'r R, desk: &'d LockedDesk<L, &'r R>) -> Ticks<'d, 'r, L, R> {
        Ticks {
            rt,
            desk,
            start: Instant::now(rt).ok(),
        }
    }
}

impl<'d, 'r, L: DeskLedger, R: Wait + time::Clock> Clock for Ticks<'d, 'r, L, R> {
    /// A moment until all workers have ended, and none then.
    ghost gives = { λ _ done moment _. is_some moment ≡ not done };

    /// Rests for a tenth of a second, or until a step leaves pending markers, and gives the milliseconds since the start. `None`
    /// at once where all workers have ended.
    fn next(&mut self, done: bool) -> Option<u64> {
        if done {
            return None;
        }
        self.desk.rest(self.rt, Duration::from_millis(REST));
        let passed = self.start.and_then(|start| start.elapsed(self.rt).ok());
        // A clock that can't be read shows no time, and the core's never goes back.
        let passed = passed.unwrap_or(Duration::ZERO);
        Some(u64::try_from(passed.as_millis()).unwrap_or(u64::MAX))
    }
}
