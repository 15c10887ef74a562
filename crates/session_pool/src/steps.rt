//! Who says what the keeper does next.

ghost use Rattle.std.specs.Prelude.{◌≡◌, ℕ, Bool, true, Option, Result};
ghost use Rattle.session_pool.specs.declared.end_reason.EndReason.{EndReason};
ghost use Rattle.session_pool.specs.declared.steps.Step.{Step};
ghost use Rattle.session_pool.specs.Steps.{goes_on, GivenByClock, told_by_clock};

use crate::end_reason::EndReason;
use request_handlers::Core;

/// What the keeper does next.
#[derive(Clone, Copy, Debug, PartialEq, Eq)]
pub enum Step {
    /// It tells the core a moment, in milliseconds.
    Tick(u64),
    /// It has the core write the first marker that is pending.
    Mark,
}

/// Gives the keeper its steps, one after the other, and sees the core before and after each.
pub trait Steps {
    /// What the steps go by.
    ghost State: { Type 0 };

    /// What these steps go by now.
    ghost state: { Self → State };

    /// That steps in the first state, told whether all workers have ended, give this one, or none, and are then in the second
    /// state.
    ghost gives: { State → Bool → Option Step → State → Type 0 };

    /// The state once the keeper was told how many markers a step left pending, or why it wasn't taken.
    ghost told: { State → Result ℕ EndReason → State };

    /// Whether the keeper ends where a step isn't taken.
    ghost halts: { Bool };

    /// The next step; after `None` the keeper ends. `done` says that all workers have ended.
    fn next(&mut self, done: bool) -> Option<Step>
        ensures { gives (state self.old) done result (state self.new) };

    /// Sees the core before the step. It is locked until `after` has returned, so nothing comes between.
    fn before(&mut self, core: &Core)
        ensures { state self.new ≡ state self.old };

    /// Sees the core after the step, whether it was taken or not.
    fn after(&mut self, core: &Core)
        ensures { state self.new ≡ state self.old };

    /// Is told what came of the step: how many markers are still to be written, or why it wasn't taken. Gives whether the keeper
    /// goes on.
    fn on_result(&mut self, outcome: Result<u64, EndReason>) -> bool
        ensures told { state self.new ≡ told (state self.old) outcome }
        ensures goes_on { result ≡ goes_on halts outcome };
}

/// Gives the moments at which the core is told the time, in milliseconds.
pub trait Clock {
    /// That a clock of the first state, told whether all workers have ended, gives this and leaves the second state.
    ghost gives: { Self → Bool → Option ℕ → Self → Type 0 };

    /// The next moment, in milliseconds; after `None` no further one comes. `done` says that all workers have ended. It may wait
    /// until the moment has come.
    fn next(&mut self, done: bool) -> Option<u64>
        ensures { gives self.old done result self.new };
}

/// Steps by a clock: a tick for each of its moments, and marks after each as long as markers are pending. The keeper ends where
/// the clock gives no moment, or the core doesn't take a step.
#[derive(Drop)]
pub struct Clocked<C: Clock> {
    clock: C,
    /// How many markers are pending.
    left: u64,
}

impl<C: Clock> Clocked<C> {
    /// Steps by this clock, before its first moment, as if no marker were pending.
    pub fn new(clock: C) -> Clocked<C>
        ensures { (result.clock ≡ clock) × (result.left ≡ 0) }
    {
        Clocked { clock, left: 0 }
    }
}

impl<C: Clock> Steps for Clocked<C> {
    ghost State = { C × ℕ };

    ghost state = { λ steps. (steps.clock, steps.left) };

    ghost gives = { GivenByClock C.gives };

    ghost told = { told_by_clock };

    ghost halts = { true };

    /// A mark as long as markers are to be written; else a tick of the clock's next moment, or `None` where it has none.
    #[tactic(auto, using(crate::proofs::Clocks::marks, crate::proofs::Clocks::ticks))]
    fn next(&mut self, done: bool) -> Option<Step> {
        if self.left > 0 {
            return Some(Step::Mark);
        }
        match self.clock.next(done) {
            Some(moment) => Some(Step::Tick(moment)),
            None => None,
        }
    }

    /// A clock looks at no core.
    fn before(&mut self, _core: &Core) {}

    /// A clock looks at no core.
    fn after(&mut self, _core: &Core) {}

    /// Remembers how many markers are still to be written. The keeper ends where the step wasn't taken.
    fn on_result(&mut self, outcome: Result<u64, EndReason>) -> bool {
        match outcome {
            Ok(left) => {
                self.left = left;
                true
            }
            Err(_) => false,
        }
    }
}
