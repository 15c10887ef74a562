//! The steps of the clock, after each of which an operator reads what is new.

ghost use Rattle.std.specs.Prelude.{◌≡◌, ℕ, true, not, is_some};
ghost use Rattle.session_pool.specs.Steps.{GivenByClock, told_by_clock};

use crate::ticks::Ticks;
use crate::watch::Watch;
use request_handlers::Core;
use session_pool::{Clocked, DeskLedger, EndReason, Step, Steps};
use std::sync::Wait;
use std::time;

/// Gives the keeper its steps by the clock. After each it logs for an operator what is new in the trail, and, where the step
/// wasn't taken, that the clock stops; at ticks it warns that connections wait for a worker. It waits for nobody who reads the
/// log: what the full queue doesn't take is dropped.
#[derive(Drop)]
pub struct Timekeeper<'d, 'r, L: DeskLedger, R: Wait + time::Clock> {
    clock: Clocked<Ticks<'d, 'r, L, R>>,
    watch: Watch<'d, 'r, L, R>,
}

impl<'d, 'r, L: DeskLedger, R: Wait + time::Clock> Timekeeper<'d, 'r, L, R> {
    /// Keeps time by this clock, and logs by this watch.
    pub fn new(clock: Ticks<'d, 'r, L, R>, watch: Watch<'d, 'r, L, R>) -> Timekeeper<'d, 'r, L, R> {
        Timekeeper {
            clock: Clocked::new(clock),
            watch,
        }
    }
}

impl<'d, 'r, L: DeskLedger, R: Wait + time::Clock> Steps for Timekeeper<'d, 'r, L, R> {
    ghost State = { Unit {0} × ℕ };

    ghost state = { λ keeper. (tt, keeper.clock.left) };

    ghost gives = { GivenByClock (λ _ done moment _. is_some moment ≡ not done) };

    ghost told = { told_by_clock };

    ghost halts = { true };

    /// The clock's next step; `None` where all workers have ended (`done`) and no marker is known to be pending, and before that
    /// the last refusals are logged. At ticks it looks whether connections wait.
    #[tactic(auto, using(crate::proofs::Clocks::given_until_done))]
    fn next(&mut self, done: bool) -> Option<Step> {
        if done {
            self.watch.look();
        }
        let step = self.clock.next(done);
        if let Some(Step::Tick(_)) = step {
            self.watch.count_waiting();
        }
        step
    }

    /// Does nothing: what is new is looked for after the step.
    fn before(&mut self, _core: &Core) {}

    /// Takes what is new in the trail, while the core is locked.
    fn after(&mut self, core: &Core) {
        self.watch.note(core);
    }

    /// Logs what was taken, and warns that the clock stops, where the step wasn't taken. Gives whether the clock goes on.
    #[tactic(auto, using(crate::proofs::Clocks::told_left))]
    fn on_result(&mut self, outcome: Result<u64, EndReason>) -> bool {
        self.watch.tell();
        if let Err(why) = outcome {
            self.watch.stop(why);
        }
        self.clock.on_result(outcome)
    }
}
