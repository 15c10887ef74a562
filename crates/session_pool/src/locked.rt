//! A core under a lock.

ghost use Rattle.std.specs.Prelude.{◌≡◌, ◌+◌, ◌≤◌, [], true, Some, IfOk, IfSome, IfNone, OnOk, OnErr};
ghost use Rattle.std.specs.Fn.{FnOnceReturnsAt};
ghost use Rattle.request_handlers.specs.Bounds.{EventFits};
ghost use Rattle.request_handlers.specs.Core.{CoreValue, IsHistory};
ghost use Rattle.request_handlers.specs.Seats.{BookedValue, fresh_seat, most_seats};
ghost use Rattle.session_pool.specs.Desks.{IsDeskCore};

use crate::desk::{Desk, DeskLedger};
use crate::kept::Kept;
use crate::steps::Steps;
use audit_trail::Event;
use request_handlers::{Booked, Core, Receipt, Seat, Stop};
use std::marker::Model;
use std::sync::ledger::{Blank, Ledger};
use std::sync::{Mutex, Wait};
use std::thread::Parker;
use std::time::Duration;

/// A core with seats under a lock, and the handle by which callers wait for the lock. The keeper, which has the core's time in
/// hand, can rest at the desk until markers are pending.
#[derive(Drop)]
pub struct LockedDesk<L: DeskLedger, R: Wait> {
    kept: Mutex<Kept<L>>,
    keeper: Parker,
    rt: R,
}

impl<L: DeskLedger, R: Wait> LockedDesk<L, R> {
    /// The desk of a core that has answered nothing. The blank's parts are one for each seat, and one more. Whatever is done
    /// under the lock, the core's settings stay those that the ledger names.
    pub fn new(core: Core, blank: Blank, rt: R) -> LockedDesk<L, R>
        requires settings { core.settings ≡ L.settings }
        requires empty { core.trail ≡ [] }
        requires ledger { (blank.name ≡ L.name) × (blank.parts ≡ L.parts)
            × (blank.parts ≡ most_seats + 1) }
    {
        LockedDesk {
            kept: Mutex::new(Kept::new(core, blank)),
            keeper: Parker::new(),
            rt,
        }
    }

    /// A new seat; `None` once 1,048,576 were given.
    pub fn seat(&self) -> Option<Seat<L>>
        ensures some { IfSome result (λ seat. seat ≡ fresh_seat) }

        // What was found under the lock.
        ensures none { IfNone result
            ((booked : BookedValue) × (booked.core.settings ≡ L.settings) × (booked.given ≡ most_seats)) }
    {
        self.kept.lock(&self.rt).seat()
    }

    /// Looks at the core while it is locked, and gives what was seen. Nothing else happens at the desk meanwhile.
    pub fn look<T, F: FnOnce(&Core) -> T>(&self, look: F) -> T
        requires { F.IsAlwaysCallable look }
        ensures { (core : CoreValue) × IsDeskCore L.settings core × FnOnceReturnsAt F.FnOnce look
            core result }
    {
        let kept = self.kept.lock(&self.rt);
        let core = kept.booked.core();
        let _history = core.trail();
        look(core)
    }

    /// Rests until a step of a session leaves pending markers where there were none before, or `most` is over. A step that did so
    /// since the last rest ends it at once. It may end early.
    pub fn rest<T: Wait>(&self, rt: &T, most: Duration) {
        self.keeper.park_timeout(rt, most);
    }

    /// Ends the keeper's rest where a step left pending markers (`after`) and there were none `before`.
    fn wake(&self, before: usize, after: usize) {
        if before == 0 && after > 0 {
            self.keeper.unpark();
        }
    }

    /// Hands an event to the core, as `submit` does, and shows the core to `steps` before and after it, under the same lock. The
    /// keeper calls this, so its rest isn't ended.
    pub fn submit_seen<K: Steps>(
        &self,
        seat: Seat<L>,
        event: Event,
        steps: &mut K,
    ) -> (Seat<L>, Result<Receipt, Stop>)
        requires { EventFits event }
        ensures event { IfOk result.1 (λ r. r.event ≡ event) }
        ensures count { OnOk result.1 (result.0.count ≡ seat.count + 1) }
        ensures last { IfOk result.1 (λ r. result.0.last ≡ Some r) }
        ensures err { OnErr result.1 (result.0 ≡ seat) }
        ensures place { IfOk result.1 (λ r. seat.count ≤ r.place) }
        ensures state { K.state steps.new ≡ K.state steps.old }
    {
        let mut kept = self.kept.lock(&self.rt);
        steps.before(kept.booked.core());
        let seen = kept.step(seat, event);
        steps.after(kept.booked.core());
        seen
    }
}

impl<L: DeskLedger, R: Wait> Desk<Seat<L>> for LockedDesk<L, R> {
    ghost view = { λ seat. seat };

    ghost may_stop = { λ _ _. true };

    /// Hands an event to the core under the lock. The seat comes back. Where the step leaves pending markers and there were none
    /// before, the keeper's rest ends.
    fn submit(&self, seat: Seat<L>, event: Event) -> (Seat<L>, Result<Receipt, Stop>) {
        let mut kept = self.kept.lock(&self.rt);
        let before = kept.owed();
        let told = kept.step(seat, event);
        let after = kept.owed();
        drop(kept);
        self.wake(before, after);
        told
    }
}

/// A core that no thread shares any more.
#[derive(Drop)]
pub struct Quiet<L: Ledger> {
    booked: Booked<L>,
}

impl<L: Ledger> Model for Quiet<L> {
    ghost use Rattle.request_handlers.specs.Core.{CoreValue};

    ghost Value = { CoreValue };

    ghost view = { λ quiet. quiet.booked.core };
}

impl<L: Ledger> Quiet<L> {
    /// The core, as its last step left it.
    pub fn core(&self) -> &Core
        ensures { result.now ≡ self.now }
    {
        self.booked.core()
    }

    /// The same core, of which its contract says that the trail is the history of the events that it has answered.
    fn told(self) -> Quiet<L>
        ensures same { result ≡ self }
        ensures history { IsHistory result }
    {
        let _history = self.core().trail();
        self
    }
}

impl<L: DeskLedger, R: Wait + Drop> LockedDesk<L, R> {
    /// Takes the core out of its lock, once no thread shares the desk. It has the settings with which the desk was opened, and
    /// its trail is the history of its events.
    pub fn close(self) -> Quiet<L>
        ensures { IsDeskCore L.settings result }
    {
        let LockedDesk { kept, .. } = self;
        let Kept { booked } = kept.into_inner();
        Quiet { booked }.told()
    }
}
