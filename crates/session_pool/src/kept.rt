//! What a desk's lock protects.

ghost use Rattle.std.specs.Prelude.{◌≡◌, ◌+◌, ◌<◌, ◌≤◌, [], length, IfOk, IfErr, IfSome, IfNone, OnOk, OnErr};
ghost use Rattle.request_handlers.specs.Bounds.{EventFits};
ghost use Rattle.request_handlers.specs.Core.{StoppedBy, core_after, receipt_of};
ghost use Rattle.request_handlers.specs.Seats.{fresh_seat, most_seats, seat_after};

use crate::desk::DeskLedger;
use audit_trail::Event;
use request_handlers::{Booked, Core, Receipt, Seat, Stop};
use std::sync::ledger::Blank;

/// A core with seats, whose settings stay those of the desk.
#[derive(Drop)]
pub(crate) struct Kept<L: DeskLedger> {
    pub(crate) booked: Booked<L>,
    pub(crate) ghost same: { booked.core.settings ≡ L.settings },
}

impl<L: DeskLedger> Kept<L> {
    /// Keeps a core that has answered nothing, of whose seats none was given. The blank has one part for each seat, and one more.
    pub(crate) fn new(core: Core, blank: Blank) -> Kept<L>
        requires settings { core.settings ≡ L.settings }
        requires empty { core.trail ≡ [] }
        requires ledger { (blank.name ≡ L.name) × (blank.parts ≡ L.parts)
            × (blank.parts ≡ most_seats + 1) }
        ensures { result.booked ≡ record { core = core; given = 0 } }
    {
        Kept {
            booked: Booked::new(core, blank),
        }
    }

    /// A new seat; `None` once 1,048,576 were given.
    pub(crate) fn seat(&mut self) -> Option<Seat<L>>
        ensures some { IfSome result
            (λ seat. (seat ≡ fresh_seat) × (self.old.booked.given < most_seats)
            × (self.new.booked.given ≡ self.old.booked.given + 1)) }
        ensures none { IfNone result (self.old.booked.given ≡ most_seats) }
        ensures core { self.new.booked.core ≡ self.old.booked.core }
    {
        self.booked.seat()
    }

    /// How many markers of ended transactions are still to be written.
    pub(crate) fn owed(&self) -> usize
        ensures { result ≡ length self.now.booked.core.world.coordinator.warrants }
    {
        self.booked.core().world().coordinator.owed()
    }

    /// Hands an event to the core by a seat, and gives its receipt, or the stop where the core doesn't take the event. The seat
    /// comes back either way.
    #[tactic(auto, using(crate::proofs::Stays::settings_stay))]
    pub(crate) fn step(&mut self, seat: Seat<L>, event: Event) -> (Seat<L>, Result<Receipt, Stop>)
        requires { EventFits event }
        ensures receipt { IfOk result.1 (λ r. r ≡ receipt_of self.old.booked.core event) }
        ensures ok { OnOk result.1 (self.new.booked.core ≡ core_after self.old.booked.core event) }
        ensures stop { IfErr result.1
            (λ stop. StoppedBy stop self.old.booked.core event self.new.booked.core) }
        ensures raised { IfOk result.1 (λ r. result.0 ≡ seat_after seat r) }
        ensures kept { OnErr result.1 (result.0 ≡ seat) }
        ensures place { IfOk result.1 (λ r. seat.count ≤ r.place) }
        ensures given { self.new.booked.given ≡ self.old.booked.given }
    {
        self.booked.step(seat, event)
    }
}
