//! Who takes the events of sessions.

ghost use Rattle.std.specs.Prelude.{◌≡◌, ◌+◌, ◌≤◌, Bool, true, IfOk, IfErr, OnOk, OnErr, Some};
ghost use Rattle.settings.specs.declared.settings.Settings.{Settings};
ghost use Rattle.audit_trail.specs.declared.event.Event.{Event};
ghost use Rattle.request_handlers.specs.Bounds.{EventFits};
ghost use Rattle.request_handlers.specs.declared.stop.Stop.{Stop};
ghost use Rattle.request_handlers.specs.Seats.{SeatValue};
ghost use Rattle.session_pool.specs.Desks.{no_settings};

use audit_trail::Event;
use request_handlers::{Receipt, Stop};
use std::marker::Brand;
use std::sync::ledger::Ledger;

/// The ledger of a desk, which names the settings of the core that the desk was opened with.
pub trait DeskLedger: Ledger {
    ghost settings: { Settings };
}

/// Whoever opens a desk picks the settings.
impl DeskLedger for Brand {
    ghost settings = { no_settings };
}

/// Hands events to a core, each by a seat of type `S`, which knows how many were answered by it and the last receipt.
pub trait Desk<S> {
    /// What a seat shows.
    ghost view: { S → SeatValue };

    /// Which stops it may answer an event by.
    ghost may_stop: { Event → Stop → Bool };

    /// Hands an event to the core by a seat, and gives its receipt, or the stop where the core doesn't take the event. The seat
    /// comes back either way, unchanged after a stop.
    fn submit(&self, seat: S, event: Event) -> (S, Result<Receipt, Stop>)
        requires { EventFits event }
        ensures event { IfOk result.1 (λ r. r.event ≡ event) }
        ensures count { OnOk result.1 ((view result.0).count ≡ (view seat).count + 1) }
        ensures last { IfOk result.1 (λ r. (view result.0).last ≡ Some r) }
        ensures err { OnErr result.1 (view result.0 ≡ view seat) }
        ensures stop { IfErr result.1 (λ stop. may_stop event stop ≡ true) }
        ensures place { IfOk result.1 (λ r. (view seat).count ≤ r.place) };
}
