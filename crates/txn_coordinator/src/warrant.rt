//! The right to write the front marker of the queue of pending markers.

ghost use Rattle.std.specs.Prelude.{◌≡◌};

use crate::marker::PendingMarker;
use std::marker::Model;
use std::snapshot::Snapshot;

/// The right to write the front marker, once. It holds no data: the coordinator lends what is to be written
/// (`Coordinator::marker`). It can be neither copied nor dropped: it goes back to the coordinator, its marker written or not.
pub struct Warrant {
    marker: Snapshot<PendingMarker>,
}

impl Model for Warrant {
    ghost use Rattle.txn_coordinator.specs.declared.marker.PendingMarker.{PendingMarker};

    ghost Value = { PendingMarker };

    ghost view = { λ w. w.marker.value };
}

impl Warrant {
    /// A warrant for this marker, which is the front one. It allocates nothing.
    pub(crate) fn of(front: &PendingMarker) -> Warrant
        ensures { result ≡ front.now }
    {
        Warrant {
            marker: Snapshot::of(front),
        }
    }

    /// Uses the warrant up, for the coordinator that takes it back.
    pub(crate) fn end(self) {
        let Warrant { marker: _marker } = self;
    }
}
