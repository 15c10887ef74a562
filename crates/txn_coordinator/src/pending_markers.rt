//! The markers that are pending.

ghost use Rattle.std.specs.Prelude.{◌≡◌, ◌<◌, [], ◌∷◌, ◌++◌, OnOk, OnErr, length, slice_get};
ghost use Rattle.std.specs.Option.{option_copied};
ghost use Rattle.txn_coordinator.specs.Warrants.{has_pending_marker};

use crate::counts::{Counts, enter_all, lower, owes_any, raise_all};
use crate::marker::PendingMarker;
use indexmap::IndexMap;
use std::alloc::{AllocError, Global};
use std::collections::VecDeque;
use std::hash::RandomState;
use std::marker::Model;
use wire_types::{Items, Shared, Text};

/// The queue of pending markers, and how many of them each transactional id has.
#[derive(Drop)]
pub struct PendingMarkers {
    queue: VecDeque<Shared<PendingMarker>>,
    counts: Counts,
}

impl Model for PendingMarkers {
    ghost use Rattle.std.specs.Prelude.{List};
    ghost use Rattle.txn_coordinator.specs.declared.marker.PendingMarker.{PendingMarker as Marker};
    ghost use Rattle.txn_coordinator.specs.Kept.{AreCounts};

    ghost Value = { List Marker };

    ghost view = { λ o. o.queue.items };

    ghost invariant = { λ o. AreCounts o.counts o.queue.items };
}

impl PendingMarkers {
    /// An empty queue. Ids are hashed by `hasher`; no answer depends on it. It allocates nothing.
    pub fn new(alloc: Global, hasher: RandomState) -> PendingMarkers
        ensures { result ≡ [] }
    {
        PendingMarkers {
            queue: VecDeque::new(alloc),
            counts: IndexMap::with_hasher(alloc, hasher),
        }
    }

    /// The number of pending markers.
    pub fn len(&self) -> usize
        ensures { result ≡ length self.now }
    {
        self.queue.len()
    }

    /// The marker that is to be written next, `None` if none is pending.
    pub fn front(&self) -> Option<&Shared<PendingMarker>>
        ensures { option_copied result ≡ slice_get self.now 0 }
    {
        self.queue.front()
    }

    /// Whether a marker of the transactional id is pending. It allocates nothing.
    pub fn owes(&self, id: &Text) -> bool
        ensures { result ≡ has_pending_marker self.now id.now }
    {
        owes_any(&self.counts, id)
    }

    /// Appends markers to the queue. An allocation failure changes nothing.
    pub fn append(&mut self, more: Items<Shared<PendingMarker>>) -> Result<(), AllocError>
        ensures ok { OnOk result (self.new ≡ self.old ++ more) }
        ensures err { OnErr result (self.new ≡ self.old) }
    {
        let more = more.into_vec()?;
        self.queue.reserve(more.len())?;
        let alloc = *self.queue.allocator();
        enter_all(&mut self.counts, alloc, &more)?;
        raise_all(&mut self.counts, &more);
        let mut more = VecDeque::from_vec(more);
        self.queue.append(&mut more).unwrap();
        Ok(())
    }

    /// Removes the front marker from the queue, which isn't empty, and gives it. It allocates nothing.
    pub fn pop(&mut self) -> Shared<PendingMarker>
        requires { 0 < length self.old }
        ensures { self.old ≡ result ∷ self.new }
    {
        let front = self.queue.pop_front().unwrap();
        lower(&mut self.counts, &front.value().id);
        front
    }
}
