//! What a group keeps of one partition's offsets.

ghost use Rattle.std.specs.Prelude.{◌≡◌, ◌<◌, [], Some, None, OnOk, is_some};
ghost use Rattle.std.specs.HashMap.{spare};
ghost use Rattle.group_offsets.specs.Kept.{waits, IsSameRow, IsStaged, IsDecided, has_some};

use record_batch::TransactionResult;
use std::alloc::{AllocError, Global};
use std::collections::HashMap;

/// The offsets of one partition: the places, in the group's list of events from 0, of the events that count.
#[derive(Drop)]
pub struct Row {
    /// The place of the event with the committed offset, `None` if there is none.
    pub committed: Option<usize>,
    /// By producer id, the place of the last event that staged an offset, while its transaction is undecided.
    pub waiting: HashMap<i64, usize>,
}

impl Row {
    /// A row without a committed or staged offset. It allocates nothing.
    pub(crate) fn new(alloc: Global) -> Row
        ensures committed { result.committed ≡ None }
        ensures waiting { result.waiting.entries ≡ [] }
    {
        Row {
            committed: None,
            waiting: HashMap::new(alloc),
        }
    }

    /// Reserves memory for one producer more, so that staging an offset can't fail. It changes nothing else.
    pub(crate) fn reserve(&mut self) -> Result<(), AllocError>
        ensures same { IsSameRow self.old self.new }
        ensures ok { OnOk result (0 < spare self.new.waiting) }
    {
        self.waiting.reserve(1)
    }

    /// Makes the offset of the event at this place the committed one.
    pub(crate) fn commit(&mut self, place: usize)
        ensures committed { self.new.committed ≡ Some place }
        ensures waiting { self.new.waiting.entries ≡ self.old.waiting.entries }
    {
        self.committed = Some(place);
    }

    /// Stages the offset of the event at this place for a producer, instead of one that it staged before. It allocates nothing:
    /// `reserve` came first.
    pub(crate) fn stage(&mut self, producer: i64, place: usize)
        requires { 0 < spare self.old.waiting }
        ensures { IsStaged self.old self.new producer place }
    {
        let _entered = self.waiting.insert(producer, place);
    }

    /// Ends a producer's transaction: a commit makes its staged offset the committed one, an abort drops it.
    pub(crate) fn decide(&mut self, producer: i64, outcome: TransactionResult)
        ensures { IsDecided self.old self.new producer outcome }
    {
        if let Some(place) = self.waiting.remove(&producer) {
            if outcome == TransactionResult::Commit {
                self.commit(place);
            }
        }
    }

    /// Whether this producer staged an offset that is still undecided.
    pub(crate) fn waits(&self, producer: i64) -> bool
        ensures { result ≡ is_some (waits self.now producer) }
    {
        self.waiting.contains_key(&producer)
    }

    /// Whether any producer staged an offset that is still undecided.
    pub(crate) fn is_staged(&self) -> bool
        ensures { result ≡ has_some self.now.waiting.entries }
    {
        !self.waiting.is_empty()
    }
}
