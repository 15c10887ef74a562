//! The partitions that a transaction takes in.

ghost use Rattle.std.specs.Prelude.{◌≡◌, [], OnOk, OnErr};
ghost use Rattle.txn_coordinator.specs.Words.{has_partition};
ghost use Rattle.txn_coordinator.specs.Adding.{partition_added, partitions_added};

use crate::target::TopicPartition;
use indexmap::IndexSet;
use std::alloc::{AllocError, Global};
use std::clone::Clone;
use std::hash::RandomState;
use std::marker::Model;
use std::sync::Arc;

/// The partitions of a transaction in the order of adding, each once. To find one costs one hash look-up, to add one two,
/// whatever their number. A copy shares them until one is added, which copies them first: a call that only changes a
/// transaction's state copies none.
#[derive(Debug, Drop)]
pub struct Partitions {
    alloc: Global,
    hasher: RandomState,
    /// `None` if there are no partitions.
    set: Option<Arc<IndexSet<TopicPartition, RandomState>>>,
}

impl Model for Partitions {
    ghost use Rattle.std.specs.Prelude.{List};
    ghost use Rattle.txn_coordinator.specs.declared.target.TopicPartition.{TopicPartition};
    ghost use Rattle.std.specs.Option.{option_map};
    ghost use Rattle.txn_coordinator.specs.Shared.{shared_partitions};

    ghost Value = { List TopicPartition };

    ghost view = { λ p. shared_partitions (option_map (λ set. set.value.keys) p.set) };
}

impl Clone for Partitions {
    ghost is_clone = { λ partitions copy. copy ≡ partitions };

    /// Shares the partitions with the copy.
    fn clone(&self) -> Result<Partitions, AllocError> {
        let set = match &self.set {
            Some(set) => Some(Arc::try_clone(set)?),
            None => None,
        };
        Ok(Partitions {
            alloc: self.alloc,
            hasher: self.hasher,
            set,
        })
    }
}

impl Partitions {
    /// A set without partitions. Partitions are hashed by `hasher`; no answer depends on it. It allocates nothing.
    pub(crate) fn new(alloc: Global, hasher: RandomState) -> Partitions
        ensures { result ≡ [] }
    {
        Partitions {
            alloc,
            hasher,
            set: None,
        }
    }

    /// The partitions in the order of adding.
    pub fn as_slice(&self) -> &[TopicPartition]
        ensures { result.now ≡ self.now }
    {
        match &self.set {
            Some(set) => set.as_slice(),
            None => &[],
        }
    }

    /// Whether the partition was added.
    pub(crate) fn contains(&self, partition: &TopicPartition) -> bool
        ensures { result ≡ has_partition self.now partition.now }
    {
        match &self.set {
            Some(set) => set.contains(partition),
            None => false,
        }
    }

    /// Adds each partition that isn't there. An allocation failure changes nothing.
    pub(crate) fn add(&mut self, partitions: &[TopicPartition]) -> Result<(), AllocError>
        ensures ok { OnOk result (self.new ≡ partitions_added self.old partitions.now) }
        ensures err { OnErr result (self.new ≡ self.old) }
    {
        match &mut self.set {
            Some(set) => add_each(Arc::make_mut(set)?, partitions),
            None => {
                let mut set = IndexSet::with_hasher(self.alloc, self.hasher);
                add_each(&mut set, partitions)?;
                self.set = Some(Arc::new(self.alloc, set)?);
                Ok(())
            }
        }
    }

    /// Removes all partitions.
    pub(crate) fn clear(&mut self)
        ensures { self.new ≡ [] }
    {
        self.set = None;
    }
}

/// Adds each partition that isn't in the set. An allocation failure changes nothing: those added before it are removed again.
fn add_each(
    set: &mut IndexSet<TopicPartition, RandomState>,
    partitions: &[TopicPartition],
) -> Result<(), AllocError>
    ensures ok { OnOk result (set.new.keys ≡ partitions_added set.old.keys partitions.now) }
    ensures err { OnErr result (set.new.keys ≡ set.old.keys) }
{
    let before = set.len();
    for partition in partitions {
        if add_one(set, partition).is_err() {
            set.truncate(before);
            return Err(AllocError);
        }
    }
    Ok(())
}

/// Adds the partition, unless it is in the set. An allocation failure changes nothing.
fn add_one(
    set: &mut IndexSet<TopicPartition, RandomState>,
    partition: &TopicPartition,
) -> Result<(), AllocError>
    ensures ok { OnOk result (set.new.keys ≡ partition_added set.old.keys partition.now) }
    ensures err { OnErr result (set.new.keys ≡ set.old.keys) }
{
    if !set.contains(partition) {
        set.insert(partition.copied()?)?;
    }
    Ok(())
}
