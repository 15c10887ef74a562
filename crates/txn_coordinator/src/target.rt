//! The partitions and consumer groups that transactions write to.

ghost use Rattle.std.specs.Prelude.{◌≡◌, IfOk};
ghost use Rattle.txn_coordinator.specs.Words.{has_group};

use std::alloc::AllocError;
use std::hash::{Hash, Hasher};
use wire_types::Text;

/// A partition of a topic, by the topic's name and the partition's index from 0.
#[derive(Clone, Debug, Drop, PartialEq, Eq)]
pub struct TopicPartition {
    pub topic: Text,
    pub index: i32,
}

/// Where a transaction writes: records to a partition, or offsets to a consumer group.
#[derive(Clone, Debug, Drop)]
pub enum Target {
    Partition(TopicPartition),
    Group(Text),
}

impl TopicPartition {
    /// A copy of the partition.
    pub(crate) fn copied(&self) -> Result<TopicPartition, AllocError>
        ensures { IfOk result (λ copy. copy ≡ self.now) }
    {
        self.clone()
    }
}

/// Hashed by its topic's name and its index.
impl Hash for TopicPartition {
    ghost use Rattle.std.specs.Prelude.{◌++◌};
    ghost use Rattle.std.proofs.Common.{rules};
    ghost use Rattle.std.specs.Hash as fed;
    ghost use Rattle.std.specs.Cmp.Rules.{hashing};

    ghost hash_input = { λ p. fed.str p.topic ++ fed.i32 p.index };

    ghost respects_eq = { Prim.search (hashing, rules) };

    /// Feeds the topic's name, then the index, to the hasher.
    fn hash<H: Hasher>(&self, state: &mut H) {
        self.topic.as_str().hash(state);
        self.index.hash(state);
    }
}

/// Whether the group is one of those that were added.
pub(crate) fn has_group(added: &[Text], group: &Text) -> bool
    ensures { result ≡ has_group added.now group.now }
{
    added.iter().any(|other| other == group)
}
