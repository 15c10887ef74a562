//! A partition as a key of the table of a group's offsets.

ghost use Rattle.std.specs.Prelude.{◌≡◌, IfOk};
ghost use Rattle.std.specs.String.{string_bytes};

use crate::event::PartitionOffset;
use indexmap::Equivalent;
use std::alloc::{AllocError, Global};
use std::hash::Hash;

/// A partition as a key of the table: its topic's name and its index.
#[derive(Drop, PartialEq, Eq, Hash)]
pub struct Partition {
    pub topic: String,
    pub index: i32,
}

/// A partition to look up in the table, by a borrowed name.
#[derive(Clone, Copy, PartialEq, Eq, Hash)]
pub struct Wanted<'a> {
    pub topic: &'a str,
    pub index: i32,
}

impl Partition {
    /// The partition of this offset, with a copy of its topic's name.
    pub(crate) fn of(alloc: Global, offset: &PartitionOffset) -> Result<Partition, AllocError>
        ensures topic { IfOk result (λ p. string_bytes p.topic ≡ offset.now.topic) }
        ensures index { IfOk result (λ p. p.index ≡ offset.now.index) }
    {
        Ok(Partition {
            topic: offset.topic.to_owned(alloc)?,
            index: offset.index,
        })
    }
}

impl<'a> Equivalent<Partition> for Wanted<'a> {
    ghost use Rattle.std.proofs.Common.{rules};
    ghost use Rattle.std.specs.Cmp.Rules.{comparing, hashing};
    ghost use Rattle.group_offsets.specs.Partitions.{is_key};

    ghost equivalent = { λ q k. is_key q.topic.now q.index k };

    ghost respects_hash = { Prim.search (hashing, rules) };

    ghost respects_eq = { Prim.search (comparing, hashing, rules) };

    /// Whether the key has this topic and this index.
    fn equivalent(&self, key: &Partition) -> bool {
        self.topic == key.topic.as_str() && self.index == key.index
    }
}
