//! The markers that a prepared transaction owes.

ghost use Rattle.std.specs.Prelude.{◌≡◌, ◌++◌, IfOk, map};
ghost use Rattle.txn_coordinator.specs.declared.target.Target.TheVariants.{Partition, Group};
ghost use Rattle.txn_coordinator.specs.Preparing.{marker_for, markers};

use crate::producer_id::ProducerIdAndEpoch;
use crate::target::Target;
use crate::transaction::Transaction;
use record_batch::TransactionResult;
use std::alloc::{AllocError, Global};
use wire_types::{Items, Shared, Text};

/// A marker that is still to be written for a transactional id: a control batch to a partition, or the commit or abort of the
/// offsets that its producer staged for a group (KIP-447).
#[derive(Clone, Debug, Drop)]
pub struct PendingMarker {
    /// The transactional id whose transaction the marker ends.
    pub id: Text,
    /// The producer id and epoch that the marker carries. By the time of writing the id may have others.
    pub pair: ProducerIdAndEpoch,
    pub outcome: TransactionResult,
    pub target: Target,
}

impl Transaction {
    /// The markers that end this transaction: one for each added partition, then one for each added group. They carry `pair`.
    pub(crate) fn markers(
        &self,
        alloc: Global,
        pair: ProducerIdAndEpoch,
        outcome: TransactionResult,
    ) -> Result<Items<Shared<PendingMarker>>, AllocError>
        ensures { IfOk result (λ owed. owed ≡ markers self.now pair outcome) }
    {
        let owed = self.partition_markers(alloc, pair, outcome)?;
        self.group_markers(alloc, owed, pair, outcome)
    }

    /// One marker for each added partition, in the order of adding. They carry `pair`.
    fn partition_markers(
        &self,
        alloc: Global,
        pair: ProducerIdAndEpoch,
        outcome: TransactionResult,
    ) -> Result<Items<Shared<PendingMarker>>, AllocError>
        ensures { IfOk result (λ owed. owed ≡ map (marker_for self.now.id pair outcome)
            (map (λ p. Partition p) self.now.partitions)) }
    {
        let mut owed = Items::new(alloc);
        let partitions = self.partitions.as_slice();
        for partition in partitions {
            let target = Target::Partition(partition.copied()?);
            owed.push(self.marker_for(alloc, pair, outcome, target)?)?;
        }
        Ok(owed)
    }

    /// Appends to `before` one marker for each added group, in the order of adding. They carry `pair`.
    fn group_markers(
        &self,
        alloc: Global,
        before: Items<Shared<PendingMarker>>,
        pair: ProducerIdAndEpoch,
        outcome: TransactionResult,
    ) -> Result<Items<Shared<PendingMarker>>, AllocError>
        ensures { IfOk result (λ owed. owed ≡ before ++ map (marker_for self.now.id pair outcome)
            (map (λ g. Group g) self.now.groups)) }
    {
        let mut owed = before;
        let groups = self.groups.as_slice();
        for group in groups {
            let target = Target::Group(group.clone()?);
            owed.push(self.marker_for(alloc, pair, outcome, target)?)?;
        }
        Ok(owed)
    }

    /// The marker that ends this transaction at one target. It carries `pair`.
    fn marker_for(
        &self,
        alloc: Global,
        pair: ProducerIdAndEpoch,
        outcome: TransactionResult,
        target: Target,
    ) -> Result<Shared<PendingMarker>, AllocError>
        ensures { IfOk result (λ owed. owed ≡ marker_for self.now.id pair outcome target) }
    {
        let id = self.id.clone()?;
        let marker = PendingMarker {
            id,
            pair,
            outcome,
            target,
        };
        Ok(Shared::new(alloc, marker)?)
    }
}
