//! The record of a transactional id.

ghost use Rattle.std.specs.Prelude.{◌≡◌, IfOk};
ghost use Rattle.txn_coordinator.specs.Words.{is_ongoing, has_target, prepared_phase, completed_phase};
ghost use Rattle.txn_coordinator.specs.Preparing.{producer_refusal};
ghost use Rattle.txn_coordinator.specs.Warrants.{completed_transaction};

use crate::partitions::Partitions;
use crate::producer_id::ProducerIdAndEpoch;
use crate::target::{Target, has_group};
use record_batch::TransactionResult;
use std::alloc::{AllocError, Global};
use wire_types::{ErrorCode, Items, Text};

/// The greatest epoch of a producer id. No producer writes in it: a transactional id has it only after it was fenced and until
/// it gets a new producer id. The markers that end a transaction may carry it.
pub(crate) const LAST_EPOCH: i16 = 32_767;

/// The state of the transaction of a transactional id (KIP-98).
#[derive(Clone, Copy, Debug, PartialEq, Eq)]
pub enum TransactionState {
    /// No transaction began since the id got its producer id and epoch.
    Empty,
    Ongoing,
    /// The outcome is decided, and markers are pending.
    PrepareCommit,
    PrepareAbort,
    CompleteCommit,
    CompleteAbort,
}

/// What the coordinator keeps of a transactional id: its producer id and epoch, and its transaction.
#[derive(Clone, Debug, Drop)]
pub struct Transaction {
    pub id: Text,
    /// The producer id and the epoch in which its producer writes now.
    pub pair: ProducerIdAndEpoch,
    /// How long a transaction may stay open, in milliseconds.
    pub timeout: u32,
    /// The moment at which the last transaction began, in milliseconds; 0 before the first.
    pub start: u64,
    pub state: TransactionState,
    /// The partitions that were added, in the order of adding.
    pub partitions: Partitions,
    /// The groups that were added, in the order of adding.
    pub groups: Items<Text>,
    /// The producer id and epoch with which an EndTxn of version 5 came, by which a retry of it is known (KIP-890). It is kept
    /// until an InitProducerId, AddPartitionsToTxn or AddOffsetsToTxn changes the record.
    pub kept: Option<ProducerIdAndEpoch>,
}

impl TransactionState {
    /// Whether the transaction is open: it takes writes, and its outcome is still undecided.
    pub fn is_ongoing(self) -> bool
        ensures { result ≡ is_ongoing self }
    {
        self == TransactionState::Ongoing
    }

    /// The state once the outcome is decided and its markers are pending: PrepareCommit or PrepareAbort.
    pub(crate) fn prepared(outcome: TransactionResult) -> TransactionState
        ensures { result ≡ prepared_phase outcome }
    {
        match outcome {
            TransactionResult::Commit => TransactionState::PrepareCommit,
            TransactionResult::Abort => TransactionState::PrepareAbort,
        }
    }

    /// The state once the outcome is decided and all of its markers are written: CompleteCommit or CompleteAbort.
    pub(crate) fn complete(outcome: TransactionResult) -> TransactionState
        ensures { result ≡ completed_phase outcome }
    {
        match outcome {
            TransactionResult::Commit => TransactionState::CompleteCommit,
            TransactionResult::Abort => TransactionState::CompleteAbort,
        }
    }
}

impl Transaction {
    /// A copy of the whole record.
    pub fn copied(&self) -> Result<Transaction, AllocError>
        ensures { IfOk result (λ copy. copy ≡ self.now) }
    {
        self.clone()
    }

    /// Whether the partition or the group was added to the transaction.
    pub fn has_target(&self, target: &Target) -> bool
        ensures { result ≡ has_target self.now target.now }
    {
        match target {
            Target::Partition(partition) => self.partitions.contains(partition),
            Target::Group(group) => has_group(self.groups.as_slice(), group),
        }
    }

    /// Why a call with this producer id and epoch may not act for the transactional id: INVALID_PRODUCER_ID_MAPPING if the
    /// producer id isn't the id's, `other_epoch` if the epoch isn't, or is the last one. `None` if it may.
    pub fn pair_refusal(
        &self,
        other_epoch: ErrorCode,
        pair: ProducerIdAndEpoch,
    ) -> Option<ErrorCode>
        ensures { result ≡ producer_refusal other_epoch self.now pair }
    {
        if self.pair.producer != pair.producer {
            return Some(ErrorCode::InvalidProducerIdMapping);
        }
        if self.pair.epoch == pair.epoch && pair.epoch < LAST_EPOCH {
            None
        } else {
            Some(other_epoch)
        }
    }

    /// Notes that all markers are written: the transaction is committed or aborted, and holds no partitions and groups any more.
    pub(crate) fn complete(&mut self, alloc: Global, outcome: TransactionResult)
        ensures { self.new ≡ completed_transaction outcome self.old }
    {
        self.state = TransactionState::complete(outcome);
        self.partitions.clear();
        self.groups = Items::new(alloc);
    }
}
