//! What AddPartitionsToTxn and AddOffsetsToTxn make of the record of a transactional id.

ghost use Rattle.std.specs.Prelude.{◌≡◌, ℕ, Some, IfOk, OnOk, OnErr};
ghost use Rattle.txn_coordinator.specs.Coordinator.{transition_code};
ghost use Rattle.txn_coordinator.specs.Adding.{group_added, with_partitions, with_group, open_found, refusal_of, opened_transaction, growth_transition, record_after};

use crate::producer_id::ProducerIdAndEpoch;
use crate::target::{TopicPartition, has_group};
use crate::transaction::{Transaction, TransactionState};
use std::alloc::AllocError;
use wire_types::{ErrorCode, Items, Text};

impl Transaction {
    /// Why an AddPartitionsToTxn or AddOffsetsToTxn with this producer id and epoch is refused: INVALID_PRODUCER_ID_MAPPING if
    /// the producer id isn't the id's, INVALID_PRODUCER_EPOCH if the epoch isn't or is the last (32,767),
    /// CONCURRENT_TRANSACTIONS while markers are pending. `None` if it isn't refused.
    fn adding_refusal(&self, pair: ProducerIdAndEpoch) -> Option<ErrorCode>
        ensures { (moment : ℕ) → result ≡ refusal_of (open_found (Some self.now) pair moment) }
    {
        match (
            self.pair_refusal(ErrorCode::InvalidProducerEpoch, pair),
            self.state,
        ) {
            (Some(code), _) => Some(code),
            (None, TransactionState::PrepareCommit | TransactionState::PrepareAbort) => {
                Some(ErrorCode::ConcurrentTransactions)
            }
            (None, _) => None,
        }
    }

    /// Begins a transaction at `moment`, in milliseconds, unless one is open. An EndTxn of version 5 that ended the last one
    /// isn't known as a retry any more.
    fn open(&mut self, moment: u64)
        ensures { self.new ≡ opened_transaction self.old moment }
    {
        if !self.state.is_ongoing() {
            self.state = TransactionState::Ongoing;
            self.start = moment;
        }
        self.kept = None;
    }

    /// Adds partitions, each once, to the open transaction, or to one that begins at `moment`, in milliseconds. Gives NONE,
    /// INVALID_PRODUCER_ID_MAPPING, INVALID_PRODUCER_EPOCH, or CONCURRENT_TRANSACTIONS while markers are pending. With an error,
    /// or on an allocation failure, nothing changes.
    pub(crate) fn add_partitions(
        &mut self,
        pair: ProducerIdAndEpoch,
        moment: u64,
        partitions: &[TopicPartition],
    ) -> Result<ErrorCode, AllocError>
        ensures ok { OnOk result
            (self.new ≡ record_after
            (growth_transition (with_partitions partitions.now)
            (open_found (Some self.old) pair moment)) self.old) }
        ensures code { IfOk result
            (λ code. code ≡ transition_code
            (growth_transition (with_partitions partitions.now)
            (open_found (Some self.old) pair moment))) }
        ensures err { OnErr result (self.new ≡ self.old) }
    {
        if let Some(code) = self.adding_refusal(pair) {
            return Ok(code);
        }
        self.partitions.add(partitions)?;
        self.open(moment);
        Ok(ErrorCode::None)
    }

    /// Adds a consumer group, once, to the open transaction, or to one that begins at `moment`, in milliseconds. Gives NONE,
    /// INVALID_PRODUCER_ID_MAPPING, INVALID_PRODUCER_EPOCH, or CONCURRENT_TRANSACTIONS while markers are pending. With an error,
    /// or on an allocation failure, nothing changes.
    pub(crate) fn add_group(
        &mut self,
        pair: ProducerIdAndEpoch,
        moment: u64,
        group: &Text,
    ) -> Result<ErrorCode, AllocError>
        ensures ok { OnOk result
            (self.new ≡ record_after
            (growth_transition (with_group group.now) (open_found (Some self.old) pair moment))
            self.old) }
        ensures code { IfOk result
            (λ code. code ≡ transition_code
            (growth_transition (with_group group.now)
            (open_found (Some self.old) pair moment))) }
        ensures err { OnErr result (self.new ≡ self.old) }
    {
        if let Some(code) = self.adding_refusal(pair) {
            return Ok(code);
        }
        add_group(&mut self.groups, group)?;
        self.open(moment);
        Ok(ErrorCode::None)
    }
}

/// Adds the group to the list, unless it is there. An allocation failure changes nothing.
fn add_group(groups: &mut Items<Text>, group: &Text) -> Result<(), AllocError>
    ensures ok { OnOk result (groups.new ≡ group_added groups.old group.now) }
    ensures err { OnErr result (groups.new ≡ groups.old) }
{
    if !has_group(groups.as_slice(), group) {
        groups.push(group.clone()?)?;
    }
    Ok(())
}
