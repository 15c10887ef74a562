//! The records of transactional ids, in the order of their creation.

ghost use Rattle.std.specs.Prelude.{◌≡◌, ◌<◌, ◌++◌, ◌∷◌, [], pos, length, Some, None, OnOk, OnErr, IfOk, map};
ghost use Rattle.std.specs.Option.{option_copied};
ghost use Rattle.wire_types.specs.declared.error_code.ErrorCode.TheVariants as codes;
ghost use Rattle.txn_coordinator.specs.Coordinator.{id_record, records_with, records_after, transition_code, given_for, pending_markers_for, id_and_epoch_answer};
ghost use Rattle.txn_coordinator.specs.InitProducerId.{new_transaction, init_for};
ghost use Rattle.txn_coordinator.specs.Adding.{with_partitions, with_group, open_found, growth_transition};
ghost use Rattle.txn_coordinator.specs.EndTxn.{end_found};
ghost use Rattle.txn_coordinator.specs.Expiry.{fenced_if_due};
ghost use Rattle.txn_coordinator.specs.Bounds.{AllCanRaise};
ghost use Rattle.txn_coordinator.specs.Warrants.{with_completed};

use crate::ending::EndTransaction;
use crate::expiry::expire_all;
use crate::init::created;
use crate::pending_markers::PendingMarkers;
use crate::producer_id::{ProducerIdAndEpoch, ProducerIdAnswer};
use crate::target::TopicPartition;
use crate::transaction::Transaction;
use indexmap::IndexMap;
use record_batch::TransactionResult;
use std::alloc::{AllocError, Global};
use std::hash::RandomState;
use std::marker::Model;
use wire_types::{ErrorCode, Text};

/// The record of each transactional id, found by the id, in the order of creation.
pub struct Records {
    table: IndexMap<String, Transaction, RandomState>,
}

impl Model for Records {
    ghost use Rattle.indexmap.specs.IndexMap.{values, spare};
    ghost use Rattle.txn_coordinator.specs.Kept.{RecordsValue, AreIds};

    ghost Value = { RecordsValue };

    ghost view = { λ r. record { list = values r.table; room = spare r.table } };

    ghost invariant = { λ r. AreIds r.table.entries };
}

impl Drop for Records {
    fn drop(self) {
        let Records { table: _table } = self;
    }
}

impl Records {
    /// A table without records. Ids are hashed by `hasher`; no answer depends on it. It allocates nothing.
    pub(crate) fn new(alloc: Global, hasher: RandomState) -> Records
        ensures { result.list ≡ [] }
    {
        Records {
            table: IndexMap::with_hasher(alloc, hasher),
        }
    }

    /// The records in the order of their creation.
    pub(crate) fn as_slice(&self) -> &[Transaction]
        ensures { result.now ≡ self.now.list }
    {
        self.table.values().as_slice()
    }

    /// The record of a transactional id, `None` if it never got a producer id.
    pub(crate) fn get(&self, id: &Text) -> Option<&Transaction>
        ensures { option_copied result ≡ id_record self.now.list id.now }
    {
        self.table.get(id.as_str())
    }

    /// Does an InitProducerId for a non-empty transactional id, with an allowed timeout in milliseconds, and creates the record
    /// of a new id. Answers the id's new producer id and epoch, or CONCURRENT_TRANSACTIONS. Appends the owners of new producer
    /// ids to `given`, and new pending markers to `owed`. An allocation failure changes nothing.
    pub(crate) fn init(
        &mut self,
        alloc: Global,
        given: &mut Vec<Option<Text>>,
        owed: &mut PendingMarkers,
        id: &Text,
        timeout: u32,
    ) -> Result<ProducerIdAnswer, AllocError>
        requires { AllCanRaise self.old.list }
        ensures ok { OnOk result
            (self.new.list ≡ records_after self.old.list
            (init_for (Some timeout) (id_record self.old.list id.now) id.now
            (pos (length given.old.items)))) }
        ensures given { OnOk result
            (given.new.items ≡ given.old.items
            ++ given_for (init_for (Some timeout) (id_record self.old.list id.now) id.now
            (pos (length given.old.items)))) }
        ensures owed { OnOk result
            (owed.new ≡ owed.old
            ++ pending_markers_for
            (init_for (Some timeout) (id_record self.old.list id.now) id.now
            (pos (length given.old.items)))) }
        ensures answer { IfOk result
            (λ answer. answer
            ≡ id_and_epoch_answer
            (transition_code
            (init_for (Some timeout) (id_record self.old.list id.now) id.now
            (pos (length given.old.items)))) (id_record self.new.list id.now)) }
        ensures err { OnErr result (self.new.list ≡ self.old.list) }
        ensures given_err { OnErr result (given.new.items ≡ given.old.items) }
        ensures owed_err { OnErr result (owed.new ≡ owed.old) }
    {
        match self.table.get_mut(id.as_str()) {
            Some(transaction) => transaction.init(alloc, given, owed, timeout),
            None => self.create(alloc, given, id, timeout),
        }
    }

    /// Creates the record of a transactional id that has none, with a new producer id and epoch 0, which are the answer. The id
    /// is appended to `given` as the owner. An allocation failure changes nothing.
    fn create(
        &mut self,
        alloc: Global,
        given: &mut Vec<Option<Text>>,
        id: &Text,
        timeout: u32,
    ) -> Result<ProducerIdAnswer, AllocError>
        requires { id_record self.old.list id.now ≡ None }
        ensures ok { OnOk result
            (self.new.list ≡ records_with self.old.list
            (new_transaction id.now (pos (length given.old.items)) timeout)) }
        ensures given { OnOk result (given.new.items ≡ given.old.items ++ Some id.now ∷ []) }
        ensures answer { IfOk result
            (λ answer. answer ≡ id_and_epoch_answer codes.None (id_record self.new.list id.now)) }
        ensures err { OnErr result (self.new.list ≡ self.old.list) }
        ensures given_err { OnErr result (given.new.items ≡ given.old.items) }
    {
        let hasher = *self.table.hasher();
        let transaction = created(alloc, hasher, id, given.len() as i64, timeout)?;
        let pair = transaction.pair;
        let (name, owner) = (id.to_owned(alloc)?, id.clone()?);
        self.table.reserve(1)?;
        given.push(Some(owner))?;
        self.table.insert(name, transaction).unwrap();
        Ok(ProducerIdAnswer {
            code: ErrorCode::None,
            pair,
        })
    }

    /// Adds partitions to the transaction of an id (AddPartitionsToTxn) at `moment`, in milliseconds, and gives the error code:
    /// INVALID_PRODUCER_ID_MAPPING if the id has no record, else that of `Transaction::add_partitions`. With an error, or on an
    /// allocation failure, nothing changes.
    pub(crate) fn add_partitions(
        &mut self,
        id: &Text,
        pair: ProducerIdAndEpoch,
        moment: u64,
        partitions: &[TopicPartition],
    ) -> Result<ErrorCode, AllocError>
        ensures ok { OnOk result
            (self.new.list ≡ records_after self.old.list
            (growth_transition (with_partitions partitions.now)
            (open_found (id_record self.old.list id.now) pair moment))) }
        ensures code { IfOk result
            (λ code. code ≡ transition_code
            (growth_transition (with_partitions partitions.now)
            (open_found (id_record self.old.list id.now) pair moment))) }
        ensures err { OnErr result (self.new.list ≡ self.old.list) }
    {
        let Some(transaction) = self.table.get_mut(id.as_str()) else {
            return Ok(ErrorCode::InvalidProducerIdMapping);
        };
        transaction.add_partitions(pair, moment, partitions)
    }

    /// Adds a consumer group to the transaction of an id (AddOffsetsToTxn) at `moment`, in milliseconds, and gives the error
    /// code: INVALID_PRODUCER_ID_MAPPING if the id has no record, else that of `Transaction::add_group`. With an error, or on an
    /// allocation failure, nothing changes.
    pub(crate) fn add_group(
        &mut self,
        id: &Text,
        pair: ProducerIdAndEpoch,
        moment: u64,
        group: &Text,
    ) -> Result<ErrorCode, AllocError>
        ensures ok { OnOk result
            (self.new.list ≡ records_after self.old.list
            (growth_transition (with_group group.now)
            (open_found (id_record self.old.list id.now) pair moment))) }
        ensures code { IfOk result
            (λ code. code ≡ transition_code
            (growth_transition (with_group group.now)
            (open_found (id_record self.old.list id.now) pair moment))) }
        ensures err { OnErr result (self.new.list ≡ self.old.list) }
    {
        let Some(transaction) = self.table.get_mut(id.as_str()) else {
            return Ok(ErrorCode::InvalidProducerIdMapping);
        };
        transaction.add_group(pair, moment, group)
    }

    /// Does an EndTxn: INVALID_PRODUCER_ID_MAPPING if the id has no record, else what `Transaction::end` answers. The owners of
    /// new producer ids are appended to `given`, new pending markers to `owed`. An allocation failure changes nothing.
    pub(crate) fn end(
        &mut self,
        alloc: Global,
        given: &mut Vec<Option<Text>>,
        owed: &mut PendingMarkers,
        asked: &EndTransaction,
    ) -> Result<ProducerIdAnswer, AllocError>
        ensures ok { OnOk result
            (self.new.list ≡ records_after self.old.list
            (end_found (id_record self.old.list asked.now.id.now) asked.now.form
            (pos (length given.old.items)) asked.now.pair asked.now.outcome)) }
        ensures given { OnOk result
            (given.new.items ≡ given.old.items
            ++ given_for
            (end_found (id_record self.old.list asked.now.id.now) asked.now.form
            (pos (length given.old.items)) asked.now.pair asked.now.outcome)) }
        ensures owed { OnOk result
            (owed.new ≡ owed.old
            ++ pending_markers_for
            (end_found (id_record self.old.list asked.now.id.now) asked.now.form
            (pos (length given.old.items)) asked.now.pair asked.now.outcome)) }
        ensures answer { IfOk result
            (λ answer. answer
            ≡ id_and_epoch_answer
            (transition_code
            (end_found (id_record self.old.list asked.now.id.now) asked.now.form
            (pos (length given.old.items)) asked.now.pair asked.now.outcome))
            (id_record self.new.list asked.now.id.now)) }
        ensures err { OnErr result (self.new.list ≡ self.old.list) }
        ensures given_err { OnErr result (given.new.items ≡ given.old.items) }
        ensures owed_err { OnErr result (owed.new ≡ owed.old) }
    {
        let Some(transaction) = self.table.get_mut(asked.id.as_str()) else {
            return Ok(ProducerIdAnswer::refused(ErrorCode::InvalidProducerIdMapping));
        };
        transaction.end(alloc, given, owed, asked)
    }

    /// Notes that the last marker of the id's transaction is written: the transaction is committed or aborted. Nothing happens
    /// if the id has no record. It allocates nothing.
    pub(crate) fn complete(&mut self, id: &Text, outcome: TransactionResult)
        ensures { self.new.list ≡ with_completed outcome (id_record self.old.list id.now)
            self.old.list }
    {
        let alloc = *self.table.allocator();
        let Some(transaction) = self.table.get_mut(id.as_str()) else {
            return;
        };
        transaction.complete(alloc, outcome);
    }

    /// Raises the epoch of each open transaction whose timeout is over at `moment`, in milliseconds, and sets it to PrepareAbort.
    /// It allocates nothing.
    pub(crate) fn expire(&mut self, moment: u64)
        requires { AllCanRaise self.old.list }
        ensures { self.new.list ≡ map (fenced_if_due moment) self.old.list }
    {
        expire_all(&mut self.table, moment);
    }
}
