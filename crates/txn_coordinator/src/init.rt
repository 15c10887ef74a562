//! What InitProducerId makes of the record of a transactional id.

ghost use Rattle.std.specs.Prelude.{◌≡◌, ◌<ℤ◌, ◌++◌, pos, length, IfOk, OnOk, OnErr, Some};
ghost use Rattle.txn_coordinator.specs.Words.{last_epoch};
ghost use Rattle.txn_coordinator.specs.Preparing.{fence_transition};
ghost use Rattle.txn_coordinator.specs.Bounds.{CanRaise};
ghost use Rattle.txn_coordinator.specs.Coordinator.{transition_code, given_for, pending_markers_for, id_and_epoch_answer};
ghost use Rattle.txn_coordinator.specs.Adding.{record_after};
ghost use Rattle.txn_coordinator.specs.Changes.{transition_of};
ghost use Rattle.txn_coordinator.specs.InitProducerId.{timeout_within, new_transaction, begin_transition, init_in};

use crate::change::{Change, Standing};
use crate::partitions::Partitions;
use crate::pending_markers::PendingMarkers;
use crate::producer_id::{ProducerIdAndEpoch, ProducerIdAnswer};
use crate::transaction::{Transaction, TransactionState};
use record_batch::TransactionResult;
use std::alloc::{AllocError, Global};
use std::hash::RandomState;
use wire_types::{ErrorCode, Items, Text};

/// The transaction timeout of an InitProducerId, in milliseconds, `None` if it is less than 1 or more than `greatest`.
pub(crate) fn timeout_within(timeout: i32, greatest: i32) -> Option<u32>
    ensures { result ≡ timeout_within timeout greatest }
{
    if 1 <= timeout && timeout <= greatest {
        Some(timeout as u32)
    } else {
        None
    }
}

/// The record of a new transactional id, with the producer id `next`, epoch 0 and no transaction. `timeout` is in milliseconds.
/// Its partitions are hashed by `hasher`.
pub(crate) fn created(
    alloc: Global,
    hasher: RandomState,
    id: &Text,
    next: i64,
    timeout: u32,
) -> Result<Transaction, AllocError>
    ensures { IfOk result (λ t. t ≡ new_transaction id.now next timeout) }
{
    Ok(Transaction {
        id: id.clone()?,
        pair: ProducerIdAndEpoch {
            producer: next,
            epoch: 0,
        },
        timeout,
        start: 0,
        state: TransactionState::Empty,
        partitions: Partitions::new(alloc, hasher),
        groups: Items::new(alloc),
        kept: None,
    })
}

impl Transaction {
    /// Fences the producer of the open transaction: the epoch is raised, the transaction moves to PrepareAbort, and its abort
    /// markers carry the new epoch. The call is answered `code`.
    fn fencing(&self, alloc: Global, code: ErrorCode) -> Result<Change, AllocError>
        requires { self.now.pair.epoch <ℤ last_epoch }
        ensures { IfOk result
            (λ change. transition_of self.now change ≡ fence_transition code self.now) }
    {
        let pair = self.pair.raised();
        let owed = self.markers(alloc, pair, TransactionResult::Abort)?;
        let fenced = Standing {
            pair,
            state: TransactionState::PrepareAbort,
            ..self.standing()
        };
        Ok(Change::Moves(code, fenced, Items::new(alloc), owed))
    }

    /// What an InitProducerId comes to if no transaction is open: the id gets its next epoch, or the producer id `next` if the
    /// epochs are used up, this timeout in milliseconds, and the state Empty.
    fn begun(&self, alloc: Global, next: i64, timeout: u32) -> Result<Change, AllocError>
        ensures { IfOk result
            (λ change. transition_of self.now change ≡ begin_transition self.now next timeout) }
    {
        let given = self.pair.given_after(alloc, &self.id)?;
        let begun = Standing {
            pair: self.pair.after(next),
            timeout,
            state: TransactionState::Empty,
            kept: None,
        };
        Ok(Change::Moves(ErrorCode::None, begun, given, Items::new(alloc)))
    }

    /// What an InitProducerId comes to for this record: its next producer id and epoch, or CONCURRENT_TRANSACTIONS while a
    /// transaction is open, which is then fenced and aborted, or while markers are pending. `next` is the next producer id to
    /// be given out.
    fn inited(&self, alloc: Global, next: i64, timeout: u32) -> Result<Change, AllocError>
        requires { CanRaise self.now }
        ensures { IfOk result
            (λ change. transition_of self.now change ≡ init_in self.now.state self.now next
            timeout) }
    {
        match self.state {
            TransactionState::Empty
            | TransactionState::CompleteCommit
            | TransactionState::CompleteAbort => { self.begun(alloc, next, timeout) }
            TransactionState::Ongoing => self.fencing(alloc, ErrorCode::ConcurrentTransactions),
            TransactionState::PrepareCommit | TransactionState::PrepareAbort => {
                Ok(Change::Stays(ErrorCode::ConcurrentTransactions))
            }
        }
    }

    /// Does an InitProducerId for an id that has a record. Answers the id's new producer id and epoch, or
    /// CONCURRENT_TRANSACTIONS. Appends the owners of new producer ids to `given`, whose length is the next producer id, and
    /// new pending markers to `owed`. An allocation failure changes nothing.
    pub(crate) fn init(
        &mut self,
        alloc: Global,
        given: &mut Vec<Option<Text>>,
        owed: &mut PendingMarkers,
        timeout: u32,
    ) -> Result<ProducerIdAnswer, AllocError>
        requires { CanRaise self.old }
        ensures ok { OnOk result
            (self.new ≡ record_after
            (init_in self.old.state self.old (pos (length given.old.items)) timeout) self.old) }
        ensures given { OnOk result
            (given.new.items ≡ given.old.items
            ++ given_for (init_in self.old.state self.old (pos (length given.old.items))
            timeout)) }
        ensures owed { OnOk result
            (owed.new ≡ owed.old
            ++ pending_markers_for
            (init_in self.old.state self.old (pos (length given.old.items)) timeout)) }
        ensures answer { IfOk result
            (λ answer. answer
            ≡ id_and_epoch_answer
            (transition_code
            (init_in self.old.state self.old (pos (length given.old.items)) timeout))
            (Some self.new)) }
        ensures err { OnErr result (self.new ≡ self.old) }
        ensures given_err { OnErr result (given.new.items ≡ given.old.items) }
        ensures owed_err { OnErr result (owed.new ≡ owed.old) }
    {
        let change = self.inited(alloc, given.len() as i64, timeout)?;
        self.take(given, owed, change)
    }
}
