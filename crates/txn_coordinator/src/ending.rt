//! What EndTxn makes of the record of a transactional id.

ghost use Rattle.std.specs.Prelude.{◌≡◌, ◌<ℤ◌, ◌++◌, pos, length, IfOk, OnOk, OnErr, Some};
ghost use Rattle.txn_coordinator.specs.Words.{last_epoch};
ghost use Rattle.txn_coordinator.specs.Coordinator.{transition_code, given_for, pending_markers_for, id_and_epoch_answer};
ghost use Rattle.txn_coordinator.specs.Adding.{record_after};
ghost use Rattle.txn_coordinator.specs.Changes.{transition_of};
ghost use Rattle.txn_coordinator.specs.EndTxn.{other_epoch, renewal_transition, plain_prepare_transition, end_ongoing, end_closed, end_in, is_again, end_again, end_found};

use crate::change::{Change, Standing};
use crate::marker::PendingMarker;
use crate::pending_markers::PendingMarkers;
use crate::producer_id::{ProducerIdAndEpoch, ProducerIdAnswer};
use crate::transaction::{Transaction, TransactionState};
use record_batch::TransactionResult;
use std::alloc::{AllocError, Global};
use wire_types::{ErrorCode, Items, Shared, Text};

/// What an EndTxn does and answers by its version.
#[derive(Clone, Copy, Debug, PartialEq, Eq)]
pub enum EndForm {
    /// Versions 0 and 1: with another epoch it is answered INVALID_PRODUCER_EPOCH.
    Plain,
    /// Versions 2 to 4: with another epoch it is answered PRODUCER_FENCED.
    Fencing,
    /// Version 5 (KIP-890): PRODUCER_FENCED too, and each ending raises the epoch, so that a batch that was sent before the
    /// marker but arrives after it is refused.
    Raising,
}

/// An EndTxn request: to commit or abort the transaction of a transactional id (KIP-98).
#[derive(Clone, Copy)]
pub struct EndTransaction<'a> {
    pub form: EndForm,
    /// The transactional id.
    pub id: &'a Text,
    /// The producer id and epoch that the producer sends.
    pub pair: ProducerIdAndEpoch,
    pub outcome: TransactionResult,
}

impl EndForm {
    /// The error code for an epoch that isn't the id's: INVALID_PRODUCER_EPOCH or PRODUCER_FENCED.
    pub(crate) fn other_epoch(self) -> ErrorCode
        ensures { result ≡ other_epoch self }
    {
        match self {
            EndForm::Plain => ErrorCode::InvalidProducerEpoch,
            EndForm::Fencing | EndForm::Raising => ErrorCode::ProducerFenced,
        }
    }
}

impl Transaction {
    /// How version 5 ends a transaction (KIP-890): the id moves to `state` and to its next epoch, or to the producer id `next`
    /// with epoch 0 if the epochs are used up, and keeps the old pair to know a retry by. `owed` are the markers to write.
    fn renewed(
        &self,
        alloc: Global,
        next: i64,
        state: TransactionState,
        owed: Items<Shared<PendingMarker>>,
    ) -> Result<Change, AllocError>
        ensures { IfOk result
            (λ change. transition_of self.now change ≡ renewal_transition self.now next state
            owed) }
    {
        let given = self.pair.given_after(alloc, &self.id)?;
        let renewed = Standing {
            pair: self.pair.after(next),
            state,
            kept: Some(self.pair),
            ..self.standing()
        };
        Ok(Change::Moves(ErrorCode::None, renewed, given, owed))
    }

    /// How versions 0 to 4 end an open transaction: it moves to PrepareCommit or PrepareAbort, its epoch stays, and a marker is
    /// pending for each partition and group that was added.
    fn prepared_plain(
        &self,
        alloc: Global,
        outcome: TransactionResult,
    ) -> Result<Change, AllocError>
        ensures { IfOk result
            (λ change. transition_of self.now change ≡ plain_prepare_transition self.now outcome) }
    {
        let owed = self.markers(alloc, self.pair, outcome)?;
        let prepared = Standing {
            state: TransactionState::prepared(outcome),
            ..self.standing()
        };
        Ok(Change::Moves(ErrorCode::None, prepared, Items::new(alloc), owed))
    }

    /// How an EndTxn ends the open transaction. In version 5 the markers carry the next epoch, and the id gets that epoch, or the
    /// producer id `next` if the epochs are used up.
    fn end_ongoing(
        &self,
        alloc: Global,
        form: EndForm,
        next: i64,
        outcome: TransactionResult,
    ) -> Result<Change, AllocError>
        requires { self.now.pair.epoch <ℤ last_epoch }
        ensures { IfOk result
            (λ change. transition_of self.now change ≡ end_ongoing form self.now next outcome) }
    {
        match form {
            EndForm::Plain | EndForm::Fencing => self.prepared_plain(alloc, outcome),
            EndForm::Raising => {
                let owed = self.markers(alloc, self.pair.raised(), outcome)?;
                self.renewed(alloc, next, TransactionState::prepared(outcome), owed)
            }
        }
    }

    /// What an EndTxn comes to if no transaction is open and no marker pending. Before version 5 it is answered `code`, and
    /// nothing changes. In version 5 a commit is answered INVALID_TXN_STATE, and an abort is answered NONE and moves the id to
    /// its next epoch (KIP-890).
    fn end_closed(
        &self,
        alloc: Global,
        form: EndForm,
        next: i64,
        outcome: TransactionResult,
        code: ErrorCode,
    ) -> Result<Change, AllocError>
        ensures { IfOk result
            (λ change. transition_of self.now change ≡ end_closed form self.now next outcome code) }
    {
        match (form, outcome) {
            (EndForm::Plain | EndForm::Fencing, _) => Ok(Change::Stays(code)),
            (EndForm::Raising, TransactionResult::Commit) => Ok(Change::Stays(
                ErrorCode::InvalidTxnState,
            )),
            (EndForm::Raising, TransactionResult::Abort) => {
                self.renewed(
                    alloc,
                    next,
                    TransactionState::CompleteAbort,
                    Items::new(alloc),
                )
            }
        }
    }

    /// What an EndTxn comes to for this record: the answer of a retry if it is one, a refusal if the producer id or epoch isn't
    /// the id's, else what `end_own` says. `next` is the next producer id to be given out.
    fn ended(&self, alloc: Global, next: i64, asked: &EndTransaction) -> Result<Change, AllocError>
        ensures { IfOk result
            (λ change. transition_of self.now change ≡ end_found (Some self.now) asked.now.form next
            asked.now.pair asked.now.outcome) }
    {
        if self.is_again(asked.form, asked.pair) {
            return Ok(Change::Stays(end_again(self.state, asked.outcome)));
        }
        match self.pair_refusal(asked.form.other_epoch(), asked.pair) {
            Some(code) => Ok(Change::Stays(code)),
            None => self.end_own(alloc, asked.form, next, asked.outcome),
        }
    }

    /// What an EndTxn comes to that has the id's own producer id and epoch. An open transaction is ended. While markers are
    /// pending the answer is CONCURRENT_TRANSACTIONS, or INVALID_TXN_STATE for the other outcome. Else nothing is open: see
    /// `end_closed`.
    fn end_own(
        &self,
        alloc: Global,
        form: EndForm,
        next: i64,
        outcome: TransactionResult,
    ) -> Result<Change, AllocError>
        requires { self.now.pair.epoch <ℤ last_epoch }
        ensures { IfOk result
            (λ change. transition_of self.now change ≡ end_in self.now.state form self.now next
            outcome) }
    {
        match (self.state, outcome) {
            (TransactionState::Ongoing, _) => self.end_ongoing(alloc, form, next, outcome),
            (TransactionState::PrepareCommit, TransactionResult::Commit)
            | (TransactionState::PrepareAbort, TransactionResult::Abort) => {
                Ok(Change::Stays(ErrorCode::ConcurrentTransactions))
            }
            (TransactionState::PrepareCommit, TransactionResult::Abort)
            | (TransactionState::PrepareAbort, TransactionResult::Commit) => {
                Ok(Change::Stays(ErrorCode::InvalidTxnState))
            }
            (TransactionState::CompleteCommit, TransactionResult::Commit)
            | (TransactionState::CompleteAbort, TransactionResult::Abort) => {
                self.end_closed(alloc, form, next, outcome, ErrorCode::None)
            }
            (TransactionState::Empty, _)
            | (TransactionState::CompleteCommit, TransactionResult::Abort)
            | (TransactionState::CompleteAbort, TransactionResult::Commit) => {
                self.end_closed(alloc, form, next, outcome, ErrorCode::InvalidTxnState)
            }
        }
    }

    /// Does an EndTxn. Answers the id's producer id and epoch, or INVALID_PRODUCER_ID_MAPPING, INVALID_PRODUCER_EPOCH,
    /// PRODUCER_FENCED, CONCURRENT_TRANSACTIONS or INVALID_TXN_STATE. Appends the owners of new producer ids to `given`, whose
    /// length is the next producer id, and new pending markers to `owed`. An allocation failure changes nothing.
    pub(crate) fn end(
        &mut self,
        alloc: Global,
        given: &mut Vec<Option<Text>>,
        owed: &mut PendingMarkers,
        asked: &EndTransaction,
    ) -> Result<ProducerIdAnswer, AllocError>
        ensures ok { OnOk result
            (self.new ≡ record_after
            (end_found (Some self.old) asked.now.form (pos (length given.old.items)) asked.now.pair
            asked.now.outcome) self.old) }
        ensures given { OnOk result
            (given.new.items ≡ given.old.items
            ++ given_for
            (end_found (Some self.old) asked.now.form (pos (length given.old.items)) asked.now.pair
            asked.now.outcome)) }
        ensures owed { OnOk result
            (owed.new ≡ owed.old
            ++ pending_markers_for
            (end_found (Some self.old) asked.now.form (pos (length given.old.items)) asked.now.pair
            asked.now.outcome)) }
        ensures answer { IfOk result
            (λ answer. answer
            ≡ id_and_epoch_answer
            (transition_code
            (end_found (Some self.old) asked.now.form (pos (length given.old.items))
            asked.now.pair asked.now.outcome)) (Some self.new)) }
        ensures err { OnErr result (self.new ≡ self.old) }
        ensures given_err { OnErr result (given.new.items ≡ given.old.items) }
        ensures owed_err { OnErr result (owed.new ≡ owed.old) }
    {
        let change = self.ended(alloc, given.len() as i64, asked)?;
        self.take(given, owed, change)
    }

    /// Whether the call is a retry of the version 5 EndTxn that ended the last transaction: it has the producer id and epoch of
    /// that one.
    fn is_again(&self, form: EndForm, pair: ProducerIdAndEpoch) -> bool
        ensures { result ≡ is_again form self.now pair }
    {
        match (form, self.kept) {
            (EndForm::Raising, Some(kept)) => kept.is_same(pair),
            _ => false,
        }
    }
}

/// The answer to a retry of a version 5 EndTxn: CONCURRENT_TRANSACTIONS while the markers are pending, NONE once they are
/// written, INVALID_TXN_STATE if it asks for the other outcome.
fn end_again(state: TransactionState, outcome: TransactionResult) -> ErrorCode
    ensures { result ≡ end_again state outcome }
{
    match (state, outcome) {
        (TransactionState::PrepareCommit, TransactionResult::Commit)
        | (TransactionState::PrepareAbort, TransactionResult::Abort) => {
            ErrorCode::ConcurrentTransactions
        }
        (TransactionState::CompleteCommit, TransactionResult::Commit)
        | (TransactionState::CompleteAbort, TransactionResult::Abort) => { ErrorCode::None }
        _ => ErrorCode::InvalidTxnState,
    }
}
