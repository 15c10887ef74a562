//! Transactions that are open for longer than their timeout.

ghost use Rattle.std.specs.Prelude.{◌≡◌, IfOk};
ghost use Rattle.std.specs.List.{flat_map};
ghost use Rattle.txn_coordinator.specs.Expiry.{is_due, fenced_if_due, expiry_markers};
ghost use Rattle.txn_coordinator.specs.Bounds.{CanRaise, AllCanRaise};
ghost use Rattle.txn_coordinator.specs.Kept.{all_expired};
ghost use Rattle.indexmap.specs.IndexMap.{values};

use crate::marker::PendingMarker;
use crate::transaction::{Transaction, TransactionState};
use indexmap::IndexMap;
use record_batch::TransactionResult;
use std::alloc::{AllocError, Global};
use std::hash::RandomState;
use wire_types::{Items, Shared};

impl Transaction {
    /// Whether the transaction is open for longer than its timeout at `moment`, in milliseconds.
    fn is_due(&self, moment: u64) -> bool
        ensures { result ≡ is_due moment self.now }
    {
        self.state.is_ongoing()
            && self.start < moment
            && u64::from(self.timeout) < moment - self.start
    }

    /// Raises the epoch and sets the state to PrepareAbort, if the transaction's timeout is over at `moment`, in milliseconds.
    fn expire(&mut self, moment: u64)
        requires { CanRaise self.old }
        ensures { self.new ≡ fenced_if_due moment self.old }
    {
        if self.is_due(moment) {
            self.pair = self.pair.raised();
            self.state = TransactionState::PrepareAbort;
        }
    }
}

/// The abort markers of all transactions whose timeout is over at `moment`, in milliseconds. They carry the raised epochs.
pub(crate) fn expiry_markers(
    alloc: Global,
    transactions: &[Transaction],
    moment: u64,
) -> Result<Items<Shared<PendingMarker>>, AllocError>
    requires { AllCanRaise transactions.now }
    ensures { IfOk result (λ owed. owed ≡ flat_map (expiry_markers moment) transactions.now) }
{
    let mut owed = Vec::new(alloc);
    for transaction in transactions {
        if transaction.is_due(moment) {
            let pair = transaction.pair.raised();
            let markers = transaction.markers(alloc, pair, TransactionResult::Abort)?;
            owed.append(&mut markers.into_vec()?)?;
        }
    }
    Ok(Items::from(owed))
}

/// Raises the epoch of each open transaction whose timeout is over at `moment`, in milliseconds, and sets it to PrepareAbort.
pub(crate) fn expire_all(records: &mut IndexMap<String, Transaction, RandomState>, moment: u64)
    requires { AllCanRaise (values records.old) }
    ensures { records.new.entries ≡ all_expired moment records.old.entries }
{
    for place in 0..records.len() {
        records[place].expire(moment);
    }
}
