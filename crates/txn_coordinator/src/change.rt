//! What an InitProducerId or EndTxn changes of the record of a transactional id, worked out before anything is changed.

ghost use Rattle.std.specs.Prelude.{◌≡◌, ◌++◌, Some, OnOk, OnErr, IfOk};
ghost use Rattle.txn_coordinator.specs.Coordinator.{transition_code, given_for, pending_markers_for, id_and_epoch_answer};
ghost use Rattle.txn_coordinator.specs.Adding.{record_after};
ghost use Rattle.txn_coordinator.specs.Changes.{standing_of, with_standing, transition_of};

use crate::marker::PendingMarker;
use crate::pending_markers::PendingMarkers;
use crate::producer_id::{ProducerIdAndEpoch, ProducerIdAnswer};
use crate::transaction::{Transaction, TransactionState};
use std::alloc::AllocError;
use wire_types::{ErrorCode, Items, Shared, Text};

/// What an InitProducerId or EndTxn may change of the record of a transactional id.
#[derive(Clone, Copy, Debug, PartialEq, Eq)]
pub struct Standing {
    pub pair: ProducerIdAndEpoch,
    /// How long a transaction may stay open, in milliseconds.
    pub timeout: u32,
    pub state: TransactionState,
    /// The producer id and epoch by which a retry of an EndTxn of version 5 is known.
    pub kept: Option<ProducerIdAndEpoch>,
}

/// What an InitProducerId or EndTxn comes to for the record of a transactional id, before anything is changed.
#[derive(Drop)]
pub enum Change {
    /// The call is answered this error code, and the record stays as it is.
    Stays(ErrorCode),
    /// The call is answered this error code, and the record gets these values. The owners of the producer ids that are newly
    /// given out follow, then the new pending markers.
    Moves(ErrorCode, Standing, Items<Option<Text>>, Items<Shared<PendingMarker>>),
}

impl Transaction {
    /// The values of this record that an InitProducerId or EndTxn may change.
    pub(crate) fn standing(&self) -> Standing
        ensures { result ≡ standing_of self.now }
    {
        Standing {
            pair: self.pair,
            timeout: self.timeout,
            state: self.state,
            kept: self.kept,
        }
    }

    /// Sets the values that an InitProducerId or EndTxn changed.
    fn stand(&mut self, standing: Standing)
        ensures { self.new ≡ with_standing standing self.old }
    {
        self.pair = standing.pair;
        self.timeout = standing.timeout;
        self.state = standing.state;
        self.kept = standing.kept;
    }

    /// The answer with this error code: for NONE it has the id's producer id and epoch, else no producer id.
    fn answer(&self, code: ErrorCode) -> ProducerIdAnswer
        ensures { result ≡ id_and_epoch_answer code (Some self.now) }
    {
        match code {
            ErrorCode::None => ProducerIdAnswer {
                code,
                pair: self.pair,
            },
            _ => ProducerIdAnswer::refused(code),
        }
    }

    /// Carries a change out, and returns the answer. Appends the owners of new producer ids to `given`, whose places are the
    /// producer ids, and the new markers to `owed`. An allocation failure changes nothing.
    pub(crate) fn take(
        &mut self,
        given: &mut Vec<Option<Text>>,
        owed: &mut PendingMarkers,
        change: Change,
    ) -> Result<ProducerIdAnswer, AllocError>
        ensures ok { OnOk result
            (self.new ≡ record_after (transition_of self.old change) self.old) }
        ensures given { OnOk result
            (given.new.items ≡ given.old.items ++ given_for (transition_of self.old change)) }
        ensures owed { OnOk result
            (owed.new ≡ owed.old ++ pending_markers_for (transition_of self.old change)) }
        ensures answer { IfOk result
            (λ answer. answer
            ≡ id_and_epoch_answer (transition_code (transition_of self.old change))
            (Some self.new)) }
        ensures err { OnErr result (self.new ≡ self.old) }
        ensures given_err { OnErr result (given.new.items ≡ given.old.items) }
        ensures owed_err { OnErr result (owed.new ≡ owed.old) }
    {
        match change {
            Change::Stays(code) => Ok(self.answer(code)),
            Change::Moves(code, standing, more, markers) => {
                let mut more = more.into_vec()?;
                given.reserve(more.len())?;
                owed.append(markers)?;
                given.append(&mut more).unwrap();
                self.stand(standing);
                Ok(self.answer(code))
            }
        }
    }
}
