//! The coordinator: transactional ids, producer ids given out, and the markers that are pending.

ghost use Rattle.std.specs.Prelude.{◌≡◌, ◌+◌, ◌<◌, ◌^◌, [], IfOk, OnOk, OnErr, Some, None, length};
ghost use Rattle.std.specs.Option.{option_copied};
ghost use Rattle.txn_coordinator.specs.Coordinator.{no_transactions, apply_transition, transition_code, transition_answer, fresh_producer_id, owner, given_by, given_free};
ghost use Rattle.txn_coordinator.specs.InitProducerId.{init};
ghost use Rattle.txn_coordinator.specs.Adding.{add_partitions, add_group};
ghost use Rattle.txn_coordinator.specs.EndTxn.{end};
ghost use Rattle.txn_coordinator.specs.Expiry.{expire};
ghost use Rattle.txn_coordinator.specs.Holding.{holding_code, is_usable};
ghost use Rattle.txn_coordinator.specs.Warrants.{next_warrant, with_front_written};
ghost use Rattle.txn_coordinator.specs.Permission.{MayWrite};

use crate::ending::EndTransaction;
use crate::expiry::expiry_markers;
use crate::init::timeout_within;
use crate::marker::PendingMarker;
use crate::pending_markers::PendingMarkers;
use crate::producer_id::{ProducerIdAndEpoch, ProducerIdAnswer, ProducerIdOwner};
use crate::records::Records;
use crate::target::{Target, TopicPartition};
use crate::transaction::{LAST_EPOCH, Transaction};
use crate::warrant::Warrant;
use authorizer::{Permit, Policy, Spent};
use std::alloc::{AllocError, Global};
use std::hash::RandomState;
use std::marker::Model;
use wire_types::{ErrorCode, Text};

/// The transaction coordinator: the record of each transactional id, the owners of the producer ids given out, and the pending
/// markers.
#[derive(Drop)]
pub struct Coordinator {
    records: Records,
    given: Vec<Option<Text>>,
    owed: PendingMarkers,
}

impl Model for Coordinator {
    ghost use Rattle.txn_coordinator.specs.Coordinator.{CoordinatorValue};
    ghost use Rattle.txn_coordinator.specs.Bounds.{AreInRange};

    ghost Value = { CoordinatorValue };

    ghost view = { λ c. record { transactions = c.records.list; given = c.given.items; warrants = c.owed } };

    ghost use Rattle.std.specs.Prelude.{length};

    ghost invariant = { λ c. AreInRange (length c.given.items) c.records.list };
}

impl Coordinator {
    /// A coordinator without transactional ids, producer ids and markers. Ids are hashed by `hasher`; no answer depends on it. It
    /// allocates nothing.
    pub fn new(alloc: Global, hasher: RandomState) -> Coordinator
        ensures { result ≡ no_transactions }
    {
        Coordinator {
            records: Records::new(alloc, hasher),
            given: Vec::new(alloc),
            owed: PendingMarkers::new(alloc, hasher),
        }
    }

    /// InitProducerId for a transactional id. Spends the permit, whatever comes of it. Errors: INVALID_REQUEST for the empty
    /// id, INVALID_TRANSACTION_TIMEOUT if `timeout` isn't from 1 to `greatest` (both in milliseconds), and
    /// CONCURRENT_TRANSACTIONS while a transaction is open, which is then fenced and aborted, or while markers are pending. An
    /// allocation failure changes nothing.
    pub fn init(
        &mut self,
        alloc: Global,
        policy: &Policy,
        permit: Permit,
        id: &Text,
        timeout: i32,
        greatest: i32,
    ) -> (Spent, Result<ProducerIdAnswer, AllocError>)
        requires { MayWrite policy.now permit id.now }
        ensures spent { result.0 ≡ permit.question }
        ensures ok { OnOk result.1
            (self.new ≡ apply_transition self.old (init self.old id.now timeout greatest)) }
        ensures answer { IfOk result.1
            (λ answer. answer ≡ transition_answer self.old id.now
            (init self.old id.now timeout greatest)) }
        ensures err { OnErr result.1 (self.new ≡ self.old) }
    {
        let spent = permit.spend(policy);
        if id.is_empty() {
            return (
                spent,
                Ok(ProducerIdAnswer::refused(ErrorCode::InvalidRequest)),
            );
        }
        let Some(timeout) = timeout_within(timeout, greatest) else {
            return (
                spent,
                Ok(ProducerIdAnswer::refused(ErrorCode::InvalidTransactionTimeout)),
            );
        };
        let (given, owed) = (&mut self.given, &mut self.owed);
        (spent, self.records.init(alloc, given, owed, id, timeout))
    }

    /// AddPartitionsToTxn at `moment`, in milliseconds. Spends the permit, whatever comes of it. An empty list of partitions is
    /// answered NONE. Errors: INVALID_REQUEST for the empty id, INVALID_PRODUCER_ID_MAPPING, INVALID_PRODUCER_EPOCH, and
    /// CONCURRENT_TRANSACTIONS while markers are pending. With an error, or on an allocation failure, nothing changes. Whether
    /// the partitions exist isn't checked here.
    pub fn add_partitions(
        &mut self,
        policy: &Policy,
        permit: Permit,
        id: &Text,
        pair: ProducerIdAndEpoch,
        moment: u64,
        partitions: &[TopicPartition],
    ) -> (Spent, Result<ErrorCode, AllocError>)
        requires { MayWrite policy.now permit id.now }
        ensures spent { result.0 ≡ permit.question }
        ensures ok { OnOk result.1
            (self.new ≡ apply_transition self.old
            (add_partitions self.old id.now pair moment partitions.now)) }
        ensures code { IfOk result.1
            (λ code. code ≡ transition_code
            (add_partitions self.old id.now pair moment partitions.now)) }
        ensures err { OnErr result.1 (self.new ≡ self.old) }
    {
        let spent = permit.spend(policy);
        if partitions.is_empty() {
            return (spent, Ok(ErrorCode::None));
        }
        if id.is_empty() {
            return (spent, Ok(ErrorCode::InvalidRequest));
        }
        (
            spent,
            self.records.add_partitions(id, pair, moment, partitions),
        )
    }

    /// AddOffsetsToTxn at `moment`, in milliseconds. Spends the permit, whatever comes of it. Errors: INVALID_REQUEST for the
    /// empty id, INVALID_PRODUCER_ID_MAPPING, INVALID_PRODUCER_EPOCH, and CONCURRENT_TRANSACTIONS while markers are pending.
    /// With an error, or on an allocation failure, nothing changes.
    pub fn add_group(
        &mut self,
        policy: &Policy,
        permit: Permit,
        id: &Text,
        pair: ProducerIdAndEpoch,
        moment: u64,
        group: &Text,
    ) -> (Spent, Result<ErrorCode, AllocError>)
        requires { MayWrite policy.now permit id.now }
        ensures spent { result.0 ≡ permit.question }
        ensures ok { OnOk result.1
            (self.new ≡ apply_transition self.old
            (add_group self.old id.now pair moment group.now)) }
        ensures code { IfOk result.1
            (λ code. code ≡ transition_code (add_group self.old id.now pair moment group.now)) }
        ensures err { OnErr result.1 (self.new ≡ self.old) }
    {
        let spent = permit.spend(policy);
        if id.is_empty() {
            return (spent, Ok(ErrorCode::InvalidRequest));
        }
        (spent, self.records.add_group(id, pair, moment, group))
    }

    /// EndTxn. Spends the permit, whatever comes of it. Errors: INVALID_REQUEST for the empty id, INVALID_PRODUCER_ID_MAPPING,
    /// INVALID_PRODUCER_EPOCH or PRODUCER_FENCED by version, CONCURRENT_TRANSACTIONS while the markers of the same outcome are
    /// pending, and INVALID_TXN_STATE. NONE for an open transaction only prepares it: its markers are then pending. With NONE
    /// the answer has the id's producer id and epoch, which replies before version 5 leave out. An allocation failure changes
    /// nothing.
    pub fn end(
        &mut self,
        alloc: Global,
        policy: &Policy,
        permit: Permit,
        asked: &EndTransaction,
    ) -> (Spent, Result<ProducerIdAnswer, AllocError>)
        requires { MayWrite policy.now permit asked.now.id.now }
        ensures spent { result.0 ≡ permit.question }
        ensures ok { OnOk result.1
            (self.new ≡ apply_transition self.old
            (end self.old asked.now.form asked.now.id.now asked.now.pair asked.now.outcome)) }
        ensures answer { IfOk result.1
            (λ answer. answer ≡ transition_answer self.old asked.now.id.now
            (end self.old asked.now.form asked.now.id.now asked.now.pair asked.now.outcome)) }
        ensures err { OnErr result.1 (self.new ≡ self.old) }
    {
        let spent: Spent = permit.spend(policy);
        if asked.id.is_empty() {
            return (
                spent,
                Ok(ProducerIdAnswer::refused(ErrorCode::InvalidRequest)),
            );
        }
        let (given, owed) = (&mut self.given, &mut self.owed);
        (spent, self.records.end(alloc, given, owed, asked))
    }

    /// Gives out a producer id to an idempotent producer that has no transactional id (InitProducerId with a null id). It takes
    /// no permit. An allocation failure changes nothing.
    pub fn fresh(&mut self) -> Result<i64, AllocError>
        ensures ok { OnOk result (self.new ≡ given_free self.old) }
        ensures id { IfOk result (λ producer. producer ≡ fresh_producer_id self.old) }
        ensures err { OnErr result (self.new ≡ self.old) }
    {
        let next = self.next_id();
        self.given.push(None)?;
        Ok(next)
    }

    /// To whom the producer id was given out; a negative one is `Never`. It allocates nothing.
    pub fn given(&self, producer: i64) -> ProducerIdOwner
        ensures { result ≡ given_by (owner self.now producer) }
    {
        let Ok(place) = usize::try_from(producer) else {
            return ProducerIdOwner::Never;
        };
        match self.given.get(place) {
            None => ProducerIdOwner::Never,
            Some(None) => ProducerIdOwner::Free,
            Some(Some(_)) => ProducerIdOwner::Owned,
        }
    }

    /// Whether a transactional batch of this producer may be appended to a partition, or its offsets staged for a group: NONE;
    /// or INVALID_PRODUCER_ID_MAPPING if `id` has no record or another producer id; INVALID_PRODUCER_EPOCH if the epoch isn't
    /// the id's, or for a group if it is the last (32,767); INVALID_TXN_STATE if no transaction is open or the target wasn't
    /// added. It allocates nothing.
    pub fn holds(&self, id: &Text, pair: ProducerIdAndEpoch, target: &Target) -> ErrorCode
        ensures { result ≡ holding_code self.now id.now pair target.now }
    {
        let Some(transaction) = self.records.get(id) else {
            return ErrorCode::InvalidProducerIdMapping;
        };
        if transaction.pair.producer != pair.producer {
            return ErrorCode::InvalidProducerIdMapping;
        }
        if transaction.pair.epoch != pair.epoch || !is_usable(target, pair.epoch) {
            return ErrorCode::InvalidProducerEpoch;
        }
        if transaction.state.is_ongoing() && transaction.has_target(target) {
            ErrorCode::None
        } else {
            ErrorCode::InvalidTxnState
        }
    }

    /// Fences and aborts each open transaction that is open for longer than its timeout at `moment`, in milliseconds: raises
    /// its epoch, sets it to PrepareAbort, and queues its abort markers. An allocation failure changes nothing.
    pub fn expire(&mut self, alloc: Global, moment: u64) -> Result<(), AllocError>
        ensures ok { OnOk result (self.new ≡ expire self.old moment) }
        ensures err { OnErr result (self.new ≡ self.old) }
    {
        let owed = expiry_markers(alloc, self.records.as_slice(), moment)?;
        self.owed.append(owed)?;
        self.records.expire(moment);
        Ok(())
    }

    /// The record of each transactional id, in the order of creation, for whoever runs the broker. It takes no permit.
    pub fn transactions(&self) -> &[Transaction]
        ensures { result.now ≡ self.now.transactions }
    {
        self.records.as_slice()
    }

    /// The pending marker that is to be written next, `None` if none is pending. It allocates nothing.
    pub fn front(&self) -> Option<&PendingMarker>
        ensures { option_copied result ≡ next_warrant self.now }
    {
        match self.owed.front() {
            Some(marker) => Some(marker.value()),
            None => None,
        }
    }

    /// The number of pending markers. It allocates nothing.
    pub fn owed(&self) -> usize
        ensures { result ≡ length self.now.warrants }
    {
        self.owed.len()
    }

    /// A warrant to write the front marker, `None` if none is pending. The marker stays pending until [`Coordinator::written`]
    /// takes the warrant back. It allocates nothing.
    pub fn next_warrant(&self) -> Option<Warrant>
        ensures { result ≡ next_warrant self.now }
    {
        match self.front() {
            Some(marker) => Some(Warrant::of(marker)),
            None => None,
        }
    }

    /// The marker that the warrant is for: what is to be written, and where. It allocates nothing.
    pub fn marker(&self, warrant: &Warrant) -> &PendingMarker
        requires { next_warrant self.now ≡ Some warrant.now }
        ensures { result.now ≡ warrant.now }
    {
        self.front().unwrap()
    }

    /// Takes the warrant back once its marker is written, and removes the marker. The last marker of a transactional id completes
    /// its transaction. It allocates nothing.
    pub fn written(&mut self, warrant: Warrant)
        requires { next_warrant self.old ≡ Some warrant }
        ensures { self.new ≡ with_front_written self.old }
    {
        warrant.end();
        let front = self.owed.pop();
        let marker = front.value();
        if !self.owed.owes(&marker.id) {
            self.records.complete(&marker.id, marker.outcome);
        }
    }

    /// Takes the warrant back after an allocation failure: its marker wasn't written, and stays pending.
    pub fn give_back(&self, warrant: Warrant)
        requires { next_warrant self.now ≡ Some warrant }
    {
        warrant.end();
    }
}

impl Coordinator {
    /// The next producer id to be given out.
    fn next_id(&self) -> i64
        ensures { result ≡ fresh_producer_id self.now }
    {
        self.given.len() as i64
    }
}

/// Whether a producer in this epoch may write to the target. The last epoch, in which nobody writes, is refused for a group only.
fn is_usable(target: &Target, epoch: i16) -> bool
    ensures { result ≡ is_usable target.now epoch }
{
    match target {
        Target::Partition(_) => true,
        Target::Group(_) => epoch < LAST_EPOCH,
    }
}
