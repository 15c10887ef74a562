//! Produce: appends batches to partitions.

ghost use Rattle.std.specs.Prelude.{◌≡◌, ◌≤◌, ◌+◌, [], length, IfOk, OnOk};
ghost use Rattle.std.specs.Option.{option_copied};
ghost use Rattle.walk.specs.Walk.{asked_in, topics_weight};
ghost use Rattle.broker_world.specs.HandlerResult.{HandlerMeets};
ghost use Rattle.broker_world.specs.Logs.{MayWrite, offsets_left, most_end};
ghost use Rattle.data_handlers.specs.Sent.{batch_or_fault};
ghost use Rattle.data_handlers.specs.Judged.{partition_at, id_and_epoch_of, held_code, are_acks, given_code, producer_code, batch_or_error, batch_in, batch_to_append, topics_produced, records_size};
ghost use Rattle.data_handlers.specs.Produce.{produced_error, produced_at, produced_to, produce_failure, produce_answer, producing_rule, produce_reply, produce_outcome};

use acl_binding::{Caller, Kind, Operation};
use authorizer::{
    Paid, Permit, Policy, Settled, Spent, again_if_given, ask_given, settle_if_given,
};
use broker_world::{HandlerResult, State, Topics, non_negative, refused_by, served_in_parts};
use msg_admin::Reply;
use msg_data::{ProduceReply, ProduceRequest, ProducedOffset, ProducedRecords};
use partition_log::Log;
use record_batch::{Batch, BatchFault, BatchHeader, SentBatch};
use std::alloc::{AllocError, Global};
use txn_coordinator::{Coordinator, ProducerIdAndEpoch, ProducerIdOwner, Target, TopicPartition};
use walk::{Part, PartApi, refusal_code, walk};
use wire_types::{Boxed, ErrorCode, Items, Text, Topic};

/// How a Produce serves a partition: `id` is the transactional id, `asked` what the policy answered to WRITE on it, and `most`
/// the greatest size of a batch in bytes.
#[derive(Drop)]
pub(crate) struct ProduceHandler<'a> {
    pub(crate) caller: &'a Caller,
    pub(crate) id: &'a Option<Boxed<Text>>,
    pub(crate) asked: &'a Option<Settled>,
    pub(crate) acks: i16,
    pub(crate) most: u32,
    pub(crate) coordinator: &'a Coordinator,
}

impl<'a> PartApi<ProducedRecords, ProducedOffset, Topics> for ProduceHandler<'a> {
    ghost use Rattle.std.specs.Prelude.{false};
    ghost use Rattle.std.specs.Option.{option_map};
    ghost use Rattle.acl_binding.specs.declared.words.Kind.TheVariants as kinds;
    ghost use Rattle.acl_binding.specs.declared.words.Operation.TheVariants as operations;
    ghost use Rattle.acl_binding.specs.Verdict.{question_of};
    ghost use Rattle.authorizer.specs.Settled.{settled_value_if_given};
    ghost use Rattle.data_handlers.specs.Produce.{produce_rule};

    ghost rule = { λ api. produce_rule api.caller.now api.most api.coordinator.now api.id.now api.acks };

    ghost cuts = { λ _. false };

    ghost settles = { λ api policy. api.asked.now ≡ settled_value_if_given policy (option_map (question_of api.caller.now operations.Write kinds.TransactionalId) api.id.now) };

    /// Asks whether the caller may WRITE on the request's transactional id, if it has one, and on the topic. If so, it
    /// appends the partition's batch, else it answers the refusal's code.
    fn serve(
        &self,
        _alloc: Global,
        policy: &Policy,
        topics: &mut Topics,
        name: &Text,
        part: &ProducedRecords,
    ) -> Result<Part<ProducedOffset>, AllocError> {
        let records = part.records.clone()?;
        let target = partition_at(name, part.index)?;
        let id = again_if_given(self.asked)?;
        let topic = self.caller.asks(Operation::Write, Kind::Topic, name)?;
        match ask_given(policy, id, topic) {
            Ok(given) => {
                let (given, permit) = given.last(policy);
                let (spent, answer) = self.grant(
                    policy, permit, topics, name, part, &target, records,
                )?;
                Ok(Part::served(answer, Paid::given(given, spent)))
            }
            Err(refusal) => {
                let answer = produced_error(refusal_code(&refusal), part);
                Ok(Part::refused(answer, refusal))
            }
        }
    }
}

impl<'a> ProduceHandler<'a> {
    /// Appends the batch of a partition whose questions were granted, if it may be appended, and returns the partition's
    /// answer. Spends the permit in any case. `target` is the partition as transactions name it, `records` the batch that was
    /// sent for it.
    fn grant(
        &self,
        policy: &Policy,
        permit: Permit,
        topics: &mut Topics,
        name: &Text,
        part: &ProducedRecords,
        target: &Target,
        records: Option<SentBatch>,
    ) -> Result<(Spent, ProducedOffset), AllocError>
        requires permit { MayWrite policy.now name.now permit }
        requires target { target.now ≡ partition_at name.now part.now.index }
        requires records { records ≡ part.now.records }
        requires budget { records_size part.now.records ≤ offsets_left topics.old }
        ensures spent { IfOk result (λ r. r.0 ≡ permit.question) }
        ensures topics { OnOk result
            (topics.new ≡ topics_produced
            (batch_to_append self.now.most self.now.coordinator.now self.now.id.now
            self.now.acks (partition_at name.now part.now.index) part.now.records)
            topics.old name.now part.now.index) }
        ensures answer { IfOk result
            (λ r. r.1 ≡ produce_answer
            (batch_to_append self.now.most self.now.coordinator.now self.now.id.now
            self.now.acks (partition_at name.now part.now.index) part.now.records)
            topics.old name.now part.now) }
    {
        let batch = self.judge(target, records);
        produce(policy, permit, topics, name, part, batch)
    }

    /// The batch to append, or the error code for which none is: INVALID_REQUIRED_ACKS, INVALID_RECORD, the code of the batch's
    /// fault, or that of its producer (see `producer_code`). What `Topics::append` checks isn't checked here: that the partition
    /// exists, and the epoch and sequence number that its log has of the producer.
    fn judge(&self, target: &Target, records: Option<SentBatch>) -> Result<Batch, ErrorCode>
        ensures { result ≡ batch_to_append self.now.most self.now.coordinator.now self.now.id.now
            self.now.acks target.now records }
    {
        if !are_acks(self.acks) {
            return Err(ErrorCode::InvalidRequiredAcks);
        }
        batch_in(records, self.most, self.coordinator, self.id, target)
    }
}

/// Spends the permit in any case. If `batch` is one, hands it to `Topics::append`, which appends it or refuses it by a code of
/// its own. Returns the evidence of the permit and the partition's answer: the offset or an error code, for a partition that
/// doesn't exist always UNKNOWN_TOPIC_OR_PARTITION.
fn produce(
    policy: &Policy,
    permit: Permit,
    topics: &mut Topics,
    name: &Text,
    part: &ProducedRecords,
    batch: Result<Batch, ErrorCode>,
) -> Result<(Spent, ProducedOffset), AllocError>
    requires permit { MayWrite policy.now name.now permit }
    requires budget { IfOk batch (λ b. most_end topics.old + length b.bytes ≤ 9223372036854775807) }
    ensures spent { IfOk result (λ r. r.0 ≡ permit.question) }
    ensures topics { OnOk result
        (topics.new ≡ topics_produced batch topics.old name.now part.now.index) }
    ensures answer { IfOk result (λ r. r.1 ≡ produce_answer batch topics.old name.now part.now) }
{
    match batch {
        Ok(batch) => {
            let (spent, offset) = topics.append(policy, permit, name, part.index, batch);
            let offset = offset?;
            Ok((spent, produced_to(part, offset)))
        }
        Err(code) => {
            let spent = permit.spend(policy);
            Ok((spent, unproduced(code, part, topics.log(name, part.index))))
        }
    }
}

/// The partition of this topic as transactions name it, with a copy of the topic's name.
fn partition_at(name: &Text, index: i32) -> Result<Target, AllocError>
    ensures { IfOk result (λ target. target ≡ partition_at name.now index) }
{
    let topic = name.clone()?;
    Ok(Target::Partition(TopicPartition { topic, index }))
}

/// A partition's answer with this error code, and offset -1.
fn produced_error(error: ErrorCode, part: &ProducedRecords) -> ProducedOffset
    ensures { result ≡ produced_error error part.now }
{
    ProducedOffset {
        index: part.index,
        error,
        base_offset: -1,
        log_append_time: -1,
    }
}

/// A partition's answer if its batch stands at this offset.
fn produced_at(offset: i64, part: &ProducedRecords) -> ProducedOffset
    ensures { result ≡ produced_at offset part.now }
{
    ProducedOffset {
        index: part.index,
        error: ErrorCode::None,
        base_offset: offset,
        log_append_time: -1,
    }
}

/// A partition's answer: the offset at which its batch stands, or the error code.
fn produced_to(part: &ProducedRecords, offset: Result<i64, ErrorCode>) -> ProducedOffset
    ensures { result ≡ produced_to part.now offset }
{
    match offset {
        Ok(offset) => produced_at(offset, part),
        Err(code) => produced_error(code, part),
    }
}

/// A partition's answer if there is no batch to append: this error code, but UNKNOWN_TOPIC_OR_PARTITION if there is no such
/// partition (`log` is `None`).
fn unproduced(code: ErrorCode, part: &ProducedRecords, log: Option<&Log>) -> ProducedOffset
    ensures { result ≡ produce_failure code part.now (option_copied log.entry) }
{
    match log {
        Some(_) => produced_error(code, part),
        None => produced_error(ErrorCode::UnknownTopicOrPartition, part),
    }
}

/// The batch that was sent for a partition, if it has at most `most` bytes and no fault, and its producer may send it. Missing
/// or empty records are answered INVALID_RECORD.
fn batch_in(
    records: Option<SentBatch>,
    most: u32,
    coordinator: &Coordinator,
    id: &Option<Boxed<Text>>,
    target: &Target,
) -> Result<Batch, ErrorCode>
    ensures { result ≡ batch_in most coordinator.now id.now target.now records }
{
    match records {
        Some(records) if records.len() != 0 => {
            passed(coordinator, id, target, sent(records, most))
        },
        _ => Err(ErrorCode::InvalidRecord),
    }
}

/// The batch if its producer may send it, else the error code: that of the batch's fault, or that of the producer.
fn passed(
    coordinator: &Coordinator,
    id: &Option<Boxed<Text>>,
    target: &Target,
    batch: Result<Batch, BatchFault>,
) -> Result<Batch, ErrorCode>
    ensures { result ≡ batch_or_error coordinator.now id.now target.now batch }
{
    match batch {
        Ok(batch) => match producer_code(coordinator, id, target, &batch.header()) {
            Some(code) => Err(code),
            None => Ok(batch),
        },
        Err(fault) => Err(fault.code()),
    }
}

/// Whether `acks` is a value that Kafka knows: all (-1), none (0) or the leader (1).
fn are_acks(acks: i16) -> bool
    ensures { result ≡ are_acks acks }
{
    acks == -1 || acks == 0 || acks == 1
}

/// The batch that was sent, if it has at most `most` bytes and no fault, else its first fault.
fn sent(records: SentBatch, most: u32) -> Result<Batch, BatchFault>
    ensures { result ≡ batch_or_fault most records }
{
    records.batch(most)
}

/// The error code by which a batch with this header is refused because of its producer; `None` if it may be appended. A
/// transactional batch needs an open transaction that has this partition (`held_code`). Any other needs no producer id, or one
/// that was given to an idempotent producer (`given_code`).
fn producer_code(
    coordinator: &Coordinator,
    id: &Option<Boxed<Text>>,
    target: &Target,
    header: &BatchHeader,
) -> Option<ErrorCode>
    ensures { result ≡ producer_code coordinator.now id.now target.now header.now }
{
    if header.is_transactional() {
        return held_code(coordinator, id, pair_of(header), target);
    }
    if header.producer_id < 0 {
        return None;
    }
    given_code(coordinator.given(header.producer_id))
}

/// The producer id and epoch of a batch.
fn pair_of(header: &BatchHeader) -> ProducerIdAndEpoch
    ensures { result ≡ id_and_epoch_of header.now }
{
    ProducerIdAndEpoch {
        producer: header.producer_id,
        epoch: header.producer_epoch,
    }
}

/// The error code by which a transactional batch is refused: that of `Coordinator::holds`, or INVALID_TXN_STATE without a
/// transactional id. `None` if this producer has an open transaction with this partition.
fn held_code(
    coordinator: &Coordinator,
    id: &Option<Boxed<Text>>,
    pair: ProducerIdAndEpoch,
    target: &Target,
) -> Option<ErrorCode>
    ensures { result ≡ held_code coordinator.now id.now pair target.now }
{
    match id {
        Some(id) => refused_by(coordinator.holds(id.value(), pair, target)),
        None => Some(ErrorCode::InvalidTxnState),
    }
}

/// The error code by which a batch outside transactions is refused, by the owner of its producer id:
/// INVALID_PRODUCER_ID_MAPPING if the id was never given, INVALID_TXN_STATE if it belongs to a transactional id; `None` if
/// it may be appended.
fn given_code(given: ProducerIdOwner) -> Option<ErrorCode>
    ensures { result ≡ given_code given }
{
    match given {
        ProducerIdOwner::Never => Some(ErrorCode::InvalidProducerIdMapping),
        ProducerIdOwner::Free => None,
        ProducerIdOwner::Owned => Some(ErrorCode::InvalidTxnState),
    }
}

/// The Produce reply with these answers. With acks 0 it is a `SilentProduce`, which isn't sent.
fn produce_reply(
    alloc: Global,
    acks: i16,
    topics: Items<Topic<ProducedOffset>>,
) -> Result<Reply, AllocError>
    ensures { IfOk result (λ reply. reply ≡ produce_reply acks topics) }
{
    let reply = ProduceReply {
        topics,
        throttle: 0,
    };
    let reply = Boxed::new(alloc, reply)?;
    if acks == 0 {
        Ok(Reply::SilentProduce(reply))
    } else {
        Ok(Reply::Produce(reply))
    }
}

/// Handles a Produce: appends the batch of each partition whose topic the caller may WRITE, if it may WRITE on the
/// transactional id too. A refused partition is answered TRANSACTIONAL_ID_ or TOPIC_AUTHORIZATION_FAILED, any other its base
/// offset or an error code. After an allocation failure some batches may have been appended.
pub fn answer_produce(
    alloc: Global,
    state: &mut State,
    caller: &Caller,
    request: &ProduceRequest,
) -> Result<HandlerResult, AllocError>
    requires { topics_weight (producing_rule state.old caller.now request.now) request.now.topics
        ≤ offsets_left state.old.topics }
    ensures { HandlerMeets state.old state.new
        (produce_outcome state.old caller.now request.now)
        [] (asked_in (producing_rule state.old caller.now request.now) request.now.topics) result }
{
    let id = &request.transactional_id;
    let asks = caller.asks_given(Operation::Write, Kind::TransactionalId, id)?;
    let asked = settle_if_given(&state.policy, asks);
    let api = ProduceHandler {
        caller,
        id,
        asked: &asked,
        acks: request.acks,
        most: non_negative(state.cluster.node().max_batch),
        coordinator: &state.coordinator,
    };
    let topics = request.topics.as_slice();
    let walked = walk(alloc, &api, &state.policy, &mut state.topics, topics)?;
    let reply = produce_reply(alloc, request.acks, walked.topics)?;
    Ok(served_in_parts(reply, walked.refusals, walked.spent))
}
