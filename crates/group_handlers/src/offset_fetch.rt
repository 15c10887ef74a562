//! OffsetFetch: the committed offsets of a group.

ghost use Rattle.std.specs.Prelude.{◌≡◌, ◌≤◌, ◌<◌, ◌^◌, ◌∷◌, [], ◌++◌, false, length, map, pos, IfOk, OnOk};
ghost use Rattle.authorizer.specs.Asking.{policy_rules, part_paid};
ghost use Rattle.authorizer.specs.Tally.{count_after_parts};
ghost use Rattle.walk.specs.Steps.{ending_by, spent_in};
ghost use Rattle.broker_world.specs.HandlerResult.{HandlerMeets};
ghost use Rattle.broker_world.specs.World.{TopicValue};
ghost use Rattle.broker_world.specs.World.{rules_of};
ghost use Rattle.broker_world.specs.Questions.{topic_part, topic_refusal};
ghost use Rattle.group_handlers.specs.OffsetFetch.{group_question, fetched_code, fetched_at, fetched_offset, fetch_reply, listed_offset_at, listed_offsets_from, listed_topic_of, listed_topic, listed_topics, parts_asked, fetch_parts, fetched_outcome, offset_fetch_outcome};
ghost use Rattle.group_offsets.specs.Offsets.{fetch_result};

use acl_binding::{Caller, Kind, Operation, Question};
use authorizer::{Paid, Policy, Tally, ask_one};
use broker_world::{HandlerResult, Slot, State, refused_whole};
use group_offsets::{Offsets, PartitionOffset};
use msg_admin::Reply;
use msg_group::{FetchedOffset, OffsetFetchReply, OffsetFetchRequest};
use std::alloc::{AllocError, Global};
use walk::{Part, PartApi, refusal_code, walk};
use wire_types::{Boxed, ErrorCode, Items, Text, Topic};

/// Serves the partitions that an OffsetFetch names. It holds the caller, the group's offsets, and whether stable offsets are
/// required (`stable`, KIP-447): a partition of which a transaction that isn't over has staged an offset then has none.
#[derive(Drop)]
pub(crate) struct OffsetFetchHandler<'a> {
    pub(crate) caller: &'a Caller,
    pub(crate) offsets: &'a Offsets,
    pub(crate) stable: bool,
}

impl<'a> PartApi<i32, FetchedOffset, ()> for OffsetFetchHandler<'a> {
    ghost use Rattle.std.specs.Prelude.{false};
    ghost use Rattle.group_handlers.specs.OffsetFetch.{offset_rule};

    ghost rule = { λ api. offset_rule api.caller.now api.offsets.now api.stable };

    ghost cuts = { λ _. false };

    ghost settles = { λ _ _. Unit {0} };

    /// Answers the committed offset of one partition if the caller may DESCRIBE the topic, else TOPIC_AUTHORIZATION_FAILED.
    fn serve(
        &self,
        alloc: Global,
        policy: &Policy,
        _world: &mut (),
        name: &Text,
        part: &i32,
    ) -> Result<Part<FetchedOffset>, AllocError> {
        let topic = self.caller.asks(Operation::Describe, Kind::Topic, name)?;
        match ask_one(policy, topic) {
            Ok(permit) => {
                let paid = Paid::one(permit.spend(policy));
                let answer = fetched(alloc, self.offsets, self.stable, name, *part)?;
                Ok(Part::served(answer, paid))
            }
            Err(refusal) => {
                let answer = fetched_code(alloc, refusal_code(&refusal), *part)?;
                Ok(Part::refused(answer, refusal))
            }
        }
    }
}

/// The question whether the caller may DESCRIBE the group.
fn group_question(caller: &Caller, group: &Text) -> Result<Question, AllocError>
    ensures { IfOk result (λ question. question ≡ group_question caller.now group.now) }
{
    caller.asks(Operation::Describe, Kind::Group, group)
}

/// A partition's answer without an offset (-1): with an error code, or with NONE if nothing is committed.
fn fetched_code(alloc: Global, error: ErrorCode, index: i32) -> Result<FetchedOffset, AllocError>
    ensures { IfOk result (λ answer. answer ≡ fetched_code error index) }
{
    Ok(FetchedOffset {
        index,
        offset: -1,
        leader_epoch: -1,
        metadata: Some(Text::of(alloc, "")?),
        error,
    })
}

/// A partition's answer with its committed offset and metadata.
fn fetched_at(offset: &PartitionOffset, index: i32) -> Result<FetchedOffset, AllocError>
    ensures { IfOk result (λ answer. answer ≡ fetched_at offset.now index) }
{
    Ok(FetchedOffset {
        index,
        offset: offset.offset,
        leader_epoch: -1,
        metadata: Some(offset.metadata.clone()?),
        error: ErrorCode::None,
    })
}

/// A partition's answer: its committed offset, or -1 with NONE if there is none; UNSTABLE_OFFSET_COMMIT if `stable` is set and
/// a transaction that isn't over has staged an offset of it. Whether the partition exists isn't checked here.
fn fetched(
    alloc: Global,
    offsets: &Offsets,
    stable: bool,
    name: &Text,
    index: i32,
) -> Result<FetchedOffset, AllocError>
    ensures { IfOk result
        (λ answer. answer ≡ fetched_offset (fetch_result offsets.now stable name.now index) index) }
{
    match offsets.fetched(stable, name, index) {
        Ok(Some(offset)) => fetched_at(offset, index),
        Ok(None) => fetched_code(alloc, ErrorCode::None, index),
        Err(code) => fetched_code(alloc, code, index),
    }
}

/// The OffsetFetch reply with this error code and these answers.
fn fetch_reply(
    alloc: Global,
    error: ErrorCode,
    topics: Items<Topic<FetchedOffset>>,
) -> Result<Reply, AllocError>
    ensures { IfOk result (λ reply. reply ≡ fetch_reply error topics) }
{
    let reply = OffsetFetchReply {
        throttle: 0,
        topics,
        error,
    };
    Ok(Reply::OffsetFetch(Boxed::new(alloc, reply)?))
}

/// The answers for the partitions of a topic, from 0 up to but not including `count`, that have a committed offset, or with
/// `stable` a staged one (see `fetched`). Permission isn't asked.
fn told_from(
    alloc: Global,
    offsets: &Offsets,
    stable: bool,
    name: &Text,
    count: u32,
) -> Result<Items<FetchedOffset>, AllocError>
    requires { count ≤ 1000 }
    ensures { IfOk result (λ told. told ≡ listed_offsets_from offsets.now stable name.now 0 count) }
{
    let mut told = Items::new(alloc);
    for index in 0..count {
        push_told(alloc, &mut told, offsets, stable, name, index)?;
    }
    Ok(told)
}

/// Appends the partition's answer to the list `told`, if it has a committed offset, or with `stable` a staged one.
fn push_told(
    alloc: Global,
    told: &mut Items<FetchedOffset>,
    offsets: &Offsets,
    stable: bool,
    name: &Text,
    index: u32,
) -> Result<(), AllocError>
    requires { index < 2 ^ 31 }
    ensures { OnOk result
        (told.new ≡ told.old ++ listed_offset_at offsets.now stable name.now (pos index)) }
{
    let index = index as i32;
    if offsets.is_told(stable, name, index) {
        told.push(fetched(alloc, offsets, stable, name, index)?)?;
    }
    Ok(())
}

/// The answers for all partitions of a topic that have a committed offset, or with `stable` a staged one; `None` if there are
/// none. Permission isn't asked.
fn told_as(
    alloc: Global,
    offsets: &Offsets,
    stable: bool,
    slot: &Slot,
) -> Result<Option<Topic<FetchedOffset>>, AllocError>
    ensures { IfOk result
        (λ told. told ≡ listed_topic_of slot.now.name
        (listed_offsets_from offsets.now stable slot.now.name 0 (length slot.now.partitions))) }
{
    let count = slot.partitions.len();
    let partitions = told_from(alloc, offsets, stable, &slot.name, count)?;
    if partitions.len() == 0 {
        return Ok(None);
    }
    let name = slot.name.clone()?;
    Ok(Some(Topic { name, partitions }))
}

/// As `told_as`, if the caller may DESCRIBE the topic. `None` if not: a fetch of all offsets leaves such a topic out.
fn told_topic(
    alloc: Global,
    caller: &Caller,
    policy: &Policy,
    offsets: &Offsets,
    stable: bool,
    slot: &Slot,
) -> Result<Part<Option<Topic<FetchedOffset>>>, AllocError>
    ensures answer { IfOk result
        (λ part. part.answer ≡ listed_topic (policy_rules policy.now) caller.now offsets.now stable
        slot.now) }
    ensures ending { IfOk result
        (λ part. part.ending
        ≡ ending_by false (topic_refusal (policy_rules policy.now) caller.now slot.now.name)
        (topic_part caller.now slot.now.name)) }
    ensures spent { IfOk result
        (λ part. spent_in part.ending ≡ part_paid (policy_rules policy.now)
        (topic_part caller.now slot.now.name)) }
{
    let question = caller.asks(Operation::Describe, Kind::Topic, &slot.name)?;
    match ask_one(policy, question) {
        Ok(permit) => {
            let paid = Paid::one(permit.spend(policy));
            let told = told_as(alloc, offsets, stable, slot)?;
            Ok(Part::served(told, paid))
        }
        Err(refusal) => Ok(Part::refused(None, refusal)),
    }
}

/// The answers for the topics of the broker that the caller may DESCRIBE and that have an offset to tell, if an OffsetFetch asks
/// for all offsets of the group. `spent` counts the permits that are spent. The refusals of other topics are kept nowhere.
fn told_topics(
    alloc: Global,
    caller: &Caller,
    policy: &Policy,
    offsets: &Offsets,
    stable: bool,
    slots: &[Slot],
    spent: &mut Tally,
) -> Result<Items<Topic<FetchedOffset>>, AllocError>
    ensures spent { OnOk result
        (spent.new ≡ count_after_parts (policy_rules policy.now) spent.old
        (map (λ (t : TopicValue). topic_part caller.now t.name) slots.now)) }
    ensures told { IfOk result
        (λ told. told ≡ listed_topics (policy_rules policy.now) caller.now offsets.now stable
        slots.now) }
{
    let mut topics = Items::new(alloc);
    for slot in slots {
        let told = told_topic(alloc, caller, policy, offsets, stable, slot)?;
        topics.push_some(told.answer)?;
        let _untold = told.ending.counted(spent);
    }
    Ok(topics)
}

/// Handles an OffsetFetch: answers the group's committed offsets if the caller may DESCRIBE the group, else
/// GROUP_AUTHORIZATION_FAILED for the whole. A named partition is answered TOPIC_AUTHORIZATION_FAILED if the caller may not
/// DESCRIBE its topic, offset -1 with NONE if nothing is committed, and with require_stable UNSTABLE_OFFSET_COMMIT if a
/// transaction whose marker for the group isn't written yet has staged an offset of it. A null list asks for all partitions that
/// have any of these offsets; topics that the caller may not DESCRIBE are left out.
pub fn answer_offset_fetch(
    alloc: Global,
    state: &State,
    caller: &Caller,
    request: &OffsetFetchRequest,
) -> Result<HandlerResult, AllocError>
    ensures { HandlerMeets state.now state.now
        (offset_fetch_outcome state.now caller.now request.now)
        (group_question caller.now request.now.group ∷ [])
        (fetch_parts state.now caller.now request.now) result }
{
    let question = group_question(caller, &request.group)?;
    let policy = state.policy();
    match ask_one(policy, question) {
        Ok(permit) => {
            let (spent, offsets) = state.groups.fetch(policy, permit, &request.group);
            fetched_offsets(alloc, state, caller, offsets, request, Paid::one(spent))
        }
        Err(refusal) => {
            let reply = fetch_reply(alloc, refusal_code(&refusal), Items::new(alloc))?;
            refused_whole(alloc, reply, refusal)
        }
    }
}

/// The answer from the group's offsets, for the partitions that the request names, or for all if its list is null. `paid` is
/// the evidence of the permit that was spent for the group.
fn fetched_offsets(
    alloc: Global,
    state: &State,
    caller: &Caller,
    offsets: &Offsets,
    request: &OffsetFetchRequest,
    paid: Paid,
) -> Result<HandlerResult, AllocError>
    ensures reply { IfOk result
        (λ o. o.reply ≡ (fetched_outcome state.now caller.now offsets.now request.now.require_stable
        request.now.topics).reply) }
    ensures refusals { IfOk result
        (λ o. o.refusals
        ≡ (fetched_outcome state.now caller.now offsets.now request.now.require_stable
        request.now.topics).refusals) }
    ensures paid { IfOk result (λ o. o.paid ≡ paid) }
    ensures spent { IfOk result
        (λ o. o.spent ≡ count_after_parts (rules_of state.now) 0
        (parts_asked state.now caller.now request.now.topics)) }
{
    let stable = request.require_stable;
    let policy = state.policy();
    match &request.topics {
        None => {
            let slots = state.topics().slots();
            let mut spent = Tally::none();
            let topics = told_topics(alloc, caller, policy, offsets, stable, slots, &mut spent)?;
            Ok(HandlerResult {
                reply: fetch_reply(alloc, ErrorCode::None, topics)?,
                refusals: Items::new(alloc),
                paid,
                spent,
            })
        }
        Some(topics) => {
            let api = OffsetFetchHandler {
                caller,
                offsets,
                stable,
            };
            let walked = walk(alloc, &api, policy, &mut (), topics.as_slice())?;
            Ok(HandlerResult {
                reply: fetch_reply(alloc, ErrorCode::None, walked.topics)?,
                refusals: walked.refusals,
                paid,
                spent: walked.spent,
            })
        }
    }
}
