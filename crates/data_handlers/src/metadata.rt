//! Metadata: the cluster's one broker, and topics with their partitions.

ghost use Rattle.std.specs.Prelude.{◌≡◌, [], false, IfOk, Some, None};
ghost use Rattle.authorizer.specs.Asking.{part_paid};
ghost use Rattle.authorizer.specs.Tally.{count_after_parts};
ghost use Rattle.broker_world.specs.HandlerResult.{HandlerMeets};
ghost use Rattle.broker_world.specs.World.{rules_of};
ghost use Rattle.data_handlers.specs.Metadata.{topic_error, plain_topic, topic_refusals, topic_answer, described_topic, metadata_topics, metadata_parts, metadata_outcome};
ghost use Rattle.broker_world.specs.Brokers.{brokers_of};
ghost use Rattle.broker_world.specs.Questions.{topic_part, topic_refusal};
ghost use Rattle.walk.specs.Steps.{ending_by, refusal_in, spent_in};

use acl_binding::{Caller, Kind, Operation};
use authorizer::{Paid, Refusal, Tally, ask_one};
use broker_world::{Cluster, HandlerResult, State, served_in_parts};
use msg_admin::Reply;
use msg_data::{MetadataReply, MetadataRequest, TopicInfo};
use std::alloc::{AllocError, Global};
use walk::Part;
use wire_types::{Boxed, ErrorCode, Items, Text};

/// The answers for the topics of a Metadata, the refusals, and how many permits were spent.
#[derive(Drop)]
pub(crate) struct Answered {
    pub(crate) topics: Items<TopicInfo>,
    pub(crate) refusals: Items<Refusal>,
    pub(crate) spent: Tally,
}

/// The answers for the topics that are named, or, if no list is given (null), for all that the caller may DESCRIBE.
fn wanted_topics(
    alloc: Global,
    state: &State,
    caller: &Caller,
    names: &Option<Items<Text>>,
) -> Result<Answered, AllocError>
    ensures topics { IfOk result (λ a. a.topics ≡ metadata_topics state.now caller.now names.now) }
    ensures refusals { IfOk result
        (λ a. a.refusals ≡ topic_refusals (rules_of state.now) caller.now names.now) }
    ensures spent { IfOk result
        (λ a. a.spent ≡ count_after_parts (rules_of state.now) 0
        (metadata_parts state.now caller.now names.now)) }
{
    match names {
        Some(names) => named_topics(alloc, state, caller, names.as_slice()),
        None => described_topics(alloc, state, caller),
    }
}

/// The Metadata reply with these topics: the one node is the only broker, and the controller.
fn metadata_reply(
    alloc: Global,
    cluster: &Cluster,
    topics: Items<TopicInfo>,
) -> Result<Reply, AllocError>
    ensures { IfOk result
        (λ reply. reply ≡ Reply.Metadata
        (record {
          brokers = brokers_of cluster.now;
          controller = cluster.now.node_id;
          topics = topics;
        })) }
{
    let reply = MetadataReply {
        brokers: cluster.brokers()?,
        controller: cluster.node().node_id,
        topics,
    };
    Ok(Reply::Metadata(Boxed::new(alloc, reply)?))
}

/// Handles a Metadata: answers the one broker, and the topics that are named, or all that the caller may DESCRIBE if the list
/// is null. A named topic that the caller may not DESCRIBE is answered TOPIC_AUTHORIZATION_FAILED, one that doesn't exist
/// UNKNOWN_TOPIC_OR_PARTITION. No topic is created.
pub fn answer_metadata(
    alloc: Global,
    state: &State,
    caller: &Caller,
    request: &MetadataRequest,
) -> Result<HandlerResult, AllocError>
    ensures { HandlerMeets state.now state.now
        (metadata_outcome state.now caller.now request.now)
        [] (metadata_parts state.now caller.now request.now.topics) result }
{
    let answered = wanted_topics(alloc, state, caller, &request.topics)?;
    let reply = metadata_reply(alloc, &state.cluster, answered.topics)?;
    Ok(served_in_parts(reply, answered.refusals, answered.spent))
}

/// The answers for topics that are named, in order.
fn named_topics(
    alloc: Global,
    state: &State,
    caller: &Caller,
    names: &[Text],
) -> Result<Answered, AllocError>
    ensures topics { IfOk result
        (λ a. a.topics ≡ metadata_topics state.now caller.now (Some names.now)) }
    ensures refusals { IfOk result
        (λ a. a.refusals ≡ topic_refusals (rules_of state.now) caller.now (Some names.now)) }
    ensures spent { IfOk result
        (λ a. a.spent ≡ count_after_parts (rules_of state.now) 0
        (metadata_parts state.now caller.now (Some names.now))) }
{
    let mut topics = Items::new(alloc);
    let mut refusals = Items::new(alloc);
    let mut spent = Tally::none();
    for name in names {
        let part = named_topic(alloc, state, caller, name)?;
        topics.push(part.answer)?;
        refusals.push_some(part.ending.counted(&mut spent))?;
    }
    Ok(Answered {
        topics,
        refusals,
        spent,
    })
}

/// The answer for a topic that is named. Permission is asked first, so a caller who may not DESCRIBE the topic doesn't learn
/// whether it exists.
fn named_topic(
    alloc: Global,
    state: &State,
    caller: &Caller,
    name: &Text,
) -> Result<Part<TopicInfo>, AllocError>
    ensures answer { IfOk result
        (λ part. part.answer ≡ topic_answer state.now caller.now name.now) }
    ensures ending { IfOk result
        (λ part. part.ending
        ≡ ending_by false (topic_refusal (rules_of state.now) caller.now name.now)
        (topic_part caller.now name.now)) }
    ensures refusal { IfOk result
        (λ part. refusal_in part.ending ≡ topic_refusal (rules_of state.now) caller.now name.now) }
    ensures spent { IfOk result
        (λ part. spent_in part.ending ≡ part_paid (rules_of state.now)
        (topic_part caller.now name.now)) }
{
    let question = caller.asks(Operation::Describe, Kind::Topic, name)?;
    let policy = state.policy();
    match ask_one(policy, question) {
        Ok(permit) => {
            let paid = Paid::one(permit.spend(policy));
            Ok(Part::served(plain_topic(alloc, state, name)?, paid))
        }
        Err(refusal) => {
            let answer = topic_error(&state.cluster, ErrorCode::TopicAuthorizationFailed, name)?;
            Ok(Part::refused(answer, refusal))
        }
    }
}

/// The answers for all topics that the caller may DESCRIBE. The others are left out without a refusal.
fn described_topics(alloc: Global, state: &State, caller: &Caller) -> Result<Answered, AllocError>
    ensures topics { IfOk result (λ a. a.topics ≡ metadata_topics state.now caller.now None) }
    ensures refusals { IfOk result (λ a. a.refusals ≡ []) }
    ensures spent { IfOk result
        (λ a. a.spent ≡ count_after_parts (rules_of state.now) 0
        (metadata_parts state.now caller.now None)) }
{
    let mut topics = Items::new(alloc);
    let mut spent = Tally::none();
    let names = state.topics();
    for place in 0..names.len() {
        let part = described_topic(alloc, state, caller, names.name(place))?;
        topics.push_some(part.answer)?;
        let _untold = part.ending.counted(&mut spent);
    }
    Ok(Answered {
        topics,
        refusals: Items::new(alloc),
        spent,
    })
}

/// The answer for an existing topic if the caller may DESCRIBE it, else `None`.
fn described_topic(
    alloc: Global,
    state: &State,
    caller: &Caller,
    name: &Text,
) -> Result<Part<Option<TopicInfo>>, AllocError>
    ensures answer { IfOk result
        (λ part. part.answer ≡ described_topic state.now caller.now name.now) }
    ensures ending { IfOk result
        (λ part. part.ending
        ≡ ending_by false (topic_refusal (rules_of state.now) caller.now name.now)
        (topic_part caller.now name.now)) }
    ensures spent { IfOk result
        (λ part. spent_in part.ending ≡ part_paid (rules_of state.now)
        (topic_part caller.now name.now)) }
{
    let question = caller.asks(Operation::Describe, Kind::Topic, name)?;
    let policy = state.policy();
    match ask_one(policy, question) {
        Ok(permit) => {
            let paid = Paid::one(permit.spend(policy));
            Ok(Part::served(Some(plain_topic(alloc, state, name)?), paid))
        }
        Err(refusal) => Ok(Part::refused(None, refusal)),
    }
}

/// The answer for a topic, whoever asks: its partitions, or UNKNOWN_TOPIC_OR_PARTITION.
fn plain_topic(alloc: Global, state: &State, name: &Text) -> Result<TopicInfo, AllocError>
    ensures { IfOk result (λ t. t ≡ plain_topic state.now name.now) }
{
    let node = state.node().node_id;
    match state.topics().partition_infos(alloc, name, node)? {
        Some(partitions) => Ok(TopicInfo {
            error: ErrorCode::None,
            name: name.clone()?,
            internal: false,
            partitions,
        }),
        None => topic_error(&state.cluster, ErrorCode::UnknownTopicOrPartition, name),
    }
}

/// The answer for a topic with this error code, and no partitions.
fn topic_error(cluster: &Cluster, error: ErrorCode, name: &Text) -> Result<TopicInfo, AllocError>
    ensures { IfOk result (λ t. t ≡ topic_error error name.now) }
{
    Ok(TopicInfo {
        error,
        name: name.clone()?,
        internal: false,
        partitions: cluster.no_partitions()?,
    })
}
