//! The walk over the partitions of topics.

ghost use Rattle.std.specs.Prelude.{◌≡◌, true, false, ◌+◌, ◌≤◌, [], ◌++◌, IfOk, OnOk};
ghost use Rattle.authorizer.specs.Asking.{policy_rules};
ghost use Rattle.authorizer.specs.Tally.{count_after_parts};
ghost use Rattle.walk.specs.Walk.{asked_in, plain_world, plain_topics, world_after, answers, parts_refused, refusals, parts_weight, topics_weight};
ghost use Rattle.walk.specs.Steps.{part_world, part_answer, part_spent, parts_world, parts_answers, parts_spent, topics_world, topics_answers, topics_spent};

use crate::part::{Part, PartApi};
use authorizer::{Policy, Refusal, Tally};
use std::alloc::{AllocError, Global};
use wire_types::{Items, Text, Topic};

/// What a walk comes to: an answer for each part, by topics, the refusals of the refused parts, and how many permits were
/// spent for the others.
#[derive(Drop)]
pub struct Walked<A> {
    pub topics: Items<Topic<A>>,
    pub refusals: Items<Refusal>,
    pub spent: Tally,
}

/// Serves the parts that are allowed and answers each refused one by its code, in the request's order. The api must not cut
/// granted parts (see `walk_cut`). After an allocation failure some parts may have been served.
#[tactic(auto, using(crate::proofs::Weaving::woven, crate::proofs::Spending::all_counted))]
pub fn walk<P, A: Drop, W, X: PartApi<P, A, W>>(
    alloc: Global,
    api: &X,
    policy: &Policy,
    world: &mut W,
    topics: &[Topic<P>],
) -> Result<Walked<A>, AllocError>
    requires served { X.cuts api.now ≡ false }
    requires settled { X.settles api.now policy.now }
    requires budget { topics_weight (X.rule api.now) topics.now ≤ (X.rule api.now).budget world.old }
    ensures world { OnOk result
        (world.new ≡ world_after (X.rule api.now) (policy_rules policy.now) world.old topics.now) }
    ensures answers { IfOk result
        (λ r. r.topics ≡ answers (X.rule api.now) (policy_rules policy.now) world.old topics.now) }
    ensures refusals { IfOk result
        (λ r. r.refusals ≡ refusals (X.rule api.now) (policy_rules policy.now) topics.now) }
    ensures spent { IfOk result
        (λ r. r.spent ≡ count_after_parts (policy_rules policy.now) 0
        (asked_in (X.rule api.now) topics.now)) }
{
    walk_topics(alloc, api, policy, world, topics)
}

/// As `walk`, for a request of which it is known that no part is refused.
#[tactic(auto, using(crate::proofs::Weaving::granted, crate::proofs::Spending::all_counted))]
pub fn walk_granted<P, A: Drop, W, X: PartApi<P, A, W>>(
    alloc: Global,
    api: &X,
    policy: &Policy,
    world: &mut W,
    topics: &[Topic<P>],
) -> Result<Walked<A>, AllocError>
    requires served { X.cuts api.now ≡ false }
    requires settled { X.settles api.now policy.now }
    requires granted { refusals (X.rule api.now) (policy_rules policy.now) topics.now ≡ [] }
    requires budget { topics_weight (X.rule api.now) topics.now ≤ (X.rule api.now).budget world.old }
    ensures world { OnOk result (world.new ≡ plain_world (X.rule api.now) world.old topics.now) }
    ensures answers { IfOk result
        (λ r. r.topics ≡ plain_topics (X.rule api.now) world.old topics.now) }
    ensures refusals { IfOk result (λ r. r.refusals ≡ []) }
    ensures spent { IfOk result
        (λ r. r.spent ≡ count_after_parts (policy_rules policy.now) 0
        (asked_in (X.rule api.now) topics.now)) }
{
    walk_topics(alloc, api, policy, world, topics)
}

/// Answers the parts of a request of which none is to be served: a refused part by its code, a granted one as the api cuts
/// it. No permit is spent, and nothing is changed.
#[tactic(auto, using(crate::proofs::Weaving::woven, crate::proofs::Spending::none_counted))]
pub fn walk_cut<P, A: Drop, X: PartApi<P, A, ()>>(
    alloc: Global,
    api: &X,
    policy: &Policy,
    topics: &[Topic<P>],
) -> Result<Walked<A>, AllocError>
    requires cut { X.cuts api.now ≡ true }
    requires settled { X.settles api.now policy.now }
    requires budget { topics_weight (X.rule api.now) topics.now ≤ (X.rule api.now).budget tt }
    ensures answers { IfOk result
        (λ r. r.topics ≡ answers (X.rule api.now) (policy_rules policy.now) tt topics.now) }
    ensures refusals { IfOk result
        (λ r. r.refusals ≡ refusals (X.rule api.now) (policy_rules policy.now) topics.now) }
    ensures spent { IfOk result (λ r. r.spent ≡ 0) }
{
    walk_topics(alloc, api, policy, &mut (), topics)
}

/// Answers the parts of the topics, one topic after the other.
fn walk_topics<P, A: Drop, W, X: PartApi<P, A, W>>(
    alloc: Global,
    api: &X,
    policy: &Policy,
    world: &mut W,
    topics: &[Topic<P>],
) -> Result<Walked<A>, AllocError>
    requires settled { X.settles api.now policy.now }
    requires budget { topics_weight (X.rule api.now) topics.now ≤ (X.rule api.now).budget world.old }
    ensures world { OnOk result
        (world.new ≡ topics_world (X.rule api.now) (policy_rules policy.now) world.old topics.now) }
    ensures answers { IfOk result
        (λ r. r.topics ≡ topics_answers (X.rule api.now) (policy_rules policy.now) world.old
        topics.now) }
    ensures refusals { IfOk result
        (λ r. r.refusals ≡ refusals (X.rule api.now) (policy_rules policy.now) topics.now) }
    ensures spent { IfOk result
        (λ r. r.spent ≡ topics_spent (X.cuts api.now) (X.rule api.now) (policy_rules policy.now) 0
        topics.now) }
{
    let mut answers = Items::with_capacity(alloc, topics.len())?;
    let mut refusals = Items::new(alloc);
    let mut spent = Tally::none();
    for topic in topics {
        let parts = topic.partitions.as_slice();
        let partitions = walk_parts(
            alloc,
            api,
            policy,
            world,
            &topic.name,
            parts,
            &mut refusals,
            &mut spent,
        )?;
        answers.push(Topic {
            name: topic.name.clone()?,
            partitions,
        })?;
    }
    Ok(Walked {
        topics: answers,
        refusals,
        spent,
    })
}

/// Answers the parts of the topic `name` in order. Adds their refusals to `refusals`, and counts in `spent` the permits that
/// were spent. After an allocation failure some parts may have been served.
#[tactic(auto, using(crate::proofs::Weights::part_takes))]
fn walk_parts<P, A: Drop, W, X: PartApi<P, A, W>>(
    alloc: Global,
    api: &X,
    policy: &Policy,
    world: &mut W,
    name: &Text,
    parts: &[P],
    refusals: &mut Items<Refusal>,
    spent: &mut Tally,
) -> Result<Items<A>, AllocError>
    requires settled { X.settles api.now policy.now }
    requires budget { parts_weight (X.rule api.now) parts.now ≤ (X.rule api.now).budget world.old }
    ensures world { OnOk result
        (world.new ≡ parts_world (X.rule api.now) (policy_rules policy.now) world.old name.now
        parts.now) }
    ensures answers { IfOk result
        (λ r. r ≡ parts_answers (X.rule api.now) (policy_rules policy.now) world.old name.now
        parts.now) }
    ensures refusals { OnOk result
        (refusals.new ≡ refusals.old ++ parts_refused (X.rule api.now) (policy_rules policy.now)
        name.now parts.now) }
    ensures spent { OnOk result
        (spent.new ≡ parts_spent (X.cuts api.now) (X.rule api.now) (policy_rules policy.now)
        spent.old name.now parts.now) }
    ensures budget { OnOk result
        ((X.rule api.now).budget world.old ≤ parts_weight (X.rule api.now) parts.now
        + (X.rule api.now).budget world.new) }
{
    let mut answers = Items::with_capacity(alloc, parts.len())?;
    for part in parts {
        let told = answer_part(alloc, api, policy, world, name, part, spent)?;
        answers.push(told.answer)?;
        refusals.push_some(told.refusal)?;
    }
    Ok(answers)
}

/// A part's answer, and its refusal if it was refused.
#[derive(Drop)]
struct PartAnswer<A> {
    answer: A,
    refusal: Option<Refusal>,
}

/// Serves one part of the topic `name`, or refuses or cuts it. Counts in `spent` the permits that were spent for it.
fn answer_part<P, A: Drop, W, X: PartApi<P, A, W>>(
    alloc: Global,
    api: &X,
    policy: &Policy,
    world: &mut W,
    name: &Text,
    part: &P,
    spent: &mut Tally,
) -> Result<PartAnswer<A>, AllocError>
    requires settled { X.settles api.now policy.now }
    requires budget { (X.rule api.now).weight part.now ≤ (X.rule api.now).budget world.old }
    ensures world { OnOk result
        (world.new ≡ part_world (X.rule api.now) (policy_rules policy.now) world.old name.now
        part.now) }
    ensures spent { OnOk result
        (spent.new ≡ part_spent (X.cuts api.now) (X.rule api.now) (policy_rules policy.now)
        spent.old name.now part.now) }
    ensures told { IfOk result
        (λ told. told ≡ part_answer (X.rule api.now) (policy_rules policy.now) world.old name.now
        part.now) }
{
    let Part { answer, ending } = api.serve(alloc, policy, world, name, part)?;
    Ok(PartAnswer {
        answer,
        refusal: ending.counted(spent),
    })
}
