//! How things stand in a core, as plain values. They are taken while it is locked, and laid out as text afterwards.

use broker_world::{Slot, State};
use group_offsets::Group;
use request_handlers::Core;
use std::alloc::{AllocError, Global};
use txn_coordinator::{PendingMarker, Transaction, TransactionState};
use wire_types::Text;

/// The log end offset and the last stable offset of a partition.
#[derive(Clone, Copy, Debug, PartialEq, Eq)]
pub struct LogEnds {
    pub end: i64,
    pub stable: i64,
}

/// A topic, and where each of its partitions ends.
#[derive(Drop)]
pub struct TopicReport {
    pub name: Text,
    pub partitions: Vec<LogEnds>,
}

/// The committed offset of a partition.
#[derive(Drop)]
pub struct CommittedOffset {
    pub topic: Text,
    pub index: i32,
    pub offset: i64,
}

/// A group, its generation, its member, if it has one, and its committed offsets.
#[derive(Drop)]
pub struct GroupReport {
    pub name: Text,
    pub generation: i32,
    pub member: Option<Text>,
    pub committed: Vec<CommittedOffset>,
}

/// How things stand in a core.
#[derive(Drop)]
pub struct StateReport {
    /// The core's moment, in milliseconds.
    pub moment: u64,
    /// How many markers are pending.
    pub owed: usize,
    pub topics: Vec<TopicReport>,
    /// Those that are `Ongoing`, `PrepareCommit` or `PrepareAbort`.
    pub transactions: Vec<Transaction>,
    pub groups: Vec<GroupReport>,
    /// How many entries the trail has.
    pub events: usize,
}

/// What a tick did.
#[derive(Drop)]
pub struct TickReport {
    /// The moment that the core shows after it.
    pub milliseconds: u64,
    /// The transactional ids whose transactions it aborted.
    pub aborted: Vec<Text>,
}

/// The report on a topic: the log end offset and the last stable offset of each partition.
fn topic_of(alloc: Global, slot: &Slot) -> Result<TopicReport, AllocError> {
    let mut partitions = Vec::new(alloc);
    for index in 0..slot.partitions.len() {
        if let Some(log) = slot.partitions.get(index as i32) {
            partitions.push(LogEnds {
                end: log.end(),
                stable: log.stable(),
            })?;
        }
    }
    Ok(TopicReport {
        name: slot.name.clone()?,
        partitions,
    })
}

/// Appends the offsets that a group has committed for the partitions of a topic, in their order; none for a partition without
/// one.
fn push_committed(
    committed: &mut Vec<CommittedOffset>,
    group: &Group,
    slot: &Slot,
) -> Result<(), AllocError> {
    for index in 0..slot.partitions.len() {
        let index = index as i32;
        if let Some(found) = group.offsets.committed(&slot.name, index) {
            committed.push(CommittedOffset {
                topic: slot.name.clone()?,
                index,
                offset: found.offset,
            })?;
        }
    }
    Ok(())
}

/// The report on a group: its generation, its member, and its committed offsets, topic by topic.
fn group_of(alloc: Global, group: &Group, slots: &[Slot]) -> Result<GroupReport, AllocError> {
    let mut committed = Vec::new(alloc);
    for slot in slots {
        push_committed(&mut committed, group, slot)?;
    }
    let member = match &group.member {
        Some(member) => Some(member.id.clone()?),
        None => None,
    };
    Ok(GroupReport {
        name: group.name.clone()?,
        generation: group.generation,
        member,
        committed,
    })
}

/// The report on each topic, in their order.
fn topics_of(alloc: Global, slots: &[Slot]) -> Result<Vec<TopicReport>, AllocError> {
    let mut topics = Vec::new(alloc);
    for slot in slots {
        topics.push(topic_of(alloc, slot)?)?;
    }
    Ok(topics)
}

/// Whether a transaction in this state is open or prepared, and so is reported.
fn is_shown(state: TransactionState) -> bool {
    matches!(
        state,
        TransactionState::Ongoing | TransactionState::PrepareCommit | TransactionState::PrepareAbort
    )
}

/// Copies of the transactions that are open or prepared.
fn shown_of(alloc: Global, all: &[Transaction]) -> Result<Vec<Transaction>, AllocError> {
    let mut shown = Vec::new(alloc);
    for transaction in all {
        if is_shown(transaction.state) {
            shown.push(transaction.copied()?)?;
        }
    }
    Ok(shown)
}

/// The report on each group, the oldest first.
fn groups_of(alloc: Global, world: &State) -> Result<Vec<GroupReport>, AllocError> {
    let slots = world.topics.slots();
    let mut groups = Vec::new(alloc);
    for group in world.groups.as_slice() {
        groups.push(group_of(alloc, group, slots)?)?;
    }
    Ok(groups)
}

/// How things stand in a core: its moment, how many markers are pending, its topics, transactions and groups, and how many events
/// it has answered. The error is an allocation failure.
pub fn state_report_of(alloc: Global, core: &Core) -> Result<StateReport, AllocError> {
    let world = core.world();
    Ok(StateReport {
        moment: world.moment.milliseconds(),
        owed: world.coordinator.owed(),
        topics: topics_of(alloc, world.topics.slots())?,
        transactions: shown_of(alloc, world.coordinator.transactions())?,
        groups: groups_of(alloc, world)?,
        events: core.trail().len(),
    })
}

/// A copy of the marker that is to be written next; `None` where none is pending. The error is an allocation failure.
pub fn front_of(core: &Core) -> Result<Option<PendingMarker>, AllocError> {
    match core.world().coordinator.front() {
        Some(marker) => Ok(Some(marker.clone()?)),
        None => Ok(None),
    }
}

/// Which of the transactions are `Ongoing`, in the order in which their ids were created. The error is an allocation failure.
pub fn open_ones(alloc: Global, core: &Core) -> Result<Vec<bool>, AllocError> {
    let mut open = Vec::new(alloc);
    for transaction in core.world().coordinator.transactions() {
        open.push(transaction.state == TransactionState::Ongoing)?;
    }
    Ok(open)
}

/// What a tick did: the moment that the core shows, and which transactions aren't `Ongoing` any more that were before it. `open`
/// is what `open_ones` gave of the same core then. The error is an allocation failure.
pub fn tick_report_of(alloc: Global, core: &Core, open: &[bool]) -> Result<TickReport, AllocError> {
    let world = core.world();
    let mut aborted = Vec::new(alloc);
    for (transaction, was_open) in world.coordinator.transactions().iter().zip(open.iter()) {
        if *was_open && transaction.state != TransactionState::Ongoing {
            aborted.push(transaction.id.clone()?)?;
        }
    }
    Ok(TickReport {
        milliseconds: world.moment.milliseconds(),
        aborted,
    })
}
