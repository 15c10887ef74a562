//! The texts that tell how things stand, what a mark wrote, and what a tick did. Names in them are percent-encoded.

use crate::state_report::{CommittedOffset, GroupReport, StateReport, TickReport, TopicReport};
use audit_trail::push_word;
use record_batch::TransactionResult;
use std::alloc::{AllocError, Global};
use txn_coordinator::{PendingMarker, Target, TopicPartition, Transaction, TransactionState};

/// Appends ` TOPIC INDEX`, with the topic's name percent-encoded.
fn push_partition(
    alloc: Global,
    text: &mut String,
    topic: &str,
    index: i32,
) -> Result<(), AllocError> {
    push_word(text, topic)?;
    text.push_str(format!(in alloc; " {index}")?.as_str())
}

/// Appends `partition TOPIC INDEX end OFFSET stable OFFSET` for each partition: its log end offset and its last stable offset.
fn push_topic(alloc: Global, text: &mut String, topic: &TopicReport) -> Result<(), AllocError> {
    for (index, ends) in topic.partitions.iter().enumerate() {
        let (end, stable) = (ends.end, ends.stable);
        text.push_str("partition")?;
        push_word(text, topic.name.as_str())?;
        text.push_str(format!(in alloc; " {index} end {end} stable {stable}\n")?.as_str())?;
    }
    Ok(())
}

/// The transaction's state by its name in KIP-98; `None` where it is neither open nor prepared.
fn state_name(state: TransactionState) -> Option<&'static str> {
    match state {
        TransactionState::Ongoing => Some("Ongoing"),
        TransactionState::PrepareCommit => Some("PrepareCommit"),
        TransactionState::PrepareAbort => Some("PrepareAbort"),
        TransactionState::Empty
        | TransactionState::CompleteCommit
        | TransactionState::CompleteAbort => None,
    }
}

/// Appends `added ID topic TOPIC INDEX` for each partition of a transaction, and `added ID group GROUP` for each group.
fn push_added(
    alloc: Global,
    text: &mut String,
    transaction: &Transaction,
) -> Result<(), AllocError> {
    for TopicPartition { topic, index } in transaction.partitions.as_slice() {
        text.push_str("added")?;
        push_word(text, transaction.id.as_str())?;
        text.push_str(" topic")?;
        push_partition(alloc, text, topic.as_str(), *index)?;
        text.push_str("\n")?;
    }
    for group in transaction.groups.as_slice() {
        text.push_str("added")?;
        push_word(text, transaction.id.as_str())?;
        text.push_str(" group")?;
        push_word(text, group.as_str())?;
        text.push_str("\n")?;
    }
    Ok(())
}

/// Appends `transaction ID STATE producer ID epoch EPOCH began MOMENT timeout MILLISECONDS`, and what was added to the
/// transaction; nothing where it is neither open nor prepared.
fn push_transaction(
    alloc: Global,
    text: &mut String,
    transaction: &Transaction,
) -> Result<(), AllocError> {
    let Some(state) = state_name(transaction.state) else {
        return Ok(());
    };
    let (producer, epoch) = (transaction.pair.producer, transaction.pair.epoch);
    let (start, timeout) = (transaction.start, transaction.timeout);
    text.push_str("transaction")?;
    push_word(text, transaction.id.as_str())?;
    text.push_str(format!(in alloc; " {state} producer {producer} epoch {epoch}")?.as_str())?;
    text.push_str(format!(in alloc; " began {start} timeout {timeout}\n")?.as_str())?;
    push_added(alloc, text, transaction)
}

/// Appends the line `committed GROUP TOPIC INDEX OFFSET`.
fn push_committed(
    alloc: Global,
    text: &mut String,
    group: &str,
    committed: &CommittedOffset,
) -> Result<(), AllocError> {
    let offset = committed.offset;
    text.push_str("committed")?;
    push_word(text, group)?;
    push_partition(alloc, text, committed.topic.as_str(), committed.index)?;
    text.push_str(format!(in alloc; " {offset}\n")?.as_str())
}

/// Appends the line `group GROUP generation GENERATION`, with ` member MEMBER` where the group has one, and a line for each of
/// its committed offsets.
fn push_group(alloc: Global, text: &mut String, group: &GroupReport) -> Result<(), AllocError> {
    let generation = group.generation;
    text.push_str("group")?;
    push_word(text, group.name.as_str())?;
    text.push_str(format!(in alloc; " generation {generation}")?.as_str())?;
    if let Some(member) = &group.member {
        text.push_str(" member")?;
        push_word(text, member.as_str())?;
    }
    text.push_str("\n")?;
    for committed in &group.committed {
        push_committed(alloc, text, group.name.as_str(), committed)?;
    }
    Ok(())
}

/// The answer to `state`: the lines `moment M` and `owed N`, with the moment in milliseconds and the number of pending markers; a
/// line for each partition; lines for each transaction that is open or prepared, and for each group; and at last `events N`, how
/// many entries the trail has.
pub fn state_text(alloc: Global, report: &StateReport) -> Result<String, AllocError> {
    let (moment, owed, events) = (report.moment, report.owed, report.events);
    let mut text = format!(in alloc; "moment {moment}\nowed {owed}\n")?;
    for topic in &report.topics {
        push_topic(alloc, &mut text, topic)?;
    }
    for transaction in &report.transactions {
        push_transaction(alloc, &mut text, transaction)?;
    }
    for group in &report.groups {
        push_group(alloc, &mut text, group)?;
    }
    text.push_str(format!(in alloc; "events {events}\n")?.as_str())?;
    Ok(text)
}

/// A transaction's outcome, `commit` or `abort`.
fn outcome_name(outcome: TransactionResult) -> &'static str {
    match outcome {
        TransactionResult::Commit => "commit",
        TransactionResult::Abort => "abort",
    }
}

/// `marker commit producer ID epoch EPOCH topic TOPIC INDEX`, or with `abort`, or with `group GROUP` at the end; without a line
/// feed.
fn marker_text(alloc: Global, marker: &PendingMarker) -> Result<String, AllocError> {
    let outcome = outcome_name(marker.outcome);
    let (producer, epoch) = (marker.pair.producer, marker.pair.epoch);
    let mut text = format!(in alloc; "marker {outcome} producer {producer} epoch {epoch}")?;
    match &marker.target {
        Target::Partition(partition) => {
            text.push_str(" topic")?;
            push_partition(alloc, &mut text, partition.topic.as_str(), partition.index)?;
        }
        Target::Group(group) => {
            text.push_str(" group")?;
            push_word(&mut text, group.as_str())?;
        }
    }
    Ok(text)
}

/// What is answered of the marker that a mark writes: that of `marker_text`, or `marker none` where none was pending.
pub fn front_text(alloc: Global, front: &Option<PendingMarker>) -> Result<String, AllocError> {
    match front {
        Some(marker) => marker_text(alloc, marker),
        None => String::from_str(alloc, "marker none"),
    }
}

/// What is answered of a tick: `moment MOMENT`, and ` aborted ID` for each transaction that it aborted; without a line feed.
pub fn moment_text(alloc: Global, report: &TickReport) -> Result<String, AllocError> {
    let milliseconds = report.milliseconds;
    let mut text = format!(in alloc; "moment {milliseconds}")?;
    for id in &report.aborted {
        text.push_str(" aborted")?;
        push_word(&mut text, id.as_str())?;
    }
    Ok(text)
}
