//! What an operator reads as a server starts.

use broker_world::Slot;
use request_handlers::Core;
use std::alloc::{AllocError, Global};

/// How many ticks the clock of a broker at rest makes in an hour; each is an event of the trail.
const TICKS_AN_HOUR: u64 = 36_000;

/// What a server starts with, beside its core.
#[derive(Clone, Copy, Debug, PartialEq, Eq)]
pub struct Started {
    pub version: &'static str,
    /// How many bindings the settings have.
    pub bindings: usize,
    /// How many users may log in.
    pub users: usize,
    pub workers: usize,
    /// Whether the broker keeps its own time.
    pub has_clock: bool,
}

/// How many partitions the topics have in all.
fn partitions_of(slots: &[Slot]) -> u64 {
    let mut count: u64 = 0;
    for slot in slots {
        count = count.saturating_add(u64::from(slot.partitions.len()));
    }
    count
}

/// Appends how many events the trail takes, and, where the broker has a clock, after how many hours of ticks alone it is full.
fn push_trail(
    alloc: Global,
    line: &mut String,
    limit: u64,
    has_clock: bool,
) -> Result<(), AllocError> {
    line.push_str(format!(in alloc; ", a trail of {limit} events")?.as_str())?;
    if has_clock {
        let hours = limit / TICKS_AN_HOUR;
        line.push_str(format!(in alloc; " ({hours} hours at rest)")?.as_str())?;
    }
    Ok(())
}

/// The line that says what is served, as a server starts: its version, node, topics, partitions, users, ACLs, workers and trail.
/// The error is an allocation failure.
pub fn start_line(alloc: Global, core: &Core, started: Started) -> Result<String, AllocError> {
    let Started {
        version,
        bindings,
        users,
        workers,
        has_clock,
    } = started;
    let world = core.world();
    let node = world.node().node_id;
    let topics = world.topics().len();
    let partitions = partitions_of(world.topics().slots());
    let mut line = format!(in alloc; "kbroker: version {version} as node {node}: ")?;
    line.push_str(format!(in alloc; "topics {topics}, partitions {partitions}")?.as_str())?;
    line.push_str(format!(in alloc;
        ", users {users}, ACLs {bindings}, workers {workers}"
    )?.as_str())?;
    push_trail(alloc, &mut line, core.limit(), has_clock)?;
    line.push_str(", not encrypted\n")?;
    Ok(line)
}
