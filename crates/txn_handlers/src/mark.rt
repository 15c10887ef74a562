//! A marker step: writes the front one of the pending markers.

ghost use Rattle.std.specs.Prelude.{◌≡◌, ◌<◌, [], OnOk, OnErr};
ghost use Rattle.broker_world.specs.HandlerResult.{HandlerMeets};
ghost use Rattle.broker_world.specs.Logs.{most_end};
ghost use Rattle.broker_world.specs.Markers.{marker_batch};
ghost use Rattle.txn_handlers.specs.Marks.{topics_with_marker_at, groups_with_decision_at, mark_outcome};

use authorizer::Paid;
use broker_world::{HandlerResult, Moment, State, Topics, served_whole};
use group_offsets::Groups;
use msg_admin::Reply;
use std::alloc::{AllocError, Global};
use txn_coordinator::{PendingMarker, Target};

/// Writes a marker: a control batch to a partition's log, or the commit or abort of the offsets that the producer staged for a
/// group. An allocation failure changes nothing.
fn write_marker(
    alloc: Global,
    topics: &mut Topics,
    groups: &mut Groups,
    marker: &PendingMarker,
    moment: &Moment,
) -> Result<(), AllocError>
    requires { most_end topics.old < 9223372036854775807 }
    ensures topics { OnOk result
        (topics.new ≡ topics_with_marker_at topics.old marker.now.target
        (marker_batch marker.now moment.now)) }
    ensures groups { OnOk result
        (groups.new ≡ groups_with_decision_at groups.old marker.now.target marker.now) }
    ensures err { OnErr result ((topics.new ≡ topics.old) × (groups.new ≡ groups.old)) }
{
    match &marker.target {
        Target::Partition(partition) => topics.append_marker(
            alloc,
            &partition.topic,
            partition.index,
            marker.outcome,
            marker.pair,
            moment.milliseconds() as i64,
        ),
        Target::Group(group) => groups.decide(alloc, group, marker.pair.producer, marker.outcome),
    }
}

/// Writes the front marker, if one is pending (`Marked`, with the number of those left), else answers `Idle`. No permission is
/// asked: what the transaction's principal may do by then doesn't matter. After an allocation failure the marker stays pending.
pub fn answer_mark(alloc: Global, state: &mut State) -> Result<HandlerResult, AllocError>
    requires { most_end state.old.topics < 9223372036854775807 }
    ensures { HandlerMeets state.old state.new (mark_outcome state.old) [] [] result }
{
    let Some(warrant) = state.coordinator.next_warrant() else {
        return Ok(served_whole(alloc, Reply::Idle, Paid::nothing()));
    };
    let (topics, groups) = (&mut state.topics, &mut state.groups);
    let marker = state.coordinator.marker(&warrant);
    match write_marker(alloc, topics, groups, marker, &state.moment) {
        Ok(()) => {
            state.coordinator.written(warrant);
            let left = state.coordinator.owed() as u64;
            Ok(served_whole(alloc, Reply::Marked { left }, Paid::nothing()))
        }
        Err(AllocError) => {
            state.coordinator.give_back(warrant);
            Err(AllocError)
        }
    }
}
