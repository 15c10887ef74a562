//! The laws of the whole broker's world: what settings begin with, what a tick ends, and of transactions, whatever the
//! events are: each that is prepared is completed at each of its partitions and groups, and a producer that is fenced
//! writes nothing more.
#![tactic(auto)]

mod laws;

pub use laws::{
    commits_are_fetched, commits_are_of_members, commits_are_shown, completes_over_a_run,
    completes_over_a_trail, completes_prepared, completes_waiting, decides_groups, ends_batches,
    ends_complete, entries_are_the_log, events_are_moves, fenced_over_a_run, fenced_over_a_trail,
    fenced_write_nothing, fences, first_world_is_the_settings, groups_go_on, logs_go_on,
    marks_are_not_refused, member_calls_by_number, members_come_and_go,
    no_data_after_a_greater_marker, owes_each, prepares, targets_exist, ticks_end_what_is_over,
    trail_tells,
};
