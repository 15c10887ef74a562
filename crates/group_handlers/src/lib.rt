//! Groups: JoinGroup, SyncGroup, Heartbeat and LeaveGroup, FindCoordinator, OffsetCommit and OffsetFetch.
#![tactic(auto)]

mod find_coordinator;
mod members;
mod offset_commit;
mod offset_fetch;

pub use find_coordinator::answer_find_coordinator;
pub use members::{answer_heartbeat, answer_join_group, answer_leave_group, answer_sync_group};
pub use offset_commit::answer_offset_commit;
pub use offset_fetch::answer_offset_fetch;
