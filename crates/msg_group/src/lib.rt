//! The messages about groups and their offsets: what each api is asked and what it answers.
//!
//! One file for each api, with the fields in their order on the wire; `specs/` has the grammar of each.
//! Each message and each part of one is a `Wire`: `read` reads it from bytes, `put` appends its bytes, and `deduct_from`
//! returns how many of a budget of bytes are left after these.
#![tactic(auto)]

mod heartbeat;
mod join_group;
mod leave_group;
mod offset_commit;
mod offset_fetch;
mod sync_group;

pub use heartbeat::{HeartbeatReply, HeartbeatRequest};
pub use join_group::{JoinGroupReply, JoinGroupRequest, JoinedMember, OfferedProtocol};
pub use leave_group::{LeaveGroupReply, LeaveGroupRequest};
pub use offset_commit::{CommittedOffset, OffsetCommitReply, OffsetCommitRequest, OffsetToCommit};
pub use offset_fetch::{FetchedOffset, OffsetFetchReply, OffsetFetchRequest};
pub use sync_group::{MemberAssignment, SyncGroupReply, SyncGroupRequest};
