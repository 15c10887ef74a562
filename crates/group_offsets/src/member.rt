//! The member of a group.

use msg_group::OfferedProtocol;
use wire_types::Text;

/// The member of a group, which has one at most.
#[derive(Drop)]
pub struct Member {
    pub id: Text,
    /// How long the member may be silent before it is removed, in milliseconds.
    pub session_timeout: u32,
    /// The moment of the last JoinGroup, SyncGroup or Heartbeat that was answered without an error, in milliseconds.
    pub heard: u64,
}

/// The answer to a member that has joined.
#[derive(Drop)]
pub struct Joined {
    pub generation: i32,
    /// The member's id. It is the leader's too.
    pub member: Text,
    /// The chosen protocol, with the metadata that the member sent for it.
    pub protocol: OfferedProtocol,
}
