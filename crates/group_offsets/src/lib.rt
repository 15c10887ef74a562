//! Consumer groups of at most one member, and the offsets that are committed for them.
//!
//! [`Groups`] are the groups of a broker. The calls of members are the group membership APIs of the Kafka protocol guide; each
//! takes the policy and spends a permit for its group, whatever it answers.
//!
//! A [`Group`] does what a call on it does to that group alone; [`Groups`] finds it by its name, and takes the permits.
#![tactic(auto)]

mod event;
mod group;
mod group_metadata;
mod groups;
mod joining;
mod laws;
mod member;
mod offsets;
mod partition;
mod row;
mod staged;
mod table;

pub use event::{OffsetEvent, PartitionOffset};
pub use group::Group;
pub use group_metadata::GroupMetadata;
pub use groups::Groups;
pub use laws::{
    answers_are_apart, committed_goes_on, groups_are_apart, pending_goes_on, staged_is_pending,
};
pub use member::{Joined, Member};
pub use offsets::Offsets;
