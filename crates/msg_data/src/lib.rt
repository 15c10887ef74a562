//! The messages about topics and their data: what each api is asked and what it answers.
//!
//! One file for each api, with the fields in their order on the wire; `specs/` has the grammar of each.
//! Each message and each part of one is a `Wire`: `read` reads it from bytes, `put` appends its bytes, and `deduct_from`
//! returns how many of a budget of bytes are left after these.
#![tactic(auto)]

mod fetch;
mod isolation;
mod list_offsets;
mod metadata;
mod produce;

pub use fetch::{AbortedTransaction, FetchPartition, FetchReply, FetchRequest, FetchedRecords};
pub use isolation::Isolation;
pub use list_offsets::{FoundOffset, ListOffsetsReply, ListOffsetsRequest, WantedOffset};
pub use metadata::{BrokerInfo, MetadataReply, MetadataRequest, PartitionInfo, TopicInfo};
pub use produce::{ProduceReply, ProduceRequest, ProducedOffset, ProducedRecords};
