//! The messages about transactions: what each api is asked and what it answers.
//!
//! One file for each api, with the fields in their order on the wire; `specs/` has the grammar of each.
//! Each message and each part of one is a `Wire`: `read` reads it from bytes, `put` appends its bytes, and `deduct_from`
//! returns how many of a budget of bytes are left after these.
#![tactic(auto)]

mod add_offsets;
mod add_partitions;
mod end_txn;
mod find_coordinator;
mod init_producer_id;
mod txn_offset_commit;

pub use add_offsets::{AddOffsetsToTxnReply, AddOffsetsToTxnRequest};
pub use add_partitions::{AddPartitionsToTxnReply, AddPartitionsToTxnRequest, AddedPartition};
pub use end_txn::{
    EndTxn, EndTxnReply, EndTxnRequest, Ended, EndedWithPair, FlexibleEndTxn, FlexibleEnded,
};
pub use find_coordinator::{FindCoordinatorReply, FindCoordinatorRequest};
pub use init_producer_id::{InitProducerIdReply, InitProducerIdRequest};
pub use txn_offset_commit::{
    OffsetToStage, StagedOffset, TxnOffsetCommitReply, TxnOffsetCommitRequest,
};
