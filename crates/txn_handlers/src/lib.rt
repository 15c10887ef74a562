//! Transactions: InitProducerId, AddPartitionsToTxn, AddOffsetsToTxn, EndTxn and TxnOffsetCommit, and the marker step
//! that completes them.
#![tactic(auto)]

mod add_offsets;
mod add_partitions;
mod end_txn;
mod init_producer_id;
mod mark;
mod txn_offset_commit;

pub use add_offsets::answer_add_offsets;
pub use add_partitions::answer_add_partitions;
pub use end_txn::answer_end_txn;
pub use init_producer_id::answer_init_producer_id;
pub use mark::answer_mark;
pub use txn_offset_commit::answer_txn_offset_commit;
