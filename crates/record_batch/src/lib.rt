//! Record batches of Kafka's message format 2, and their checksum.
#![tactic(auto)]

mod batch;
mod check;
mod control;
mod crc;
mod far_table;
mod fault;
mod fields;
mod header;
mod laws;
mod record;
mod sent;
mod table;
mod transaction_result;
mod walk;

pub use batch::Batch;
pub use crc::crc32c;
pub use fault::BatchFault;
pub use header::BatchHeader;
pub use laws::{
    faultless_is_batch, last_offset_stays, offset_alone_changes, one_batch, same_faults,
    size_is_last,
};
pub use record::{Header, Rec, RecordAt};
pub use sent::SentBatch;
pub use transaction_result::TransactionResult;
