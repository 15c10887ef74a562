//! To how many markers a request comes.

use msg_admin::Reply;
use request_handlers::Receipt;
use wire_types::ErrorCode;

/// To how many markers a request comes, which a trail keeps once its transaction ends: one for each partition that it takes into
/// the transaction, or for the group whose offsets are to be committed in it (KIP-98).
pub(crate) fn markers_of(receipt: &Receipt) -> u64 {
    match receipt.reply() {
        Reply::AddPartitionsToTxn(reply) => {
            let mut markers: u64 = 0;
            for topic in reply.value().topics.as_slice() {
                for part in topic.partitions.as_slice() {
                    if part.error == ErrorCode::None {
                        markers = markers.saturating_add(1);
                    }
                }
            }
            markers
        }
        Reply::AddOffsetsToTxn(reply) if reply.error == ErrorCode::None => 1,
        _ => 0,
    }
}
