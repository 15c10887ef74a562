//! What a partition says of the next batch of an idempotent producer.

use wire_types::ErrorCode;

/// What a partition makes of a batch, by what its log holds of the batch's producer.
#[derive(Clone, Copy, Debug, PartialEq, Eq)]
pub enum Judgment {
    /// The batch is the next one of its producer, or has no producer id: it may be appended.
    Next,
    /// The batch is one of its producer's last five, sent again. The log holds it at this base offset; it isn't to be appended.
    Repeat(i64),
    /// OUT_OF_ORDER_SEQUENCE_NUMBER where its sequence number isn't the expected one, or INVALID_PRODUCER_EPOCH where the log has
    /// a newer epoch of its producer.
    Refused(ErrorCode),
}
