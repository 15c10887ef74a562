//! How a transaction ends.

/// What a control batch marks, with the number of Kafka's control record type.
#[derive(Clone, Copy, Debug, PartialEq, Eq)]
pub enum TransactionResult {
    Abort = 0,
    Commit = 1,
}
