//! Why bytes are refused as a producer's batch.

ghost use Rattle.std.specs.Prelude.{◌≡◌};
ghost use Rattle.record_batch.specs.Fault.{code_of};

use thiserror::Error;
use wire_types::ErrorCode;

/// Why bytes that a producer sent are refused as a batch, in the order in which the faults are looked for.
#[derive(Clone, Copy, Debug, PartialEq, Eq, Error)]
pub enum BatchFault {
    /// There are fewer bytes than a header has or than the batch length tells, or that length is below 49, too small for the
    /// header.
    #[error("the batch has fewer bytes than its header or its length tells")]
    Length = 1,
    /// The magic byte, which is the message format, isn't 2.
    #[error("the message format is none that is served")]
    Magic = 2,
    /// The CRC-32C of the bytes from the attributes on isn't the header's.
    #[error("the checksum is another one")]
    Crc = 3,
    /// The compression type isn't none.
    #[error("the records are compressed")]
    Compressed = 4,
    /// There are bytes after the batch, it is a control batch, its record count, last offset delta or producer fields don't fit
    /// together, or its records aren't well-formed or not as many as the header counts.
    #[error("the records or the header's fields do not fit together")]
    Invalid = 5,
    /// The timestamp type is LogAppendTime, which a producer may not send.
    #[error("the timestamps are those of an append")]
    Timestamp = 6,
    /// The batch has more bytes than the caller allows (the setting `max_batch`).
    #[error("the batch is larger than is allowed")]
    TooLarge = 7,
}

impl BatchFault {
    /// The error code that Produce answers for a batch with this fault: CORRUPT_MESSAGE for `Length` and `Crc`, INVALID_RECORD
    /// for `Magic` and `Invalid`, else UNSUPPORTED_COMPRESSION_TYPE, INVALID_TIMESTAMP or MESSAGE_TOO_LARGE.
    pub fn code(self) -> ErrorCode
        ensures { result ≡ code_of self }
    {
        match self {
            BatchFault::Length | BatchFault::Crc => ErrorCode::CorruptMessage,
            BatchFault::Magic | BatchFault::Invalid => ErrorCode::InvalidRecord,
            BatchFault::Compressed => ErrorCode::UnsupportedCompressionType,
            BatchFault::Timestamp => ErrorCode::InvalidTimestamp,
            BatchFault::TooLarge => ErrorCode::MessageTooLarge,
        }
    }
}
