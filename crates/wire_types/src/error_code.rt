//! The protocol's error codes: how a request, or a part of it, ended.

ghost use Rattle.std.specs.Prelude.{◌≡◌};
ghost use Rattle.std.specs.List.{find};
ghost use Rattle.std.specs.Ordering.{int_eq};
ghost use Rattle.wire_types.specs.ErrorCode.{number_of, code_of};

use crate::budget::deduct;
use crate::cursor::Cursor;
use crate::fault::{Malformed, ReadFault, WriteFault};
use crate::numbers::write_i16;
use crate::wire::Wire;
use std::alloc::Global;

/// The error codes of the Kafka protocol that this broker uses, with their numbers on the wire. Any other number is read as
/// `Malformed::Range`.
#[derive(Clone, Copy, Debug, PartialEq, Eq)]
pub enum ErrorCode {
    None = 0,
    OffsetOutOfRange = 1,
    CorruptMessage = 2,
    UnknownTopicOrPartition = 3,
    MessageTooLarge = 10,
    InvalidRequiredAcks = 21,
    IllegalGeneration = 22,
    InconsistentGroupProtocol = 23,
    InvalidGroupId = 24,
    UnknownMemberId = 25,
    InvalidSessionTimeout = 26,
    RebalanceInProgress = 27,
    TopicAuthorizationFailed = 29,
    GroupAuthorizationFailed = 30,
    ClusterAuthorizationFailed = 31,
    InvalidTimestamp = 32,
    UnsupportedSaslMechanism = 33,
    IllegalSaslState = 34,
    UnsupportedVersion = 35,
    InvalidRequest = 42,
    OutOfOrderSequenceNumber = 45,
    InvalidProducerEpoch = 47,
    InvalidTxnState = 48,
    InvalidProducerIdMapping = 49,
    InvalidTransactionTimeout = 50,
    ConcurrentTransactions = 51,
    TransactionalIdAuthorizationFailed = 53,
    OperationNotAttempted = 55,
    SaslAuthenticationFailed = 58,
    UnsupportedCompressionType = 76,
    GroupMaxSizeReached = 81,
    InvalidRecord = 87,
    UnstableOffsetCommit = 88,
    ProducerFenced = 90,
}

impl ErrorCode {
    /// Every code, in rising order of their numbers.
    pub const ALL: [ErrorCode; 34] = [
        ErrorCode::None,
        ErrorCode::OffsetOutOfRange,
        ErrorCode::CorruptMessage,
        ErrorCode::UnknownTopicOrPartition,
        ErrorCode::MessageTooLarge,
        ErrorCode::InvalidRequiredAcks,
        ErrorCode::IllegalGeneration,
        ErrorCode::InconsistentGroupProtocol,
        ErrorCode::InvalidGroupId,
        ErrorCode::UnknownMemberId,
        ErrorCode::InvalidSessionTimeout,
        ErrorCode::RebalanceInProgress,
        ErrorCode::TopicAuthorizationFailed,
        ErrorCode::GroupAuthorizationFailed,
        ErrorCode::ClusterAuthorizationFailed,
        ErrorCode::InvalidTimestamp,
        ErrorCode::UnsupportedSaslMechanism,
        ErrorCode::IllegalSaslState,
        ErrorCode::UnsupportedVersion,
        ErrorCode::InvalidRequest,
        ErrorCode::OutOfOrderSequenceNumber,
        ErrorCode::InvalidProducerEpoch,
        ErrorCode::InvalidTxnState,
        ErrorCode::InvalidProducerIdMapping,
        ErrorCode::InvalidTransactionTimeout,
        ErrorCode::ConcurrentTransactions,
        ErrorCode::TransactionalIdAuthorizationFailed,
        ErrorCode::OperationNotAttempted,
        ErrorCode::SaslAuthenticationFailed,
        ErrorCode::UnsupportedCompressionType,
        ErrorCode::GroupMaxSizeReached,
        ErrorCode::InvalidRecord,
        ErrorCode::UnstableOffsetCommit,
        ErrorCode::ProducerFenced,
    ];

    /// The code's number on the wire.
    #[tactic(auto, unfolding(crate::specs::ErrorCode::number_of))]
    pub fn number(self) -> i16
        ensures { result ≡ number_of self }
    {
        self as i16
    }

    /// The error code with this number on the wire, or None where `ErrorCode` has none.
    #[tactic(auto, unfolding(crate::specs::ErrorCode::code_of, crate::specs::ErrorCode::all_codes))]
    pub fn of_number(number: i16) -> Option<ErrorCode>
        ensures { result ≡ code_of number }
    {
        first_of_number(&ErrorCode::ALL, number)
    }
}

/// The first of `codes` with this number on the wire, or None.
fn first_of_number(codes: &[ErrorCode], number: i16) -> Option<ErrorCode>
    ensures { result ≡ find (λ code. int_eq (number_of code) number) codes.now }
{
    codes.iter().copied().find(|code| code.number() == number)
}

impl Wire for ErrorCode {
    ghost use Rattle.wire_types.specs.ErrorCode.{error_code};

    ghost grammar = { error_code };

    #[tactic(auto, unfolding(crate::specs::CodedLaws::coded_at, crate::specs::CodedLaws::named_or))]
    fn read(_alloc: Global, cursor: &mut Cursor<'_>) -> Result<ErrorCode, ReadFault> {
        let number = cursor.read_i16()?;
        match ErrorCode::of_number(number) {
            Some(code) => Ok(code),
            None => Err(ReadFault::Malformed(Malformed::Range)),
        }
    }

    fn put(&self, out: &mut Vec<u8>) -> Result<(), WriteFault> {
        write_i16(out, self.number())?;
        Ok(())
    }

    fn deduct_from(&self, budget: usize) -> Option<usize> {
        deduct(2, budget)
    }
}
