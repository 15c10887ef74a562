//! The names that the protocol guide gives to apis and to error codes.

use msg_admin::{Api, ApiKey};
use wire_types::ErrorCode;

/// The name that the protocol guide gives an api key, such as `Fetch`.
fn name_of(key: ApiKey) -> &'static str {
    match key {
        ApiKey::Produce => "Produce",
        ApiKey::Fetch => "Fetch",
        ApiKey::ListOffsets => "ListOffsets",
        ApiKey::Metadata => "Metadata",
        ApiKey::OffsetCommit => "OffsetCommit",
        ApiKey::OffsetFetch => "OffsetFetch",
        ApiKey::FindCoordinator => "FindCoordinator",
        ApiKey::JoinGroup => "JoinGroup",
        ApiKey::Heartbeat => "Heartbeat",
        ApiKey::LeaveGroup => "LeaveGroup",
        ApiKey::SyncGroup => "SyncGroup",
        ApiKey::SaslHandshake => "SaslHandshake",
        ApiKey::ApiVersions => "ApiVersions",
        ApiKey::InitProducerId => "InitProducerId",
        ApiKey::AddPartitionsToTxn => "AddPartitionsToTxn",
        ApiKey::AddOffsetsToTxn => "AddOffsetsToTxn",
        ApiKey::EndTxn => "EndTxn",
        ApiKey::TxnOffsetCommit => "TxnOffsetCommit",
        ApiKey::DescribeAcls => "DescribeAcls",
        ApiKey::CreateAcls => "CreateAcls",
        ApiKey::DeleteAcls => "DeleteAcls",
        ApiKey::SaslAuthenticate => "SaslAuthenticate",
    }
}

/// The name that the protocol guide gives an api, such as `Fetch`, whatever its version.
pub fn api_name(api: Api) -> &'static str {
    name_of(api.key())
}

/// The name of the api with this key; `None` where no version of it is served.
pub fn key_name(number: i16) -> Option<&'static str> {
    Some(name_of(ApiKey::of(number)?))
}

/// The name that the protocol guide gives an error code, such as `OFFSET_OUT_OF_RANGE`.
pub(crate) fn error_name(error: ErrorCode) -> &'static str {
    match error {
        ErrorCode::None => "NONE",
        ErrorCode::OffsetOutOfRange => "OFFSET_OUT_OF_RANGE",
        ErrorCode::CorruptMessage => "CORRUPT_MESSAGE",
        ErrorCode::UnknownTopicOrPartition => "UNKNOWN_TOPIC_OR_PARTITION",
        ErrorCode::MessageTooLarge => "MESSAGE_TOO_LARGE",
        ErrorCode::InvalidRequiredAcks => "INVALID_REQUIRED_ACKS",
        ErrorCode::IllegalGeneration => "ILLEGAL_GENERATION",
        ErrorCode::InconsistentGroupProtocol => "INCONSISTENT_GROUP_PROTOCOL",
        ErrorCode::InvalidGroupId => "INVALID_GROUP_ID",
        ErrorCode::UnknownMemberId => "UNKNOWN_MEMBER_ID",
        ErrorCode::InvalidSessionTimeout => "INVALID_SESSION_TIMEOUT",
        ErrorCode::RebalanceInProgress => "REBALANCE_IN_PROGRESS",
        ErrorCode::TopicAuthorizationFailed => "TOPIC_AUTHORIZATION_FAILED",
        ErrorCode::GroupAuthorizationFailed => "GROUP_AUTHORIZATION_FAILED",
        ErrorCode::ClusterAuthorizationFailed => "CLUSTER_AUTHORIZATION_FAILED",
        ErrorCode::InvalidTimestamp => "INVALID_TIMESTAMP",
        ErrorCode::UnsupportedSaslMechanism => "UNSUPPORTED_SASL_MECHANISM",
        ErrorCode::IllegalSaslState => "ILLEGAL_SASL_STATE",
        ErrorCode::UnsupportedVersion => "UNSUPPORTED_VERSION",
        ErrorCode::InvalidRequest => "INVALID_REQUEST",
        ErrorCode::OutOfOrderSequenceNumber => "OUT_OF_ORDER_SEQUENCE_NUMBER",
        ErrorCode::InvalidProducerEpoch => "INVALID_PRODUCER_EPOCH",
        ErrorCode::InvalidTxnState => "INVALID_TXN_STATE",
        ErrorCode::InvalidProducerIdMapping => "INVALID_PRODUCER_ID_MAPPING",
        ErrorCode::InvalidTransactionTimeout => "INVALID_TRANSACTION_TIMEOUT",
        ErrorCode::ConcurrentTransactions => "CONCURRENT_TRANSACTIONS",
        ErrorCode::TransactionalIdAuthorizationFailed => "TRANSACTIONAL_ID_AUTHORIZATION_FAILED",
        ErrorCode::OperationNotAttempted => "OPERATION_NOT_ATTEMPTED",
        ErrorCode::SaslAuthenticationFailed => "SASL_AUTHENTICATION_FAILED",
        ErrorCode::UnsupportedCompressionType => "UNSUPPORTED_COMPRESSION_TYPE",
        ErrorCode::GroupMaxSizeReached => "GROUP_MAX_SIZE_REACHED",
        ErrorCode::InvalidRecord => "INVALID_RECORD",
        ErrorCode::UnstableOffsetCommit => "UNSTABLE_OFFSET_COMMIT",
        ErrorCode::ProducerFenced => "PRODUCER_FENCED",
    }
}
