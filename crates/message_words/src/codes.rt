//! What numbers in messages stand for: the names of the protocol guide and of its documentation of access control.

/// What a Produce with these acks waits for, in the protocol guide's words: -1, 0 or 1; `None` for any other number.
pub(crate) fn acks_name(acks: i16) -> Option<&'static str> {
    match acks {
        -1 => Some("full ISR"),
        0 => Some("no acknowledgments"),
        1 => Some("only the leader"),
        _ => None,
    }
}

/// Which offset the timestamp of a ListOffsets asks for, where the number is no time: -1 the latest, -2 the earliest; else
/// `None`.
pub(crate) fn timestamp_name(timestamp: i64) -> Option<&'static str> {
    match timestamp {
        -1 => Some("latest"),
        -2 => Some("earliest"),
        _ => None,
    }
}

/// What the key of a FindCoordinator names, by its key type, such as `GROUP`; `None` for an unknown number.
pub(crate) fn key_type_name(key_type: i8) -> Option<&'static str> {
    match key_type {
        0 => Some("GROUP"),
        1 => Some("TRANSACTION"),
        2 => Some("SHARE"),
        _ => None,
    }
}

/// The name of an ACL's resource type, as Kafka's `ResourceType` has it; `None` for an unknown number.
pub(crate) fn resource_type_name(resource_type: i8) -> Option<&'static str> {
    match resource_type {
        0 => Some("UNKNOWN"),
        1 => Some("ANY"),
        2 => Some("TOPIC"),
        3 => Some("GROUP"),
        4 => Some("CLUSTER"),
        5 => Some("TRANSACTIONAL_ID"),
        6 => Some("DELEGATION_TOKEN"),
        7 => Some("USER"),
        _ => None,
    }
}

/// The name of an ACL's pattern type, as Kafka's `PatternType` has it; `None` for an unknown number.
pub(crate) fn pattern_type_name(pattern_type: i8) -> Option<&'static str> {
    match pattern_type {
        0 => Some("UNKNOWN"),
        1 => Some("ANY"),
        2 => Some("MATCH"),
        3 => Some("LITERAL"),
        4 => Some("PREFIXED"),
        _ => None,
    }
}

/// The name of an ACL's operation, as Kafka's `AclOperation` has it; `None` for an unknown number.
pub(crate) fn operation_name(operation: i8) -> Option<&'static str> {
    match operation {
        0 => Some("UNKNOWN"),
        1 => Some("ANY"),
        2 => Some("ALL"),
        3 => Some("READ"),
        4 => Some("WRITE"),
        5 => Some("CREATE"),
        6 => Some("DELETE"),
        7 => Some("ALTER"),
        8 => Some("DESCRIBE"),
        9 => Some("CLUSTER_ACTION"),
        10 => Some("DESCRIBE_CONFIGS"),
        11 => Some("ALTER_CONFIGS"),
        12 => Some("IDEMPOTENT_WRITE"),
        13 => Some("CREATE_TOKENS"),
        14 => Some("DESCRIBE_TOKENS"),
        _ => None,
    }
}

/// The name of an ACL's permission type, as Kafka's `AclPermissionType` has it; `None` for an unknown number.
pub(crate) fn permission_type_name(permission_type: i8) -> Option<&'static str> {
    match permission_type {
        0 => Some("UNKNOWN"),
        1 => Some("ANY"),
        2 => Some("DENY"),
        3 => Some("ALLOW"),
        _ => None,
    }
}

/// The codec that the lowest three bits of a batch's attributes stand for, such as `gzip`; `none` for 0, `unknown` for a number
/// without a codec.
pub(crate) fn compression_name(compression: u16) -> &'static str {
    match compression {
        0 => "none",
        1 => "gzip",
        2 => "snappy",
        3 => "lz4",
        4 => "zstd",
        _ => "unknown",
    }
}
