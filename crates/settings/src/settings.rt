//! Settings, as they were written down: unchecked, until `first_fault` tests them. The ranges here are those that it allows.

use acl_binding::Binding;
use wire_types::{Items, Text};

/// A topic, and how many partitions it has.
#[derive(Debug, Drop)]
pub struct TopicSetting {
    pub name: Text,
    /// 1 to 1,000.
    pub partitions: i64,
}

/// What the broker is set up with. Numbers are as a settings text holds them, so any of 64 bits.
#[derive(Debug, Drop)]
pub struct Settings {
    /// The id of the one node, 0 to 2,147,483,647.
    pub node_id: i64,
    /// The name that clients reach it by, of 1 to 255 bytes.
    pub host: Text,
    /// The port that clients reach it by, 1 to 65,535.
    pub port: i64,
    /// The super users: principals that are allowed everything. Each is `User:` and at least one character, of at most 1,000
    /// bytes.
    pub supers: Items<Text>,
    /// How many events the audit trail can take, 1 to 1,073,741,824.
    pub trail_limit: i64,
    /// The greatest size of a record batch in bytes, 61 to 104,857,600.
    pub max_batch: i64,
    /// The greatest timeout of a transaction in milliseconds, 1 to 2,147,483,647.
    pub max_txn_timeout: i64,
    /// At most 1,000 topics, no name twice.
    pub topics: Items<TopicSetting>,
    /// The bindings that the book begins with, at most 100,000. An equal one adds nothing.
    pub acls: Items<Binding>,
}
