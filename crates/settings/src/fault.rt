//! What can be wrong with settings.

ghost use Rattle.std.specs.Prelude.{◌≡◌};
ghost use Rattle.std.specs.Str.{bytes_eq};
ghost use Rattle.std.specs.List.{list_all, list_any};
ghost use Rattle.acl_binding.specs.Creatable.{is_principal, is_creatable};
ghost use Rattle.settings.specs.Fault.{is_within, are_numbers_within, is_host_within, is_topic_within, are_topics_within, is_text_within, is_binding_within, are_bindings_within, is_in_range, are_topic_names, are_distinct, first_fault};
ghost use Rattle.settings.specs.Names.{is_topic_name};

use crate::names::is_topic_name;
use crate::settings::{Settings, TopicSetting};
use acl_binding::{Binding, is_principal};
use thiserror::Error;
use wire_types::Text;

/// Why settings are refused: the first in this order that holds.
#[derive(Clone, Copy, Debug, PartialEq, Eq, Error)]
pub enum OpenFault {
    /// A number, a length or a count is out of range.
    #[error("a number, a length or a count is out of its range")]
    Range,
    /// A topic has a name that Kafka doesn't allow.
    #[error("a topic has a name that none may have")]
    TopicName,
    /// Two topics have the same name.
    #[error("a topic stands twice")]
    Twice,
    /// A binding may not be created: it has an empty name or host, a name of the cluster other than `kafka-cluster`, or a
    /// principal that isn't `User:` and at least one character.
    #[error("a binding has no name or host, another name of the cluster, or a principal that is no user")]
    Acl,
    /// A super user that isn't `User:` and at least one character.
    #[error("a super user is not `User:` and at least one character")]
    Super,
    /// An allocation failure, which may come instead of any other. `first_fault` never returns it.
    #[error("there is not enough memory")]
    NoMemory,
}

/// The least and the greatest value that a number of the settings may have, both allowed.
#[derive(Clone, Copy, Debug, PartialEq, Eq)]
pub(crate) struct Limits {
    pub(crate) least: u32,
    pub(crate) greatest: u32,
}

pub(crate) const NODE_ID: Limits = Limits {
    least: 0,
    greatest: 2_147_483_647,
};

pub(crate) const PORT: Limits = Limits {
    least: 1,
    greatest: 65_535,
};

pub(crate) const TRAIL_LIMIT: Limits = Limits {
    least: 1,
    greatest: 1_073_741_824,
};

pub(crate) const MAX_BATCH: Limits = Limits {
    least: 61,
    greatest: 104_857_600,
};

pub(crate) const MAX_TXN_TIMEOUT: Limits = Limits {
    least: 1,
    greatest: 2_147_483_647,
};

pub(crate) const PARTITIONS: Limits = Limits {
    least: 1,
    greatest: 1_000,
};

/// Whether the number is from the least to the greatest that the limits allow.
pub(crate) fn is_within(number: i64, limits: Limits) -> bool
    ensures { result ≡ is_within limits.least limits.greatest number }
{
    i64::from(limits.least) <= number && number <= i64::from(limits.greatest)
}

/// Whether node id, port, trail limit, greatest batch size and greatest transaction timeout are each within their limits.
fn are_numbers_within(settings: &Settings) -> bool
    ensures { result ≡ are_numbers_within settings.now }
{
    is_within(settings.node_id, NODE_ID)
        && is_within(settings.port, PORT)
        && is_within(settings.trail_limit, TRAIL_LIMIT)
        && is_within(settings.max_batch, MAX_BATCH)
        && is_within(settings.max_txn_timeout, MAX_TXN_TIMEOUT)
}

/// Whether the host has 1 to 255 bytes.
pub(crate) fn is_host_within(host: &Text) -> bool
    ensures { result ≡ is_host_within host.now }
{
    host.len() >= 1 && host.len() <= 255
}

/// Whether each topic has 1 to 1,000 partitions. The number of topics isn't checked here.
fn are_partitions_within(topics: &[TopicSetting]) -> bool
    ensures { result ≡ list_all is_topic_within topics.now }
{
    topics
        .iter()
        .all(|topic| is_within(topic.partitions, PARTITIONS))
}

/// Whether there are at most 1,000 topics, each with 1 to 1,000 partitions.
fn are_topics_within(topics: &[TopicSetting]) -> bool
    ensures { result ≡ are_topics_within topics.now }
{
    topics.len() <= 1_000 && are_partitions_within(topics)
}

/// Whether a text has at most 1,000 bytes.
pub(crate) fn is_text_within(text: &Text) -> bool
    ensures { result ≡ is_text_within text.now }
{
    text.len() <= 1_000
}

/// Whether each text has at most 1,000 bytes.
fn are_texts_within(texts: &[Text]) -> bool
    ensures { result ≡ list_all is_text_within texts.now }
{
    texts.iter().all(|text| is_text_within(text))
}

/// Whether the binding's name, principal and host have at most 1,000 bytes each.
pub(crate) fn is_binding_within(binding: &Binding) -> bool
    ensures { result ≡ is_binding_within binding.now }
{
    is_text_within(&binding.name)
        && is_text_within(&binding.principal)
        && is_text_within(&binding.host)
}

/// Whether the name, principal and host of each binding have at most 1,000 bytes each. The number of bindings isn't checked here.
fn are_all_within(acls: &[Binding]) -> bool
    ensures { result ≡ list_all is_binding_within acls.now }
{
    acls.iter().all(|binding| is_binding_within(binding))
}

/// Whether there are at most 100,000 bindings, each with a name, a principal and a host of at most 1,000 bytes.
fn are_bindings_within(acls: &[Binding]) -> bool
    ensures { result ≡ are_bindings_within acls.now }
{
    acls.len() <= 100_000 && are_all_within(acls)
}

/// Whether each number, length and count of the settings is in its range; if not, the fault is `Range`. Lengths are those of the
/// host, of the bindings' texts and of super users, whose number isn't limited; topic names are left to `TopicName`.
fn is_in_range(settings: &Settings) -> bool
    ensures { result ≡ is_in_range settings.now }
{
    are_numbers_within(settings)
        && is_host_within(&settings.host)
        && are_topics_within(settings.topics.as_slice())
        && are_bindings_within(settings.acls.as_slice())
        && are_texts_within(settings.supers.as_slice())
}

/// Whether each topic has a name that Kafka allows; if not, the fault is `TopicName`.
fn are_topic_names(topics: &[TopicSetting]) -> bool
    ensures { result ≡ are_topic_names topics.now }
{
    topics
        .iter()
        .all(|topic| is_topic_name(topic.name.as_str()))
}

/// Whether one of the topics has this name.
fn is_among(name: &Text, topics: &[TopicSetting]) -> bool
    ensures { result ≡ list_any (λ u. bytes_eq name.now u.name) topics.now }
{
    topics
        .iter()
        .any(|topic| name.as_str() == topic.name.as_str())
}

/// Whether no two topics have the same name; if two do, the fault is `Twice`. It compares each with each, which is quick for at
/// most 1,000.
fn are_distinct(topics: &[TopicSetting]) -> bool
    ensures { result ≡ are_distinct topics.now }
{
    let mut rest = topics;
    while let Some((first, more)) = rest.split_first() {
        if is_among(&first.name, more) {
            return false;
        }
        rest = more;
    }
    true
}

/// Whether each binding may be created; if not, the fault is `Acl`.
fn are_creatable(acls: &[Binding]) -> bool
    ensures { result ≡ list_all is_creatable acls.now }
{
    acls.iter().all(|binding| binding.is_creatable())
}

/// Whether each super user is `User:` and at least one character; if not, the fault is `Super`.
fn are_principals(supers: &[Text]) -> bool
    ensures { result ≡ list_all is_principal supers.now }
{
    supers
        .iter()
        .all(|principal| is_principal(principal.as_str()))
}

/// The first fault of the settings in the order of `OpenFault`; None if there is none. It is never `NoMemory`, since it allocates
/// nothing.
pub fn first_fault(settings: &Settings) -> Option<OpenFault>
    ensures { result ≡ first_fault settings.now }
{
    if !is_in_range(settings) {
        return Some(OpenFault::Range);
    }
    if !are_topic_names(settings.topics.as_slice()) {
        return Some(OpenFault::TopicName);
    }
    if !are_distinct(settings.topics.as_slice()) {
        return Some(OpenFault::Twice);
    }
    if !are_creatable(settings.acls.as_slice()) {
        return Some(OpenFault::Acl);
    }
    if !are_principals(settings.supers.as_slice()) {
        return Some(OpenFault::Super);
    }
    None
}
