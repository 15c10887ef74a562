//! Sentences for an operator about the first fault of settings: the place, and then what is wrong there. No contract speaks of
//! them. A name is written with its escapes, so that each sentence is one line. An error of a function is an allocation failure.

use crate::entry::{Entry, name_twice};
use crate::fault::{
    Limits, MAX_BATCH, MAX_TXN_TIMEOUT, NODE_ID, OpenFault, PARTITIONS, PORT, TRAIL_LIMIT,
    is_host_within, is_text_within, is_within,
};
use crate::names::is_topic_name;
use crate::settings::{Settings, TopicSetting};
use acl_binding::{Binding, CLUSTER_NAME, Kind, is_principal};
use std::alloc::{AllocError, Global};
use wire_types::Text;

/// The sentence about the first number of the broker itself (node id, port, limits) that is out of its range; None if there is
/// none.
fn number_out_of_range(alloc: Global, settings: &Settings) -> Result<Option<String>, AllocError> {
    for (key, number, limits) in [
        ("node_id", settings.node_id, NODE_ID),
        ("port", settings.port, PORT),
        ("trail_limit", settings.trail_limit, TRAIL_LIMIT),
        ("max_batch", settings.max_batch, MAX_BATCH),
        ("max_txn_timeout", settings.max_txn_timeout, MAX_TXN_TIMEOUT),
    ] {
        if !is_within(number, limits) {
            let Limits { least, greatest } = limits;
            return Ok(Some(format!(in alloc;
                "`{key}` is {number}, and not from {least} to {greatest}"
            )?));
        }
    }
    Ok(None)
}

/// The sentence about a host that is empty or too long, `None` if it is neither.
fn host_out_of_range(alloc: Global, host: &Text) -> Result<Option<String>, AllocError> {
    if is_host_within(host) {
        return Ok(None);
    }
    let bytes = host.len();
    Ok(Some(format!(in alloc; "`host` has {bytes} bytes, and not from 1 to 255")?))
}

/// The sentence about the first topic with too few or too many partitions, or else about too many topics; `None` if all is
/// in range.
fn topics_out_of_range(
    alloc: Global,
    topics: &[TopicSetting],
) -> Result<Option<String>, AllocError> {
    for (place, topic) in topics.iter().enumerate() {
        let partitions = topic.partitions;
        if !is_within(partitions, PARTITIONS) {
            let entry = Entry {
                list: "topic",
                place,
            };
            let Limits { least, greatest } = PARTITIONS;
            return Ok(Some(format!(in alloc;
                "{entry}: `partitions` is {partitions}, and not from {least} to {greatest}"
            )?));
        }
    }
    let count = topics.len();
    if count > 1_000 {
        return Ok(Some(format!(in alloc; "there are {count} topics, and not at most 1000")?));
    }
    Ok(None)
}

/// What is wrong with the first text of this binding that is too long (name, principal or host), without the binding's place;
/// None if none is.
fn long_text(alloc: Global, binding: &Binding) -> Result<Option<String>, AllocError> {
    for (key, text) in [
        ("name", &binding.name),
        ("principal", &binding.principal),
        ("host", &binding.host),
    ] {
        if !is_text_within(text) {
            let bytes = text.len();
            return Ok(Some(format!(in alloc; "`{key}` has {bytes} bytes, and not at most 1000")?));
        }
    }
    Ok(None)
}

/// The sentence about the first binding with a text that is too long, or else about too many bindings; `None` if all is in
/// range.
fn bindings_out_of_range(alloc: Global, acls: &[Binding]) -> Result<Option<String>, AllocError> {
    for (place, binding) in acls.iter().enumerate() {
        if let Some(what) = long_text(alloc, binding)? {
            let entry = Entry { list: "acl", place };
            return Ok(Some(format!(in alloc; "{entry}: {what}")?));
        }
    }
    let count = acls.len();
    if count > 100_000 {
        return Ok(Some(format!(in alloc; "there are {count} bindings, and not at most 100000")?));
    }
    Ok(None)
}

/// The sentence about the first super user that is too long, `None` if there is none.
fn supers_out_of_range(alloc: Global, supers: &[Text]) -> Result<Option<String>, AllocError> {
    for (place, principal) in supers.iter().enumerate() {
        if !is_text_within(principal) {
            let entry = Entry {
                list: "supers",
                place,
            };
            let bytes = principal.len();
            return Ok(Some(format!(in alloc;
                "{entry}: it has {bytes} bytes, and not at most 1000"
            )?));
        }
    }
    Ok(None)
}

/// The sentence about what is out of its range in the settings, `None` if nothing is.
fn out_of_range(alloc: Global, settings: &Settings) -> Result<Option<String>, AllocError> {
    if let Some(sentence) = number_out_of_range(alloc, settings)? {
        return Ok(Some(sentence));
    }
    if let Some(sentence) = host_out_of_range(alloc, &settings.host)? {
        return Ok(Some(sentence));
    }
    if let Some(sentence) = topics_out_of_range(alloc, settings.topics.as_slice())? {
        return Ok(Some(sentence));
    }
    if let Some(sentence) = bindings_out_of_range(alloc, settings.acls.as_slice())? {
        return Ok(Some(sentence));
    }
    supers_out_of_range(alloc, settings.supers.as_slice())
}

/// The sentence about the first topic whose name Kafka doesn't allow; None if there is none.
fn no_topic_name(alloc: Global, topics: &[TopicSetting]) -> Result<Option<String>, AllocError> {
    for (place, topic) in topics.iter().enumerate() {
        let name = topic.name.as_str();
        if !is_topic_name(name) {
            let entry = Entry {
                list: "topic",
                place,
            };
            let name = name.escape_debug();
            return Ok(Some(format!(in alloc;
                "{entry}: no topic may have the name `{name}`: a name is 1 to 249 ASCII letters, digits, `.`, `_` and `-`, and neither `.` nor `..`"
            )?));
        }
    }
    Ok(None)
}

/// The first topic whose name a later topic has too: the name, and both places, counted from 0. `None` if no topic stands
/// twice.
fn repeated(topics: &[TopicSetting]) -> Option<(&Text, usize, usize)> {
    let mut rest = topics;
    while let Some((first, more)) = rest.split_first() {
        if let Some(between) = more.iter().position(|topic| topic.name == first.name) {
            let place = topics.len().saturating_sub(rest.len());
            let again = place.saturating_add(between).saturating_add(1);
            return Some((&first.name, place, again));
        }
        rest = more;
    }
    None
}

/// The sentence about the first two topics of the same name; None if there are none.
fn topic_twice(alloc: Global, topics: &[TopicSetting]) -> Result<Option<String>, AllocError> {
    match repeated(topics) {
        Some((name, place, again)) => {
            Ok(Some(name_twice(alloc, "topic", (place, again), name)?))
        }
        None => Ok(None),
    }
}

/// Why this binding, for which `is_creatable` has to be false, may not be created, without its place.
fn why_not_creatable(alloc: Global, binding: &Binding) -> Result<String, AllocError> {
    let name = binding.name.as_str();
    if binding.kind == Kind::Cluster && name != CLUSTER_NAME {
        let name = name.escape_debug();
        return format!(in alloc; "the cluster's name is `{CLUSTER_NAME}`, and not `{name}`");
    }
    if name.is_empty() {
        return String::from_str(alloc, "`name` is empty");
    }
    let principal = binding.principal.as_str();
    if !is_principal(principal) {
        let principal = principal.escape_debug();
        return format!(in alloc;
            "`principal` is `{principal}`, and not `User:` and at least one character"
        );
    }
    String::from_str(alloc, "`host` is empty")
}

/// The sentence about the first binding that may not be created, `None` if there is none.
fn no_binding(alloc: Global, acls: &[Binding]) -> Result<Option<String>, AllocError> {
    for (place, binding) in acls.iter().enumerate() {
        if !binding.is_creatable() {
            let entry = Entry { list: "acl", place };
            let why = why_not_creatable(alloc, binding)?;
            return Ok(Some(format!(in alloc; "{entry}: {why}")?));
        }
    }
    Ok(None)
}

/// The sentence about the first super user that isn't `User:` and at least one character, `None` if there is none.
fn no_super(alloc: Global, supers: &[Text]) -> Result<Option<String>, AllocError> {
    for (place, principal) in supers.iter().enumerate() {
        let principal = principal.as_str();
        if !is_principal(principal) {
            let entry = Entry {
                list: "supers",
                place,
            };
            let principal = principal.escape_debug();
            return Ok(Some(format!(in alloc;
                "{entry}: it is `{principal}`, and not `User:` and at least one character"
            )?));
        }
    }
    Ok(None)
}

/// A sentence for an operator: where the settings first have this fault, and what is wrong there. If they have it nowhere, or it
/// is `NoMemory`, the sentence says what the fault is in general. An error is an allocation failure.
pub fn explain(alloc: Global, settings: &Settings, fault: OpenFault) -> Result<String, AllocError> {
    let found = match fault {
        OpenFault::Range => out_of_range(alloc, settings)?,
        OpenFault::TopicName => no_topic_name(alloc, settings.topics.as_slice())?,
        OpenFault::Twice => topic_twice(alloc, settings.topics.as_slice())?,
        OpenFault::Acl => no_binding(alloc, settings.acls.as_slice())?,
        OpenFault::Super => no_super(alloc, settings.supers.as_slice())?,
        OpenFault::NoMemory => None,
    };
    match found {
        Some(sentence) => Ok(sentence),
        None => format!(in alloc; "{fault}"),
    }
}
