//! Reads the tables of a document. Numbers, names and bindings are checked later. An allocation failure gives `NoMemory`.

ghost use Rattle.std.specs.Prelude.{codes};
ghost use Rattle.toml.specs.Data.{as_str};
ghost use Rattle.toml.specs.View.{view, table_view};
ghost use Rattle.settings_text.specs.Fields.{Reads, texts, list_field};
ghost use Rattle.settings_text.specs.Rows.{row_of, user_of, topic_of, kind_field, pattern_field, operation_field, permission_field, binding_of, settings_of, document_of};

use crate::document::{UncheckedDocument, User};
use crate::fields::{FieldFault, has_only, items, number, number_or_default, text, text_of};
use acl_binding::{Binding, Kind, Operation, Pattern, Permission};
use settings::{Settings, TopicSetting};
use std::alloc::Global;
use toml::{Table, Value};
use wire_types::{Items, Text};

/// The keys of a `[[user]]`.
pub(crate) const USER_KEYS: [&str; 2] = ["name", "password"];

/// The keys of a `[[topic]]`.
pub(crate) const TOPIC_KEYS: [&str; 2] = ["name", "partitions"];

/// The keys of an `[[acl]]`.
pub(crate) const ACL_KEYS: [&str; 7] = [
    "kind",
    "name",
    "pattern",
    "principal",
    "host",
    "operation",
    "permission",
];

/// The keys of the document itself.
pub(crate) const TOP_KEYS: [&str; 10] = [
    "node_id",
    "host",
    "port",
    "supers",
    "trail_limit",
    "max_batch",
    "max_txn_timeout",
    "user",
    "topic",
    "acl",
];

/// The table that a value is. The fault is `Key` if it is none, or has other keys than `keys`. Whether it has all of these
/// isn't checked here.
fn row<'a>(value: &'a Value, keys: &[&str]) -> Result<&'a Table, FieldFault>
    ensures { Reads (λ t. table_view t.now) (row_of (texts keys.now) (view value.now)) result }
{
    let table = value.as_table().ok_or(FieldFault::Key)?;
    if !has_only(table, keys) {
        return Err(FieldFault::Key);
    }
    Ok(table)
}

/// Reads a `[[user]]`: a name and a password. The fault is `Key` if the value is no table, or a key is missing, unknown or no
/// text, `NoMemory` on an allocation failure. Empty texts and NULs aren't refused here (see `Users`).
fn user(alloc: Global, value: &Value) -> Result<User, FieldFault>
    ensures { Reads (λ x. x) (user_of (view value.now)) result }
{
    let table = row(value, &USER_KEYS)?;
    let name = text(alloc, table, "name")?;
    let password = text(alloc, table, "password")?;
    Ok(User { name, password })
}

/// Reads a `[[topic]]`: a name, and how many partitions it has, which aren't checked here. The fault is `Key` if the value is
/// no table, or a key is missing, unknown or of another kind, `NoMemory` on an allocation failure.
fn topic(alloc: Global, value: &Value) -> Result<TopicSetting, FieldFault>
    ensures { Reads (λ x. x) (topic_of (view value.now)) result }
{
    let table = row(value, &TOPIC_KEYS)?;
    let name = text(alloc, table, "name")?;
    let partitions = number(table, "partitions")?;
    Ok(TopicSetting { name, partitions })
}

/// Reads an ACL binding's kind of resource, by its name, such as `Topic`. The fault is `Key` if it is missing or unknown.
fn kind(alloc: Global, table: &Table) -> Result<Kind, FieldFault>
    ensures { Reads (λ x. x) (kind_field (table_view table.now)) result }
{
    let word = text(alloc, table, "kind")?;
    Kind::named(word.as_str()).ok_or(FieldFault::Key)
}

/// Reads an ACL binding's pattern type, `LITERAL` or `PREFIXED`. The fault is `Key` if it is missing or another word.
fn pattern(alloc: Global, table: &Table) -> Result<Pattern, FieldFault>
    ensures { Reads (λ x. x) (pattern_field (table_view table.now)) result }
{
    let word = text(alloc, table, "pattern")?;
    Pattern::named(word.as_str()).ok_or(FieldFault::Key)
}

/// Reads an ACL binding's operation, by its name, such as `READ`. The fault is `Key` if it is missing or unknown.
fn operation(alloc: Global, table: &Table) -> Result<Operation, FieldFault>
    ensures { Reads (λ x. x) (operation_field (table_view table.now)) result }
{
    let word = text(alloc, table, "operation")?;
    Operation::named(word.as_str()).ok_or(FieldFault::Key)
}

/// Reads whether an ACL binding is `ALLOW` or `DENY`. The fault is `Key` if it is missing or another word.
fn permission(alloc: Global, table: &Table) -> Result<Permission, FieldFault>
    ensures { Reads (λ x. x) (permission_field (table_view table.now)) result }
{
    let word = text(alloc, table, "permission")?;
    Permission::named(word.as_str()).ok_or(FieldFault::Key)
}

/// Reads an `[[acl]]`, an ACL binding: its resource pattern, and who may or may not do what from which host. All seven keys
/// must be there. Whether such a binding may be created isn't checked here. Faults are as in `document`.
fn binding(alloc: Global, value: &Value) -> Result<Binding, FieldFault>
    ensures { Reads (λ x. x) (binding_of (view value.now)) result }
{
    let table = row(value, &ACL_KEYS)?;
    let kind = kind(alloc, table)?;
    let name = text(alloc, table, "name")?;
    let pattern = pattern(alloc, table)?;
    let principal = text(alloc, table, "principal")?;
    let host = text(alloc, table, "host")?;
    let operation = operation(alloc, table)?;
    let permission = permission(alloc, table)?;
    Ok(Binding {
        kind,
        name,
        pattern,
        principal,
        host,
        operation,
        permission,
    })
}

/// Reads each `[[user]]`, in order; there may be none. The fault is that of the first that has one, or `Key` if `user` is no
/// list.
fn users(alloc: Global, table: &Table) -> Result<Items<User>, FieldFault>
    ensures { Reads (λ x. x) (list_field user_of (codes "user") (table_view table.now)) result }
{
    let mut users = Items::new(alloc);
    for value in items(table, "user")? {
        users.push(user(alloc, value)?)?;
    }
    Ok(users)
}

/// Reads each `[[topic]]`, in order; there may be none. The fault is that of the first that has one, or `Key` if `topic` is no
/// list.
fn topics(alloc: Global, table: &Table) -> Result<Items<TopicSetting>, FieldFault>
    ensures { Reads (λ x. x) (list_field topic_of (codes "topic") (table_view table.now)) result }
{
    let mut topics = Items::new(alloc);
    for value in items(table, "topic")? {
        topics.push(topic(alloc, value)?)?;
    }
    Ok(topics)
}

/// Reads each `[[acl]]`, in order; there may be none. The fault is that of the first that has one, or `Key` if `acl` is no
/// list.
fn acls(alloc: Global, table: &Table) -> Result<Items<Binding>, FieldFault>
    ensures { Reads (λ x. x) (list_field binding_of (codes "acl") (table_view table.now)) result }
{
    let mut acls = Items::new(alloc);
    for value in items(table, "acl")? {
        acls.push(binding(alloc, value)?)?;
    }
    Ok(acls)
}

/// Reads the list `supers`, the principals of the super users; there may be none. The fault is `Key` if it is no list of texts.
fn supers(alloc: Global, table: &Table) -> Result<Items<Text>, FieldFault>
    ensures { Reads (λ x. x) (list_field as_str (codes "supers") (table_view table.now)) result }
{
    let mut supers = Items::new(alloc);
    for value in items(table, "supers")? {
        supers.push(text_of(alloc, value)?)?;
    }
    Ok(supers)
}

/// Reads the settings of the broker: all that a document says but its users. Defaults: `trail_limit` 1,048,576 events,
/// `max_batch` 1,048,588 bytes, `max_txn_timeout` 900,000 milliseconds. Ranges and names aren't checked here. Faults are as in
/// `document`.
fn settings(alloc: Global, table: &Table) -> Result<Settings, FieldFault>
    ensures { Reads (λ x. x) (settings_of (table_view table.now)) result }
{
    let node_id = number(table, "node_id")?;
    let host = text(alloc, table, "host")?;
    let port = number(table, "port")?;
    let supers = supers(alloc, table)?;
    let trail_limit = number_or_default(table, "trail_limit", 1_048_576)?;
    let max_batch = number_or_default(table, "max_batch", 1_048_588)?;
    let max_txn_timeout = number_or_default(table, "max_txn_timeout", 900_000)?;
    let topics = topics(alloc, table)?;
    let acls = acls(alloc, table)?;
    Ok(Settings {
        node_id,
        host,
        port,
        supers,
        trail_limit,
        max_batch,
        max_txn_timeout,
        topics,
        acls,
    })
}

/// Reads a whole settings table: its users and its settings. The fault is `Key` if a key is missing, unknown or of another
/// kind, or a word of a binding is unknown; `NoMemory` on an allocation failure.
pub(crate) fn document(alloc: Global, table: &Table) -> Result<UncheckedDocument, FieldFault>
    ensures { Reads (λ x. x) (document_of (table_view table.now)) result }
{
    if !has_only(table, &TOP_KEYS) {
        return Err(FieldFault::Key);
    }
    let users = users(alloc, table)?;
    let settings = settings(alloc, table)?;
    Ok(UncheckedDocument { users, settings })
}
