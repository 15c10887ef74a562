//! Where a settings text has a fault, in sentences for a reader. No contract speaks of them. A name appears with its escapes,
//! so that each sentence is one line, but for those of the TOML reader.

use crate::document::{UncheckedDocument, User};
use crate::fault::SettingsFault;
use crate::fields::{find, is_among};
use crate::rows::{ACL_KEYS, TOP_KEYS, TOPIC_KEYS, USER_KEYS, document};
use acl_binding::{Kind, Operation, Pattern, Permission};
use settings::{Entry, name_twice};
use std::alloc::{AllocError, Global};
use std::collections::BTreeSet;
use std::str::from_utf8;
use toml::{Table, Value};
use wire_types::Text;

/// What kind of value stands at a key.
#[derive(Clone, Copy, Debug, PartialEq, Eq)]
enum Shape {
    Integer,
    Text,
    Kind,
    Pattern,
    Operation,
    Permission,
    List,
}

impl Shape {
    /// Whether a value is of this shape.
    fn fits(self, value: &Value) -> bool {
        match self {
            Shape::Integer => value.as_integer().is_some(),
            Shape::Text => value.as_str().is_some(),
            Shape::Kind => value.as_str().and_then(Kind::named).is_some(),
            Shape::Pattern => value.as_str().and_then(Pattern::named).is_some(),
            Shape::Operation => value.as_str().and_then(Operation::named).is_some(),
            Shape::Permission => value.as_str().and_then(Permission::named).is_some(),
            Shape::List => value.as_array().is_some(),
        }
    }

    /// What the shape is called in a sentence.
    fn name(self) -> &'static str {
        match self {
            Shape::Integer => "an integer",
            Shape::Text | Shape::Kind | Shape::Pattern | Shape::Operation | Shape::Permission => {
                "a text"
            }
            Shape::List => "a list",
        }
    }

    /// A sentence that lists the words of the shape; `None` if the shape isn't one of given words.
    fn words(self) -> Option<&'static str> {
        match self {
            Shape::Kind => Some(KINDS),
            Shape::Pattern => Some(PATTERNS),
            Shape::Operation => Some(OPERATIONS),
            Shape::Permission => Some(PERMISSIONS),
            Shape::Integer | Shape::Text | Shape::List => None,
        }
    }
}

const KINDS: &str = "the kinds are Topic, Group, Cluster, TransactionalId";

const PATTERNS: &str = "the patterns are LITERAL, PREFIXED";

const OPERATIONS: &str =
    "the operations are ALL, READ, WRITE, CREATE, DELETE, ALTER, DESCRIBE, CLUSTER_ACTION, DESCRIBE_CONFIGS, ALTER_CONFIGS, IDEMPOTENT_WRITE";

const PERMISSIONS: &str = "the permissions are ALLOW, DENY";

/// The keys that must stand before the first `[[..]]` table of a document, since after it TOML takes them for keys of that
/// table.
const BEFORE_TABLES: [&str; 7] = [
    "node_id",
    "host",
    "port",
    "supers",
    "trail_limit",
    "max_batch",
    "max_txn_timeout",
];

/// The keys that may not be left out, and the shapes of their values.
const TOP: [(&str, Shape); 3] = [
    ("node_id", Shape::Integer),
    ("host", Shape::Text),
    ("port", Shape::Integer),
];

/// The keys that may be left out, and the shapes of their values.
const OPTIONAL: [(&str, Shape); 7] = [
    ("supers", Shape::List),
    ("trail_limit", Shape::Integer),
    ("max_batch", Shape::Integer),
    ("max_txn_timeout", Shape::Integer),
    ("user", Shape::List),
    ("topic", Shape::List),
    ("acl", Shape::List),
];

const USER: [(&str, Shape); 2] = [("name", Shape::Text), ("password", Shape::Text)];

const TOPIC: [(&str, Shape); 2] = [("name", Shape::Text), ("partitions", Shape::Integer)];

const ACL: [(&str, Shape); 7] = [
    ("kind", Shape::Kind),
    ("name", Shape::Text),
    ("pattern", Shape::Pattern),
    ("principal", Shape::Text),
    ("host", Shape::Text),
    ("operation", Shape::Operation),
    ("permission", Shape::Permission),
];

/// The first key of a table that isn't in `known`.
fn unknown<'a>(table: &'a Table, known: &[&str]) -> Option<&'a str> {
    for key in table.keys() {
        if !is_among(key.as_str(), known) {
            return Some(key.as_str());
        }
    }
    None
}

/// A key that belongs before the first table of the document, but stands in this one, whose own keys are `known`; `None` if
/// there is no such key.
fn misplaced(table: &Table, known: &[&str]) -> Option<&'static str> {
    for key in BEFORE_TABLES {
        if find(table, key).is_some() && !is_among(key, known) {
            return Some(key);
        }
    }
    None
}

/// A sentence about a key that stands in one of the tables of `list`, but belongs before the first table of the document.
/// `known` are the keys of these tables. `None` if there is no such key.
fn misplaced_fault(
    alloc: Global,
    table: &Table,
    list: &str,
    known: &[&str],
) -> Result<Option<String>, AllocError> {
    let Some(Value::Array(rows)) = find(table, list) else {
        return Ok(None);
    };
    for (place, row) in rows.as_slice().iter().enumerate() {
        if let Some(key) = row.as_table().and_then(|row| misplaced(row, known)) {
            let entry = Entry { list, place };
            return Ok(Some(format!(in alloc;
                "{entry}: the key `{key}` is unknown there: it belongs before the first table"
            )?));
        }
    }
    Ok(None)
}

/// A sentence about the value at a key, if it isn't of the shape `shape`; else `None`.
fn misfit(
    alloc: Global,
    key: &str,
    shape: Shape,
    value: &Value,
) -> Result<Option<String>, AllocError> {
    if shape.fits(value) {
        return Ok(None);
    }
    if let (Some(word), Some(words)) = (value.as_str(), shape.words()) {
        let word = word.escape_debug();
        return Ok(Some(format!(in alloc; "`{key}` is `{word}`, which is none: {words}")?));
    }
    let kind = shape.name();
    Ok(Some(format!(in alloc; "`{key}` is not {kind}")?))
}

/// A sentence about a table's first key that is unknown, missing or of the wrong shape, `None` if there is none. `known` are
/// the keys that may stand there, `required` those that must. The sentence doesn't say where the table stands.
fn keys_fault(
    alloc: Global,
    table: &Table,
    known: &[&str],
    required: &[(&str, Shape)],
) -> Result<Option<String>, AllocError> {
    if let Some(key) = unknown(table, known) {
        let key = key.escape_debug();
        return Ok(Some(format!(in alloc; "the key `{key}` is unknown")?));
    }
    for (key, shape) in required {
        match find(table, key) {
            Some(value) => {
                if let Some(what) = misfit(alloc, key, *shape, value)? {
                    return Ok(Some(what));
                }
            }
            None => return Ok(Some(format!(in alloc; "the key `{key}` is missing")?)),
        }
    }
    Ok(None)
}

/// A sentence about the first table of `list` whose keys aren't right, with its place in the list; `None` if all are. `known`
/// and `required` are as in `keys_fault`.
fn rows_fault(
    alloc: Global,
    table: &Table,
    list: &str,
    known: &[&str],
    required: &[(&str, Shape)],
) -> Result<Option<String>, AllocError> {
    let Some(Value::Array(rows)) = find(table, list) else {
        return Ok(None);
    };
    for (place, row) in rows.as_slice().iter().enumerate() {
        let entry = Entry { list, place };
        let Some(row) = row.as_table() else {
            return Ok(Some(format!(in alloc; "{entry}: it is no table")?));
        };
        if let Some(what) = keys_fault(alloc, row, known, required)? {
            return Ok(Some(format!(in alloc; "{entry}: {what}")?));
        }
    }
    Ok(None)
}

/// A sentence about the first optional key of a document whose value is of the wrong shape; `None` if there is none.
fn optional_fault(alloc: Global, table: &Table) -> Result<Option<String>, AllocError> {
    for (key, shape) in &OPTIONAL {
        if let Some(value) = find(table, key) {
            if let Some(what) = misfit(alloc, key, *shape, value)? {
                return Ok(Some(what));
            }
        }
    }
    Ok(None)
}

/// A sentence about the key at which a document has its fault. A key that stands in the wrong table comes before those that are
/// missing, since it may be one of them. If no other fault is found, it is that `supers` is no list of texts.
fn key_fault(alloc: Global, table: &Table) -> Result<String, AllocError> {
    if let Some(what) = misplaced_fault(alloc, table, "user", &USER_KEYS)? {
        return Ok(what);
    }
    if let Some(what) = misplaced_fault(alloc, table, "topic", &TOPIC_KEYS)? {
        return Ok(what);
    }
    if let Some(what) = misplaced_fault(alloc, table, "acl", &ACL_KEYS)? {
        return Ok(what);
    }
    if let Some(what) = keys_fault(alloc, table, &TOP_KEYS, &TOP)? {
        return Ok(what);
    }
    if let Some(what) = optional_fault(alloc, table)? {
        return Ok(what);
    }
    if let Some(what) = rows_fault(alloc, table, "user", &USER_KEYS, &USER)? {
        return Ok(what);
    }
    if let Some(what) = rows_fault(alloc, table, "topic", &TOPIC_KEYS, &TOPIC)? {
        return Ok(what);
    }
    if let Some(what) = rows_fault(alloc, table, "acl", &ACL_KEYS, &ACL)? {
        return Ok(what);
    }
    String::from_str(alloc, "`supers` is not a list of texts")
}

/// What is wrong with a user's name or password: it is empty or holds a NUL. `None` if nothing is.
fn word_fault(alloc: Global, key: &str, word: &Text) -> Result<Option<String>, AllocError> {
    if word.is_empty() {
        return Ok(Some(format!(in alloc; "`{key}` is empty")?));
    }
    if word.as_bytes().contains(&0) {
        return Ok(Some(format!(in alloc; "`{key}` holds a NUL")?));
    }
    Ok(None)
}

/// The places of two users of the same name, the earlier one first; `None` if all names differ. An ordered set of the names so
/// far finds them, since there may be many users.
fn repeated(alloc: Global, users: &[User]) -> Result<Option<(usize, usize)>, AllocError> {
    let mut names = BTreeSet::new(alloc);
    for (again, user) in users.iter().enumerate() {
        if !names.insert(user.name.as_str())? {
            let place = users.iter().position(|other| other.name == user.name);
            return Ok(place.map(|place| (place, again)));
        }
    }
    Ok(None)
}

/// A sentence about the first user with an empty name or password or one with a NUL, or else about a name that stands twice;
/// `None` if all is right.
fn user_fault(alloc: Global, users: &[User]) -> Result<Option<String>, AllocError> {
    for (place, user) in users.iter().enumerate() {
        let entry = Entry {
            list: "user",
            place,
        };
        if let Some(what) = word_fault(alloc, "name", &user.name)? {
            return Ok(Some(format!(in alloc; "{entry}: {what}")?));
        }
        if let Some(what) = word_fault(alloc, "password", &user.password)? {
            return Ok(Some(format!(in alloc; "{entry}: {what}")?));
        }
    }
    let Some((place, again)) = repeated(alloc, users)? else {
        return Ok(None);
    };
    match users.get(place) {
        Some(user) => Ok(Some(name_twice(alloc, "user", (place, again), &user.name)?)),
        None => Ok(None),
    }
}

/// A sentence about the first fault of a document whose keys are right: of its users, or else of its settings. `fault` is used
/// if neither has one.
fn document_fault(
    alloc: Global,
    document: &UncheckedDocument,
    fault: SettingsFault,
) -> Result<String, AllocError> {
    if let Some(sentence) = user_fault(alloc, document.users.as_slice())? {
        return Ok(sentence);
    }
    match settings::first_fault(&document.settings) {
        Some(first) => settings::explain(alloc, &document.settings, first),
        None => format!(in alloc; "{fault}"),
    }
}

/// Whether a text that lacks its quotes may begin with this byte, but no comment and no TOML value does, `inf` and `nan` aside.
fn begins_bare_text(byte: u8) -> bool {
    byte > b' ' && !byte.is_ascii_digit() && !b"\"'#[{+-tf".contains(&byte)
}

/// Whether a text that lacks its quotes stands at this byte of a document, right after the first `=` of its line.
fn is_bare_text(text: &str, place: usize) -> bool {
    let (Some(before), Some(rest)) = (text.get(..place), text.get(place..)) else {
        return false;
    };
    let begun = match before.rsplit_once('\n') {
        Some((_, begun)) => begun,
        None => before,
    };
    let follows = match begun.trim_end().split_once('=') {
        Some((_, between)) => between.is_empty(),
        None => false,
    };
    follows
        && rest
            .as_bytes()
            .first()
            .is_some_and(|byte| begins_bare_text(*byte))
}

/// What the TOML reader says is wrong; and, if a text without quotes stands there, that a text stands between quotes.
fn toml_fault(alloc: Global, text: &str, error: &toml::de::Error) -> Result<String, AllocError> {
    let said = format!(in alloc; "{error}")?;
    let said = said.as_str().trim_end();
    match error.span() {
        Some(span) if is_bare_text(text, span.start) => {
            format!(in alloc; "{said}: a text stands between quotes")
        }
        _ => String::from_str(alloc, said),
    }
}

/// Says in a sentence where a settings text has its fault. `fault` is what `document_of_text` answered for this text. An
/// `AllocError` is an allocation failure.
pub fn explain(alloc: Global, text: &[u8], fault: SettingsFault) -> Result<String, AllocError> {
    let Ok(text) = from_utf8(text) else {
        return String::from_str(alloc, "the settings are not UTF-8");
    };
    let table = match toml::table_from_str(alloc, text) {
        Ok(table) => table,
        Err(error) => return toml_fault(alloc, text, &error),
    };
    if fault == SettingsFault::Key {
        return key_fault(alloc, &table);
    }
    match document(alloc, &table) {
        Ok(document) => document_fault(alloc, &document, fault),
        Err(_) => format!(in alloc; "{}", SettingsFault::NoMemory),
    }
}
