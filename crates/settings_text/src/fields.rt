//! The fields of a TOML table.

ghost use Rattle.std.specs.Prelude.{◌≡◌, option_map, string_bytes};
ghost use Rattle.toml.specs.Data.{get_member, as_str};
ghost use Rattle.toml.specs.View.{view, table_view, items_view};
ghost use Rattle.settings_text.specs.Fields.{Reads, texts, is_one_of, has_only, number_field, number_or, text_field, items_field};
ghost use Rattle.std.specs.List.{list_all};
ghost use Rattle.std.specs.BTreeMap.{keys};

use std::alloc::{AllocError, Global};
use toml::{Table, Value};
use wire_types::Text;

/// Why a TOML table isn't what the settings want, or could not be read.
#[derive(Clone, Copy, Debug, PartialEq, Eq)]
pub(crate) enum FieldFault {
    /// A key is missing, unknown or of another kind.
    Key,
    /// Memory was refused.
    NoMemory,
}

impl From<AllocError> for FieldFault {
    ghost use Rattle.settings_text.specs.declared.fields.FieldFault.TheVariants as fault_case;

    ghost from_gives = { λ _ fault. fault ≡ fault_case.NoMemory };

    /// An allocation failure is the fault `NoMemory`.
    fn from(_: AllocError) -> FieldFault {
        FieldFault::NoMemory
    }
}

/// The value at a key; `None` if the key is missing.
pub(crate) fn find<'a>(table: &'a Table, key: &str) -> Option<&'a Value>
    ensures { option_map (λ v. view v.now) result ≡ get_member key.now (table_view table.now) }
{
    table.get(key)
}

/// The integer at a key. The fault is `Key` if the key is missing or its value is no integer. Its range isn't checked here.
pub(crate) fn number(table: &Table, key: &str) -> Result<i64, FieldFault>
    ensures { Reads (λ x. x) (number_field key.now (table_view table.now)) result }
{
    match find(table, key) {
        Some(value) => value.as_integer().ok_or(FieldFault::Key),
        None => Err(FieldFault::Key),
    }
}

/// The integer at a key, or `default` if the key is missing. The fault is `Key` if its value is no integer. Its range isn't
/// checked here.
pub(crate) fn number_or_default(table: &Table, key: &str, default: i64) -> Result<i64, FieldFault>
    ensures { Reads (λ x. x) (number_or default key.now (table_view table.now)) result }
{
    match find(table, key) {
        Some(value) => value.as_integer().ok_or(FieldFault::Key),
        None => Ok(default),
    }
}

/// The text that a value is. The fault is `Key` if it is none, `NoMemory` on an allocation failure.
pub(crate) fn text_of(alloc: Global, value: &Value) -> Result<Text, FieldFault>
    ensures { Reads (λ x. x) (as_str (view value.now)) result }
{
    match value.as_str() {
        Some(text) => Ok(Text::of(alloc, text)?),
        None => Err(FieldFault::Key),
    }
}

/// The text at a key. The fault is `Key` if the key is missing or its value is no text, `NoMemory` on an allocation failure.
pub(crate) fn text(alloc: Global, table: &Table, key: &str) -> Result<Text, FieldFault>
    ensures { Reads (λ x. x) (text_field key.now (table_view table.now)) result }
{
    match find(table, key) {
        Some(value) => text_of(alloc, value),
        None => Err(FieldFault::Key),
    }
}

/// The items of the list at a key; empty if the key is missing. The fault is `Key` if its value is no list.
pub(crate) fn items<'a>(table: &'a Table, key: &str) -> Result<&'a [Value], FieldFault>
    ensures { Reads (λ vs. items_view vs.now) (items_field key.now (table_view table.now)) result }
{
    match find(table, key) {
        Some(Value::Array(items)) => Ok(items.as_slice()),
        Some(_) => Err(FieldFault::Key),
        None => Ok(&[]),
    }
}

/// Whether a key is one of these.
pub(crate) fn is_among(key: &str, known: &[&str]) -> bool
    ensures { result ≡ is_one_of known.now key.now }
{
    known.iter().any(|other| key == *other)
}

/// Whether each key of a table is one of `known`.
fn are_among(table: &Table, known: &[&str]) -> bool
    ensures { result ≡ list_all (λ k. is_one_of known.now (string_bytes k)) (keys table.now) }
{
    table.keys().all(|key| is_among(key.as_str(), known))
}

/// Whether a table has no other keys than `known`. It may lack some of these.
pub(crate) fn has_only(table: &Table, known: &[&str]) -> bool
    ensures { result ≡ has_only (texts known.now) (table_view table.now) }
{
    are_among(table, known)
}
