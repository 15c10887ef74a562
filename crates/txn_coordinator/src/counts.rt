//! How many pending markers each transactional id has.

ghost use Rattle.std.specs.Prelude.{◌≡◌, ◌+◌, ◌^◌, ◌<◌, ℕ, List, true, nat_lt, if◌then◌else◌, OnOk};
ghost use Rattle.std.specs.Str.{bytes_eq};
ghost use Rattle.txn_coordinator.specs.Warrants.{has_pending_marker};
ghost use Rattle.txn_coordinator.specs.Kept.{count_of, has_count, pending_count_of};

use crate::marker::PendingMarker;
use indexmap::IndexMap;
use std::alloc::{AllocError, Global};
use std::hash::RandomState;
use wire_types::{Shared, Text};

/// The number of pending markers under each transactional id.
pub(crate) type Counts = IndexMap<String, usize, RandomState>;

/// Whether a marker is pending for the transactional id.
pub(crate) fn owes_any(counts: &Counts, id: &Text) -> bool
    ensures { result ≡ nat_lt 0 (count_of counts.now id.now) }
{
    match counts.get(id.as_str()) {
        Some(count) => *count > 0,
        None => false,
    }
}

/// Makes an entry with count 0 for each transactional id of these markers that has none, so that raising the counts can't fail.
/// No count changes, not even on an allocation failure.
pub(crate) fn enter_all(
    counts: &mut Counts,
    alloc: Global,
    owed: &[Shared<PendingMarker>],
) -> Result<(), AllocError>
    ensures same { (id : List ℕ) → count_of counts.new id ≡ count_of counts.old id }
    ensures entered { OnOk result
        ((id : List ℕ) → has_pending_marker owed.now id ≡ true → has_count counts.new id ≡ true) }
{
    for marker in owed {
        enter(counts, alloc, &marker.value().id)?;
    }
    Ok(())
}

/// Makes an entry with count 0 for the transactional id, unless it has one. No count changes, not even on an allocation
/// failure.
fn enter(counts: &mut Counts, alloc: Global, id: &Text) -> Result<(), AllocError>
    ensures same { (other : List ℕ) → count_of counts.new other ≡ count_of counts.old other }
    ensures kept { (other : List ℕ) → has_count counts.old other ≡ true → has_count counts.new other
        ≡ true }
    ensures entered { OnOk result (has_count counts.new id.now ≡ true) }
{
    if !counts.contains_key(id.as_str()) {
        counts.insert(id.to_owned(alloc)?, 0)?;
    }
    Ok(())
}

/// Counts one pending marker more for each of these markers, whose ids all have entries. It allocates nothing.
pub(crate) fn raise_all(counts: &mut Counts, owed: &[Shared<PendingMarker>])
    requires entered { (id : List ℕ) → has_pending_marker owed.now id ≡ true
        → has_count counts.old id ≡ true }
    requires fits { (id : List ℕ) → count_of counts.old id + pending_count_of owed.now id < 2 ^ 64 }
    ensures { (id : List ℕ) → count_of counts.new id ≡ count_of counts.old id
        + pending_count_of owed.now id }
{
    for marker in owed {
        raise(counts, &marker.value().id);
    }
}

/// Counts one pending marker more for the transactional id, which has an entry. It allocates nothing.
fn raise(counts: &mut Counts, id: &Text)
    requires entered { has_count counts.old id.now ≡ true }
    requires fits { count_of counts.old id.now + 1 < 2 ^ 64 }
    ensures raised { (other : List ℕ) → count_of counts.new other ≡ count_of counts.old other
        + (if bytes_eq id.now other then 1 else 0) }
    ensures kept { (other : List ℕ) → has_count counts.old other ≡ true → has_count counts.new other
        ≡ true }
{
    if let Some(count) = counts.get_mut(id.as_str()) {
        *count += 1;
    }
}

/// Counts one pending marker less for the transactional id, which has at least one. It allocates nothing.
pub(crate) fn lower(counts: &mut Counts, id: &Text)
    requires { 0 < count_of counts.old id.now }
    ensures { (other : List ℕ) → count_of counts.old other ≡ count_of counts.new other
        + (if bytes_eq id.now other then 1 else 0) }
{
    if let Some(count) = counts.get_mut(id.as_str()) {
        *count -= 1;
    }
}
