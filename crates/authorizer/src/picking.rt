//! The bindings that a filter picks.

ghost use Rattle.std.specs.Prelude.{◌≡◌, [], map, IfOk, OnOk, filter as kept};
ghost use Rattle.std.specs.BTreeMap.{keys, values};
ghost use Rattle.acl_binding.specs.declared.binding.Numbered.{Numbered as Entry};
ghost use Rattle.authorizer.specs.Contents.{HasForgotten};
ghost use Rattle.authorizer.specs.Picking.{with_entries, without_numbers, picks};

use crate::content::Content;
use acl_binding::{Binding, Filter, Numbered};
use indexmap::IndexMap;
use std::alloc::{AllocError, Global};
use std::collections::BTreeMap;
use std::hash::RandomState;
use wire_types::{Items, Shared};

/// Bindings by their creation numbers: one that is entered twice stands once.
pub(crate) type ByNumber = BTreeMap<u64, Content>;

/// Adds to `picked` those of the entries that match the filter. On an allocation failure some may have been added.
pub(crate) fn pick_from(
    entries: &[Shared<Numbered>],
    filter: &Filter,
    picked: &mut ByNumber,
) -> Result<(), AllocError>
    ensures { OnOk result
        (picked.new.entries ≡ with_entries picked.old.entries
        (kept (picks filter.now) entries.now)) }
{
    for entry in entries {
        if filter.matches(&entry.value().binding) {
            picked.insert(entry.value().number, Content::of(entry)?)?;
        }
    }
    Ok(())
}

/// Returns the entries that match the filter, each with one more owner.
pub(crate) fn pick_from_all(
    alloc: Global,
    entries: &ByNumber,
    filter: &Filter,
) -> Result<ByNumber, AllocError>
    ensures { IfOk result
        (λ picked. picked.entries
        ≡ with_entries [] (kept (picks filter.now) (values entries.now))) }
{
    let mut picked = ByNumber::new(alloc);
    for entry in entries.values() {
        if filter.matches(entry.binding()) {
            picked.insert(entry.number(), entry.share()?)?;
        }
    }
    Ok(picked)
}

/// Copies of the picked bindings, in creation order.
pub(crate) fn copies(alloc: Global, picked: &ByNumber) -> Result<Items<Binding>, AllocError>
    ensures { IfOk result (λ copies. copies ≡ map (λ (e : Entry). e.binding) (values picked.now)) }
{
    let mut copies = Items::new(alloc);
    for entry in picked.values() {
        copies.push(entry.binding().clone()?)?;
    }
    Ok(copies)
}

/// Removes from `entries` the creation numbers that are in `picked`.
pub(crate) fn take_out(entries: &mut ByNumber, picked: &ByNumber)
    ensures { entries.new.entries ≡ without_numbers entries.old.entries (keys picked.now) }
{
    for number in picked.keys() {
        entries.remove(number);
    }
}

/// Removes the picked bindings from `contents`, which gives each binding's creation number by its seven fields.
pub(crate) fn forget(contents: &mut IndexMap<Content, u64, RandomState>, picked: &ByNumber)
    ensures { HasForgotten contents.old.entries contents.new.entries (values picked.now) }
{
    for entry in picked.values() {
        contents.swap_remove(entry);
    }
}
