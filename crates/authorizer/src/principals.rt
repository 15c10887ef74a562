//! The bindings of one name, by their principals.

ghost use Rattle.std.specs.Prelude.{◌≡◌, ◌∷◌, ◌++◌, [], ℕ, List, IfOk, OnOk, if◌then◌else◌, Some};
ghost use Rattle.acl_binding.specs.declared.binding.Numbered.{Numbered as Entry};
ghost use Rattle.std.specs.HashMap.{get_by_text};
ghost use Rattle.std.specs.Str.{bytes_eq};
ghost use Rattle.authorizer.specs.Index.{bindings_under, HasLess, HasMore};
ghost use Rattle.authorizer.specs.Principals.{AreByPrincipal};

use crate::bucket::Bucket;
use acl_binding::{Filter, Numbered};
use indexmap::IndexMap;
use std::alloc::{AllocError, Global};
use std::hash::RandomState;
use std::marker::Model;
use wire_types::Shared;

/// Each principal with its bindings in creation order. A principal without bindings isn't in the table.
#[derive(Drop)]
pub struct Principals {
    buckets: IndexMap<String, Bucket, RandomState>,
}

impl Model for Principals {
    ghost use Rattle.std.specs.Prelude.{List, ℕ};
    ghost use Rattle.acl_binding.specs.declared.binding.Numbered.{Numbered};
    ghost use Rattle.authorizer.specs.Index.{rows};

    ghost Value = { List (List ℕ × List Numbered) };

    ghost view = { λ p. rows p.buckets.entries };
}

impl Principals {
    /// A table of these bindings, which stand in creation order. `hasher` hashes the principals. An `AllocError` is an
    /// allocation failure.
    pub(crate) fn of(
        alloc: Global,
        hasher: RandomState,
        entries: &[Shared<Numbered>],
    ) -> Result<Principals, AllocError>
        ensures { IfOk result (λ table. AreByPrincipal table entries.now) }
    {
        let mut table = Principals {
            buckets: IndexMap::with_hasher(alloc, hasher),
        };
        for entry in entries {
            table = table.with(alloc, entry.share()?)?;
        }
        Ok(table)
    }

    /// The bindings of this principal, in creation order; empty if there are none.
    pub(crate) fn held(&self, principal: &str) -> &[Shared<Numbered>]
        ensures { result.now ≡ bindings_under self.now principal.now }
    {
        match self.buckets.get(principal) {
            Some(bucket) => bucket.as_slice(),
            None => &[],
        }
    }

    /// The table with a binding more, whose creation number is greater than all others here. An `AllocError` is an allocation
    /// failure.
    pub(crate) fn with(
        self,
        alloc: Global,
        entry: Shared<Numbered>,
    ) -> Result<Principals, AllocError>
        ensures { IfOk result
            (λ table. (es : List Entry) → AreByPrincipal self es
            → AreByPrincipal table (es ++ entry ∷ [])) }
    {
        let mut table = self;
        table.add(alloc, entry)?;
        Ok(table)
    }

    /// Appends a binding to those of its principal, whose creation numbers must be lesser.
    fn add(&mut self, alloc: Global, entry: Shared<Numbered>) -> Result<(), AllocError>
        ensures { OnOk result (HasMore self.old self.new entry.binding.principal entry) }
    {
        match self
            .buckets
            .get_mut(entry.value().binding.principal.as_str())
        {
            Some(bucket) => bucket.push(entry)?,
            None => add_principal(&mut self.buckets, alloc, entry)?,
        }
        Ok(())
    }

    /// Drops the bindings that match the filter, and each principal that then has none.
    pub(crate) fn clean(&mut self, filter: &Filter)
        ensures { HasLess self.old self.new filter.now }
    {
        if self.buckets.len() == 0 {
            return;
        }
        self.buckets
            .retain(|_, bucket| bucket.keep_unmatched(filter));
    }
}

/// Puts the principal of a binding, which isn't in the table, there with that binding.
fn add_principal(
    buckets: &mut IndexMap<String, Bucket, RandomState>,
    alloc: Global,
    entry: Shared<Numbered>,
) -> Result<(), AllocError>
    ensures { OnOk result
        ((other : List ℕ) → get_by_text buckets.new other
        ≡ (if bytes_eq entry.binding.principal other then Some (entry ∷ []) else get_by_text
        buckets.old other)) }
{
    let principal = entry.value().binding.principal.to_owned(alloc)?;
    let bucket = Bucket::of(alloc, entry)?;
    buckets.insert(principal, bucket)?;
    Ok(())
}
