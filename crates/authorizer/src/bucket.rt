//! The bindings of one kind, pattern and name.

ghost use Rattle.std.specs.Prelude.{◌≡◌, [], ◌∷◌, ◌++◌, length, nat_eq, not, is_ok, if◌then◌else◌, IfOk, filter as kept};
ghost use Rattle.std.specs.List.{list_any};
ghost use Rattle.acl_binding.specs.Filter.{is_not_matched};
ghost use Rattle.authorizer.specs.AnyTopic.{is_unbarred};

use crate::indexed::IndexedBook;
use acl_binding::{Filter, Numbered};
use std::alloc::{AllocError, Global};
use std::marker::Model;
use wire_types::{Shared, Text};

/// The bindings of one kind, pattern type and name, in creation order.
#[derive(Drop)]
pub struct Bucket {
    entries: Vec<Shared<Numbered>>,
}

impl Model for Bucket {
    ghost use Rattle.std.specs.Prelude.{List};
    ghost use Rattle.acl_binding.specs.declared.binding.Numbered.{Numbered};

    ghost Value = { List Numbered };

    ghost view = { λ b. b.entries.items };
}

impl Bucket {
    /// A bucket with its first binding. An `AllocError` is an allocation failure.
    pub(crate) fn of(alloc: Global, entry: Shared<Numbered>) -> Result<Bucket, AllocError>
        ensures { IfOk result (λ bucket. bucket ≡ entry ∷ []) }
    {
        let mut entries = Vec::new(alloc);
        entries.push(entry)?;
        Ok(Bucket { entries })
    }

    /// The bindings, in creation order.
    pub(crate) fn as_slice(&self) -> &[Shared<Numbered>]
        ensures { result.now ≡ self.now }
    {
        &self.entries
    }

    /// Whether some binding here allows this principal at this host to WRITE, and no DENY in `book` covers all names of
    /// that binding.
    pub(crate) fn any_not_overridden(&self, book: &IndexedBook, who: &Text, host: &Text) -> bool
        ensures { result ≡ list_any (is_unbarred book.now.entries who.now host.now) self.now }
    {
        self.entries
            .iter()
            .any(|entry| book.is_unbarred(entry.value(), who, host))
    }

    /// Appends a binding, whose creation number is greater than all others here. An allocation failure changes nothing.
    pub(crate) fn push(&mut self, entry: Shared<Numbered>) -> Result<(), AllocError>
        ensures { self.new ≡ (if is_ok result then self.old ++ entry ∷ [] else self.old) }
    {
        self.entries.push(entry)?;
        Ok(())
    }

    /// Drops the bindings that match the filter. Returns whether any is left.
    pub(crate) fn keep_unmatched(&mut self, filter: &Filter) -> bool
        ensures left { self.new ≡ kept (is_not_matched filter.now) self.old }
        ensures any { result ≡ not (nat_eq (length self.new) 0) }
    {
        self.entries
            .retain(|entry| !filter.matches(&entry.value().binding));
        self.entries.len() != 0
    }
}
