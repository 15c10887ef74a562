//! The book of bindings (ACLs), each under its creation number.

ghost use Rattle.std.specs.Prelude.{◌≡◌, ◌↔◌, ◌+◌, ◌^◌, ◌<◌, ◌≤◌, [], length, Option, Some, None, IfOk, OnOk, OnErr, IsTrue};
ghost use Rattle.acl_binding.specs.Book.{empty_book, number_of, with_binding, with_new_binding, IsBook};
ghost use Rattle.acl_binding.specs.Adding.{adding_answer};
ghost use Rattle.acl_binding.specs.Filter.{matching_bindings, without_matching};
ghost use Rattle.acl_binding.specs.Verdict.{verdict_of};

use crate::binding::{Binding, Numbered};
use crate::filter::Filter;
use crate::question::{Question, Verdict};
use crate::scan::{any_grant, first_denial, matching, number_of};
use std::alloc::{AllocError, Global};
use std::marker::Model;
use wire_types::{Items, Shared};

/// What adding a binding came to.
#[derive(Clone, Copy, Debug, PartialEq, Eq)]
pub enum Added {
    /// The binding is new, under this creation number.
    Added(u64),
    /// An equal binding stood already, under this creation number; nothing was added.
    There(u64),
}

/// The bindings in the order of their creation, no two of them equal.
#[derive(Drop)]
pub struct Book {
    entries: Vec<Shared<Numbered>>,
    next: u64,
}

impl Model for Book {
    ghost use Rattle.acl_binding.specs.Book.{BookValue, IsBook};

    ghost Value = { BookValue };

    ghost view = { λ b. record { entries = b.entries.items; next = b.next } };

    ghost invariant = { λ b. IsBook (record { entries = b.entries.items; next = b.next }) };
}

impl Book {
    /// A book without bindings, which takes no memory. Creation numbers begin at 1.
    pub fn new(alloc: Global) -> Book
        ensures { result ≡ empty_book }
    {
        Book {
            entries: Vec::new(alloc),
            next: 1,
        }
    }

    /// The number of bindings.
    pub fn len(&self) -> usize
        ensures { result ≡ length self.now.entries }
    {
        self.entries.len()
    }

    pub fn is_empty(&self) -> bool
        ensures { IsTrue result ↔ (self.now.entries ≡ []) }
    {
        self.entries.is_empty()
    }

    /// The bindings in creation order, each with its number.
    pub fn entries(&self) -> &[Shared<Numbered>]
        ensures list { result.now ≡ self.now.entries }
        ensures book { IsBook self.now }
    {
        &self.entries
    }

    /// The creation number that the next new binding gets. The numbers of removed bindings aren't given again.
    pub fn next(&self) -> u64
        ensures { result ≡ self.now.next }
    {
        self.next
    }

    /// The creation number of the binding that is equal to this one, `None` if there is none.
    pub fn number_of(&self, binding: &Binding) -> Option<u64>
        ensures { result ≡ number_of self.now.entries binding.now }
    {
        number_of(&self.entries, binding)
    }

    /// Puts an entry at the end, and counts the next creation number up. The entry has to bear that number, and no equal binding
    /// may be there. An allocation failure changes nothing.
    fn append(&mut self, entry: Shared<Numbered>) -> Result<(), AllocError>
        requires bound { self.old.next + 1 < 2 ^ 64 }
        requires number { entry.number ≡ self.old.next }
        requires absent { number_of self.old.entries entry.binding ≡ None }
        ensures ok { OnOk result (self.new ≡ with_new_binding self.old entry.binding) }
        ensures err { OnErr result (self.new ≡ self.old) }
    {
        self.entries.push(entry)?;
        self.next += 1;
        Ok(())
    }

    /// Adds a binding under the next creation number. If an equal one is there, the book stays as it is. An allocation failure
    /// changes nothing. `next` has to be below 2^64 - 1.
    pub fn add(&mut self, alloc: Global, binding: Binding) -> Result<Added, AllocError>
        requires { self.old.next + 1 < 2 ^ 64 }
        ensures ok { OnOk result (self.new ≡ with_binding self.old binding) }
        ensures number { IfOk result (λ answer. answer ≡ adding_answer self.old binding) }
        ensures grows { self.new.next ≤ self.old.next + 1 }
        ensures err { OnErr result (self.new ≡ self.old) }
    {
        if let Some(number) = self.number_of(&binding) {
            return Ok(Added::There(number));
        }
        let number = self.next;
        let entry = Shared::new(alloc, Numbered { number, binding })?;
        self.append(entry)?;
        Ok(Added::Added(number))
    }

    /// Copies of the bindings that match the filter, in creation order. An error is an allocation failure.
    pub fn matching(&self, alloc: Global, filter: &Filter) -> Result<Items<Binding>, AllocError>
        ensures { IfOk result (λ picked. picked ≡ matching_bindings self.now.entries filter.now) }
    {
        matching(alloc, &self.entries, filter)
    }

    /// Removes the bindings that match the filter, and gives them in creation order. An allocation failure removes none.
    pub fn remove(&mut self, alloc: Global, filter: &Filter) -> Result<Items<Binding>, AllocError>
        ensures ok { OnOk result (self.new ≡ without_matching self.old filter.now) }
        ensures picked { IfOk result
            (λ list. list ≡ matching_bindings self.old.entries filter.now) }
        ensures err { OnErr result (self.new ≡ self.old) }
    {
        let picked = self.matching(alloc, filter)?;
        self.clean(filter);
        Ok(picked)
    }

    /// Removes the bindings that match the filter. It allocates nothing.
    fn clean(&mut self, filter: &Filter)
        ensures { self.new ≡ without_matching self.old filter.now }
    {
        self.entries
            .retain(|entry| !filter.matches(&entry.value().binding));
    }

    /// What the bindings answer to a question. A DENY goes before every ALLOW, and of several the one that was created first is
    /// named. Super users aren't known here.
    pub fn verdict(&self, question: &Question) -> Verdict
        ensures { result ≡ verdict_of self.now.entries question.now }
    {
        if let Some(number) = first_denial(&self.entries, question) {
            return Verdict::Denied(number);
        }
        if any_grant(&self.entries, question) {
            Verdict::Yes
        } else {
            Verdict::Nothing
        }
    }
}
