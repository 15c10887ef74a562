//! The book of bindings with its index.

ghost use Rattle.std.specs.Prelude.{◌≡◌, ◌+◌, ◌^◌, ◌<◌, ◌≤◌, length, Some, None, IfOk, OnOk, OnErr, filter as kept};
ghost use Rattle.std.specs.List.{AllByRecursion};
ghost use Rattle.std.specs.Str.{chars};
ghost use Rattle.acl_binding.specs.Adding.{adding_answer};
ghost use Rattle.acl_binding.specs.Book.{empty_book, number_of, with_binding, with_new_binding};
ghost use Rattle.acl_binding.specs.Filter.{matching_bindings, without_matching};
ghost use Rattle.acl_binding.specs.Verdict.{verdict_of};
ghost use Rattle.authorizer.specs.Looking.{finding_of, IsIndexed, IsNamed};
ghost use Rattle.authorizer.specs.LookUps.{beginnings_within, longest_prefix};
ghost use Rattle.authorizer.specs.Picking.{under_numbers, picks, AreAllAt};
ghost use Rattle.acl_binding.specs.declared.words.Pattern.TheVariants.{Prefixed};

use crate::acl_key::{AclKey, acl_keys};
use crate::content::Content;
use crate::index::{ANY_NAME, Index};
use crate::looking::{Finding, look_up_name, look_up_prefixes};
use crate::picking::{ByNumber, copies, forget, pick_from_all, take_out};
use acl_binding::{Added, Binding, Filter, Numbered, Question, Verdict};
use indexmap::IndexMap;
use std::alloc::{AllocError, Global};
use std::hash::RandomState;
use std::marker::Model;
use wire_types::{Items, Shared};

/// The bindings by their creation numbers, the numbers by what the bindings say, and the bindings by kind, pattern and
/// name.
pub struct IndexedBook {
    entries: ByNumber,
    next: u64,
    contents: IndexMap<Content, u64, RandomState>,
    index: Index,
}

impl Drop for IndexedBook {
    fn drop(self) {
        let IndexedBook {
            entries: _entries,
            next: _next,
            contents: _contents,
            index: _index,
        } = self;
    }
}

impl Model for IndexedBook {
    ghost use Rattle.acl_binding.specs.Book.{BookValue};
    ghost use Rattle.authorizer.specs.Kept.{book_of, IsKept};

    ghost Value = { BookValue };

    ghost view = { λ b. book_of b.entries.entries b.next };

    ghost invariant = { λ b. IsKept b.index b.contents.entries b.entries.entries b.next };
}

impl IndexedBook {
    /// A book without bindings. Creation numbers begin at 1; `hasher` hashes names and bindings.
    pub(crate) fn new(alloc: Global, hasher: RandomState) -> IndexedBook
        ensures { result ≡ empty_book }
    {
        IndexedBook {
            entries: ByNumber::new(alloc),
            next: 1,
            contents: IndexMap::with_hasher(alloc, hasher),
            index: Index::new(alloc, hasher),
        }
    }

    /// The hasher of the names and bindings, with its random keys.
    pub(crate) fn hasher(&self) -> RandomState {
        *self.contents.hasher()
    }

    /// The bindings by kind, pattern type and name.
    pub(crate) fn index(&self) -> &Index
        ensures indexed { IsIndexed result.now self.now.entries }
        ensures named { AllByRecursion IsNamed self.now.entries }
    {
        &self.index
    }

    /// Adds a binding under the next creation number (`Added::Added`). If an equal one is in the book, the book stays as it
    /// is (`Added::There`, with that one's number). An allocation failure changes nothing.
    pub(crate) fn add(&mut self, alloc: Global, binding: Binding) -> Result<Added, AllocError>
        requires next { self.old.next + 1 < 2 ^ 64 }
        requires named { binding.pattern ≡ Prefixed → 0 < length binding.name }
        ensures ok { OnOk result (self.new ≡ with_binding self.old binding) }
        ensures number { IfOk result (λ answer. answer ≡ adding_answer self.old binding) }
        ensures grows { self.new.next ≤ self.old.next + 1 }
        ensures err { OnErr result (self.new ≡ self.old) }
    {
        let number = self.next;
        let entry = Shared::new(alloc, Numbered { number, binding })?;
        let content = Content::of(&entry)?;
        if let Some(number) = self.number_of(&content) {
            return Ok(Added::There(number));
        }
        self.insert(alloc, &entry, content)?;
        Ok(Added::Added(number))
    }

    /// The creation number of the binding whose seven fields are equal, `None` if there is none.
    fn number_of(&self, content: &Content) -> Option<u64>
        ensures { result ≡ number_of self.now.entries content.now.binding }
    {
        self.contents.get(content).copied()
    }

    /// Adds a binding that isn't in the book and bears the next creation number. An allocation failure changes nothing.
    fn insert(
        &mut self,
        alloc: Global,
        entry: &Shared<Numbered>,
        content: Content,
    ) -> Result<(), AllocError>
        requires next { self.old.next + 1 < 2 ^ 64 }
        requires number { entry.now.number ≡ self.old.next }
        requires content { content ≡ entry.now }
        requires named { entry.now.binding.pattern ≡ Prefixed → 0 < length entry.now.binding.name }
        requires absent { number_of self.old.entries entry.now.binding ≡ None }
        ensures ok { OnOk result (self.new ≡ with_new_binding self.old entry.now.binding) }
        ensures err { OnErr result (self.new ≡ self.old) }
    {
        let number = self.next;
        self.contents.reserve(1)?;
        self.entries.insert(number, content.share()?)?;
        if let Err(fault) = self.index.add(alloc, entry) {
            self.entries.remove(&number);
            return Err(fault);
        }
        self.contents.insert(content, number).unwrap();
        self.next += 1;
        Ok(())
    }

    /// Copies of the bindings that match the filter, in creation order.
    pub(crate) fn matching(
        &self,
        alloc: Global,
        filter: &Filter,
    ) -> Result<Items<Binding>, AllocError>
        ensures { IfOk result (λ picked. picked ≡ matching_bindings self.now.entries filter.now) }
    {
        let acl_keys = acl_keys(alloc, filter)?;
        copies(alloc, &self.picked(alloc, filter, &acl_keys)?)
    }

    /// The bindings that match the filter, found among those under `acl_keys`, or among all if it is `None`.
    fn picked(
        &self,
        alloc: Global,
        filter: &Filter,
        acl_keys: &Option<Items<AclKey>>,
    ) -> Result<ByNumber, AllocError>
        requires { AreAllAt acl_keys.now filter.now }
        ensures { IfOk result
            (λ picked. picked.entries ≡ under_numbers (kept (picks filter.now) self.now.entries)) }
    {
        match acl_keys {
            Some(acl_keys) => {
                let mut picked = ByNumber::new(alloc);
                self.index.pick(acl_keys.as_slice(), filter, &mut picked)?;
                Ok(picked)
            }
            None => pick_from_all(alloc, &self.entries, filter),
        }
    }

    /// Removes the bindings that match the filter, and gives them in creation order. An allocation failure removes none.
    pub(crate) fn remove(
        &mut self,
        alloc: Global,
        filter: &Filter,
    ) -> Result<Items<Binding>, AllocError>
        ensures ok { OnOk result (self.new ≡ without_matching self.old filter.now) }
        ensures picked { IfOk result
            (λ list. list ≡ matching_bindings self.old.entries filter.now) }
        ensures err { OnErr result (self.new ≡ self.old) }
    {
        let acl_keys = acl_keys(alloc, filter)?;
        let picked = self.picked(alloc, filter, &acl_keys)?;
        let copies = copies(alloc, &picked)?;
        self.take_out(filter, &acl_keys, &picked);
        Ok(copies)
    }

    /// Removes `picked`, the bindings that match the filter, from the book and its index. They stand under `acl_keys`, or
    /// anywhere if it is `None`.
    fn take_out(&mut self, filter: &Filter, acl_keys: &Option<Items<AclKey>>, picked: &ByNumber)
        requires acl_keys { AreAllAt acl_keys.now filter.now }
        requires picked { picked.now.entries
            ≡ under_numbers (kept (picks filter.now) self.old.entries) }
        ensures { self.new ≡ without_matching self.old filter.now }
    {
        take_out(&mut self.entries, picked);
        forget(&mut self.contents, picked);
        match acl_keys {
            Some(acl_keys) => self.index.clean_keys(acl_keys.as_slice(), filter),
            None => self.index.clean(filter),
        }
    }

    /// Returns what the bindings answer to the question, DENY before ALLOW, and how many names were looked up for it. Super
    /// users are no matter of the book.
    pub(crate) fn verdict_counted(&self, question: &Question) -> (Verdict, u64)
        ensures verdict { result.0 ≡ verdict_of self.now.entries question.now }
        ensures looked { result.1
            ≡ beginnings_within (longest_prefix question.now.kind self.now.entries)
            (chars question.now.name) + 2 }
    {
        let (finding, looked) = self.found(question);
        (finding.verdict(), looked)
    }

    /// Returns what the bindings say whose names may match the question's: those of the name itself, of `*`, and the
    /// prefixed ones of its beginnings. The number is that of the names that were looked up.
    fn found(&self, question: &Question) -> (Finding, u64)
        ensures finding { result.0 ≡ finding_of self.now.entries question.now }
        ensures looked { result.1
            ≡ beginnings_within (longest_prefix question.now.kind self.now.entries)
            (chars question.now.name) + 2 }
    {
        let names = self.index.of(question.kind);
        let mut looked = 0;
        let own = look_up_name(
            &names.literal,
            question.name.as_str(),
            question,
            &mut looked,
        );
        let any = look_up_name(&names.literal, ANY_NAME, question, &mut looked);
        let prefixed = look_up_prefixes(&names.prefixed, question, &mut looked);
        (own.joined(any.joined(prefixed)), looked)
    }
}
