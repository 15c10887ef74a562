//! The bindings of one kind and one pattern type, by their names.

ghost use Rattle.std.specs.Prelude.{◌≡◌, ◌+◌, ◌^◌, ◌<◌, [], ◌∷◌, ◌++◌, ◌&&◌, List, ℕ, length, Some, None, if◌then◌else◌, option_map, unwrap_or, OnOk, OnErr};
ghost use Rattle.std.specs.HashMap.{get_by_text, keys};
ghost use Rattle.std.specs.Str.{bytes_eq};
ghost use Rattle.std.specs.List.{list_any};
ghost use Rattle.acl_binding.specs.declared.binding.Numbered.{Numbered as Entry};
ghost use Rattle.acl_binding.specs.declared.words.Kind.{Kind};
ghost use Rattle.acl_binding.specs.declared.words.Pattern.{Pattern};
ghost use Rattle.authorizer.specs.AnyTopic.{is_of, is_unbarred};
ghost use Rattle.authorizer.specs.Index.{bindings_under, HasMore, HasSame, HasLess, HasLessAt};
ghost use Rattle.authorizer.specs.Longest.{lengths, longest_name};
ghost use Rattle.acl_binding.specs.Book.{IsRising};
ghost use Rattle.authorizer.specs.Looking.{finding_of, IsTableOf};

use crate::index::longest::Longest;
use crate::indexed::IndexedBook;
use crate::looking::Finding;
use crate::shelf::Shelf;
use acl_binding::{Filter, Numbered, Question};
use indexmap::IndexMap;
use std::alloc::{AllocError, Global};
use std::hash::RandomState;
use std::marker::Model;
use wire_types::{Shared, Text};

/// The resource name that a literal binding has to match every name.
pub(crate) const ANY_NAME: &str = "*";

/// Each name with its bindings in creation order. A name without bindings isn't in the table. The table keeps the length of
/// its longest name: a longer one is looked up without being hashed.
#[derive(Drop)]
pub struct Names {
    shelves: IndexMap<String, Shelf, RandomState>,
    longest: Longest,
}

impl Model for Names {
    ghost use Rattle.std.specs.Prelude.{List, ℕ};
    ghost use Rattle.acl_binding.specs.declared.binding.Numbered.{Numbered};
    ghost use Rattle.std.specs.HashMap.{keys};
    ghost use Rattle.authorizer.specs.Index.{rows};
    ghost use Rattle.authorizer.specs.Longest.{lengths, IsLongest};

    ghost Value = { List (List ℕ × List Numbered) };

    ghost view = { λ n. rows n.shelves.entries };

    ghost invariant = { λ n. IsLongest n.longest (lengths (keys n.shelves)) };
}

impl Names {
    /// A table without names. `hasher` hashes those that are added.
    pub(crate) fn new(alloc: Global, hasher: RandomState) -> Names
        ensures { result ≡ [] }
    {
        Names {
            shelves: IndexMap::with_hasher(alloc, hasher),
            longest: Longest::none(),
        }
    }

    /// How many bytes the longest name has, or 0 if there is none.
    pub(crate) fn longest(&self) -> usize
        ensures { result ≡ longest_name self.now }
    {
        self.longest.bytes
    }

    /// The shelf of this name; `None` if there are no bindings of it.
    fn shelf(&self, name: &str) -> Option<&Shelf>
        ensures { unwrap_or (option_map (λ s. s.now) result) [] ≡ bindings_under self.now name.now }
    {
        if name.len() > self.longest.bytes {
            return None;
        }
        self.shelves.get(name)
    }

    /// The bindings of this name, in creation order; empty if there are none. This look-up isn't counted; verdicts use
    /// `look_up`.
    pub(super) fn held(&self, name: &str) -> &[Shared<Numbered>]
        ensures { result.now ≡ bindings_under self.now name.now }
    {
        match self.shelf(name) {
            Some(shelf) => shelf.as_slice(),
            None => &[],
        }
    }

    /// What the bindings of this name say to the question. Counts the look-up in `looked`.
    pub(crate) fn look_up(&self, name: &str, question: &Question, looked: &mut u64) -> Finding
        requires rising { IsRising 1 (bindings_under self.now name.now) }
        requires count { looked.old + 1 < 2 ^ 64 }
        ensures finding { result ≡ finding_of (bindings_under self.now name.now) question.now }
        ensures looked { looked.new ≡ looked.old + 1 }
    {
        *looked += 1;
        match self.shelf(name) {
            Some(shelf) => shelf.finding(question),
            None => Finding::none(),
        }
    }

    /// Whether some binding in the table allows this principal at this host to WRITE, and no DENY in `book` covers all
    /// names of that binding.
    pub(crate) fn any_not_overridden(&self, book: &IndexedBook, who: &Text, host: &Text) -> bool
        ensures { (kind : Kind) (pattern : Pattern) (es : List Entry)
            → IsTableOf self.now kind pattern es → result
            ≡ list_any (λ (e : Entry). is_of kind pattern e && is_unbarred book.now.entries who.now
            host.now e) es }
    {
        for (_name, shelf) in self.shelves.iter() {
            if shelf.any_not_overridden(book, who, host) {
                return true;
            }
        }
        false
    }

    /// Appends a binding to those of its name, whose creation numbers must be lesser. On an allocation failure each name
    /// keeps the bindings that it had.
    pub(crate) fn add(
        &mut self,
        alloc: Global,
        name: &str,
        entry: Shared<Numbered>,
    ) -> Result<(), AllocError>
        ensures ok { OnOk result (HasMore self.old self.new name.now entry) }
        ensures err { OnErr result (HasSame self.old self.new) }
    {
        let hasher = *self.shelves.hasher();
        match self.shelves.get_mut(name) {
            Some(shelf) => shelf.push(alloc, hasher, entry)?,
            None => {
                add_name(&mut self.shelves, alloc, name, entry)?;
                // (no more names are as long as the longest than there are)
                prove!(self.longest.names < self.shelves.len());
                self.longest.add(name.len());
            }
        }
        Ok(())
    }

    /// Drops the bindings that match the filter, and each name that then has none.
    pub(crate) fn clean(&mut self, filter: &Filter)
        ensures { HasLess self.old self.new filter.now }
    {
        if self.shelves.len() == 0 {
            return;
        }
        self.shelves.retain(|_, shelf| shelf.keep_unmatched(filter));
        self.longest = Longest::of(&self.shelves);
    }

    /// Drops the bindings of this name that match the filter, and the name if it then has none.
    pub(crate) fn clean_at(&mut self, name: &str, filter: &Filter)
        ensures { HasLessAt self.old self.new name.now filter.now }
    {
        let Some(shelf) = self.shelves.get_mut(name) else {
            return;
        };
        if !shelf.keep_unmatched(filter) {
            self.shelves.swap_remove(name);
            if !self.longest.lose(name.len()) {
                self.longest = Longest::of(&self.shelves);
            }
        }
    }
}

/// Puts a name that isn't in the table there, with its first binding. An allocation failure changes nothing.
fn add_name(
    shelves: &mut IndexMap<String, Shelf, RandomState>,
    alloc: Global,
    name: &str,
    entry: Shared<Numbered>,
) -> Result<(), AllocError>
    ensures ok { OnOk result
        ((other : List ℕ) → get_by_text shelves.new other
        ≡ (if bytes_eq name.now other then Some (entry ∷ []) else get_by_text shelves.old
        other)) }
    ensures last { OnOk result
        (get_by_text shelves.old name.now ≡ None → lengths (keys shelves.new)
        ≡ lengths (keys shelves.old) ++ length name.now ∷ []) }
    ensures err { OnErr result (shelves.new.entries ≡ shelves.old.entries) }
{
    let shelf = Shelf::of(alloc, entry)?;
    let name = String::from_str(alloc, name)?;
    shelves.insert(name, shelf)?;
    Ok(())
}
