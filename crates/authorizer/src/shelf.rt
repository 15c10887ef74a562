//! The bindings of one name, for whom they are.

ghost use Rattle.std.specs.Prelude.{◌≡◌, [], ◌∷◌, ◌++◌, length, nat_eq, not, is_ok, if◌then◌else◌, IfOk, IfSome, filter as kept};
ghost use Rattle.std.specs.List.{list_any};
ghost use Rattle.authorizer.specs.AnyTopic.{is_unbarred};
ghost use Rattle.authorizer.specs.Principals.{AreByPrincipal};
ghost use Rattle.acl_binding.specs.Book.{IsRising};
ghost use Rattle.acl_binding.specs.Filter.{is_not_matched};
ghost use Rattle.authorizer.specs.Looking.{finding_of};

use crate::bucket::Bucket;
use crate::indexed::IndexedBook;
use crate::looking::Finding;
use crate::principals::Principals;
use acl_binding::{Filter, Numbered, Question};
use std::alloc::{AllocError, Global};
use std::hash::RandomState;
use std::marker::Model;
use wire_types::{Shared, Text};

/// From so many bindings on they are found by their principals: a question looks at those of its caller and of all, however
/// many others there are.
const MANY: usize = 16;

/// The principal of a binding that is for everybody.
const EVERYBODY: &str = "User:*";

/// The bindings of one kind, pattern type and name, in creation order.
#[derive(Drop)]
pub struct Shelf {
    all: Bucket,
    /// The same by their principals. `None` as long as there are few, and where an allocation failed for it.
    principals: Option<Principals>,
}

impl Model for Shelf {
    ghost use Rattle.std.specs.Prelude.{List, IfSome};
    ghost use Rattle.acl_binding.specs.declared.binding.Numbered.{Numbered};
    ghost use Rattle.authorizer.specs.Principals.{AreByPrincipal};

    ghost Value = { List Numbered };

    ghost view = { λ s. s.all };

    ghost invariant = { λ s. IfSome s.principals (λ table. AreByPrincipal table s.all) };
}

/// The bindings by their principals, where there are many; `None` where there are few, or an allocation fails.
fn by_principal(
    alloc: Global,
    hasher: RandomState,
    entries: &[Shared<Numbered>],
) -> Option<Principals>
    ensures { IfSome result (λ table. AreByPrincipal table entries.now) }
{
    if entries.len() < MANY {
        return None;
    }
    Principals::of(alloc, hasher, entries).ok()
}

impl Shelf {
    /// A shelf with its first binding. An `AllocError` is an allocation failure.
    pub(crate) fn of(alloc: Global, entry: Shared<Numbered>) -> Result<Shelf, AllocError>
        ensures { IfOk result (λ shelf. shelf ≡ entry ∷ []) }
    {
        Ok(Shelf {
            all: Bucket::of(alloc, entry)?,
            principals: None,
        })
    }

    /// The bindings, in creation order.
    pub(crate) fn as_slice(&self) -> &[Shared<Numbered>]
        ensures { result.now ≡ self.now }
    {
        self.all.as_slice()
    }

    /// What the bindings say to the question.
    pub(crate) fn finding(&self, question: &Question) -> Finding
        requires { IsRising 1 self.now }
        ensures { result ≡ finding_of self.now question.now }
    {
        match &self.principals {
            Some(principals) => {
                let own = Finding::of(principals.held(question.who.as_str()), question);
                own.joined(Finding::of(principals.held(EVERYBODY), question))
            }
            None => Finding::of(self.all.as_slice(), question),
        }
    }

    /// Appends a binding, whose creation number is greater than all others here. An allocation failure changes nothing.
    /// `hasher` hashes the principals.
    pub(crate) fn push(
        &mut self,
        alloc: Global,
        hasher: RandomState,
        entry: Shared<Numbered>,
    ) -> Result<(), AllocError>
        ensures { self.new ≡ (if is_ok result then self.old ++ entry ∷ [] else self.old) }
    {
        let principals = self.principals.take();
        let another = entry.share()?;
        self.all.push(entry)?;
        self.principals = match principals {
            Some(table) => table.with(alloc, another).ok(),
            None => by_principal(alloc, hasher, self.all.as_slice()),
        };
        Ok(())
    }

    /// Whether some binding here allows this principal at this host to WRITE, and no DENY in `book` covers all names of
    /// that binding.
    pub(crate) fn any_not_overridden(&self, book: &IndexedBook, who: &Text, host: &Text) -> bool
        ensures { result ≡ list_any (is_unbarred book.now.entries who.now host.now) self.now }
    {
        self.all.any_not_overridden(book, who, host)
    }

    /// Drops the bindings that match the filter. Returns whether any is left.
    pub(crate) fn keep_unmatched(&mut self, filter: &Filter) -> bool
        ensures left { self.new ≡ kept (is_not_matched filter.now) self.old }
        ensures any { result ≡ not (nat_eq (length self.new) 0) }
    {
        let Some(mut principals) = self.principals.take() else {
            return self.all.keep_unmatched(filter);
        };
        principals.clean(filter);
        let any = self.all.keep_unmatched(filter);
        self.principals = Some(principals);
        any
    }
}
