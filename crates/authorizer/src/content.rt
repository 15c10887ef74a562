//! A binding of the book as a key.

ghost use Rattle.std.specs.Prelude.{◌≡◌, IfOk};
ghost use Rattle.std.specs.Cmp.{partial_equiv_from_equiv};
ghost use Rattle.authorizer.specs.Contents.{says_same, says_same_laws, hash_writes_of, said_alike};

use acl_binding::{Binding, Numbered};
use std::alloc::AllocError;
use std::hash::{Hash, Hasher};
use std::marker::Model;
use wire_types::Shared;

/// A numbered binding as a key of a table. It equals each binding with the same seven fields, whatever their creation
/// numbers.
#[derive(Drop)]
pub struct Content {
    entry: Shared<Numbered>,
}

impl Model for Content {
    ghost use Rattle.acl_binding.specs.declared.binding.Numbered.{Numbered};

    ghost Value = { Numbered };

    ghost view = { λ c. c.entry };
}

impl PartialEq for Content {
    ghost eq = { says_same };

    ghost laws = { partial_equiv_from_equiv says_same_laws };

    /// Whether both bindings say the same, whatever their creation numbers.
    fn eq(&self, other: &Content) -> bool {
        self.binding() == other.binding()
    }
}

impl Eq for Content {
    ghost laws = { says_same_laws };
}

/// Written out, since a text has no hash of its own.
impl Hash for Content {
    ghost hash_input = { hash_writes_of };

    ghost respects_eq = { said_alike.fed };

    /// Hashes the binding's seven fields, and not its creation number.
    fn hash<H: Hasher>(&self, state: &mut H) {
        let binding = self.binding();
        binding.kind.number().hash(state);
        binding.name.as_str().hash(state);
        binding.pattern.number().hash(state);
        binding.principal.as_str().hash(state);
        binding.host.as_str().hash(state);
        binding.operation.number().hash(state);
        binding.permission.number().hash(state);
    }
}

impl Content {
    /// The binding as a key, with one more owner of it. It fails only where the count of owners is full.
    pub(crate) fn of(entry: &Shared<Numbered>) -> Result<Content, AllocError>
        ensures { IfOk result (λ content. content ≡ entry.now) }
    {
        Ok(Content {
            entry: entry.share()?,
        })
    }

    /// One more owner of the same binding. It fails only where the count of owners is full.
    pub(crate) fn share(&self) -> Result<Content, AllocError>
        ensures { IfOk result (λ content. content ≡ self.now) }
    {
        Content::of(&self.entry)
    }

    /// The binding's creation number.
    pub(crate) fn number(&self) -> u64
        ensures { result ≡ self.now.number }
    {
        self.entry.value().number
    }

    /// The binding, without its creation number.
    pub(crate) fn binding(&self) -> &Binding
        ensures { result.now ≡ self.now.binding }
    {
        &self.entry.value().binding
    }
}
