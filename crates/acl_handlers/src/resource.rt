//! The resource patterns of bindings, as keys of a table.

ghost use Rattle.std.specs.Prelude.{◌≡◌, ◌++◌, IfOk};
ghost use Rattle.std.proofs.Common.{rules};
ghost use Rattle.std.specs.Cmp.Rules.{hashing};
ghost use Rattle.std.specs.Hash as fed;
ghost use Rattle.acl_handlers.specs.Groups.{resource_of};

use acl_binding::Binding;
use std::alloc::AllocError;
use std::hash::{Hash, Hasher};
use wire_types::Text;

/// A resource pattern (KIP-290) as a key of a table: kind and pattern type by the protocol's numbers, and the name.
#[derive(Drop, PartialEq, Eq)]
pub struct Resource {
    kind: i8,
    pattern: i8,
    name: Text,
}

/// Written out, since a text has no hash of its own.
impl Hash for Resource {
    ghost hash_input = { λ r. fed.i8 r.kind ++ (fed.i8 r.pattern ++ fed.str r.name) };

    ghost respects_eq = { Prim.search (hashing, rules) };

    /// Hashes kind, pattern type and name.
    fn hash<H: Hasher>(&self, state: &mut H) {
        self.kind.hash(state);
        self.pattern.hash(state);
        self.name.as_str().hash(state);
    }
}

impl Resource {
    /// The resource pattern of a binding.
    pub(crate) fn of(binding: &Binding) -> Result<Resource, AllocError>
        ensures { IfOk result (λ resource. resource ≡ resource_of binding.now) }
    {
        Ok(Resource {
            kind: binding.kind.number(),
            pattern: binding.pattern.number(),
            name: binding.name.clone()?,
        })
    }
}
