//! A binding (ACL): what a principal may or may not do with the resources of a pattern.

ghost use Rattle.std.specs.Prelude.{◌≡◌};
ghost use Rattle.acl_binding.specs.Binding.{covers, applies, denies, allows};
ghost use Rattle.acl_binding.specs.Verdict.{is_denial, is_grant};

use crate::question::Question;
use crate::words::{Kind, Operation, Pattern, Permission};
use wire_types::Text;

/// The principal that stands for every principal.
const ANY_PRINCIPAL: &str = "User:*";

/// The host that stands for every host.
const ANY_HOST: &str = "*";

/// Denies or allows a principal at a host an operation on the resources of a pattern (a resource type, a name and a pattern
/// type). Its texts may be any; see `is_creatable`.
#[derive(Clone, Debug, Drop, PartialEq, Eq)]
pub struct Binding {
    pub kind: Kind,
    pub name: Text,
    pub pattern: Pattern,
    pub principal: Text,
    pub host: Text,
    pub operation: Operation,
    pub permission: Permission,
}

/// A binding with its creation number, counted from 1.
#[derive(Debug, Drop)]
pub struct Numbered {
    pub number: u64,
    pub binding: Binding,
}

impl Binding {
    /// Whether the binding's resource pattern matches the resource of this kind and name.
    pub fn covers(&self, kind: Kind, name: &Text) -> bool
        ensures { result ≡ covers self.now kind name.now }
    {
        self.kind == kind && self.pattern.covers(&self.name, name)
    }

    /// Whether the binding is for the principal `who` at this host. `User:*` stands for every principal, and `*` for every host.
    pub fn applies(&self, who: &Text, host: &Text) -> bool
        ensures { result ≡ applies self.now who.now host.now }
    {
        (self.principal == *who || self.principal.as_str() == ANY_PRINCIPAL)
            && (self.host == *host || self.host.as_str() == ANY_HOST)
    }

    /// Whether the binding is a DENY of this operation or of ALL. A DENY denies no operation that its own would imply.
    pub fn denies(&self, op: Operation) -> bool
        ensures { result ≡ denies self.now op }
    {
        self.permission == Permission::Deny
            && (self.operation == op || self.operation == Operation::All)
    }

    /// Whether the binding is an ALLOW of this operation, of one that implies it, or of ALL.
    pub fn allows(&self, op: Operation) -> bool
        ensures { result ≡ allows self.now op }
    {
        self.permission == Permission::Allow && self.operation.implies(op)
    }

    /// Whether the binding denies what is asked: its resource, principal, host and operation all match, and it is a DENY.
    pub fn is_denial(&self, question: &Question) -> bool
        ensures { result ≡ is_denial question.now self.now }
    {
        self.covers(question.kind, &question.name)
            && self.applies(&question.who, &question.host)
            && self.denies(question.op)
    }

    /// Whether the binding allows what is asked: its resource, principal, host and operation all match, and it is an ALLOW.
    pub fn is_grant(&self, question: &Question) -> bool
        ensures { result ≡ is_grant question.now self.now }
    {
        self.covers(question.kind, &question.name)
            && self.applies(&question.who, &question.host)
            && self.allows(question.op)
    }
}
