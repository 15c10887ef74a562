//! The words of a binding, with the numbers that the protocol gives them.

ghost use Rattle.std.specs.Prelude.{◌≡◌};
ghost use Rattle.acl_binding.specs.Binding.{implies, name_covers};

use wire_types::Text;

/// The resource type.
#[derive(Clone, Copy, Debug, PartialEq, Eq)]
pub enum Kind {
    Topic = 2,
    Group = 3,
    Cluster = 4,
    TransactionalId = 5,
}

/// The pattern type: how a binding's name matches the names of resources.
#[derive(Clone, Copy, Debug, PartialEq, Eq)]
pub enum Pattern {
    /// The resource of that name; the name `*` matches every resource.
    Literal = 3,
    /// The resources whose names begin with the binding's. `*` is no wildcard here.
    Prefixed = 4,
}

/// What is done with a resource; `All` is every operation.
#[derive(Clone, Copy, Debug, PartialEq, Eq)]
pub enum Operation {
    All = 2,
    Read = 3,
    Write = 4,
    Create = 5,
    Delete = 6,
    Alter = 7,
    Describe = 8,
    ClusterAction = 9,
    DescribeConfigs = 10,
    AlterConfigs = 11,
    IdempotentWrite = 12,
}

/// Whether a binding denies or allows.
#[derive(Clone, Copy, Debug, PartialEq, Eq)]
pub enum Permission {
    Deny = 2,
    Allow = 3,
}

/// The literal name that matches every resource of its kind.
const ANY: &str = "*";

impl Pattern {
    /// Whether a resource pattern of this type with the name `own` matches the resource `name`. The literal `*` matches every
    /// name.
    pub fn covers(self, own: &Text, name: &Text) -> bool
        ensures { result ≡ name_covers self own.now name.now }
    {
        match self {
            Pattern::Literal => own == name || own.as_str() == ANY,
            Pattern::Prefixed => name.as_bytes().starts_with(own.as_bytes()),
        }
    }
}

impl Operation {
    /// Whether an ALLOW of this operation allows the other one too: its own, DESCRIBE by READ, WRITE, DELETE or ALTER,
    /// DESCRIBE_CONFIGS by ALTER_CONFIGS, and any by ALL.
    pub fn implies(self, other: Operation) -> bool
        ensures { result ≡ implies self other }
    {
        match (self, other) {
            (
                Operation::Read | Operation::Write | Operation::Delete | Operation::Alter,
                Operation::Describe,
            ) => true,
            (Operation::AlterConfigs, Operation::DescribeConfigs) => true,
            _ => self == other || self == Operation::All,
        }
    }
}
