//! The names that the words of a binding have in settings and in lines of the audit trail.

ghost use Rattle.std.specs.Prelude.{◌≡◌};
ghost use Rattle.std.specs.List.{find};
ghost use Rattle.std.specs.Str.{bytes_eq};
ghost use Rattle.acl_binding.specs.Names.{kind_name, kind_named, pattern_name, pattern_named, operation_name, operation_named, permission_name, permission_named};

use crate::words::{Kind, Operation, Pattern, Permission};

/// Every kind, by rising numbers.
pub(crate) const KINDS: [Kind; 4] = [
    Kind::Topic,
    Kind::Group,
    Kind::Cluster,
    Kind::TransactionalId,
];

/// Every pattern type of a binding, by rising numbers.
pub(crate) const PATTERNS: [Pattern; 2] = [Pattern::Literal, Pattern::Prefixed];

/// Every operation, by rising numbers.
pub(crate) const OPERATIONS: [Operation; 11] = [
    Operation::All,
    Operation::Read,
    Operation::Write,
    Operation::Create,
    Operation::Delete,
    Operation::Alter,
    Operation::Describe,
    Operation::ClusterAction,
    Operation::DescribeConfigs,
    Operation::AlterConfigs,
    Operation::IdempotentWrite,
];

/// Every permission, by rising numbers.
pub(crate) const PERMISSIONS: [Permission; 2] = [Permission::Deny, Permission::Allow];

impl Kind {
    /// The kind's name, such as `TransactionalId`.
    pub fn name(self) -> &'static str
        ensures { result.now ≡ kind_name self }
    {
        match self {
            Kind::Topic => "Topic",
            Kind::Group => "Group",
            Kind::Cluster => "Cluster",
            Kind::TransactionalId => "TransactionalId",
        }
    }

    /// The kind that has this name, `None` if none has. Case matters.
    pub fn named(name: &str) -> Option<Kind>
        ensures { result ≡ kind_named name.now }
    {
        first_kind(&KINDS, name)
    }
}

/// The first of these kinds that has this name.
fn first_kind(kinds: &[Kind], name: &str) -> Option<Kind>
    ensures { result ≡ find (λ k. bytes_eq (kind_name k) name.now) kinds.now }
{
    kinds.iter().copied().find(|kind| kind.name() == name)
}

impl Pattern {
    /// The pattern type's name, LITERAL or PREFIXED.
    pub fn name(self) -> &'static str
        ensures { result.now ≡ pattern_name self }
    {
        match self {
            Pattern::Literal => "LITERAL",
            Pattern::Prefixed => "PREFIXED",
        }
    }

    /// The pattern type that has this name, `None` if none has. Case matters.
    pub fn named(name: &str) -> Option<Pattern>
        ensures { result ≡ pattern_named name.now }
    {
        first_pattern(&PATTERNS, name)
    }
}

/// The first of these pattern types that has this name.
fn first_pattern(patterns: &[Pattern], name: &str) -> Option<Pattern>
    ensures { result ≡ find (λ p. bytes_eq (pattern_name p) name.now) patterns.now }
{
    patterns
        .iter()
        .copied()
        .find(|pattern| pattern.name() == name)
}

impl Operation {
    /// The operation's name, such as `DESCRIBE_CONFIGS`.
    pub fn name(self) -> &'static str
        ensures { result.now ≡ operation_name self }
    {
        match self {
            Operation::All => "ALL",
            Operation::Read => "READ",
            Operation::Write => "WRITE",
            Operation::Create => "CREATE",
            Operation::Delete => "DELETE",
            Operation::Alter => "ALTER",
            Operation::Describe => "DESCRIBE",
            Operation::ClusterAction => "CLUSTER_ACTION",
            Operation::DescribeConfigs => "DESCRIBE_CONFIGS",
            Operation::AlterConfigs => "ALTER_CONFIGS",
            Operation::IdempotentWrite => "IDEMPOTENT_WRITE",
        }
    }

    /// The operation that has this name, `None` if none has. Case matters.
    pub fn named(name: &str) -> Option<Operation>
        ensures { result ≡ operation_named name.now }
    {
        first_operation(&OPERATIONS, name)
    }
}

/// The first of these operations that has this name.
fn first_operation(operations: &[Operation], name: &str) -> Option<Operation>
    ensures { result ≡ find (λ op. bytes_eq (operation_name op) name.now) operations.now }
{
    operations.iter().copied().find(|op| op.name() == name)
}

impl Permission {
    /// The permission's name, DENY or ALLOW.
    pub fn name(self) -> &'static str
        ensures { result.now ≡ permission_name self }
    {
        match self {
            Permission::Deny => "DENY",
            Permission::Allow => "ALLOW",
        }
    }

    /// The permission that has this name, `None` if none has. Case matters.
    pub fn named(name: &str) -> Option<Permission>
        ensures { result ≡ permission_named name.now }
    {
        first_permission(&PERMISSIONS, name)
    }
}

/// The first of these permissions that has this name.
fn first_permission(permissions: &[Permission], name: &str) -> Option<Permission>
    ensures { result ≡ find (λ p. bytes_eq (permission_name p) name.now) permissions.now }
{
    permissions
        .iter()
        .copied()
        .find(|permission| permission.name() == name)
}
