//! The bindings and filters that the entries of messages describe: an entry holds numbers where a binding has words (Kafka
//! protocol guide, "CreateAcls API (Key: 30)", "DeleteAcls API (Key: 31)").

ghost use Rattle.std.specs.Prelude.{◌≡◌, true, None, Some, IfSome, IfOk, OnErr};
ghost use Rattle.acl_binding.specs.Creatable.{is_creatable};
ghost use Rattle.acl_binding.specs.WireNumbers.{kind_at, operation_at, permission_at};
ghost use Rattle.acl_binding.specs.Entries.{or_any, binding_of, filter_of};

use crate::binding::Binding;
use crate::filter::{Filter, FilterPattern};
use crate::words::{Kind, Operation, Pattern, Permission};
use msg_acl::{BindingEntry, FilterEntry};
use thiserror::Error;

/// The number that stands for any resource type, operation or permission (ANY).
const ANY_NUMBER: i8 = 1;

/// An entry of CreateAcls is no binding that may be created, or one of a filter has an unknown number. The handlers answer it
/// with INVALID_REQUEST.
#[derive(Clone, Copy, Debug, PartialEq, Eq, Error)]
#[error("the entry is no binding that may be created, or no filter")]
pub struct BadEntry;

/// What a filter says by this number about kinds of resources: `Some(None)` if it matches any, `Some(Some(kind))` if just
/// that one, `None` if the number is unknown.
fn any_kind(number: i8) -> Option<Option<Kind>>
    ensures { result ≡ or_any kind_at number }
{
    if number == ANY_NUMBER {
        return Some(None);
    }
    Some(Some(Kind::of_number(number)?))
}

/// What a filter says by this number about operations: `Some(None)` if it matches any, `Some(Some(operation))` if just that
/// one, `None` if the number is unknown.
fn any_operation(number: i8) -> Option<Option<Operation>>
    ensures { result ≡ or_any operation_at number }
{
    if number == ANY_NUMBER {
        return Some(None);
    }
    Some(Some(Operation::of_number(number)?))
}

/// What a filter says by this number about permissions: `Some(None)` if it matches any, `Some(Some(permission))` if just
/// that one, `None` if the number is unknown.
fn any_permission(number: i8) -> Option<Option<Permission>>
    ensures { result ≡ or_any permission_at number }
{
    if number == ANY_NUMBER {
        return Some(None);
    }
    Some(Some(Permission::of_number(number)?))
}

/// The binding that an entry of CreateAcls describes. `None` if one of its numbers is unknown or CreateAcls may not create
/// the binding.
fn binding_of(entry: BindingEntry) -> Option<Binding>
    ensures binding { result ≡ binding_of entry }
    ensures creatable { IfSome result (λ b. is_creatable b ≡ true) }
{
    let binding = Binding {
        kind: Kind::of_number(entry.kind)?,
        pattern: Pattern::of_number(entry.pattern)?,
        operation: Operation::of_number(entry.operation)?,
        permission: Permission::of_number(entry.permission)?,
        name: entry.name,
        principal: entry.principal,
        host: entry.host,
    };
    if binding.is_creatable() {
        Some(binding)
    } else {
        None
    }
}

/// The filter that an entry of DescribeAcls or DeleteAcls describes. `None` if one of its numbers is unknown.
fn filter_of(entry: FilterEntry) -> Option<Filter>
    ensures { result ≡ filter_of entry }
{
    Some(Filter {
        kind: any_kind(entry.kind)?,
        pattern: FilterPattern::of_number(entry.pattern)?,
        operation: any_operation(entry.operation)?,
        permission: any_permission(entry.permission)?,
        name: entry.name,
        principal: entry.principal,
        host: entry.host,
    })
}

impl Binding {
    /// The binding that an entry of CreateAcls describes. `BadEntry` if one of its numbers is unknown or CreateAcls may not
    /// create the binding.
    pub fn check(entry: BindingEntry) -> Result<Binding, BadEntry>
        ensures ok { IfOk result (λ b. binding_of entry ≡ Some b) }
        ensures creatable { IfOk result (λ b. is_creatable b ≡ true) }
        ensures err { OnErr result (binding_of entry ≡ None) }
    {
        binding_of(entry).ok_or(BadEntry)
    }
}

impl Filter {
    /// The filter that an entry of DescribeAcls or DeleteAcls describes. `BadEntry` if one of its numbers is unknown.
    pub fn check(entry: FilterEntry) -> Result<Filter, BadEntry>
        ensures ok { IfOk result (λ f. filter_of entry ≡ Some f) }
        ensures err { OnErr result (filter_of entry ≡ None) }
    {
        filter_of(entry).ok_or(BadEntry)
    }
}
