//! Filters, which pick bindings for DescribeAcls and DeleteAcls.

ghost use Rattle.std.specs.Prelude.{◌≡◌};
ghost use Rattle.acl_binding.specs.Filter.{matches, kind_fits, text_fits, name_fits, covering_fits, operation_fits, permission_fits};

use crate::binding::Binding;
use crate::words::{Kind, Operation, Pattern, Permission};
use wire_types::Text;

/// Which bindings a filter with a name picks by their name and pattern type (KIP-290), with the protocol's numbers. A filter
/// without a name takes any name, and `Literal` and `Prefixed` then still pick by pattern type.
#[derive(Clone, Copy, Debug, PartialEq, Eq)]
pub enum FilterPattern {
    /// Bindings of an equal name, whatever their pattern type.
    Any = 1,
    /// Bindings whose pattern matches a resource of the filter's name: an equal literal, the literal `*`, or a prefix of it.
    Match = 2,
    /// Literal bindings of an equal name.
    Literal = 3,
    /// Prefixed bindings of an equal name.
    Prefixed = 4,
}

/// Which bindings to pick; a field that is None matches any.
#[derive(Clone, Debug, Drop)]
pub struct Filter {
    pub kind: Option<Kind>,
    pub name: Option<Text>,
    pub pattern: FilterPattern,
    pub principal: Option<Text>,
    pub host: Option<Text>,
    pub operation: Option<Operation>,
    pub permission: Option<Permission>,
}

impl Filter {
    /// Whether the filter picks the binding: each of its fields is None or matches. Principal and host match an equal text only,
    /// without wildcards.
    pub fn matches(&self, binding: &Binding) -> bool
        ensures { result ≡ matches self.now binding.now }
    {
        (kind_fits(self.kind, binding.kind) && name_fits(self.pattern, &self.name, binding))
            && ((text_fits(&self.principal, &binding.principal)
                && text_fits(&self.host, &binding.host))
                && (operation_fits(self.operation, binding.operation)
                    && permission_fits(self.permission, binding.permission)))
    }
}

/// Whether the wanted kind of resource is this one, or any.
fn kind_fits(wanted: Option<Kind>, kind: Kind) -> bool
    ensures { result ≡ kind_fits wanted kind }
{
    match wanted {
        Some(wanted) => wanted == kind,
        None => true,
    }
}

/// Whether the wanted text (a principal, a host or a name) is this one, or any.
fn text_fits(wanted: &Option<Text>, own: &Text) -> bool
    ensures { result ≡ text_fits wanted.now own.now }
{
    match wanted {
        Some(wanted) => wanted == own,
        None => true,
    }
}

/// Whether the wanted operation is this one, or any.
fn operation_fits(wanted: Option<Operation>, operation: Operation) -> bool
    ensures { result ≡ operation_fits wanted operation }
{
    match wanted {
        Some(wanted) => wanted == operation,
        None => true,
    }
}

/// Whether the wanted permission is this one, or any.
fn permission_fits(wanted: Option<Permission>, permission: Permission) -> bool
    ensures { result ≡ permission_fits wanted permission }
{
    match wanted {
        Some(wanted) => wanted == permission,
        None => true,
    }
}

/// Whether the binding's pattern matches the resource of this name, or `name` is None (pattern type MATCH of KIP-290).
fn covering_fits(name: &Option<Text>, binding: &Binding) -> bool
    ensures { result ≡ covering_fits name.now binding.now }
{
    match name {
        Some(name) => binding.pattern.covers(&binding.name, name),
        None => true,
    }
}

/// Whether the filter, by its pattern type (ANY, MATCH, LITERAL or PREFIXED of KIP-290) and its name, picks the binding's name
/// and pattern type.
fn name_fits(pattern: FilterPattern, name: &Option<Text>, binding: &Binding) -> bool
    ensures { result ≡ name_fits pattern name.now binding.now }
{
    match pattern {
        FilterPattern::Any => text_fits(name, &binding.name),
        FilterPattern::Match => covering_fits(name, binding),
        FilterPattern::Literal => {
            binding.pattern == Pattern::Literal && text_fits(name, &binding.name)
        }
        FilterPattern::Prefixed => {
            binding.pattern == Pattern::Prefixed && text_fits(name, &binding.name)
        }
    }
}
