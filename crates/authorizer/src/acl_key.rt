//! The index keys under which the bindings stand that match a filter with a resource name.

ghost use Rattle.std.specs.Prelude.{◌≡◌, ◌||◌, true, Some, IfOk, OnOk};
ghost use Rattle.acl_binding.specs.declared.binding.Numbered.{Numbered as Entry};
ghost use Rattle.authorizer.specs.Looking.{is_at, is_longer, IsNamed};
ghost use Rattle.authorizer.specs.Picking.{picks, stands_in, stands_under, AreAllAt};

use crate::index::ANY_NAME;
use acl_binding::{Filter, FilterPattern, Kind, Pattern};
use std::alloc::{AllocError, Global};
use wire_types::Items;

/// The key of bindings in the policy's index: the kind of their resource, their pattern type (LITERAL or PREFIXED) and
/// their resource name.
#[derive(Clone, Copy)]
pub struct AclKey<'a> {
    pub kind: Kind,
    pub pattern: Pattern,
    pub name: &'a str,
}

/// Returns keys under which all bindings stand that match the filter (KIP-290, on MATCH and ANY). Others may stand there
/// too, since principal, host, operation and permission aren't regarded: the caller tests each. `None` if the filter has no
/// name: then every binding has to be tested.
pub(crate) fn acl_keys<'a>(
    alloc: Global,
    filter: &'a Filter,
) -> Result<Option<Items<AclKey<'a>>>, AllocError>
    ensures { IfOk result (λ acl_keys. AreAllAt acl_keys filter.now) }
{
    match &filter.name {
        Some(name) => Ok(Some(keys_under(alloc, name.as_str(), filter)?)),
        None => Ok(None),
    }
}

/// As `acl_keys`, for a filter whose name is `name`: the keys of its kind, or of all four kinds if it has none.
fn keys_under<'a>(
    alloc: Global,
    name: &'a str,
    filter: &Filter,
) -> Result<Items<AclKey<'a>>, AllocError>
    requires { filter.now.name ≡ Some name.now }
    ensures { IfOk result
        (λ acl_keys. (e : Entry) → IsNamed e → picks filter.now e ≡ true → stands_in acl_keys e
        ≡ true) }
{
    let mut acl_keys = Items::new(alloc);
    if let Some(kind) = filter.kind {
        add_keys(kind, name, filter.pattern, &mut acl_keys)?;
        return Ok(acl_keys);
    }
    add_keys(Kind::Topic, name, filter.pattern, &mut acl_keys)?;
    add_keys(Kind::Group, name, filter.pattern, &mut acl_keys)?;
    add_keys(Kind::Cluster, name, filter.pattern, &mut acl_keys)?;
    add_keys(Kind::TransactionalId, name, filter.pattern, &mut acl_keys)?;
    Ok(acl_keys)
}

/// Adds the key of this kind, pattern and name to the list. On an allocation failure the list is as it was.
fn add<'a>(
    kind: Kind,
    pattern: Pattern,
    name: &'a str,
    acl_keys: &mut Items<AclKey<'a>>,
) -> Result<(), AllocError>
    ensures { OnOk result
        ((e : Entry) → stands_in acl_keys.new e
        ≡ (stands_in acl_keys.old e || is_at kind pattern name.now e)) }
{
    acl_keys.push(AclKey {
        kind,
        pattern,
        name,
    })
}

/// Adds the keys of one kind under which bindings stand that a filter of the pattern type `wanted` and of this name
/// matches. On an allocation failure some may have been added.
fn add_keys<'a>(
    kind: Kind,
    name: &'a str,
    wanted: FilterPattern,
    acl_keys: &mut Items<AclKey<'a>>,
) -> Result<(), AllocError>
    ensures { OnOk result
        ((e : Entry) → IsNamed e → stands_in acl_keys.new e
        ≡ (stands_in acl_keys.old e || stands_under wanted kind name.now e)) }
{
    match wanted {
        FilterPattern::Any => {
            add(kind, Pattern::Literal, name, acl_keys)?;
            add(kind, Pattern::Prefixed, name, acl_keys)
        }
        FilterPattern::Match => {
            add(kind, Pattern::Literal, name, acl_keys)?;
            add(kind, Pattern::Literal, ANY_NAME, acl_keys)?;
            add_beginnings(kind, name, acl_keys)
        }
        FilterPattern::Literal => add(kind, Pattern::Literal, name, acl_keys),
        FilterPattern::Prefixed => add(kind, Pattern::Prefixed, name, acl_keys),
    }
}

/// Adds a prefixed key for each beginning of the name from the first character up to the whole: the keys of all prefixed
/// bindings that match the name. On an allocation failure some may have been added.
fn add_beginnings<'a>(
    kind: Kind,
    name: &'a str,
    acl_keys: &mut Items<AclKey<'a>>,
) -> Result<(), AllocError>
    ensures { OnOk result
        ((e : Entry) → IsNamed e → stands_in acl_keys.new e
        ≡ (stands_in acl_keys.old e || is_longer kind name.now 0 e)) }
{
    let mut end = 0;
    for c in name.chars() {
        end += c.len_utf8();
        add(kind, Pattern::Prefixed, &name[..end], acl_keys)?;
    }
    Ok(())
}
