//! DescribeAcls: lists the bindings that a filter matches, by resource pattern.

ghost use Rattle.std.specs.Prelude.{◌≡◌, List, [], ◌∷◌, ◌++◌, IfOk, OnOk};
ghost use Rattle.acl_binding.specs.declared.binding.Binding.{Binding as AnyBinding};
ghost use Rattle.acl_binding.specs.Entries.{filter_of};
ghost use Rattle.broker_world.specs.HandlerResult.{HandlerMeets};
ghost use Rattle.acl_handlers.specs.DescribeAcls.{describe_acls_questions, described_acl, described_resources, describe_acls_error, describe_acls_reply, describe_acls_outcome};
ghost use Rattle.acl_handlers.specs.Groups.{resource_with, groups_of};

use crate::filters::filter_in;
use crate::resource::Resource;
use acl_binding::{Binding, Caller, Operation};
use authorizer::{Paid, ask_one};
use broker_world::{HandlerResult, State, asks_cluster, refused_whole, served_whole};
use indexmap::IndexMap;
use msg_acl::{
    DescribeAclsReply, DescribeAclsRequest, DescribedAcl, DescribedResource, FilterEntry,
};
use msg_admin::Reply;
use std::alloc::{AllocError, Global};
use std::hash::RandomState;
use walk::refusal_code;
use wire_types::{Boxed, ErrorCode, Items};

/// A binding as the reply lists it under its resource pattern.
fn described_acl(binding: &Binding) -> Result<DescribedAcl, AllocError>
    ensures { IfOk result (λ acl. acl ≡ described_acl binding.now) }
{
    Ok(DescribedAcl {
        principal: binding.principal.clone()?,
        host: binding.host.clone()?,
        operation: binding.operation.number(),
        permission: binding.permission.number(),
    })
}

/// The resource pattern of a binding as the reply lists it, with this binding as its only one.
fn begun(alloc: Global, binding: &Binding) -> Result<DescribedResource, AllocError>
    ensures { IfOk result (λ resource. resource ≡ resource_with binding.now) }
{
    let mut acls = Items::new(alloc);
    acls.push(described_acl(binding)?)?;
    Ok(DescribedResource {
        kind: binding.kind.number(),
        name: binding.name.clone()?,
        pattern: binding.pattern.number(),
        acls,
    })
}

/// Adds a binding to the list of its resource pattern in `groups`, which is begun if there is none yet.
fn enter(
    alloc: Global,
    groups: &mut IndexMap<Resource, DescribedResource, RandomState>,
    binding: &Binding,
) -> Result<(), AllocError>
    ensures { OnOk result
        ((seen : List AnyBinding) → groups.old.entries ≡ groups_of seen → groups.new.entries
        ≡ groups_of (seen ++ binding.now ∷ [])) }
{
    let resource = Resource::of(binding)?;
    match groups.get_mut(&resource) {
        Some(group) => group.acls.push(described_acl(binding)?)?,
        None => {
            groups.insert(resource, begun(alloc, binding)?)?;
        }
    }
    Ok(())
}

/// The bindings as the reply lists them: by resource pattern, in the order of the first binding of each. `hasher` hashes the
/// patterns; the answer doesn't depend on it.
fn described(
    alloc: Global,
    bindings: &[Binding],
    hasher: RandomState,
) -> Result<Items<DescribedResource>, AllocError>
    ensures { IfOk result (λ resources. resources ≡ described_resources bindings.now) }
{
    let mut groups = IndexMap::with_hasher(alloc, hasher);
    for binding in bindings {
        enter(alloc, &mut groups, binding)?;
    }
    let resources: Vec<DescribedResource> = groups.into_values().collect(alloc)?;
    Ok(Items::from(resources))
}

/// The DescribeAcls reply with this error code, and no bindings.
fn describe_acls_error(alloc: Global, error: ErrorCode) -> DescribeAclsReply
    ensures { result ≡ describe_acls_error error }
{
    DescribeAclsReply {
        throttle: 0,
        error,
        message: None,
        resources: Items::new(alloc),
    }
}

/// Handles a DescribeAcls: lists the bindings that match the filter if the caller may DESCRIBE the cluster, or answers
/// INVALID_REQUEST if the entry is no filter; else answers CLUSTER_AUTHORIZATION_FAILED.
pub fn answer_describe_acls(
    alloc: Global,
    state: &State,
    caller: &Caller,
    request: &DescribeAclsRequest,
) -> Result<HandlerResult, AllocError>
    ensures { HandlerMeets state.now state.now
        (describe_acls_outcome state.now caller.now request.now)
        (describe_acls_questions caller.now) [] result }
{
    let question = asks_cluster(alloc, caller, Operation::Describe)?;
    let policy = state.policy();
    match ask_one(policy, question) {
        Ok(permit) => {
            let paid = Paid::one(permit.spend(policy));
            let reply = described_by(alloc, state, &request.filter)?;
            let reply = Reply::DescribeAcls(Boxed::new(alloc, reply)?);
            Ok(served_whole(alloc, reply, paid))
        }
        Err(refusal) => {
            let reply = describe_acls_error(alloc, refusal_code(&refusal));
            let reply = Reply::DescribeAcls(Boxed::new(alloc, reply)?);
            refused_whole(alloc, reply, refusal)
        }
    }
}

/// The reply to a DescribeAcls of a caller who may DESCRIBE the cluster: the bindings that match the filter, or INVALID_REQUEST
/// if the entry is no filter.
fn described_by(
    alloc: Global,
    state: &State,
    entry: &FilterEntry,
) -> Result<DescribeAclsReply, AllocError>
    ensures { IfOk result
        (λ reply. reply ≡ describe_acls_reply state.now.book (filter_of entry.now)) }
{
    let Some(filter) = filter_in(entry)? else {
        return Ok(describe_acls_error(alloc, ErrorCode::InvalidRequest));
    };
    let picked = state.policy.matching(alloc, &filter)?;
    Ok(DescribeAclsReply {
        throttle: 0,
        error: ErrorCode::None,
        message: None,
        resources: described(alloc, picked.as_slice(), state.policy.hasher())?,
    })
}
