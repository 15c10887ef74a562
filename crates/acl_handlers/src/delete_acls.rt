//! DeleteAcls: removes the bindings that filters match.

ghost use Rattle.std.specs.Prelude.{[], ◌≡◌, ◌<◌, ◌^◌, map, IfOk, OnOk};
ghost use Rattle.acl_binding.specs.Entries.{filter_of};
ghost use Rattle.msg_acl.specs.declared.entries.FilterEntry.{FilterEntry as Entry};
ghost use Rattle.walk.specs.Codes.{refusal_code};
ghost use Rattle.acl_handlers.specs.CreateAcls.{alter_questions};
ghost use Rattle.broker_world.specs.HandlerResult.{HandlerMeets};
ghost use Rattle.acl_handlers.specs.DeleteAcls.{book_without, book_deleted, deleted_acl, deletion_error, deletion_result, deletion_results, delete_acls_reply, delete_acls_outcome};

use crate::filters::filter_in;
use acl_binding::{Binding, Caller, Operation};
use authorizer::{Paid, Policy, Refusal, ask_one};
use broker_world::{HandlerResult, State, asks_cluster, refused_whole, served_whole};
use msg_acl::{
    BindingEntry, DeleteAclsReply, DeleteAclsRequest, DeletedAcl, DeletedAcls, FilterEntry,
};
use msg_admin::Reply;
use std::alloc::{AllocError, Global};
use walk::refusal_code;
use wire_types::{Boxed, ErrorCode, Items};

/// A deleted binding as the reply lists it, with error code NONE.
fn deleted_acl(binding: &Binding) -> Result<DeletedAcl, AllocError>
    ensures { IfOk result (λ acl. acl ≡ deleted_acl binding.now) }
{
    Ok(DeletedAcl {
        error: ErrorCode::None,
        message: None,
        binding: BindingEntry {
            kind: binding.kind.number(),
            name: binding.name.clone()?,
            pattern: binding.pattern.number(),
            principal: binding.principal.clone()?,
            host: binding.host.clone()?,
            operation: binding.operation.number(),
            permission: binding.permission.number(),
        },
    })
}

/// A filter's answer with this error code, and no bindings.
fn deleted_error(alloc: Global, error: ErrorCode) -> DeletedAcls
    ensures { result ≡ deletion_error error }
{
    DeletedAcls {
        error,
        message: None,
        matches: Items::new(alloc),
    }
}

/// The DeleteAcls reply with these answers.
fn delete_acls_reply(alloc: Global, results: Items<DeletedAcls>) -> Result<Reply, AllocError>
    ensures { IfOk result (λ reply. reply ≡ Reply.DeleteAcls (delete_acls_reply results)) }
{
    let reply = DeleteAclsReply {
        throttle: 0,
        results,
    };
    Ok(Reply::DeleteAcls(Boxed::new(alloc, reply)?))
}

/// The deleted bindings as the reply lists them.
fn deleted_acls(alloc: Global, bindings: &[Binding]) -> Result<Items<DeletedAcl>, AllocError>
    ensures { IfOk result (λ matches. matches ≡ map deleted_acl bindings.now) }
{
    let mut matches = Items::new(alloc);
    for binding in bindings {
        matches.push(deleted_acl(binding)?)?;
    }
    Ok(matches)
}

/// Removes the bindings that match an entry's filter and lists them, or answers INVALID_REQUEST if the entry is no filter.
fn delete(
    alloc: Global,
    policy: &mut Policy,
    entry: &FilterEntry,
) -> Result<DeletedAcls, AllocError>
    requires { policy.old.book.next < 2 ^ 63 }
    ensures book { OnOk result
        (policy.new.book ≡ book_without policy.old.book (filter_of entry.now)) }
    ensures supers { OnOk result (policy.new.supers ≡ policy.old.supers) }
    ensures answer { IfOk result
        (λ answer. answer ≡ deletion_result policy.old.book (filter_of entry.now)) }
{
    let Some(filter) = filter_in(entry)? else {
        return Ok(deleted_error(alloc, ErrorCode::InvalidRequest));
    };
    let picked = policy.remove(alloc, &filter)?;
    Ok(DeletedAcls {
        error: ErrorCode::None,
        message: None,
        matches: deleted_acls(alloc, picked.as_slice())?,
    })
}

/// Removes what the entries' filters match, in order, and gives an answer for each. After an allocation failure some may
/// have been removed.
fn delete_all(
    alloc: Global,
    policy: &mut Policy,
    filters: &[FilterEntry],
) -> Result<Items<DeletedAcls>, AllocError>
    requires { policy.old.book.next < 2 ^ 63 }
    ensures book { OnOk result (policy.new.book ≡ book_deleted policy.old.book filters.now) }
    ensures supers { OnOk result (policy.new.supers ≡ policy.old.supers) }
    ensures answers { IfOk result
        (λ results. results ≡ deletion_results policy.old.book filters.now) }
{
    let mut results = Items::with_capacity(alloc, filters.len())?;
    for entry in filters {
        results.push(delete(alloc, policy, entry)?)?;
    }
    Ok(results)
}

/// The reply if the request was refused and nothing is deleted: the refusal's code for each filter.
fn deleted_none(
    alloc: Global,
    refusal: &Refusal,
    filters: &[FilterEntry],
) -> Result<Reply, AllocError>
    ensures { IfOk result
        (λ reply. reply ≡ Reply.DeleteAcls
        (delete_acls_reply
        (map (λ (entry : Entry). deletion_error (refusal_code refusal.now)) filters.now))) }
{
    let code = refusal_code(refusal);
    let mut results = Items::with_capacity(alloc, filters.len())?;
    for _entry in filters {
        results.push(deleted_error(alloc, code))?;
    }
    delete_acls_reply(alloc, results)
}

/// Handles a DeleteAcls: removes the bindings that match the filters, filter by filter, if the caller may ALTER the cluster,
/// and lists them, or answers INVALID_REQUEST for an entry that is no filter; else answers CLUSTER_AUTHORIZATION_FAILED for
/// each filter. After an allocation failure some may have been removed.
pub fn answer_delete_acls(
    alloc: Global,
    state: &mut State,
    caller: &Caller,
    request: &DeleteAclsRequest,
) -> Result<HandlerResult, AllocError>
    requires { state.old.book.next < 2 ^ 63 }
    ensures { HandlerMeets state.old state.new
        (delete_acls_outcome state.old caller.now request.now)
        (alter_questions caller.now) [] result }
{
    let question = asks_cluster(alloc, caller, Operation::Alter)?;
    let filters = request.filters.as_slice();
    match ask_one(&state.policy, question) {
        Ok(permit) => {
            let paid = Paid::one(permit.spend(&state.policy));
            let results = delete_all(alloc, &mut state.policy, filters)?;
            let reply = delete_acls_reply(alloc, results)?;
            Ok(served_whole(alloc, reply, paid))
        }
        Err(refusal) => {
            let reply = deleted_none(alloc, &refusal, filters)?;
            refused_whole(alloc, reply, refusal)
        }
    }
}
