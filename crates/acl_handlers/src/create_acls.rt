//! CreateAcls: adds bindings to the policy.

ghost use Rattle.std.specs.Prelude.{[], ◌≡◌, ◌+◌, ◌<◌, ◌≤◌, ◌^◌, length, map, IfOk, OnOk};
ghost use Rattle.acl_binding.specs.Entries.{binding_of};
ghost use Rattle.msg_acl.specs.declared.entries.BindingEntry.{BindingEntry as Entry};
ghost use Rattle.walk.specs.Codes.{refusal_code};
ghost use Rattle.broker_world.specs.HandlerResult.{HandlerMeets};
ghost use Rattle.acl_handlers.specs.CreateAcls.{alter_questions, book_with, book_created, creation_result_with, creation_result, create_acls_reply, create_acls_outcome};

use acl_binding::{BadEntry, Binding, Caller, Operation};
use authorizer::{Paid, Policy, Refusal, ask_one};
use broker_world::{HandlerResult, State, asks_cluster, refused_whole, served_whole};
use msg_acl::{BindingEntry, CreateAclsReply, CreateAclsRequest, CreatedAcl};
use msg_admin::Reply;
use std::alloc::{AllocError, Global};
use walk::refusal_code;
use wire_types::{Boxed, ErrorCode, Items};

/// An entry's answer with this error code, NONE if its binding was created.
fn created_with(error: ErrorCode) -> CreatedAcl
    ensures { result ≡ creation_result_with error }
{
    CreatedAcl {
        error,
        message: None,
    }
}

/// The CreateAcls reply with these answers.
fn create_acls_reply(alloc: Global, results: Items<CreatedAcl>) -> Result<Reply, AllocError>
    ensures { IfOk result (λ reply. reply ≡ Reply.CreateAcls (create_acls_reply results)) }
{
    let reply = CreateAclsReply {
        throttle: 0,
        results,
    };
    Ok(Reply::CreateAcls(Boxed::new(alloc, reply)?))
}

/// Adds the binding that an entry describes, and answers NONE, also if an equal one is there already. Answers INVALID_REQUEST
/// if the entry describes no binding that may be created.
fn create(
    alloc: Global,
    policy: &mut Policy,
    entry: &BindingEntry,
) -> Result<CreatedAcl, AllocError>
    requires { policy.old.book.next + 1 < 2 ^ 63 }
    ensures book { OnOk result
        (policy.new.book ≡ book_with policy.old.book (binding_of entry.now)) }
    ensures supers { OnOk result (policy.new.supers ≡ policy.old.supers) }
    ensures next { OnOk result (policy.new.book.next ≤ policy.old.book.next + 1) }
    ensures answer { IfOk result (λ answer. answer ≡ creation_result entry.now) }
{
    match Binding::check(entry.clone()?) {
        Ok(binding) => {
            policy.add(alloc, binding)?;
            Ok(created_with(ErrorCode::None))
        }
        Err(BadEntry) => Ok(created_with(ErrorCode::InvalidRequest)),
    }
}

/// Adds the bindings of the entries in order, and returns an answer for each, as `create` does. An entry that is no binding
/// doesn't keep the others out. After an allocation failure some may have been added.
fn create_all(
    alloc: Global,
    policy: &mut Policy,
    creations: &[BindingEntry],
) -> Result<Items<CreatedAcl>, AllocError>
    requires { policy.old.book.next + length creations.now < 2 ^ 63 }
    ensures book { OnOk result (policy.new.book ≡ book_created policy.old.book creations.now) }
    ensures supers { OnOk result (policy.new.supers ≡ policy.old.supers) }
    ensures answers { IfOk result (λ results. results ≡ map creation_result creations.now) }
{
    let mut results = Items::with_capacity(alloc, creations.len())?;
    for entry in creations {
        results.push(create(alloc, policy, entry)?)?;
    }
    Ok(results)
}

/// The reply if the request was refused and nothing is created: the refusal's code for each entry.
fn created_none(
    alloc: Global,
    refusal: &Refusal,
    creations: &[BindingEntry],
) -> Result<Reply, AllocError>
    ensures { IfOk result
        (λ reply. reply ≡ Reply.CreateAcls
        (create_acls_reply
        (map (λ (entry : Entry). creation_result_with (refusal_code refusal.now))
        creations.now))) }
{
    let code = refusal_code(refusal);
    let mut results = Items::with_capacity(alloc, creations.len())?;
    for _entry in creations {
        results.push(created_with(code))?;
    }
    create_acls_reply(alloc, results)
}

/// Handles a CreateAcls: adds the bindings if the caller may ALTER the cluster, and answers NONE or INVALID_REQUEST for each;
/// else answers CLUSTER_AUTHORIZATION_FAILED for each. After an allocation failure some may have been added.
pub fn answer_create_acls(
    alloc: Global,
    state: &mut State,
    caller: &Caller,
    request: &CreateAclsRequest,
) -> Result<HandlerResult, AllocError>
    requires { state.old.book.next + length request.now.creations < 2 ^ 63 }
    ensures { HandlerMeets state.old state.new
        (create_acls_outcome state.old caller.now request.now)
        (alter_questions caller.now) [] result }
{
    let question = asks_cluster(alloc, caller, Operation::Alter)?;
    let creations = request.creations.as_slice();
    match ask_one(&state.policy, question) {
        Ok(permit) => {
            let paid = Paid::one(permit.spend(&state.policy));
            let results = create_all(alloc, &mut state.policy, creations)?;
            let reply = create_acls_reply(alloc, results)?;
            Ok(served_whole(alloc, reply, paid))
        }
        Err(refusal) => {
            let reply = created_none(alloc, &refusal, creations)?;
            refused_whole(alloc, reply, refusal)
        }
    }
}
