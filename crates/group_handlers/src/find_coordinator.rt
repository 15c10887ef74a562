//! FindCoordinator: the one node coordinates everything.

ghost use Rattle.std.specs.Prelude.{[], ◌≡◌, IfOk};
ghost use Rattle.broker_world.specs.HandlerResult.{HandlerMeets};
ghost use Rattle.group_handlers.specs.FindCoordinator.{kind_of, find_questions, found_node, find_error, find_coordinator_outcome};

use acl_binding::{Caller, Kind, Operation};
use authorizer::{Paid, ask_one};
use broker_world::{HandlerResult, Node, State, refused_whole, served_whole};
use msg_admin::Reply;
use msg_txn::{FindCoordinatorReply, FindCoordinatorRequest};
use std::alloc::{AllocError, Global};
use walk::refusal_code;
use wire_types::{Boxed, ErrorCode, Text};

/// The kind of resource that a key type of FindCoordinator stands for: 0 for a group, 1 for a transactional id, `None` for any
/// other.
fn kind_of(key_type: i8) -> Option<Kind>
    ensures { result ≡ kind_of key_type }
{
    match key_type {
        0 => Some(Kind::Group),
        1 => Some(Kind::TransactionalId),
        _ => None,
    }
}

/// The FindCoordinator reply that names this node as the coordinator.
fn found_node(alloc: Global, node: &Node) -> Result<Reply, AllocError>
    ensures { IfOk result (λ reply. reply ≡ Reply.FindCoordinator (found_node node.now)) }
{
    let reply = FindCoordinatorReply {
        throttle: 0,
        error: ErrorCode::None,
        message: None,
        node: node.node_id,
        host: node.host.clone()?,
        port: node.port,
    };
    Ok(Reply::FindCoordinator(Boxed::new(alloc, reply)?))
}

/// The FindCoordinator reply with this error code, and no node.
fn find_error(alloc: Global, error: ErrorCode) -> Result<Reply, AllocError>
    ensures { IfOk result (λ reply. reply ≡ Reply.FindCoordinator (find_error error)) }
{
    let reply = FindCoordinatorReply {
        throttle: 0,
        error,
        message: None,
        node: -1,
        host: Text::of(alloc, "")?,
        port: -1,
    };
    Ok(Reply::FindCoordinator(Boxed::new(alloc, reply)?))
}

/// Handles a FindCoordinator: names this broker's only node if the caller may DESCRIBE the group or transactional id, whether
/// or not it exists. Else answers GROUP_ or TRANSACTIONAL_ID_AUTHORIZATION_FAILED, or INVALID_REQUEST for an unknown key type,
/// which asks no permission.
pub fn answer_find_coordinator(
    alloc: Global,
    state: &State,
    caller: &Caller,
    request: &FindCoordinatorRequest,
) -> Result<HandlerResult, AllocError>
    ensures { HandlerMeets state.now state.now
        (find_coordinator_outcome state.now caller.now request.now)
        (find_questions caller.now (kind_of request.now.key_type) request.now.key) [] result }
{
    let Some(kind) = kind_of(request.key_type) else {
        let reply = find_error(alloc, ErrorCode::InvalidRequest)?;
        return Ok(served_whole(alloc, reply, Paid::nothing()));
    };
    let question = caller.asks(Operation::Describe, kind, &request.key)?;
    let policy = state.policy();
    match ask_one(policy, question) {
        Ok(permit) => {
            let paid = Paid::one(permit.spend(policy));
            Ok(served_whole(alloc, found_node(alloc, state.node())?, paid))
        }
        Err(refusal) => {
            let reply = find_error(alloc, refusal_code(&refusal))?;
            refused_whole(alloc, reply, refusal)
        }
    }
}
