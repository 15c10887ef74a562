//! The results of requests that are one part, and so are served or refused whole, and of requests whose parts alone ask
//! permission.

ghost use Rattle.std.specs.Prelude.{◌≡◌, ◌∷◌, [], IfOk};

use crate::handler_result::HandlerResult;
use authorizer::{Paid, Refusal, Tally};
use msg_admin::Reply;
use std::alloc::{AllocError, Global};
use wire_types::Items;

/// The result of an event that is one part and was served, with the permits that were spent for it.
pub fn served_whole(alloc: Global, reply: Reply, paid: Paid) -> HandlerResult
    ensures { result ≡ record { reply = reply; refusals = []; paid = paid; spent = 0 } }
{
    HandlerResult {
        reply,
        refusals: Items::new(alloc),
        paid,
        spent: Tally::none(),
    }
}

/// The result of a request whose parts alone ask permission: the refusals of the refused parts, and how many permits were spent
/// for the others.
pub fn served_in_parts(reply: Reply, refusals: Items<Refusal>, spent: Tally) -> HandlerResult
    ensures { result ≡ record { reply = reply; refusals = refusals; paid = []; spent = spent } }
{
    HandlerResult {
        reply,
        refusals,
        paid: Paid::nothing(),
        spent,
    }
}

/// The result of a request that is one part and was refused: no permit is spent. An `AllocError` is an allocation failure.
pub fn refused_whole(
    alloc: Global,
    reply: Reply,
    refusal: Refusal,
) -> Result<HandlerResult, AllocError>
    ensures { IfOk result
        (λ o. o ≡ record { reply = reply; refusals = refusal ∷ []; paid = []; spent = 0 }) }
{
    let mut refusals = Items::new(alloc);
    refusals.push(refusal)?;
    Ok(served_in_parts(reply, refusals, Tally::none()))
}
