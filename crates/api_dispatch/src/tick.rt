//! A tick of the clock: the moment goes on, members whose session timed out are removed, and transactions that timed out are
//! aborted.

ghost use Rattle.std.specs.Prelude.{[]};
ghost use Rattle.broker_world.specs.HandlerResult.{HandlerMeets};
ghost use Rattle.api_dispatch.specs.Ticks.{tick_outcome};

use authorizer::Paid;
use broker_world::{HandlerResult, State, served_whole};
use msg_admin::Reply;
use std::alloc::{AllocError, Global};

/// Handles a tick of the clock, which shows `told`, in milliseconds. Moves the broker's clock on, but never back, removes
/// members whose session timed out, and aborts transactions that timed out. The reply has the number of pending markers. After
/// an allocation failure the clock has moved and members may be removed, but no transaction is aborted.
pub(crate) fn answer_tick(
    alloc: Global,
    state: &mut State,
    told: u64,
) -> Result<HandlerResult, AllocError>
    ensures { HandlerMeets state.old state.new (tick_outcome state.old told) [] [] result }
{
    state.moment.go_on(told);
    let moment = state.moment.milliseconds();
    state.groups.expire(moment);
    state.coordinator.expire(alloc, moment)?;
    let left = state.coordinator.owed() as u64;
    Ok(served_whole(alloc, Reply::Ticked { left }, Paid::nothing()))
}
