//! The keeper, which submits ticks and marks.

ghost use Rattle.std.specs.Prelude.{◌≡◌, ◌+◌, vec_len};
ghost use Rattle.session_pool.specs.Steps.{step_event};
ghost use Rattle.session_workers.specs.Ends.{Adds, Ran, markers_left, why_of};

use audit_trail::Event;
use msg_admin::Reply;
use request_handlers::{Receipt, Seat};
use session_pool::{DeskLedger, EndReason, LockedDesk, SessionEnd, Step, Steps};
use std::alloc::Global;
use std::sync::Wait;
use std::sync::atomic::{AtomicU64, Ordering};

/// How many markers are pending, as the reply to a tick or a mark says; 0 for any other reply.
fn markers_left(reply: &Reply) -> u64
    ensures { result ≡ markers_left reply.now }
{
    match reply {
        Reply::Marked { left } | Reply::Ticked { left } => *left,
        _ => 0,
    }
}

/// The event of a step: a tick or a mark.
fn event_of(step: Step) -> Event
    ensures { result ≡ step_event step }
{
    match step {
        Step::Tick(moment) => Event::Tick(moment),
        Step::Mark => Event::Mark,
    }
}

/// Hands the event of a step to the desk, which shows the core to `steps` before and after it, keeps its receipt, for which
/// memory is taken first, and gives how many markers are still pending. The error is `NoMemory` before anything was handed in, or
/// `Stopped`.
#[tactic(auto, using(crate::proofs::Keeping::one_more))]
fn submit<L: DeskLedger, R: Wait, K: Steps>(
    desk: &LockedDesk<L, R>,
    seat: Seat<L>,
    step: Step,
    steps: &mut K,
    receipts: &mut Vec<Receipt>,
) -> (Seat<L>, Result<u64, EndReason>)
    ensures risen { result.0.count + vec_len receipts.old ≡ seat.count + vec_len receipts.new }
    ensures added { Adds step receipts.old.items receipts.new.items result.1 }
    ensures state { K.state steps.new ≡ K.state steps.old }
{
    if receipts.reserve(1).is_err() {
        return (seat, Err(EndReason::NoMemory));
    }
    let (seat, answer) = desk.submit_seen(seat, event_of(step), steps);
    match answer {
        Ok(receipt) => {
            let left = markers_left(receipt.reply());
            receipts.push_reserved(receipt);
            (seat, Ok(left))
        }
        Err(stop) => (seat, Err(EndReason::Stopped(stop))),
    }
}

/// Why the keeper ends where `steps` has it end after a step with this outcome: `Closed`, or why the step wasn't taken.
fn why_of(outcome: Result<u64, EndReason>) -> EndReason
    ensures { result ≡ why_of outcome }
{
    match outcome {
        Ok(_) => EndReason::Closed,
        Err(why) => why,
    }
}

/// Hands the event of each step to the desk, one after the other, until there is no next step or `steps` has the keeper end.
/// `running` is how many workers haven't ended. Gives the keeper's receipts, its seat, and why it ended: why a step wasn't
/// taken, where `steps` has the keeper end on that, else `Closed`.
#[tactic(auto, using(crate::proofs::Keeping::begun))]
pub(crate) fn keep<L: DeskLedger, R: Wait, K: Steps, T: Wait>(
    rt: &T,
    alloc: Global,
    desk: &LockedDesk<L, R>,
    seat: Seat<L>,
    steps: &mut K,
    running: &AtomicU64,
) -> SessionEnd<Seat<L>>
    ensures risen { result.seat.count ≡ seat.count + vec_len result.receipts }
    ensures ran { Ran K.gives K.told K.halts (K.state steps.old) result.receipts.items result.why }
{
    let mut seat = seat;
    let mut receipts = Vec::new(alloc);
    for _ in rt.forever() {
        let done = running.load(Ordering::SeqCst) == 0;
        let Some(step) = steps.next(done) else {
            break;
        };
        let (back, outcome) = submit(desk, seat, step, steps, &mut receipts);
        seat = back;
        if !steps.on_result(outcome) {
            return SessionEnd {
                receipts,
                seat,
                why: why_of(outcome),
            };
        }
    }
    SessionEnd {
        receipts,
        seat,
        why: EndReason::Closed,
    }
}
