//! Which receipts settle a core's books, and which don't.

ghost use Rattle.std.specs.Prelude.{◌≡◌, ◌+◌, []};
ghost use Rattle.request_handlers.specs.Seats.{most_seats};

use audit_trail::Event;
use request_handlers::{Core, MOST_SEATS, Receipt, Stop};
use session_pool::{Desk, DeskLedger, LockedDesk, Quiet};
use session_workers::{SettleFault, Settled, settle};
use std::alloc::Global;
use std::marker::Brand;
use std::sync::Wait;
use std::sync::ledger::{Blank, Ledger};
use std::test::Fail;
use test_frames::{ONE_REFUSED, TWO_REFUSED, core as equal_core, event_of, other_core};

/// The receipts of two seats, and the core that gave them.
#[derive(Drop)]
struct Books<L: Ledger> {
    quiet: Quiet<L>,
    one: Vec<Receipt>,
    two: Vec<Receipt>,
}

/// The receipts of two events in a list; an error where one of them was stopped, or after an allocation failure.
fn receipts_of(
    alloc: Global,
    first: Result<Receipt, Stop>,
    second: Result<Receipt, Stop>,
) -> Result<Vec<Receipt>, Fail> {
    match (first, second) {
        (Ok(first), Ok(second)) => Ok(vec![in alloc; first, second]?),
        _ => Err(Fail::from("receipts")),
    }
}

/// Two seats of a desk take turns: ann asks by the one for topics, of which three in all are refused, and the clock ticks by the
/// other. Gives the receipts of both, and the core.
fn keep_books<L: DeskLedger, R: Wait + Drop>(
    rt: R,
    alloc: Global,
    core: Core,
    blank: Blank,
) -> Result<Books<L>, Fail>
    requires settings { core.settings ≡ L.settings }
    requires empty { core.trail ≡ [] }
    requires ledger { (blank.name ≡ L.name) × (blank.parts ≡ L.parts)
        × (blank.parts ≡ most_seats + 1) }
{
    let asked = event_of(alloc, TWO_REFUSED).ok_or("event")?;
    let asked_more = event_of(alloc, ONE_REFUSED).ok_or("event")?;
    let desk: LockedDesk<L, R> = LockedDesk::new(core, blank, rt);
    let (Some(one), Some(two)) = (desk.seat(), desk.seat()) else {
        return Err(Fail::from("seats"));
    };
    let (one, first) = desk.submit(one, asked);
    let (two, second) = desk.submit(two, Event::Tick(5));
    let (_, third) = desk.submit(one, asked_more);
    let (_, fourth) = desk.submit(two, Event::Tick(6));
    let quiet = desk.close();
    Ok(Books {
        quiet,
        one: receipts_of(alloc, first, third)?,
        two: receipts_of(alloc, second, fourth)?,
    })
}

/// What `settle` says of the receipts of both seats, of the first alone, of both with those of an equal desk, and of all these
/// with those of another desk.
#[derive(Clone, Copy, Debug, PartialEq, Eq)]
struct Settling {
    of_both: Result<Settled, SettleFault>,
    of_one: Result<Settled, SettleFault>,
    with_an_equal_desk: Result<Settled, SettleFault>,
    with_another_desk: Result<Settled, SettleFault>,
}

/// The receipts of the first seat, after all events of `keep_books` at a desk.
fn first_receipts_at<L: DeskLedger, R: Wait + Drop>(
    rt: R,
    alloc: Global,
    core: Core,
    blank: Blank,
) -> Result<Vec<Receipt>, Fail>
    requires settings { core.settings ≡ L.settings }
    requires empty { core.trail ≡ [] }
    requires ledger { (blank.name ≡ L.name) × (blank.parts ≡ L.parts)
        × (blank.parts ≡ most_seats + 1) }
{
    let Books { one, .. } = keep_books::<L, R>(rt, alloc, core, blank)?;
    Ok(one)
}

/// As `first_receipts_at`, with a ledger of its own.
fn first_receipts<R: Wait + Drop>(rt: R, alloc: Global, core: Core) -> Result<Vec<Receipt>, Fail>
    requires { core.trail ≡ [] }
{
    first_receipts_at::<Brand, R>(rt, alloc, core, Blank::new(MOST_SEATS + 1))
}

/// Settles the books of a desk with each of four lists of receipts, the right one and three wrong ones.
fn settle_each_at<L: DeskLedger, R: Wait + Drop + Copy>(
    rt: R,
    alloc: Global,
    core: Core,
    blank: Blank,
) -> Result<Settling, Fail>
    requires settings { core.settings ≡ L.settings }
    requires empty { core.trail ≡ [] }
    requires ledger { (blank.name ≡ L.name) × (blank.parts ≡ L.parts)
        × (blank.parts ≡ most_seats + 1) }
{
    let equal = first_receipts(rt, alloc, equal_core(alloc).ok_or("core")?)?;
    let another = first_receipts(rt, alloc, other_core(alloc).ok_or("core")?)?;
    let Books { quiet, one, two } = keep_books::<L, R>(rt, alloc, core, blank)?;
    let ends = vec![in alloc; one, two, equal, another]?;
    Ok(Settling {
        of_one: settle(alloc, &quiet, &ends[..1]),
        of_both: settle(alloc, &quiet, &ends[..2]),
        with_an_equal_desk: settle(alloc, &quiet, &ends[..3]),
        with_another_desk: settle(alloc, &quiet, ends.as_slice()),
    })
}

/// As `settle_each_at`, at a desk of its own.
fn settle_each<R: Wait + Drop + Copy>(rt: R, alloc: Global) -> Result<Settling, Fail> {
    let core = equal_core(alloc).ok_or("core")?;
    settle_each_at::<Brand, R>(rt, alloc, core, Blank::new(MOST_SEATS + 1))
}

/// The books are settled by the receipts of both ends. With one end alone receipts are `Missing`, with those of an equal desk a
/// place is held `Twice`, and those of another desk are `Stray`.
#[test]
fn receipts_of_two_ends(rt: HostRuntime) -> Result<(), Fail> {
    let told = settle_each(rt, rt.alloc())?;
    let settled = Settled {
        events: 4,
        refusals: 3,
    };
    assert!(rt; told.of_both == Ok(settled));
    assert!(rt; told.of_one == Err(SettleFault::Missing));
    assert!(rt; told.with_an_equal_desk == Err(SettleFault::Twice));
    assert!(rt; told.with_another_desk == Err(SettleFault::Stray));
    Ok(())
}
