//! The ends of sessions, and the seats that come back.

ghost use Rattle.std.specs.Prelude.{◌≡◌, ◌↔◌, ◌+◌, ◌++◌, vec_len, All, IfOk, IsSome};
ghost use Rattle.session_workers.specs.Ends.{HasRisen, HasReceipt, AddsSession};

use request_handlers::Seat;
use session_pool::SessionEnd;
use std::alloc::{AllocError, Global};
use std::sync::ledger::Ledger;

/// A seat by which no event was answered, so that another session may have it.
#[derive(Drop)]
pub(crate) struct Unused<L: Ledger> {
    pub(crate) seat: Seat<L>,
    pub(crate) ghost unused: { seat.count ≡ 0 },
}

/// The end of a session whose seat was unused.
#[derive(Drop)]
pub(crate) struct Done<L: Ledger> {
    pub(crate) end: SessionEnd<Seat<L>>,
    pub(crate) ghost risen: { HasRisen end },
}

/// What is left of all sessions and the keeper.
#[derive(Drop)]
pub struct Ended<L: Ledger> {
    /// The ends of those sessions that have a receipt, and after them the keeper's.
    pub ends: Vec<SessionEnd<Seat<L>>>,
    /// How many sessions more ended, without a receipt.
    pub others: u64,
}

/// What is left of sessions: the ends of those with a receipt (`kept`), and how many others ended.
#[derive(Drop)]
pub(crate) struct Sessions<L: Ledger> {
    pub(crate) kept: Vec<SessionEnd<Seat<L>>>,
    pub(crate) others: u64,
    pub(crate) ghost risen: { All HasRisen kept.items },
    pub(crate) ghost asked: { All HasReceipt kept.items },
}

impl<L: Ledger> Sessions<L> {
    /// No session yet: no end is kept, and no other session is counted.
    pub(crate) fn new(alloc: Global) -> Sessions<L> {
        Sessions {
            kept: Vec::new(alloc),
            others: 0,
        }
    }

    /// Counts one ended session more. Its end is kept where it has a receipt; else its seat comes back, for the next session. The
    /// error is an allocation failure, or that 64 bits don't count the sessions; what was kept is then given up.
    pub(crate) fn add(self, done: Done<L>) -> Result<(Sessions<L>, Option<Unused<L>>), AllocError>
        ensures added { IfOk result
            (λ r. AddsSession self.kept.items r.0.kept.items self.others r.0.others done.end) }
        ensures back { IfOk result (λ r. IsSome r.1 ↔ (vec_len done.end.receipts ≡ 0)) }
    {
        let Sessions { mut kept, others } = self;
        let Done { end } = done;
        if end.receipts.is_empty() {
            let others = others.checked_add(1).ok_or(AllocError)?;
            let SessionEnd { seat, .. } = end;
            return Ok((Sessions { kept, others }, Some(Unused { seat })));
        }
        kept.push(end)?;
        Ok((Sessions { kept, others }, None))
    }

    /// These sessions, and then those of another worker. The error is an allocation failure, or that 64 bits don't count them;
    /// both are then given up.
    pub(crate) fn join(self, more: Sessions<L>) -> Result<Sessions<L>, AllocError>
        ensures kept { IfOk result (λ all. all.kept.items ≡ self.kept.items ++ more.kept.items) }
        ensures others { IfOk result (λ all. all.others ≡ self.others + more.others) }
    {
        let Sessions { mut kept, others } = self;
        let Sessions {
            kept: mut added,
            others: added_others,
        } = more;
        let others = others.checked_add(added_others).ok_or(AllocError)?;
        kept.append(&mut added)?;
        Ok(Sessions { kept, others })
    }
}
