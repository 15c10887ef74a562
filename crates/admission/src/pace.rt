//! How fast users ask: each request costs a part of a second, which passing time pays for.

ghost use Rattle.std.specs.Prelude.{◌≡◌, ℕ, List, IfOk, OnOk, OnErr};
ghost use Rattle.admission.specs.Pace.{HasPaid, cost, is_any, paid_after, paid_until, price, wait};

use indexmap::IndexMap;
use std::alloc::{AllocError, Global};
use std::marker::Model;
use wire_types::Text;

/// How many requests each user may send in a second, and how many bytes of requests and answers; `None` for any number. A rate of
/// 0 counts as one of 1.
#[derive(Clone, Copy, Debug, PartialEq, Eq)]
pub struct Rate {
    pub requests: Option<u64>,
    pub bytes: Option<u64>,
}

/// What a user is charged for with a request.
#[derive(Clone, Copy, Debug, PartialEq, Eq)]
pub struct Load {
    /// The events that a trail keeps for it: its own, and the marker that each partition of a transaction comes to.
    pub events: u64,
    /// The bytes that were read and written for it.
    pub bytes: u64,
}

/// The nanoseconds of a second.
const SECOND: u64 = 1_000_000_000;

/// How many nanoseconds `things` requests or bytes cost at a rate of so many a second, rounded down, at most `u64::MAX`; 0
/// without a rate.
fn cost(rate: Option<u64>, things: u64) -> u64
    ensures { result ≡ cost rate things }
{
    let Some(rate) = rate else {
        return 0;
    };
    let nanoseconds = u128::from(things) * u128::from(SECOND) / u128::from(rate.max(1));
    u64::try_from(nanoseconds).unwrap_or(u64::MAX)
}

/// How many nanoseconds a user must wait at `now` that has paid until `paid`: by how much `paid` lies more than a second ahead.
/// So a user may send a second's requests at once.
fn wait(paid: u64, now: u64) -> u64
    ensures { result ≡ wait paid now }
{
    paid.saturating_sub(now.saturating_add(SECOND))
}

impl Rate {
    /// Any number of requests, of any number of bytes.
    pub const ANY: Rate = Rate {
        requests: None,
        bytes: None,
    };

    /// Whether there is no limit, neither to requests nor to bytes.
    pub fn is_any(&self) -> bool
        ensures { result ≡ is_any self.now }
    {
        self.requests.is_none() && self.bytes.is_none()
    }

    /// What a request of this load costs, in nanoseconds: its cost by the requests' rate, each event as one of them, or by the
    /// bytes', whichever is more.
    fn price(&self, load: Load) -> u64
        ensures { result ≡ price self.now load }
    {
        cost(self.requests, load.events).max(cost(self.bytes, load.bytes))
    }

    /// Until which moment a user has paid that had paid until `paid`, and sends a request of this load at `now`: the request's
    /// price is added to the later of the two. Moments are nanoseconds, and end at `u64::MAX`.
    fn paid_after(&self, paid: u64, now: u64, load: Load) -> u64
        ensures { result ≡ paid_after self.now paid now load }
    {
        paid.max(now).saturating_add(self.price(load))
    }
}

/// The rate, and until which moment, in nanoseconds, each user has paid for what it asked; 0 for one that hasn't asked.
pub struct Pace {
    rate: Rate,
    table: IndexMap<String, u64>,
}

impl Model for Pace {
    ghost use Rattle.admission.specs.Pace.{PaceValue};
    ghost use Rattle.admission.specs.Quota.{counts_of};

    ghost Value = { PaceValue };

    ghost view = { λ p. record { rate = p.rate; paid = counts_of p.table.entries } };
}

impl Drop for Pace {
    fn drop(self) {
        let Pace {
            rate: _rate,
            table: _table,
        } = self;
    }
}

impl Pace {
    /// A pace of this rate, by which nobody has asked yet. Nothing is allocated.
    pub fn new(alloc: Global, rate: Rate) -> Pace
        ensures rate { result.rate ≡ rate }
        ensures none { (user : List ℕ) → paid_until result user ≡ 0 }
    {
        Pace {
            rate,
            table: IndexMap::new(alloc),
        }
    }

    /// Until which moment a user has paid, in nanoseconds; 0 for one that hasn't asked.
    fn paid(&self, user: &Text) -> u64
        ensures { result ≡ paid_until self.now user.now }
    {
        match self.table.get(user.as_str()) {
            Some(paid) => *paid,
            None => 0,
        }
    }

    /// Charges a user for a request of this load, answered at `now` in nanoseconds, and gives for how many nanoseconds the user
    /// must wait before the next one is read. An allocation failure charges nothing.
    pub fn charge(
        &mut self,
        alloc: Global,
        user: &Text,
        now: u64,
        load: Load,
    ) -> Result<u64, AllocError>
        ensures wait { IfOk result
            (λ nanoseconds. nanoseconds
            ≡ wait (paid_after self.old.rate (paid_until self.old user.now) now load) now) }
        ensures paid { OnOk result
            (HasPaid self.old self.new user.now
            (paid_after self.old.rate (paid_until self.old user.now) now load)) }
        ensures err { OnErr result (self.new ≡ self.old) }
    {
        let paid = self.rate.paid_after(self.paid(user), now, load);
        self.table.insert(user.to_owned(alloc)?, paid)?;
        Ok(wait(paid, now))
    }
}
