//! How many permits were spent.

ghost use Rattle.std.specs.Prelude.{◌≡◌, []};
ghost use Rattle.std.specs.List.{cons_option};
ghost use Rattle.authorizer.specs.Tally.{count_after};

use crate::paid::Paid;
use crate::permit::Spent;
use std::marker::Model;

/// The number of permits that were spent. It can't be copied. Only the evidence of spent permits raises it, and is used up
/// with that, so that each counts once. It stops at `u64::MAX`.
#[derive(Drop)]
pub struct Tally {
    spent: u64,
}

impl Model for Tally {
    ghost use Rattle.std.specs.Prelude.{ℕ};

    ghost Value = { ℕ };

    ghost view = { λ t. t.spent };
}

impl Tally {
    /// A tally of no permits.
    pub fn none() -> Tally
        ensures { result ≡ 0 }
    {
        Tally { spent: 0 }
    }

    /// Counts the permits that were spent for a part of a request: none to three.
    pub fn add(&mut self, paid: Paid)
        ensures { self.new ≡ count_after self.old paid }
    {
        self.count(&paid.first);
        self.count(&paid.second);
        self.count(&paid.third);
    }

    /// Counts one more permit if there is one and the count is below the greatest `u64`.
    fn count(&mut self, spent: &Option<Spent>)
        ensures { self.new ≡ count_after self.old (cons_option spent.now []) }
    {
        if spent.is_some() && self.spent < u64::MAX {
            self.spent += 1;
        }
    }
}
