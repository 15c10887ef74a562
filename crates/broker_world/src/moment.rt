//! The broker's clock.

ghost use Rattle.std.specs.Prelude.{◌≡◌, ◌≤◌};
ghost use Rattle.broker_world.specs.Clock.{last_moment, moment_after};

use std::marker::Model;

/// The last moment, in milliseconds: 2^62 - 1.
const LAST_MOMENT: u64 = 4_611_686_018_427_387_903;

/// The moment that the broker's clock shows, in milliseconds. It begins at 0, only ticks move it on, it never goes back, and it
/// stops at 2^62 - 1.
#[derive(Drop)]
pub struct Moment {
    milliseconds: u64,
}

impl Model for Moment {
    ghost use Rattle.std.specs.Prelude.{ℕ, ◌≤◌};
    ghost use Rattle.broker_world.specs.Clock.{last_moment};

    ghost Value = { ℕ };

    ghost view = { λ m. m.milliseconds };

    ghost invariant = { λ m. m.milliseconds ≤ last_moment };
}

impl Moment {
    /// The moment of a clock that hasn't ticked yet: 0.
    pub(crate) fn first() -> Moment
        ensures { result ≡ 0 }
    {
        Moment { milliseconds: 0 }
    }

    /// The moment in milliseconds, 0 to 2^62 - 1.
    pub fn milliseconds(&self) -> u64
        ensures value { result ≡ self.now }
        ensures within { result ≤ last_moment }
    {
        self.milliseconds
    }

    /// Moves on to the time `told` of a tick, in milliseconds. An earlier time changes nothing, and a later one than 2^62 - 1
    /// counts as that.
    pub fn go_on(&mut self, told: u64)
        ensures { self.new ≡ moment_after self.old told }
    {
        self.milliseconds = self.milliseconds.max(told.min(LAST_MOMENT));
    }
}
