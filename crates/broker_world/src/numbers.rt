//! Numbers that aren't negative.

ghost use Rattle.std.specs.Prelude.{◌≡◌};
ghost use Rattle.broker_world.specs.First.{non_negative};

/// The number, or 0 if it is negative.
pub fn non_negative(number: i32) -> u32
    ensures { result ≡ non_negative number }
{
    if number < 0 { 0 } else { number as u32 }
}
