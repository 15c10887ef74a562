//! How many bytes are left of a budget after what is to be written: a message's size is found without writing it.

ghost use Rattle.std.specs.Prelude.{◌≡◌, ◌+◌, ◌<◌, ◌^◌, true, None, Some};
ghost use Rattle.wire_types.specs.Spelling.{left_after};

/// Subtracts `size` from `budget`, both in bytes; None where `budget` is less than `size`.
#[tactic(auto, unfolding(crate::specs::Spelling::left_after))]
pub fn deduct(size: usize, budget: usize) -> Option<usize>
    ensures { result ≡ left_after true size budget }
{
    if size <= budget {
        Some(budget - size)
    } else {
        None
    }
}
