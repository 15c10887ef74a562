//! Sequence numbers, which begin at 0 again after 2^31 - 1.

ghost use Rattle.std.specs.Prelude.{◌≡◌};
ghost use Rattle.producer_state.specs.Sequences.{next_sequence, last_sequence};

/// How many sequence numbers there are.
const SEQUENCES: i64 = 2_147_483_648;

/// The sequence number after `count` records, of which the first has the number `first`. It goes on from 2^31 - 1 to 0.
#[tactic(auto, unfolding(crate::specs::Sequences::next_sequence))]
pub fn next_sequence(first: i32, count: i32) -> i32
    ensures { result ≡ next_sequence first count }
{
    (i64::from(first) + i64::from(count)).rem_euclid(SEQUENCES) as i32
}

/// The sequence number of the last of `count` records, of which the first has the number `first`. It goes on from 2^31 - 1 to 0.
#[tactic(auto, unfolding(crate::specs::Sequences::last_sequence))]
pub fn last_sequence(first: i32, count: i32) -> i32
    ensures { result ≡ last_sequence first count }
{
    (i64::from(first) + (i64::from(count) - 1)).rem_euclid(SEQUENCES) as i32
}
