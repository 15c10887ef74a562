//! Sequence numbers that wrap, which no script of `tests/` comes to.

use producer_state::{last_sequence, next_sequence};

/// Sequence numbers go on at 0 after 2,147,483,647.
#[test]
fn sequences_wrap(rt: HostRuntime) {
    assert_eq!(rt; next_sequence(2_147_483_647, 1), 0);
    assert_eq!(rt; next_sequence(2_147_483_646, 3), 1);
    assert_eq!(rt; last_sequence(2_147_483_646, 3), 0);
}
