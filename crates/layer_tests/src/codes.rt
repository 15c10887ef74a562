//! Error codes and their numbers.

use wire_types::ErrorCode;

/// An error code has the number of the protocol guide, and is found by it; a number that `ErrorCode` doesn't have, such as 4,
/// gives `None`.
#[test]
fn code_numbers(rt: HostRuntime) {
    assert_eq!(rt; ErrorCode::ProducerFenced.number(), 90);
    for (number, code) in [
        (0, Some(ErrorCode::None)),
        (3, Some(ErrorCode::UnknownTopicOrPartition)),
        (4, None),
        (-1, None),
    ] {
        assert_eq!(rt; ErrorCode::of_number(number), code);
    }
}
