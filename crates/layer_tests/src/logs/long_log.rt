//! A log of a thousand batches, in which each offset is looked up.

use crate::logs::small_logs::{send, signed};
use crate::logs::{ONE, RICH};
use msg_data::Isolation;
use partition_log::{FetchFault, Log};
use std::alloc::Global;
use std::test::Fail;

/// How many pairs of batches the log has: one record, and three after it.
const PAIRS: i64 = 500;

/// A budget for one of the batches, and not for a whole pair.
const ROOM: u64 = 95;

/// A batch of three records, of no producer and no transaction.
fn three_records() -> [u8; 95] {
    let mut bytes = RICH;
    bytes[22] = 0;
    for place in 43..57 {
        bytes[place] = 255;
    }
    signed(bytes)
}

/// A log of a thousand batches with 2,000 records: by turns one of one record, and one of three. The test fails if one isn't
/// appended.
fn thousand(alloc: Global) -> Result<Log, Fail> {
    let mut log = Log::new(alloc);
    let three = three_records();
    for _ in 0..PAIRS {
        if !send(alloc, &mut log, &ONE)? || !send(alloc, &mut log, &three)? {
            return Err(Fail::from("not appended"));
        }
    }
    Ok(log)
}

/// Whether the batch that holds the offset is served alone, from its base offset on and with its size.
fn is_found(alloc: Global, log: &Log, offset: i64) -> bool {
    let (base, size) = match offset % 4 {
        0 => (offset, 69),
        after => (offset.saturating_sub(after).saturating_add(1), 95),
    };
    let Ok(served) = log.fetch(alloc, offset, Isolation::ReadUncommitted, ROOM, false) else {
        return false;
    };
    match served.batches.as_slice() {
        [batch] => batch.base_offset() == base && batch.len() == size,
        _ => false,
    }
}

/// No search among a thousand batches compares more than ten of them with the offset, and some search compares ten.
#[test]
fn a_search_among_a_thousand_batches_takes_ten_comparisons(rt: HostRuntime) -> Result<(), Fail> {
    let log = thousand(rt.alloc())?;
    let mut most = 0;
    for offset in -1..4 * PAIRS + 1 {
        let comparisons = log.comparisons_for(offset);
        assert!(rt; comparisons <= 10, "{offset}: {comparisons}");
        most = most.max(comparisons);
    }
    assert!(rt; most == 10);
    Ok(())
}

/// Each offset of a thousand batches is found, and the end, after which there is none.
#[test]
fn each_offset_of_a_thousand_batches_is_found(rt: HostRuntime) -> Result<(), Fail> {
    let log = thousand(rt.alloc())?;
    assert!(rt; log.len() == 1_000 && log.end() == 4 * PAIRS);
    for offset in 0..4 * PAIRS {
        assert!(rt; is_found(rt.alloc(), &log, offset), "{offset}");
    }
    let end = log.fetch(
        rt.alloc(),
        4 * PAIRS,
        Isolation::ReadUncommitted,
        ROOM,
        true,
    );
    assert!(rt; matches!(&end, Ok(served) if served.batches.is_empty()));
    let past = log.fetch(
        rt.alloc(),
        4 * PAIRS + 1,
        Isolation::ReadUncommitted,
        ROOM,
        true,
    );
    assert!(rt; matches!(&past, Err(FetchFault::OutOfRange)));
    Ok(())
}
