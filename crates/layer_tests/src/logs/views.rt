//! What a consumer with read_committed shows of logs that are worked out by hand.

use crate::logs::small_logs::{mark, send};
use msg_data::{AbortedTransaction, Isolation};
use partition_log::{FetchFault, Log, Served, consumer_view};
use record_batch::{RecordAt, TransactionResult};
use std::alloc::Global;
use std::test::Fail;
use wire_types::Items;

// Records `a`, `b` and `c` of a transaction of producer 0, from its sequence number 0 on.
const THREE: &str =
    "00000000000000000000004900000000020aed2022001000000002000000000000000000000000000000000000000000\
    000000000000000000000000030e000000010261000e000002010262000e00000401026300";

// Its records `d` and `e`.
const TWO: &str =
    "00000000000000000000004100000000026cd2d70b001000000001000000000000000000000000000000000000000000\
    000000000000000003000000020e000000010264000e00000201026500";

// Its records `f` and `g`.
const TWO_MORE: &str =
    "0000000000000000000000410000000002f6ea6a30001000000001000000000000000000000000000000000000000000\
    000000000000000005000000020e000000010266000e00000201026700";

// The record `a` of a transaction of producer 0, and `b` of one of producer 1, each of sequence number 0.
const OF_FIRST: &str =
    "0000000000000000000000390000000002cbc97bc8001000000000000000000000000000000000000000000000000000\
    000000000000000000000000010e00000001026100";

const OF_SECOND: &str =
    "000000000000000000000039000000000246159fb6001000000000000000000000000000000000000000000000000000\
    000001000000000000000000010e00000001026200";

/// A budget for each batch of these logs.
const AMPLE: u64 = 10_000;

/// Appends a batch that is given in hexadecimal digits; the test fails if it can't be appended.
fn append(alloc: Global, log: &mut Log, digits: &str) -> Result<(), Fail> {
    let bytes = hex::decode(alloc, digits)?;
    if send(alloc, log, bytes.as_slice())? {
        Ok(())
    } else {
        Err(Fail::from("not appended"))
    }
}

/// Appends the marker that ends a producer's transaction; the test fails if it can't be appended.
fn end(alloc: Global, log: &mut Log, outcome: TransactionResult, producer: u8) -> Result<(), Fail> {
    if mark(alloc, log, outcome, producer)? {
        Ok(())
    } else {
        Err(Fail::from("no marker"))
    }
}

/// A log in which producer 0 writes 0 to 2 and aborts, with its marker at 3, and writes 4 to 5 and commits, with its marker at 6.
fn aborted_and_committed(alloc: Global) -> Result<Log, Fail> {
    let mut log = Log::new(alloc);
    append(alloc, &mut log, THREE)?;
    end(alloc, &mut log, TransactionResult::Abort, 0)?;
    append(alloc, &mut log, TWO)?;
    end(alloc, &mut log, TransactionResult::Commit, 0)?;
    Ok(log)
}

/// What a read_committed fetch serves, and what a consumer shows of it.
#[derive(Drop)]
struct Seen {
    served: Served,
    shown: Items<RecordAt>,
}

impl Seen {
    /// Whether so many batches are served, with the aborted transactions of these producers that begin at these offsets.
    fn serves(&self, batches: usize, aborted: &[(i64, i64)]) -> bool {
        self.served.batches.len() == batches && are(self.served.aborted.as_slice(), aborted)
    }

    /// Whether the records at these offsets with these values of one byte are shown, and no others.
    fn shows(&self, records: &[(i64, u8)]) -> bool {
        self.shown.len() == records.len()
            && self.shown.iter().zip(records).all(|(shown, (offset, value))| shown.offset == *offset
                && is(shown, *value))
    }
}

/// Whether the list tells these producers' aborted transactions, and where they begin.
fn are(list: &[AbortedTransaction], wanted: &[(i64, i64)]) -> bool {
    list.len() == wanted.len()
        && list.iter().zip(wanted).all(|(entry, (producer, first))| {
            entry.producer == *producer && entry.first_offset == *first
        })
}

/// Whether the record's value is this byte.
fn is(record: &RecordAt, value: u8) -> bool {
    match &record.rec.value {
        Some(bytes) => bytes.as_slice() == [value].as_slice(),
        None => false,
    }
}

/// What a read_committed fetch from an offset on serves, and what a consumer shows of it; the test fails if the fetch has an
/// error.
fn look(alloc: Global, log: &Log, offset: i64, budget: u64, forced: bool) -> Result<Seen, Fail> {
    match log.fetch(alloc, offset, Isolation::ReadCommitted, budget, forced) {
        Ok(served) => {
            let shown = consumer_view(alloc, &served, offset)?;
            Ok(Seen { served, shown })
        }
        Err(_) => Err(Fail::from("not served")),
    }
}

/// A consumer is shown the committed records alone, from each offset on, and is told of the aborted transaction where it reaches
/// into what is served.
#[test]
fn committed_records_alone_are_shown(rt: HostRuntime) -> Result<(), Fail> {
    let log = aborted_and_committed(rt.alloc())?;
    let committed = [(4, b'd'), (5, b'e')].as_slice();
    let from_one = look(rt.alloc(), &log, 1, AMPLE, false)?;
    assert!(rt; from_one.serves(4, &[(0, 0)]) && from_one.shows(committed));
    let from_three = look(rt.alloc(), &log, 3, AMPLE, false)?;
    assert!(rt; from_three.serves(3, &[(0, 0)]) && from_three.shows(committed));
    let from_four = look(rt.alloc(), &log, 4, AMPLE, false)?;
    assert!(rt; from_four.serves(2, &[]) && from_four.shows(committed));
    Ok(())
}

/// Nothing is shown of an aborted transaction, also where its batch is forced, nothing is served of an open one, and after the
/// end nothing can be.
#[test]
fn nothing_of_an_aborted_or_an_open_transaction_is_shown(rt: HostRuntime) -> Result<(), Fail> {
    let mut log = aborted_and_committed(rt.alloc())?;
    let forced = look(rt.alloc(), &log, 1, 1, true)?;
    assert!(rt; forced.serves(1, &[(0, 0)]) && forced.shows(&[]));
    append(rt.alloc(), &mut log, TWO_MORE)?;
    let open = look(rt.alloc(), &log, 7, AMPLE, true)?;
    assert!(rt; open.serves(0, &[]) && open.shows(&[]));
    assert!(rt; open.served.stable == 7 && open.served.high == 9);
    let past = log.fetch(rt.alloc(), 10, Isolation::ReadCommitted, AMPLE, true);
    assert!(rt; matches!(&past, Err(FetchFault::OutOfRange)));
    Ok(())
}

/// Of two transactions of which the second aborts first, both are told in the order of their markers, and from the last marker on
/// the first alone.
#[test]
fn two_aborted_transactions_show_nothing(rt: HostRuntime) -> Result<(), Fail> {
    let mut log = Log::new(rt.alloc());
    append(rt.alloc(), &mut log, OF_FIRST)?;
    append(rt.alloc(), &mut log, OF_SECOND)?;
    end(rt.alloc(), &mut log, TransactionResult::Abort, 1)?;
    end(rt.alloc(), &mut log, TransactionResult::Abort, 0)?;
    let whole = look(rt.alloc(), &log, 0, AMPLE, false)?;
    assert!(rt; whole.serves(4, &[(1, 1), (0, 0)]) && whole.shows(&[]));
    let last = look(rt.alloc(), &log, 3, AMPLE, false)?;
    assert!(rt; last.serves(1, &[(0, 0)]) && last.shows(&[]));
    Ok(())
}
