//! All logs of a few batches of two producers: what is served of them, and what a consumer shows.

use crate::logs::plain::{Ask, Entry, Kind, end, is_served, is_shown};
use crate::logs::{ONE, RICH};
use msg_data::Isolation;
use partition_log::{FetchFault, Log, consumer_view};
use producer_state::Judgment;
use record_batch::{Batch, TransactionResult, crc32c};
use std::alloc::{AllocError, Global};
use std::test::Fail;
use wire_types::Bytes;

/// How many batches a log has at most.
const MOST: u32 = 6;

/// A log, and the plain list of its entries.
#[derive(Drop)]
struct Small {
    log: Log,
    entries: Vec<Entry>,
}

/// A batch of one record of an idempotent producer, in no transaction, with this sequence number.
fn plain_bytes(producer: u8, sequence: u8) -> [u8; 69] {
    let mut bytes = ONE;
    for place in 43..57 {
        bytes[place] = 0;
    }
    bytes[50] = producer;
    bytes[56] = sequence;
    let [a, b, c, d] = crc32c(&bytes[21..]).to_be_bytes();
    bytes[17] = a;
    bytes[18] = b;
    bytes[19] = c;
    bytes[20] = d;
    bytes
}

/// A batch of three records of a producer's transaction, from this sequence number on.
fn transactional_bytes(producer: u8, sequence: u8) -> [u8; 95] {
    let mut bytes = RICH;
    bytes[50] = producer;
    bytes[52] = 0;
    bytes[56] = sequence;
    signed(bytes)
}

/// The same batch with its right checksum.
pub(crate) fn signed(bytes: [u8; 95]) -> [u8; 95] {
    let mut bytes = bytes;
    let [a, b, c, d] = crc32c(&bytes[21..]).to_be_bytes();
    bytes[17] = a;
    bytes[18] = b;
    bytes[19] = c;
    bytes[20] = d;
    bytes
}

/// The sequence number with which the producer goes on after these entries.
fn sequence(entries: &[Entry], producer: u8) -> u8 {
    let mut sequence = 0u8;
    for entry in entries {
        if entry.producer == i64::from(producer) {
            sequence = match entry.kind {
                Kind::Transactional => sequence.saturating_add(3),
                Kind::Plain => sequence.saturating_add(1),
                Kind::Commit | Kind::Abort => sequence,
            };
        }
    }
    sequence
}

/// Appends a batch of at most 1,000 bytes to a log. `false`, and nothing is appended, if the bytes are no such batch, its
/// offsets don't fit, or it isn't the next one of its producer.
pub(crate) fn send(alloc: Global, log: &mut Log, bytes: &[u8]) -> Result<bool, AllocError> {
    let bytes = Bytes::copy_from_slice(alloc, bytes)?;
    let Ok(batch) = Batch::check(bytes, 1000) else {
        return Ok(false);
    };
    if !log.has_offsets_for(&batch) {
        return Ok(false);
    }
    match log.judge(&batch) {
        Judgment::Next => {
            log.append(batch)?;
            Ok(true)
        }
        _ => Ok(false),
    }
}

/// Appends the marker that ends a producer's transaction in epoch 0. `false`, and nothing is appended, if the log has 1,000
/// records or more.
pub(crate) fn mark(
    alloc: Global,
    log: &mut Log,
    outcome: TransactionResult,
    producer: u8,
) -> Result<bool, AllocError> {
    if log.end() >= 1000 {
        return Ok(false);
    }
    log.append_marker(alloc, outcome, i64::from(producer), 0, 1000)?;
    Ok(true)
}

/// Appends a batch or marker of this kind of the producer to the log, and not to the list of entries. `false` if `send` or
/// `mark` refuses it.
fn append(alloc: Global, small: &mut Small, kind: Kind, producer: u8) -> Result<bool, AllocError> {
    let sequence = sequence(&small.entries, producer);
    let log = &mut small.log;
    match kind {
        Kind::Transactional => send(alloc, log, &transactional_bytes(producer, sequence)),
        Kind::Plain => send(alloc, log, &plain_bytes(producer, sequence)),
        Kind::Commit => mark(alloc, log, TransactionResult::Commit, producer),
        Kind::Abort => mark(alloc, log, TransactionResult::Abort, producer),
    }
}

/// What an entry of this kind is in the list, at this offset.
fn entry_at(base: i64, kind: Kind, producer: u8) -> Entry {
    let (records, size) = match kind {
        Kind::Transactional => (3, 95),
        Kind::Plain => (1, 69),
        Kind::Commit | Kind::Abort => (1, 78),
    };
    Entry {
        kind,
        producer: i64::from(producer),
        base,
        next: base.saturating_add(records),
        size,
    }
}

/// The kind of entry that the lowest two bits stand for.
fn kind_of(digit: u32) -> Kind {
    match digit % 4 {
        0 => Kind::Transactional,
        1 => Kind::Plain,
        2 => Kind::Commit,
        _ => Kind::Abort,
    }
}

/// Appends an entry of this kind of the producer to the log, and to the list. `false`, and nothing is added to either, if it
/// can't be appended.
fn push(alloc: Global, small: &mut Small, kind: Kind, producer: u8) -> Result<bool, AllocError> {
    if !append(alloc, small, kind, producer)? {
        return Ok(false);
    }
    let entry = entry_at(end(&small.entries), kind, producer);
    small.entries.push(entry)?;
    Ok(true)
}

/// The log of `length` entries that a number spells, three bits for each from the lowest on: its kind, and its producer, 0 or
/// 1. `None` if one can't be appended.
fn log_of(alloc: Global, number: u32, length: u32) -> Result<Option<Small>, AllocError> {
    let mut small = Small {
        log: Log::new(alloc),
        entries: Vec::new(alloc),
    };
    let mut digits = number;
    for _ in 0..length {
        let producer = if digits / 4 % 2 == 0 { 0 } else { 1 };
        if !push(alloc, &mut small, kind_of(digits), producer)? {
            return Ok(None);
        }
        digits /= 8;
    }
    Ok(Some(small))
}

/// Whether the log answers a fetch as the list of its entries says, and with read_committed a consumer shows what it ought to.
fn is_right(alloc: Global, small: &Small, ask: &Ask) -> Result<bool, AllocError> {
    let answer = small
        .log
        .fetch(alloc, ask.offset, ask.isolation, ask.budget, ask.forced);
    match answer {
        Ok(served) => {
            let view = consumer_view(alloc, &served, ask.offset)?;
            let shown = match ask.isolation {
                Isolation::ReadCommitted => is_shown(&small.entries, ask, &view),
                Isolation::ReadUncommitted => true,
            };
            Ok(shown && is_served(&small.entries, ask, &served))
        }
        Err(FetchFault::OutOfRange) => Ok(ask.offset < 0 || ask.offset > end(&small.entries)),
        Err(FetchFault::NoMemory) => Err(AllocError),
    }
}

/// Whether the log answers fetches from an offset on rightly, with a budget for no batch, for some and for all, forced or not,
/// and at both isolation levels.
fn are_right(alloc: Global, small: &Small, offset: i64) -> Result<bool, AllocError> {
    for budget in [0, 95, 173, 1000] {
        for forced in [false, true] {
            for isolation in [Isolation::ReadUncommitted, Isolation::ReadCommitted] {
                let ask = Ask {
                    offset,
                    isolation,
                    budget,
                    forced,
                };
                if !is_right(alloc, small, &ask)? {
                    return Ok(false);
                }
            }
        }
    }
    Ok(true)
}

/// Whether the log answers fetches rightly from each offset on, and from one below its start and one after its end.
fn is_right_from_each(alloc: Global, small: &Small) -> Result<bool, AllocError> {
    for offset in -1..end(&small.entries).saturating_add(2) {
        if !are_right(alloc, small, offset)? {
            return Ok(false);
        }
    }
    Ok(true)
}

/// Whether each log of so many entries, with one more of this kind and of producer 0 at its end, can be made and answers rightly.
/// With the two producers exchanged a log is the same.
fn are_right_with(alloc: Global, before: u32, last: Kind) -> Result<bool, AllocError> {
    for number in 0..8u32.saturating_pow(before) {
        let Some(mut small) = log_of(alloc, number, before)? else {
            return Ok(false);
        };
        if !push(alloc, &mut small, last, 0)? || !is_right_from_each(alloc, &small)? {
            return Ok(false);
        }
    }
    Ok(true)
}

/// Makes each log of up to six entries of two producers, of which the last is of this kind. `None` if all serve what the list of
/// their entries says; else of how many entries the first is that doesn't. A test has a minute, and all of them would take it: so
/// those of each kind have a test of their own.
fn first_wrong(alloc: Global, last: Kind) -> Result<Option<u32>, AllocError> {
    for before in 0..MOST {
        if !are_right_with(alloc, before, last)? {
            return Ok(Some(before + 1));
        }
    }
    Ok(None)
}

/// An empty log serves nothing, and no offset but 0 is in range.
#[test]
fn an_empty_log(rt: HostRuntime) -> Result<(), Fail> {
    let Some(empty) = log_of(rt.alloc(), 0, 0)? else {
        return Err(Fail::from("no log"));
    };
    assert!(rt; is_right_from_each(rt.alloc(), &empty)?);
    Ok(())
}

/// Small logs whose last entry is a batch of a transaction, which is open, are served as listed.
#[test]
fn small_logs_with_a_transactional_batch_at_the_end(rt: HostRuntime) -> Result<(), Fail> {
    assert_eq!(rt; first_wrong(rt.alloc(), Kind::Transactional)?, None);
    Ok(())
}

/// And those whose last entry is a batch of no transaction.
#[test]
fn small_logs_with_a_batch_of_no_transaction_at_the_end(rt: HostRuntime) -> Result<(), Fail> {
    assert_eq!(rt; first_wrong(rt.alloc(), Kind::Plain)?, None);
    Ok(())
}

/// And those whose last entry is a marker that commits.
#[test]
fn small_logs_with_a_commit_at_the_end(rt: HostRuntime) -> Result<(), Fail> {
    assert_eq!(rt; first_wrong(rt.alloc(), Kind::Commit)?, None);
    Ok(())
}

/// And those whose last entry is a marker that aborts.
#[test]
fn small_logs_with_an_abort_at_the_end(rt: HostRuntime) -> Result<(), Fail> {
    assert_eq!(rt; first_wrong(rt.alloc(), Kind::Abort)?, None);
    Ok(())
}
