//! Vectors from outside: batches that another encoder made, in hexadecimal digits.

use record_batch::{Batch, BatchFault, BatchHeader, RecordAt, TransactionResult};
use std::alloc::{AllocError, Global};
use std::test::Fail;
use wire_types::{Bytes, Items, write_varint};

// One record with the value `a`.
const ONE: &str =
    "0000000000000000000000390000000002dbe9c87600000000000000000000000000000000000000000000ffffffffff\
    ffffffffffffffffff000000010e00000001026100";

// From offset 40: the key `k`, no value, headers `h` of `v` and ff of null; no key and an empty value; an empty key
// and the value `value`. Transactional, of producer 9 in epoch 2, from sequence 4 on, leader epoch 7.
const RICH: &str =
    "00000000000000280000005300000007021155b09100100000000200000000000003e800000000000003ed0000000000\
    000009000200000004000000031c000a00026b01040268027602ff010c00000201000016000504000a76616c756500";

// Producer 7 in epoch 1 at the moment 1000.
const COMMIT: &str =
    "0000000000000000000000420000000002d25e143100300000000000000000000003e800000000000003e80000000000\
    0000070001ffffffff000000012000000008000000010c00000000000000";

const ABORT: &str =
    "00000000000000000000004200000000022660c27900300000000000000000000003e800000000000003e80000000000\
    0000070001ffffffff000000012000000008000000000c00000000000000";

// The header of 1,000 records.
const THOUSAND: &str =
    "0000000000000000000023190000000002a71c3b260000000003e700000000000000000000000000000000ffffffffff\
    ffffffffffffffffff000003e8";

/// The record batch of at most 10,000 bytes that hexadecimal digits spell; the test fails if they spell none.
fn batch_of(alloc: Global, digits: &str) -> Result<Batch, Fail> {
    let bytes = Bytes::from_vec(hex::decode(alloc, digits)?)?;
    match Batch::check(bytes, 10_000) {
        Ok(batch) => Ok(batch),
        Err(_) => Err(Fail::from("no batch")),
    }
}

/// All header fields of two batches that another encoder made are read.
#[test]
fn fields(rt: HostRuntime) -> Result<(), Fail> {
    let one = batch_of(rt.alloc(), ONE)?;
    let of_one = BatchHeader {
        base_offset: 0,
        batch_length: 57,
        partition_leader_epoch: 0,
        magic: 2,
        crc: 0xdbe9_c876,
        attributes: 0,
        last_offset_delta: 0,
        base_timestamp: 0,
        max_timestamp: 0,
        producer_id: -1,
        producer_epoch: -1,
        base_sequence: -1,
        record_count: 1,
    };
    assert_eq!(rt; one.header(), of_one);
    let rich = batch_of(rt.alloc(), RICH)?;
    let of_rich = BatchHeader {
        base_offset: 40,
        batch_length: 83,
        partition_leader_epoch: 7,
        magic: 2,
        crc: 0x1155_b091,
        attributes: 16,
        last_offset_delta: 2,
        base_timestamp: 1_000,
        max_timestamp: 1_005,
        producer_id: 9,
        producer_epoch: 2,
        base_sequence: 4,
        record_count: 3,
    };
    assert_eq!(rt; rich.header(), of_rich);
    Ok(())
}

/// The records of a batch, each with its offset; none if its offsets are out of range.
fn records_of(alloc: Global, batch: &Batch) -> Result<Items<RecordAt>, AllocError> {
    if batch.has_offsets() {
        batch.recs(alloc)
    } else {
        Ok(Items::new(alloc))
    }
}

/// Offset, time after the batch's, key, value, and how many headers.
type Told<'a> = (i64, i64, Option<&'a [u8]>, Option<&'a [u8]>, usize);

/// The bytes, if there are some; `None` for null.
fn slice_of(bytes: &Option<Bytes>) -> Option<&[u8]> {
    match bytes {
        Some(bytes) => Some(bytes.as_slice()),
        None => None,
    }
}

/// What a test compares of a record.
fn told(record: &RecordAt) -> Told<'_> {
    let rec = &record.rec;
    (
        record.offset,
        rec.timestamp_delta,
        slice_of(&rec.key),
        slice_of(&rec.value),
        rec.headers.len(),
    )
}

/// The offsets, timestamps, keys, values and headers of three records are read, null and empty ones among them.
#[test]
fn three_records(rt: HostRuntime) -> Result<(), Fail> {
    let records = records_of(rt.alloc(), &batch_of(rt.alloc(), RICH)?)?;
    let wanted: [Told<'_>; 3] = [
        (40, 5, Some(b"k"), None, 2),
        (41, 0, None, Some(b""), 0),
        (42, -3, Some(b""), Some(b"value"), 0),
    ];
    assert_eq!(rt; records.len(), 3);
    for (record, wanted) in records.iter().zip(wanted) {
        assert!(rt; told(record) == wanted);
    }
    Ok(())
}

/// A batch of 1,000 records with the value `x`: the header is another encoder's, the records' lengths and offsets are written
/// here.
fn thousand(alloc: Global) -> Result<Vec<u8>, Fail> {
    let mut out = hex::decode(alloc, THOUSAND)?;
    for place in 0..1_000i32 {
        let longer = if place < 64 { 0 } else { 1 };
        write_varint(&mut out, 7 + longer)?;
        out.extend_from_slice(&[0, 0])?;
        write_varint(&mut out, place)?;
        out.extend_from_slice(&[1, 2, 120, 0])?;
    }
    Ok(out)
}

/// A batch of 1,000 records is read to its last one.
#[test]
fn thousand_records(rt: HostRuntime) -> Result<(), Fail> {
    let bytes = Bytes::from_vec(thousand(rt.alloc())?)?;
    let Ok(batch) = Batch::check(bytes, 10_000) else {
        return Err(Fail::from("no batch"));
    };
    let records = records_of(rt.alloc(), &batch)?;
    assert_eq!(rt; records.len(), 1_000);
    assert_eq!(rt; records.get(999).map(|last| last.offset), Some(999));
    Ok(())
}

/// The bytes of a batch, one after the other, in a new vector, though its piece may have them in two runs.
fn written(alloc: Global, batch: &Batch) -> Result<Vec<u8>, AllocError> {
    let mut out = Vec::new(alloc);
    batch.piece()?.push_to(&mut out)?;
    Ok(out)
}

/// The bytes of a batch as it is stored at an offset.
fn stored_at(alloc: Global, batch: &Batch, offset: i64) -> Result<Vec<u8>, AllocError> {
    written(alloc, &batch.write_at(offset)?)
}

/// A control batch is written byte for byte as another encoder has it, for a commit and for an abort: of producer 7 in epoch 1 at
/// the moment 1000.
#[test]
fn markers(rt: HostRuntime) -> Result<(), Fail> {
    for (outcome, digits) in [
        (TransactionResult::Commit, COMMIT),
        (TransactionResult::Abort, ABORT),
    ] {
        let marker = Batch::control(rt.alloc(), outcome, 7, 1, 1_000)?;
        let bytes = hex::decode(rt.alloc(), digits)?;
        assert!(rt; written(rt.alloc(), &marker)?.as_slice() == bytes.as_slice());
        assert_eq!(rt; marker.marker(), Some(outcome));
    }
    Ok(())
}

/// The offset after the batch's last record, or None where an `i64` has no such number.
fn next_offset_of(batch: &Batch) -> Option<i64> {
    if batch.has_offsets() {
        Some(batch.next_offset())
    } else {
        None
    }
}

/// A batch that was placed twice stands at the last place, whose header, next offset and records say so; a share of it too.
#[test]
fn placed_twice(rt: HostRuntime) -> Result<(), Fail> {
    let alloc = rt.alloc();
    let batch = batch_of(alloc, RICH)?;
    let placed = batch.write_at(5)?.write_at(9)?;
    for it in [&placed, &placed.share()?] {
        assert!(rt; it.base_offset() == 9 && it.last_offset_delta() == 2);
        assert_eq!(rt; next_offset_of(it), Some(12));
        assert!(rt; it.len() == batch.len() && it.crc() == batch.crc());
        assert!(rt; written(alloc, it)?.as_slice() == stored_at(alloc, &batch, 9)?.as_slice());
        let records = records_of(alloc, it)?;
        assert_eq!(rt; records.len(), 3);
        assert_eq!(rt; records.get(0).map(|first| first.offset), Some(9));
        assert_eq!(rt; records.get(2).map(|last| last.offset), Some(11));
    }
    Ok(())
}

/// Moved to offset 5, a batch differs in bytes 0 to 7 alone, and passes the check again.
#[test]
fn at_another_offset(rt: HostRuntime) -> Result<(), Fail> {
    let bytes = hex::decode(rt.alloc(), ONE)?;
    let written = stored_at(rt.alloc(), &batch_of(rt.alloc(), ONE)?, 5)?;
    assert!(rt; bytes.len() == 69 && written.len() == 69);
    let (front, rest) = bytes.as_slice().split_at(8);
    let (moved_front, moved_rest) = written.as_slice().split_at(8);
    assert!(rt; front == b"\x00\x00\x00\x00\x00\x00\x00\x00".as_slice());
    assert!(rt; moved_front == b"\x00\x00\x00\x00\x00\x00\x00\x05".as_slice());
    assert!(rt; moved_rest == rest);
    let Ok(again) = Batch::check(Bytes::from_vec(written)?, 10_000) else {
        return Err(Fail::from("no batch"));
    };
    assert!(rt; again.header().base_offset == 5 && again.header().crc == 0xdbe9_c876);
    Ok(())
}

/// A batch that is stored gets the leader epoch 0, at its own offset and at another, and all else but the offset stays.
#[test]
fn leader_epoch_of_a_stored_batch(rt: HostRuntime) -> Result<(), Fail> {
    let batch = batch_of(rt.alloc(), RICH)?;
    for (offset, front) in [
        (
            40,
            b"\x00\x00\x00\x00\x00\x00\x00\x28\x00\x00\x00\x53\x00\x00\x00\x00".as_slice(),
        ),
        (
            258,
            b"\x00\x00\x00\x00\x00\x00\x01\x02\x00\x00\x00\x53\x00\x00\x00\x00",
        ),
    ] {
        let written = stored_at(rt.alloc(), &batch, offset)?;
        let sent = hex::decode(rt.alloc(), RICH)?;
        assert!(rt; written.len() == 95 && sent.len() == 95);
        let (_, rest) = sent.as_slice().split_at(16);
        let (written_front, written_rest) = written.as_slice().split_at(16);
        assert!(rt; written_front == front && written_rest == rest);
    }
    Ok(())
}

/// The fault of these bytes as a batch of at most `max` bytes; `None` if they are one.
fn fault_of(bytes: Vec<u8>, max: u32) -> Result<Option<BatchFault>, AllocError> {
    Ok(Batch::check(Bytes::from_vec(bytes)?, max).err())
}

/// A batch with its last byte changed has a wrong checksum, one with that cut off a wrong length, and one is too large where one
/// byte less is allowed.
#[test]
fn faults_of_one_byte(rt: HostRuntime) -> Result<(), Fail> {
    let alloc = rt.alloc();
    let mut changed = hex::decode(alloc, ONE)?;
    let last = changed.pop();
    assert!(rt; last == Some(0) && changed.len() == 68);
    let cut = changed.clone()?;
    changed.push(1)?;
    let whole = hex::decode(alloc, ONE)?;
    assert_eq!(rt; fault_of(changed, 69)?, Some(BatchFault::Crc));
    assert_eq!(rt; fault_of(cut, 69)?, Some(BatchFault::Length));
    assert_eq!(rt; fault_of(whole.clone()?, 68)?, Some(BatchFault::TooLarge));
    assert_eq!(rt; fault_of(whole, 69)?, None);
    Ok(())
}

/// Each fault of a batch has its number, and the error code that its producer is answered.
#[test]
fn numbers_and_codes_of_faults(rt: HostRuntime) {
    for (fault, number, code) in [
        (BatchFault::Length, 1, 2),
        (BatchFault::Magic, 2, 87),
        (BatchFault::Crc, 3, 2),
        (BatchFault::Compressed, 4, 76),
        (BatchFault::Invalid, 5, 87),
        (BatchFault::Timestamp, 6, 32),
        (BatchFault::TooLarge, 7, 10),
    ] {
        assert_eq!(rt; fault as i32, number);
        assert_eq!(rt; fault.code().number(), code, "{fault:?}");
    }
}
