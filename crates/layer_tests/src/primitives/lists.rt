//! Arrays, tagged sections and topics.

use std::alloc::{AllocError, Global};
use std::test::Fail;
use wire_types::{
    Cursor, Items, Malformed, ReadFault, Text, Topic, Wire, WriteFault, deduct_flexible_topics,
    deduct_nullable_flexible_topics, read_array, read_compact_array, read_compact_nullable_array,
    read_flexible_topics, read_nullable_array, read_nullable_flexible_topics, read_varint_array,
    size, write_array, write_compact_array, write_compact_count, write_compact_nullable_array,
    write_count, write_flexible_topics, write_no_tags, write_nullable_array,
    write_nullable_flexible_topics, write_varint_array, write_varint_count,
};

/// A list of these numbers, which are pushed one after the other.
fn listed(alloc: Global, numbers: &[i32]) -> Result<Items<i32>, AllocError> {
    let mut items = Items::new(alloc);
    for number in numbers {
        items.push(*number)?;
    }
    Ok(items)
}

/// A list holds its values in order, whether it has none, one or more; so do its copy, and the vector that it becomes.
#[test]
fn lists_hold_their_values_in_order(rt: HostRuntime) -> Result<(), Fail> {
    let alloc = rt.alloc();
    let all = [0, 1, 2, 3, 4, 5];
    for wanted in [
        &all[..0],
        &all[..1],
        &all[..2],
        &all[..4],
        &all[..5],
        &all[..6],
    ] {
        let items = listed(alloc, wanted)?;
        assert!(rt; items.as_slice() == wanted && items.len() == wanted.len());
        assert_eq!(rt; items.is_empty(), wanted.is_empty());
        assert_eq!(rt; items.get(0).copied(), wanted.first().copied());
        assert!(rt; items.clone()? == items);
        assert!(rt; items.into_vec()?.as_slice() == wanted);
    }
    Ok(())
}

/// Lists are equal where their values are, wherever these stand: one that took memory for two is equal to one that took none.
#[test]
fn lists_are_compared_by_their_values(rt: HostRuntime) -> Result<(), Fail> {
    let alloc = rt.alloc();
    let mut roomy = Items::with_capacity(alloc, 2)?;
    assert!(rt; roomy == listed(alloc, &[])?);
    roomy.push(0)?;
    assert!(rt; roomy == listed(alloc, &[0])? && roomy != listed(alloc, &[0, 1])?);
    assert!(rt; Items::from(vec![in alloc; 0, 1]?) == listed(alloc, &[0, 1])?);
    Ok(())
}

/// Whether the items are this number alone, or null where none is wanted.
fn are(items: &Option<Items<i32>>, wanted: Option<i32>) -> bool {
    match (items, wanted) {
        (Some(items), Some(wanted)) => items.as_slice() == [wanted].as_slice(),
        (None, None) => true,
        _ => false,
    }
}

/// Whether an array of 7, a null array and an array of 7 with a varint count come next.
fn are_arrays(alloc: Global, cursor: &mut Cursor<'_>) -> Result<bool, ReadFault> {
    Ok(
        are(&Some(read_array(alloc, cursor)?), Some(7))
            && are(&read_nullable_array(alloc, cursor)?, None)
            && are(&Some(read_varint_array(alloc, cursor)?), Some(7)),
    )
}

/// Whether a compact array of 7 and a null one come next.
fn are_compact_arrays(alloc: Global, cursor: &mut Cursor<'_>) -> Result<bool, ReadFault> {
    Ok(
        are(&Some(read_compact_array(alloc, cursor)?), Some(7))
            && are(&read_compact_nullable_array(alloc, cursor)?, None),
    )
}

/// Arrays are read in each form, with their items or as null.
#[test]
fn read_arrays(rt: HostRuntime) -> Result<(), Fail> {
    let mut cursor = Cursor::new(
        b"\x00\x00\x00\x01\x00\x00\x00\x07\xff\xff\xff\xff\x02\x00\x00\x00\x07\x02\x00\x00\x00\x07\x00",
    );
    assert!(rt; are_arrays(rt.alloc(), &mut cursor)?);
    assert!(rt; are_compact_arrays(rt.alloc(), &mut cursor)?);
    assert!(rt; cursor.is_empty());
    Ok(())
}

/// Writes these items as an array in each form that is never null.
fn write_arrays(out: &mut Vec<u8>, items: &Items<i32>) -> Result<(), WriteFault> {
    write_array(out, items)?;
    write_varint_array(out, items)?;
    write_compact_array(out, items)
}

/// Writes these items, or null, in both forms of an array that may be null.
fn write_nullable_arrays(out: &mut Vec<u8>, items: &Option<Items<i32>>) -> Result<(), WriteFault> {
    write_nullable_array(out, items)?;
    write_compact_nullable_array(out, items)
}

/// Arrays are written in each form.
#[test]
fn written_arrays(rt: HostRuntime) -> Result<(), Fail> {
    let one = Items::from(vec![in rt.alloc(); 7]?);
    let mut out = Vec::new(rt.alloc());
    assert!(rt; write_arrays(&mut out, &one).is_ok());
    assert!(rt; write_nullable_arrays(&mut out, &Some(one)).is_ok());
    assert!(rt;
        out.as_slice()
            == b"\x00\x00\x00\x01\x00\x00\x00\x07\x02\x00\x00\x00\x07\x02\x00\x00\x00\x07\
            \x00\x00\x00\x01\x00\x00\x00\x07\x02\x00\x00\x00\x07"
                .as_slice()
    );
    Ok(())
}

/// An array that counts more items than bytes are left has the fault `Short`.
#[test]
fn a_count_above_the_bytes_left(rt: HostRuntime) {
    let mut cursor = Cursor::new(b"\x7f\xff\xff\xff\x00\x00\x00\x00");
    let items: Result<Items<i32>, ReadFault> = read_array(rt.alloc(), &mut cursor);
    assert!(rt; matches!(&items, Err(ReadFault::Malformed(Malformed::Short))));
}

/// Reads the count of an array.
fn count(bytes: &[u8]) -> Result<u32, Malformed> {
    Cursor::new(bytes).read_count()
}

/// Reads the count of a compact array, which is one more than its items.
fn compact_count(bytes: &[u8]) -> Result<u32, Malformed> {
    Cursor::new(bytes).read_compact_count()
}

/// Reads a count that is a zigzag varint.
fn varint_count(bytes: &[u8]) -> Result<u32, Malformed> {
    Cursor::new(bytes).read_varint_count()
}

/// A count in each form may be as many as bytes are left, and no more.
#[test]
fn counts(rt: HostRuntime) {
    assert_eq!(rt; count(b"\x00\x00\x00\x04abcd"), Ok(4));
    assert_eq!(rt; count(b"\x00\x00\x00\x04abc"), Err(Malformed::Short));
    assert_eq!(rt; compact_count(b"\x04abc"), Ok(3));
    assert_eq!(rt; compact_count(b"\x04ab"), Err(Malformed::Short));
    assert_eq!(rt; compact_count(b"\x00a"), Err(Malformed::Range));
    assert_eq!(rt; varint_count(b"\x04ab"), Ok(2));
    assert_eq!(rt; varint_count(b"\x04a"), Err(Malformed::Short));
}

/// Writes a count in each form.
fn write_counts(out: &mut Vec<u8>) -> Result<(), WriteFault> {
    write_count(out, 4)?;
    write_compact_count(out, 3)?;
    write_varint_count(out, 2)
}

/// A count in each form is written.
#[test]
fn written_counts(rt: HostRuntime) {
    let mut out = Vec::new(rt.alloc());
    assert!(rt; write_counts(&mut out).is_ok());
    assert!(rt; out.as_slice() == b"\x00\x00\x00\x04\x04\x04".as_slice());
}

/// What skipping a section of tagged fields gives, and how many bytes are left after it.
fn skipped(bytes: &[u8]) -> (Result<(), Malformed>, usize) {
    let mut cursor = Cursor::new(bytes);
    (cursor.skip_tags(), cursor.len())
}

/// A section of tagged fields is skipped, whatever its fields, and an empty one is written.
#[test]
fn tagged_sections(rt: HostRuntime) -> Result<(), Fail> {
    assert!(rt; skipped(b"\x02\x05\x01a\x06\x00\xff") == (Ok(()), 1));
    assert!(rt; skipped(b"\x03\x05\x00").0 == Err(Malformed::Short));
    let mut out = Vec::new(rt.alloc());
    write_no_tags(&mut out)?;
    assert!(rt; out.as_slice() == b"\x00".as_slice());
    Ok(())
}

/// A topic with its partitions is read and written, and its size is right.
#[test]
fn a_topic_and_back(rt: HostRuntime) -> Result<(), Fail> {
    let alloc = rt.alloc();
    let bytes = b"\x00\x01t\x00\x00\x00\x02\x00\x00\x00\x05\x00\x00\x00\x06";
    let topic = Topic {
        name: Text::of(alloc, "t")?,
        partitions: Items::from(vec![in alloc; 5, 6]?),
    };
    let read: Result<Topic<i32>, ReadFault> = Topic::read(alloc, &mut Cursor::new(bytes));
    let mut out = Vec::new(alloc);
    assert!(rt; topic.write(&mut out).is_ok());
    assert_eq!(rt; out.as_slice(), bytes.as_slice());
    assert_eq!(rt; size(&topic), Some(15));
    assert!(rt; read == Ok(topic));
    Ok(())
}

/// Topics of a flexible version are read past their tagged fields, and written with empty ones; their size is right.
#[test]
fn flexible_topics(rt: HostRuntime) -> Result<(), Fail> {
    let alloc = rt.alloc();
    let bytes = b"\x02\x02t\x02\x00\x00\x00\x05\x01\x07\x01a";
    let topics: Items<Topic<i32>> = read_flexible_topics(alloc, &mut Cursor::new(bytes))?;
    let mut out = Vec::new(alloc);
    write_flexible_topics(&mut out, &topics)?;
    assert_eq!(rt;
        out.as_slice(),
        b"\x02\x02t\x02\x00\x00\x00\x05\x00".as_slice()
    );
    assert_eq!(rt; deduct_flexible_topics(&topics, 10), Some(1));
    assert_eq!(rt; deduct_flexible_topics(&topics, 8), None);
    Ok(())
}

/// A null list of topics is read and written as one byte.
#[test]
fn no_list_of_topics(rt: HostRuntime) -> Result<(), Fail> {
    let alloc = rt.alloc();
    let none: Option<Items<Topic<i32>>> = read_nullable_flexible_topics(
        alloc,
        &mut Cursor::new(b"\x00"),
    )?;
    let mut out = Vec::new(alloc);
    write_nullable_flexible_topics(&mut out, &none)?;
    assert_eq!(rt; out.as_slice(), b"\x00".as_slice());
    assert_eq!(rt; deduct_nullable_flexible_topics(&none, 1), Some(0));
    Ok(())
}
