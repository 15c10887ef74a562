//! Texts and bytes in each of their forms, with the faults that they can have.

use std::alloc::Global;
use std::test::Fail;
use wire_types::{
    Bytes, Cursor, Malformed, ReadFault, Text, WriteFault, write_bytes, write_compact_bytes,
    write_compact_nullable, write_compact_nullable_bytes, write_compact_string, write_nullable,
    write_nullable_bytes, write_string, write_varint_bytes, write_varint_nullable_bytes,
};

/// Whether a text that is read is this one, or null where none is wanted.
fn is(text: &Option<Text>, wanted: Option<&str>) -> bool {
    match (text, wanted) {
        (Some(text), Some(wanted)) => text.as_str() == wanted,
        (None, None) => true,
        _ => false,
    }
}

/// Whether the texts `ab`, null and `c` come next.
fn are_texts(alloc: Global, cursor: &mut Cursor<'_>) -> Result<bool, ReadFault> {
    Ok(
        is(&Some(cursor.read_string(alloc)?), Some("ab"))
            && is(&cursor.read_nullable(alloc)?, None)
            && is(&cursor.read_nullable(alloc)?, Some("c")),
    )
}

/// Whether the texts `de`, null and `f` come next in the compact form.
fn are_compact_texts(alloc: Global, cursor: &mut Cursor<'_>) -> Result<bool, ReadFault> {
    Ok(
        is(&Some(cursor.read_compact_string(alloc)?), Some("de"))
            && is(&cursor.read_compact_nullable(alloc)?, None)
            && is(&cursor.read_compact_nullable(alloc)?, Some("f")),
    )
}

/// Texts are read in each form, and null.
#[test]
fn read_texts(rt: HostRuntime) -> Result<(), Fail> {
    let mut cursor = Cursor::new(b"\x00\x02ab\xff\xff\x00\x01c\x03de\x00\x02f");
    assert!(rt; are_texts(rt.alloc(), &mut cursor)?);
    assert!(rt; are_compact_texts(rt.alloc(), &mut cursor)?);
    assert!(rt; cursor.is_empty());
    Ok(())
}

/// The fault of bytes as a STRING; `None` where they are one.
fn string_fault(alloc: Global, bytes: &[u8]) -> Option<ReadFault> {
    Cursor::new(bytes).read_string(alloc).err()
}

/// The fault of bytes as a COMPACT_STRING; `None` where they are one.
fn compact_fault(alloc: Global, bytes: &[u8]) -> Option<ReadFault> {
    Cursor::new(bytes).read_compact_string(alloc).err()
}

/// The fault of bytes as a NULLABLE_STRING; `None` where they are one.
fn nullable_fault(alloc: Global, bytes: &[u8]) -> Option<ReadFault> {
    Cursor::new(bytes).read_nullable(alloc).err()
}

/// A text has a fault where its length is negative or larger than the bytes left, or it isn't UTF-8.
#[test]
fn faulty_texts(rt: HostRuntime) {
    let alloc = rt.alloc();
    for (bytes, malformed) in [
        (b"\xff\xfe\x00".as_slice(), Malformed::Range),
        (b"\xff\xff\x00".as_slice(), Malformed::Range),
        (b"\x00\x01\xff".as_slice(), Malformed::Utf8),
        (b"\x00\x03ab".as_slice(), Malformed::Short),
        (b"\x00".as_slice(), Malformed::Short),
    ] {
        assert!(rt; string_fault(alloc, bytes) == Some(ReadFault::Malformed(malformed)));
    }
    let range = Some(ReadFault::Malformed(Malformed::Range));
    assert!(rt; compact_fault(alloc, b"\x00") == range);
    assert!(rt; nullable_fault(alloc, b"\xff\xfe") == range);
}

/// Whether bytes that are read are these, or null where none are wanted.
fn are(bytes: &Option<Bytes>, wanted: Option<&[u8]>) -> bool {
    match (bytes, wanted) {
        (Some(bytes), Some(wanted)) => bytes.as_slice() == wanted,
        (None, None) => true,
        _ => false,
    }
}

/// Whether the bytes `ab`, null and `c` come next.
fn are_bytes(alloc: Global, cursor: &mut Cursor<'_>) -> Result<bool, ReadFault> {
    Ok(
        are(&Some(cursor.read_bytes(alloc)?), Some(b"ab"))
            && are(&cursor.read_nullable_bytes(alloc)?, None)
            && are(&cursor.read_nullable_bytes(alloc)?, Some(b"c")),
    )
}

/// Whether the bytes `de`, null and `f` come next in the compact form.
fn are_compact_bytes(alloc: Global, cursor: &mut Cursor<'_>) -> Result<bool, ReadFault> {
    Ok(
        are(&Some(cursor.read_compact_bytes(alloc)?), Some(b"de"))
            && are(&cursor.read_compact_nullable_bytes(alloc)?, None)
            && are(&cursor.read_compact_nullable_bytes(alloc)?, Some(b"f")),
    )
}

/// Whether the bytes `gh`, null and `i` come next in the form of a record's fields.
fn are_varint_bytes(alloc: Global, cursor: &mut Cursor<'_>) -> Result<bool, ReadFault> {
    Ok(
        are(&Some(cursor.read_varint_bytes(alloc)?), Some(b"gh"))
            && are(&cursor.read_varint_nullable_bytes(alloc)?, None)
            && are(&cursor.read_varint_nullable_bytes(alloc)?, Some(b"i")),
    )
}

/// Bytes are read in each form, and null, out of bytes that they share.
#[test]
fn read_shared_bytes(rt: HostRuntime) -> Result<(), Fail> {
    let alloc = rt.alloc();
    let text = b"\x00\x00\x00\x02ab\xff\xff\xff\xff\x00\x00\x00\x01c\x03de\x00\x02f\x04gh\x01\x02i";
    let whole = Bytes::copy_from_slice(alloc, text)?;
    let mut cursor = Cursor::over(&whole);
    assert!(rt; are_bytes(alloc, &mut cursor)?);
    assert!(rt; are_compact_bytes(alloc, &mut cursor)?);
    assert!(rt; are_varint_bytes(alloc, &mut cursor)?);
    assert!(rt; cursor.is_empty());
    Ok(())
}

/// Writes a text, and null, in each form.
fn write_texts(out: &mut Vec<u8>, text: &Text) -> Result<(), WriteFault> {
    write_string(out, text)?;
    write_nullable(out, &None)?;
    write_compact_string(out, text)?;
    write_compact_nullable(out, &None)
}

/// Writes bytes, and null, in each form.
fn write_each(out: &mut Vec<u8>, bytes: &Bytes) -> Result<(), WriteFault> {
    write_bytes(out, bytes)?;
    write_nullable_bytes(out, &None)?;
    write_compact_bytes(out, bytes)?;
    write_compact_nullable_bytes(out, &None)?;
    write_varint_bytes(out, bytes)?;
    write_varint_nullable_bytes(out, &None)
}

/// Texts and bytes are written in each form, and null.
#[test]
fn written_texts_and_bytes(rt: HostRuntime) -> Result<(), Fail> {
    let text = Text::of(rt.alloc(), "ab")?;
    let bytes = Bytes::copy_from_slice(rt.alloc(), b"cd")?;
    let mut out = Vec::new(rt.alloc());
    assert!(rt; write_texts(&mut out, &text).is_ok());
    assert!(rt; write_each(&mut out, &bytes).is_ok());
    assert!(rt;
        out.as_slice()
            == b"\x00\x02ab\xff\xff\x03ab\x00\x00\x00\x00\x02cd\xff\xff\xff\xff\x03cd\x00\x04cd\x01".as_slice()
    );
    Ok(())
}
