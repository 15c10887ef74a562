//! Numbers: the vectors of the Kafka protocol guide's primitives and of zigzag.

use std::alloc::AllocError;
use std::test::Fail;
use wire_types::{
    Cursor, Malformed, write_bool, write_i8, write_i16, write_i32, write_i64, write_u32,
    write_uvarint, write_varint, write_varlong,
};

/// Reads an unsigned varint.
fn uvarint(bytes: &[u8]) -> Result<u32, Malformed> {
    Cursor::new(bytes).read_uvarint()
}

/// Reads a zigzag varint of 32 bits.
fn varint(bytes: &[u8]) -> Result<i32, Malformed> {
    Cursor::new(bytes).read_varint()
}

/// Reads a zigzag varint of 64 bits.
fn varlong(bytes: &[u8]) -> Result<i64, Malformed> {
    Cursor::new(bytes).read_varlong()
}

/// Reads the numbers at the front of the bytes, one of each width.
fn fixed(cursor: &mut Cursor<'_>) -> Result<(i8, i16, i32, i64, u32), Malformed> {
    Ok((
        cursor.read_i8()?,
        cursor.read_i16()?,
        cursor.read_i32()?,
        cursor.read_i64()?,
        cursor.read_u32()?,
    ))
}

/// Reads a boolean.
fn truth(bytes: &[u8]) -> Result<bool, Malformed> {
    Cursor::new(bytes).read_bool()
}

/// Numbers of each fixed width are read, negative ones among them, and any byte but 0 is true.
#[test]
fn numbers_of_fixed_width(rt: HostRuntime) {
    let bytes = b"\xfe\xff\xfe\x80\x00\x00\x01\x80\x00\x00\x00\x00\x00\x00\x02\xe3\x06\x92\x83";
    assert!(rt;
        fixed(&mut Cursor::new(bytes))
            == Ok((
                -2,
                -2,
                -2_147_483_647,
                -9_223_372_036_854_775_806,
                0xe306_9283
            ))
    );
    assert_eq!(rt; truth(b"\x07"), Ok(true));
    assert_eq!(rt; truth(b"\x00"), Ok(false));
    assert_eq!(rt; truth(b""), Err(Malformed::Short));
}

/// Varints are read up to the end of their range, and are a fault after it.
#[test]
fn numbers_of_variable_length(rt: HostRuntime) {
    assert_eq!(rt; uvarint(b"\xff\xff\xff\xff\x0f"), Ok(4_294_967_295));
    assert_eq!(rt; uvarint(b"\x80\x80\x80\x80\x00"), Ok(0));
    assert_eq!(rt; uvarint(b"\xff\xff\xff\xff\x1f"), Err(Malformed::Range));
    assert_eq!(rt; uvarint(b"\xff\xff\xff\xff\x8f"), Err(Malformed::Range));
    assert_eq!(rt; uvarint(b"\x80"), Err(Malformed::Short));
    assert_eq!(rt;
        varlong(b"\xff\xff\xff\xff\xff\xff\xff\xff\xff\x01"),
        Ok(-9_223_372_036_854_775_808)
    );
    assert_eq!(rt;
        varlong(b"\xff\xff\xff\xff\xff\xff\xff\xff\xff\x02"),
        Err(Malformed::Range)
    );
    assert_eq!(rt; varint(b"\xff\xff\xff\xff\x0f"), Ok(-2_147_483_648));
    for (byte, number) in [(b"\x00", 0), (b"\x01", -1), (b"\x02", 1), (b"\x03", -2)] {
        assert_eq!(rt; varint(byte), Ok(number));
    }
}

/// Writes a number of each fixed width, and both booleans.
fn write_fixed(out: &mut Vec<u8>) -> Result<(), AllocError> {
    write_i8(out, -2)?;
    write_i16(out, -2)?;
    write_i32(out, 1)?;
    write_i64(out, -9_223_372_036_854_775_806)?;
    write_u32(out, 0xe306_9283)?;
    write_bool(out, true)?;
    write_bool(out, false)
}

/// Writes a varint of each kind.
fn write_variable(out: &mut Vec<u8>) -> Result<(), AllocError> {
    write_uvarint(out, 300)?;
    write_varint(out, -2)?;
    write_varlong(out, -9_223_372_036_854_775_808)
}

/// Numbers of each kind are written.
#[test]
fn written_numbers(rt: HostRuntime) -> Result<(), Fail> {
    let mut out = Vec::new(rt.alloc());
    write_fixed(&mut out)?;
    write_variable(&mut out)?;
    assert!(rt;
        out.as_slice()
            == b"\xfe\xff\xfe\x00\x00\x00\x01\x80\x00\x00\x00\x00\x00\x00\x02\xe3\x06\x92\x83\x01\x00\
            \xac\x02\x03\xff\xff\xff\xff\xff\xff\xff\xff\xff\x01"
                .as_slice()
    );
    Ok(())
}
