//! Bytes in pieces, cut in several ways.

use std::alloc::{AllocError, Global};
use std::test::Fail;
use wire_types::{
    Block, Bytes, Cursor, Malformed, Piece, Pieces, ReadFault, deduct_pieces, write_pieces,
};

const ALPHABET: &[u8] = b"abcdefghijklmnopqrstuvwxyz";

/// A text in pieces, cut at these places.
fn cut(alloc: Global, text: &[u8], places: &[usize]) -> Result<Pieces, Fail> {
    let whole = Bytes::copy_from_slice(alloc, text)?;
    let mut pieces = Pieces::new(alloc);
    let mut start = 0;
    for end in places {
        push_part(&mut pieces, &whole, start, *end)?;
        start = *end;
    }
    push_part(&mut pieces, &whole, start, whole.len())?;
    Ok(pieces)
}

/// Appends the piece of a text between two places; an error where there is none.
fn push_part(pieces: &mut Pieces, whole: &Bytes, start: usize, end: usize) -> Result<(), Fail> {
    if start > end || end > whole.len() {
        return Err(Fail::from("no part of the text"));
    }
    pieces.push(Piece::of(whole.slice(start..end)?))?;
    Ok(())
}

/// Whether the pieces are these bytes, one after the other.
fn are(pieces: &Pieces, wanted: &[u8], alloc: Global) -> Result<bool, AllocError> {
    let mut out = Vec::new(alloc);
    pieces.push_to(&mut out)?;
    Ok(out.as_slice() == wanted && pieces.len() == wanted.len())
}

/// However a text is cut into pieces, they are its bytes.
#[test]
fn pieces_are_their_bytes(rt: HostRuntime) -> Result<(), Fail> {
    let alloc = rt.alloc();
    for places in [[].as_slice(), &[1], &[0, 13, 13, 26], &[5, 6, 20]] {
        let pieces = cut(alloc, ALPHABET, places)?;
        assert!(rt; are(&pieces, ALPHABET, alloc)?);
        assert!(rt; pieces.to_bytes(alloc)?.as_slice() == ALPHABET);
    }
    assert!(rt; are(&Pieces::new(alloc), b"", alloc)?);
    let alone = Pieces::of(alloc, Bytes::copy_from_slice(alloc, b"abc")?);
    assert!(rt; are(&alone, b"abc", alloc)?);
    Ok(())
}

/// Pieces are equal where their bytes are, however they are cut; and not to those of one byte more, one less, or another last
/// one.
#[test]
fn pieces_are_compared_by_their_bytes(rt: HostRuntime) -> Result<(), Fail> {
    let alloc = rt.alloc();
    let pieces = cut(alloc, ALPHABET, &[3, 3, 17])?;
    for places in [[].as_slice(), &[1], &[0, 13, 13, 26], &[3, 17]] {
        assert!(rt; cut(alloc, ALPHABET, places)? == pieces);
    }
    for other in [
        b"abcdefghijklmnopqrstuvwxy".as_slice(),
        b"abcdefghijklmnopqrstuvwxyz0",
        b"abcdefghijklmnopqrstuvwxy0",
        b"",
    ] {
        let other = cut(alloc, other, &[])?;
        assert!(rt; pieces != other && other != pieces);
    }
    assert!(rt; Pieces::new(alloc) == cut(alloc, b"", &[0, 0])?);
    Ok(())
}

/// A piece can have 16 other bytes at its front, and is then these and the same bytes after them.
#[test]
fn piece_with_another_front(rt: HostRuntime) -> Result<(), Fail> {
    let alloc = rt.alloc();
    let piece = Piece::of(Bytes::copy_from_slice(alloc, ALPHABET)?);
    assert!(rt; piece.front().as_slice() == b"abcdefghijklmnop".as_slice() && piece.len() == 26);
    assert!(rt; piece.slice(17..20)?.as_slice() == b"rst".as_slice());
    let other = piece.with_front(*b"0123456789ABCDEF")?;
    assert!(rt; other.front().as_slice() == b"0123456789ABCDEF".as_slice() && other.len() == 26);
    assert!(rt; other.slice(17..20)?.as_slice() == b"rst".as_slice());
    let third = other.with_front(*b"================")?.clone()?;
    let mut pieces = Pieces::new(alloc);
    for each in [third, other, piece] {
        pieces.push(each)?;
    }
    let wanted = b"================qrstuvwxyz0123456789ABCDEFqrstuvwxyzabcdefghijklmnopqrstuvwxyz";
    assert!(rt; are(&pieces, wanted, alloc)?);
    Ok(())
}

/// Reads a BYTES field as pieces.
fn read(alloc: Global, bytes: &[u8]) -> Result<Pieces, ReadFault> {
    Cursor::new(bytes).read_pieces(alloc)
}

/// Pieces are read and written as BYTES: how many bytes they have, in four bytes, and then these.
#[test]
fn pieces_travel_as_bytes(rt: HostRuntime) -> Result<(), Fail> {
    let alloc = rt.alloc();
    let mut out = Vec::new(alloc);
    assert!(rt; write_pieces(&mut out, &cut(alloc, b"abcde", &[2, 4])?).is_ok());
    assert!(rt; write_pieces(&mut out, &Pieces::new(alloc)).is_ok());
    assert!(rt; out.as_slice() == b"\x00\x00\x00\x05abcde\x00\x00\x00\x00".as_slice());
    assert!(rt; deduct_pieces(&cut(alloc, b"abcde", &[2])?, 9) == Some(0));
    assert!(rt; deduct_pieces(&cut(alloc, b"abcde", &[2])?, 8) == None);
    assert!(rt; are(&read(alloc, out.as_slice())?, b"abcde", alloc)?);
    let short = Some(ReadFault::Malformed(Malformed::Short));
    assert!(rt; read(alloc, b"\x00\x00\x00\x03ab").err() == short);
    assert!(rt;
        read(alloc, b"\xff\xff\xff\xff").err() == Some(ReadFault::Malformed(Malformed::Range))
    );
    Ok(())
}

/// Short runs that are copied into a block one after the other stay what they were, also where they fill it and the next one
/// begins another, of 256 bytes and then up to 4,096: 12,300 bytes in all.
#[test]
fn parts_of_a_block_stay_what_they_were(rt: HostRuntime) -> Result<(), Fail> {
    let alloc = rt.alloc();
    let mut block = Block::new(alloc);
    let mut parts = Vec::new(alloc);
    for _ in 0..300 {
        for len in [0, 15, 26] {
            parts.push(block.copy(&ALPHABET[..len])?)?;
        }
    }
    let long = [b'z'; 9_000];
    parts.push(block.copy(&long)?)?;
    parts.push(block.copy(ALPHABET)?)?;
    for (place, part) in parts.iter().enumerate() {
        let wanted = match place {
            900 => long.as_slice(),
            901 => ALPHABET,
            _ => &ALPHABET[..[0, 15, 26][place % 3]],
        };
        assert!(rt; part.as_slice() == wanted);
    }
    Ok(())
}
