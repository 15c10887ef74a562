//! CRC-32C (RFC 3720), by tables: three words of eight bytes side by side where there are enough, else word by word. A remainder
//! here is one of CRC-32C without the inversions at start and end.

ghost use Rattle.std.specs.Prelude.{◌≡◌, ℕ, ◌<◌, ◌^◌, ◌/◌, ◌%◌, bit_xor};
ghost use Rattle.std.specs.List.{concat, flat_map};
ghost use Rattle.record_batch.specs.Crc.{crc_step, crc_after, crc32c, bit_shift_by};

use crate::far_table::far_byte_remainder;
use crate::table::byte_remainder;

/// The CRC-32C remainder of a word's eight bytes, the lowest one first, without the inversions at start and end.
#[inline(always)]
#[tactic(auto, using(crate::proofs::Chunks::word_by_bytes))]
fn word_remainder(word: u64) -> u32
    ensures { result ≡ bit_shift_by 64 word }
{
    byte_remainder((word & 0xff) as u8, 7)
        ^ byte_remainder((word >> 8 & 0xff) as u8, 6)
        ^ byte_remainder((word >> 16 & 0xff) as u8, 5)
        ^ byte_remainder((word >> 24 & 0xff) as u8, 4)
        ^ byte_remainder((word >> 32 & 0xff) as u8, 3)
        ^ byte_remainder((word >> 40 & 0xff) as u8, 2)
        ^ byte_remainder((word >> 48 & 0xff) as u8, 1)
        ^ byte_remainder((word >> 56) as u8, 0)
}

/// As `word_remainder`, but with 16 zero bytes after the eight.
#[inline(always)]
#[tactic(auto, using(crate::proofs::Chunks::far_word_by_bytes))]
fn far_word_remainder(word: u64) -> u32
    ensures { result ≡ bit_shift_by 192 word }
{
    far_byte_remainder((word & 0xff) as u8, 7)
        ^ far_byte_remainder((word >> 8 & 0xff) as u8, 6)
        ^ far_byte_remainder((word >> 16 & 0xff) as u8, 5)
        ^ far_byte_remainder((word >> 24 & 0xff) as u8, 4)
        ^ far_byte_remainder((word >> 32 & 0xff) as u8, 3)
        ^ far_byte_remainder((word >> 40 & 0xff) as u8, 2)
        ^ far_byte_remainder((word >> 48 & 0xff) as u8, 1)
        ^ far_byte_remainder((word >> 56) as u8, 0)
}

/// Eight bytes as one word, the first byte lowest. `word_remainder` of this word XOR a remainder is the remainder after these
/// bytes.
#[inline(always)]
fn word_of(bytes: &[u8; 8]) -> u64
    ensures { (crc : ℕ) → bit_shift_by 64 (bit_xor crc result) ≡ crc_after crc bytes.now }
{
    u64::from_le_bytes(*bytes)
}

/// The CRC-32C remainder, without the inversions, after eight more bytes, where it was `crc` before them.
#[inline(always)]
fn after_chunk(crc: u32, chunk: &[u8; 8]) -> u32
    ensures { result ≡ crc_after crc chunk.now }
{
    word_remainder(crc as u64 ^ word_of(chunk))
}

/// The CRC-32C remainder, without the inversions, after more chunks of eight bytes, where it was `crc` before them.
fn after_chunks(crc: u32, chunks: &[[u8; 8]]) -> u32
    ensures { result ≡ crc_after crc (concat chunks.now) }
{
    let mut remainder = crc;
    for chunk in chunks {
        remainder = after_chunk(remainder, chunk);
    }
    remainder
}

/// The CRC-32C remainder, without the inversions, after one more byte, where it was `crc` before it.
#[inline(always)]
#[tactic(auto, using(crate::proofs::Bits::step_by_table))]
fn after_byte(crc: u32, byte: u8) -> u32
    ensures { result ≡ crc_step crc byte }
{
    byte_remainder(((crc ^ byte as u32) & 0xff) as u8, 0) ^ (crc >> 8)
}

/// The CRC-32C remainder, without the inversions, after more bytes, taken one by one, where it was `crc` before them.
fn after_bytes(crc: u32, bytes: &[u8]) -> u32
    ensures { result ≡ crc_after crc bytes.now }
{
    let mut remainder = crc;
    for byte in bytes {
        remainder = after_byte(remainder, *byte);
    }
    remainder
}

/// The CRC-32C remainder, without the inversions, after more triples of eight-byte words, where it was `crc` before them. It
/// keeps three remainders, of the first, second and third words, so that no table look-up waits for those of another one, and
/// joins them at the end.
fn after_triples(crc: u32, triples: &[[[u8; 8]; 3]]) -> u32
    ensures { result ≡ crc_after crc (flat_map concat triples.now) }
{
    let Some(([one, two, three], triples)) = triples.split_first() else {
        return crc;
    };
    let mut first = crc as u64 ^ word_of(one);
    let mut second = word_of(two);
    let mut third = word_of(three);
    for [one, two, three] in triples {
        first = far_word_remainder(first) as u64 ^ word_of(one);
        second = far_word_remainder(second) as u64 ^ word_of(two);
        third = far_word_remainder(third) as u64 ^ word_of(three);
    }
    let remainder = word_remainder(first);
    let remainder = word_remainder(remainder as u64 ^ second);
    word_remainder(remainder as u64 ^ third)
}

/// The CRC-32C of bytes, taken in words of eight bytes and the rest one by one.
#[inline(always)]
fn crc32c_by_words(bytes: &[u8]) -> u32
    ensures { result ≡ crc32c bytes.now }
{
    let (chunks, rest) = bytes.as_chunks::<8>();
    after_bytes(after_chunks(0xffff_ffff, chunks), rest) ^ 0xffff_ffff
}

/// The CRC-32C of bytes, taken in triples of words, then in words, and the rest one by one. It isn't inlined, so that short
/// inputs, which don't come here, don't pay for its saved registers.
#[inline(never)]
fn crc32c_by_triples(bytes: &[u8]) -> u32
    ensures { result ≡ crc32c bytes.now }
{
    let (chunks, rest) = bytes.as_chunks::<8>();
    let (triples, chunks) = chunks.as_chunks::<3>();
    let remainder = after_triples(0xffff_ffff, triples);
    after_bytes(after_chunks(remainder, chunks), rest) ^ 0xffff_ffff
}

/// The CRC-32C of bytes (RFC 3720), which is the checksum of a record batch.
#[inline]
pub fn crc32c(bytes: &[u8]) -> u32
    ensures { result ≡ crc32c bytes.now }
{
    // fewer than two triples have nothing to do side by side
    if bytes.len() < 48 {
        crc32c_by_words(bytes)
    } else {
        crc32c_by_triples(bytes)
    }
}
