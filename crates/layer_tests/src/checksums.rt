//! CRC-32C by the vectors of RFC 3720 (appendix B.4), and of each length beside a plain way to compute it.

use record_batch::crc32c;
use std::test::Fail;

/// 32 bytes of each kind.
const ZEROS: &str = "0000000000000000000000000000000000000000000000000000000000000000";

const ONES: &str = "ffffffffffffffffffffffffffffffffffffffffffffffffffffffffffffffff";

const ASCENDING: &str = "000102030405060708090a0b0c0d0e0f101112131415161718191a1b1c1d1e1f";

const DESCENDING: &str = "1f1e1d1c1b1a191817161514131211100f0e0d0c0b0a09080706050403020100";

/// The 48 bytes of a SCSI read command.
const READ_COMMAND: &str =
    "01c0000000000000000000000000000014000000000004000000001400000018280000000000000002000000\
    00000000";

/// CRC-32C has the values that RFC 3720 lists (appendix B.4), and 0xe3069283 for `123456789`.
#[test]
fn known_checksums(rt: HostRuntime) -> Result<(), Fail> {
    for (digits, checksum) in [
        ("313233343536373839", 0xe306_9283),
        ("", 0),
        (ZEROS, 0x8a91_36aa),
        (ONES, 0x62a8_ab43),
        (ASCENDING, 0x46dd_794e),
        (DESCENDING, 0x113f_db5c),
        (READ_COMMAND, 0xd996_3a56),
    ] {
        let bytes = hex::decode(rt.alloc(), digits)?;
        assert_eq!(rt; crc32c(bytes.as_slice()), checksum, "{digits}");
    }
    Ok(())
}

/// CRC-32C, computed bit by bit without a table.
fn bit_by_bit(bytes: &[u8]) -> u32 {
    let mut remainder: u32 = 0xffff_ffff;
    for byte in bytes {
        remainder ^= *byte as u32;
        for _ in 0..8 {
            let is_odd = remainder & 1 == 1;
            remainder >>= 1;
            if is_odd {
                remainder ^= 0x82f6_3b78;
            }
        }
    }
    remainder ^ 0xffff_ffff
}

/// The checksum is that of the plain computation for each length up to 200: up to eight triples of words, with each number of
/// words and of bytes after them.
#[test]
fn checksums_of_all_lengths(rt: HostRuntime) -> Result<(), Fail> {
    let mut bytes = Vec::new(rt.alloc());
    for length in 0..=200u32 {
        let checksum = bit_by_bit(bytes.as_slice());
        assert_eq!(rt; crc32c(bytes.as_slice()), checksum, "{length} bytes");
        bytes.push((length * 167 % 251) as u8)?;
    }
    Ok(())
}
