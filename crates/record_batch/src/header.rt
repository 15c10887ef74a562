//! The header of a batch.

ghost use Rattle.std.specs.Prelude.{◌≡◌, ◌↔◌, IsTrue, ◌<◌, ◌≤◌, Ok, Err, IfNone, IfSome, IsSome, length, drop, FitsSigned};
ghost use Rattle.std.specs.Int.{w64};
ghost use Rattle.wire_types.specs.declared.fault.Malformed.{Malformed};
ghost use Rattle.wire_types.specs.Reading.{Takes};
ghost use Rattle.record_batch.specs.BatchHeader.{batch_header, has_bit, is_uncompressed, has_append_time, is_transactional, is_control, count_of, header_next_offset, header_at};

use wire_types::{Cursor, Malformed};

/// The fields before a batch's records, in their order on the wire and with their values there. None of them is checked by
/// itself.
#[derive(Clone, Copy, Debug, PartialEq, Eq)]
pub struct BatchHeader {
    pub base_offset: i64,
    /// How many bytes of the batch follow this field.
    pub batch_length: i32,
    pub partition_leader_epoch: i32,
    pub magic: i8,
    /// The CRC-32C of the bytes from the attributes on.
    pub crc: u32,
    /// Bits: compression type (0 to 2), timestamp type (3), transactional (4), control batch (5).
    pub attributes: i16,
    pub last_offset_delta: i32,
    pub base_timestamp: i64,
    pub max_timestamp: i64,
    pub producer_id: i64,
    pub producer_epoch: i16,
    pub base_sequence: i32,
    pub record_count: i32,
}

impl BatchHeader {
    /// Reads the header's 61 bytes. `Malformed::Short` if fewer are left. No field is checked.
    pub(crate) fn read(cursor: &mut Cursor<'_>) -> Result<BatchHeader, Malformed>
        ensures { Takes (batch_header.reading cursor.old) result cursor.new }
    {
        let base_offset = cursor.read_i64()?;
        let batch_length = cursor.read_i32()?;
        let partition_leader_epoch = cursor.read_i32()?;
        let magic = cursor.read_i8()?;
        let crc = cursor.read_u32()?;
        let attributes = cursor.read_i16()?;
        let last_offset_delta = cursor.read_i32()?;
        let base_timestamp = cursor.read_i64()?;
        let max_timestamp = cursor.read_i64()?;
        let producer_id = cursor.read_i64()?;
        let producer_epoch = cursor.read_i16()?;
        let base_sequence = cursor.read_i32()?;
        let record_count = cursor.read_i32()?;
        Ok(BatchHeader {
            base_offset,
            batch_length,
            partition_leader_epoch,
            magic,
            crc,
            attributes,
            last_offset_delta,
            base_timestamp,
            max_timestamp,
            producer_id,
            producer_epoch,
            base_sequence,
            record_count,
        })
    }

    /// The header in the first 61 bytes, or None where there are fewer. No field is checked.
    pub(crate) fn first_of(bytes: &[u8]) -> Option<BatchHeader>
        ensures none { IfNone result ((e : Malformed) × (batch_header.reading bytes.now ≡ Err e)) }
        ensures some { IfSome result (λ h.
            batch_header.reading bytes.now ≡ Ok (h, drop 61 bytes.now)) }
        ensures long { IsSome result → 61 ≤ length bytes.now }
    {
        let mut cursor = Cursor::new(bytes);
        match BatchHeader::read(&mut cursor) {
            Ok(header) => Some(header),
            Err(_) => None,
        }
    }

    /// Whether this bit of the attributes is set. Bit 0 is the lowest of 16.
    fn has_bit(&self, bit: u32) -> bool
        requires { bit < 16 }
        ensures { result ≡ has_bit bit self.now }
    {
        (self.attributes.cast_unsigned() >> bit) % 2 == 1
    }

    /// Whether the compression type is none: the attributes' three lowest bits are 0.
    pub fn is_uncompressed(&self) -> bool
        ensures { result ≡ is_uncompressed self.now }
    {
        self.attributes.cast_unsigned() % 8 == 0
    }

    /// Whether the timestamp type is LogAppendTime (attribute bit 3) instead of CreateTime.
    pub fn has_append_time(&self) -> bool
        ensures { result ≡ has_append_time self.now }
    {
        self.has_bit(3)
    }

    /// Whether the batch is part of a transaction (attribute bit 4).
    pub fn is_transactional(&self) -> bool
        ensures { result ≡ is_transactional self.now }
    {
        self.has_bit(4)
    }

    /// Whether the batch is a control batch (attribute bit 5).
    pub fn is_control(&self) -> bool
        ensures { result ≡ is_control self.now }
    {
        self.has_bit(5)
    }

    /// The record count, or 0 where it is negative.
    pub(crate) fn count(&self) -> u32
        ensures { result ≡ count_of self.now.record_count }
    {
        if self.record_count < 0 {
            return 0;
        }
        self.record_count as u32
    }

    /// Whether the offset after the last record fits in an `i64`.
    pub(crate) fn has_offsets(&self) -> bool
        ensures { IsTrue result ↔ FitsSigned w64 (header_next_offset self.now) }
    {
        let count = i64::from(self.last_offset_delta) + 1;
        match self.base_offset.checked_add(count) {
            Some(_) => true,
            None => false,
        }
    }

    /// The offset after the last record's. `has_offsets` has to hold.
    pub(crate) fn next_offset(&self) -> i64
        requires { FitsSigned w64 (header_next_offset self.now) }
        ensures { result ≡ header_next_offset self.now }
    {
        self.base_offset + (i64::from(self.last_offset_delta) + 1)
    }

    /// The header of the same batch with this base offset, and with the partition leader epoch 0.
    pub(crate) fn at(&self, offset: i64) -> BatchHeader
        ensures { result ≡ header_at offset self.now }
    {
        BatchHeader {
            base_offset: offset,
            partition_leader_epoch: 0,
            ..*self
        }
    }
}
