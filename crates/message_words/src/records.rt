//! Record batches one after the other, with their records.

use crate::codes::compression_name;
use crate::sheet::{Fields, Sheet};
use record_batch::{Batch, BatchFault, BatchHeader, Header, RecordAt};
use std::alloc::{AllocError, Global};
use std::fmt::Display;
use wire_types::{Bytes, Cursor, Items, Malformed, ReadFault, read_varint_array};

/// The bytes of a batch up to its length, that field included.
const BATCH_START: usize = 12;

/// The least length that a batch can state: that of its header after the length field.
const LEAST_LENGTH: i32 = 49;

/// The message format whose batches are read.
const MAGIC: i8 = 2;

/// The bytes of a whole batch, and those after it.
#[derive(Drop)]
struct FirstBatch {
    batch: Bytes,
    rest: Bytes,
}

impl Fields for Header {
    /// Appends a record's header: its key and its value.
    fn push_fields(&self, sheet: &mut Sheet) -> Result<(), AllocError> {
        sheet.push_bytes("key", self.key.as_slice())?;
        sheet.push_nullable_bytes("value", &self.value)
    }
}

impl Fields for RecordAt {
    /// Appends a record: its offset, its timestamp delta, its key, its value and its headers.
    fn push_fields(&self, sheet: &mut Sheet) -> Result<(), AllocError> {
        sheet.push("offset", self.offset)?;
        sheet.push("timestamp_delta", self.rec.timestamp_delta)?;
        sheet.push_nullable_bytes("key", &self.rec.key)?;
        sheet.push_nullable_bytes("value", &self.rec.value)?;
        sheet.push_list("headers", self.rec.headers.as_slice())
    }
}

/// Reads the header of a record batch (message format version 2), from its base offset to its record count, and checks none of
/// it. The error is `Short`.
fn read_header(cursor: &mut Cursor<'_>) -> Result<BatchHeader, Malformed> {
    let base_offset = cursor.read_i64()?;
    let batch_length = cursor.read_i32()?;
    let partition_leader_epoch = cursor.read_i32()?;
    let magic = cursor.read_i8()?;
    let crc = cursor.read_u32()?;
    let attributes = cursor.read_i16()?;
    let last_offset_delta = cursor.read_i32()?;
    let base_timestamp = cursor.read_i64()?;
    let max_timestamp = cursor.read_i64()?;
    let producer_id = cursor.read_i64()?;
    let producer_epoch = cursor.read_i16()?;
    let base_sequence = cursor.read_i32()?;
    let record_count = cursor.read_i32()?;
    Ok(BatchHeader {
        base_offset,
        batch_length,
        partition_leader_epoch,
        magic,
        crc,
        attributes,
        last_offset_delta,
        base_timestamp,
        max_timestamp,
        producer_id,
        producer_epoch,
        base_sequence,
        record_count,
    })
}

/// A batch's attributes as a number, and a word for each one that is set: `transactional`, `control`, `log_append_time`, and the
/// codec.
fn attributes_text(alloc: Global, header: &BatchHeader) -> Result<String, AllocError> {
    let number = header.attributes;
    let mut text = format!(in alloc; "{number}")?;
    if header.is_transactional() {
        text.push_str(" transactional")?;
    }
    if header.is_control() {
        text.push_str(" control")?;
    }
    if header.has_append_time() {
        text.push_str(" log_append_time")?;
    }
    if !header.is_uncompressed() {
        text.push_str(" ")?;
        text.push_str(compression_name(number.cast_unsigned() % 8))?;
    }
    Ok(text)
}

/// The fields before the records, but those that only say how the batch is read.
impl Fields for BatchHeader {
    /// Appends a batch header's fields. The batch length, the magic, the checksum and the record count, which only say how a
    /// batch is read, are left out.
    fn push_fields(&self, sheet: &mut Sheet) -> Result<(), AllocError> {
        let attributes = attributes_text(sheet.alloc(), self)?;
        sheet.push("base_offset", self.base_offset)?;
        sheet.push("partition_leader_epoch", self.partition_leader_epoch)?;
        sheet.push("attributes", attributes)?;
        sheet.push("last_offset_delta", self.last_offset_delta)?;
        sheet.push("base_timestamp", self.base_timestamp)?;
        sheet.push("max_timestamp", self.max_timestamp)?;
        sheet.push("producer_id", self.producer_id)?;
        sheet.push("producer_epoch", self.producer_epoch)?;
        sheet.push("base_sequence", self.base_sequence)
    }
}

/// Reads the record of a control batch to the end of the bytes, and gives the type in its key: 0 for an abort, 1 for a commit.
/// The fault says what is malformed, or that an allocation failed.
fn read_marker(alloc: Global, cursor: &mut Cursor<'_>) -> Result<i16, ReadFault> {
    cursor.read_varint_count()?;
    cursor.read_i8()?;
    cursor.read_varlong()?;
    cursor.read_varint()?;
    let key = cursor.read_varint_bytes(alloc)?;
    cursor.read_varint_nullable_bytes(alloc)?;
    let _headers: Items<Header> = read_varint_array(alloc, cursor)?;
    if cursor.len() != 0 {
        return Err(ReadFault::Malformed(Malformed::Rest));
    }
    let mut key = Cursor::over(&key);
    key.read_i16()?;
    Ok(key.read_i16()?)
}

/// Appends the field `marker`: how a transaction ended, `abort` or `commit`, or the number of another type of control record.
fn push_outcome(sheet: &mut Sheet, kind: i16) -> Result<(), AllocError> {
    match kind {
        0 => sheet.push("marker", "abort"),
        1 => sheet.push("marker", "commit"),
        _ => sheet.push("marker", kind),
    }
}

/// Appends a field `records` that says why `count` bytes of records can't be read; `why` stands there raw.
fn push_unread<D: Display + Drop>(
    sheet: &mut Sheet,
    count: usize,
    why: D,
) -> Result<(), AllocError> {
    let text = format!(in sheet.alloc(); "{count} bytes that can't be read: {why}")?;
    sheet.push("records", text)
}

/// Appends the field `records` of a control batch: the marker that ends a transaction, or why it can't be read. `cursor` stands
/// after the batch's header.
fn push_marker(
    sheet: &mut Sheet,
    header: &BatchHeader,
    cursor: &mut Cursor<'_>,
) -> Result<(), AllocError> {
    let count = cursor.len();
    let kind = match read_marker(sheet.alloc(), cursor) {
        Ok(kind) => kind,
        Err(ReadFault::Malformed(fault)) => return push_unread(sheet, count, fault),
        Err(ReadFault::NoMemory) => return Err(AllocError),
    };
    sheet.begin("records")?;
    sheet.begin_entry();
    sheet.push("offset", header.base_offset)?;
    push_outcome(sheet, kind)?;
    sheet.end();
    sheet.end();
    Ok(())
}

/// Appends the field `records` of a batch that is no control batch: its records, or why the `count` bytes after its header can't
/// be read.
fn push_data(sheet: &mut Sheet, batch: &Bytes, count: usize) -> Result<(), AllocError> {
    match Batch::check(batch.clone()?, u32::MAX) {
        Ok(batch) => {
            if batch.has_offsets() {
                let records = batch.recs(sheet.alloc())?;
                sheet.push_list("records", records.as_slice())
            } else {
                push_unread(sheet, count, "their offsets are out of range")
            }
        }
        Err(fault) => push_unread(sheet, count, fault),
    }
}

/// Appends a record batch: the fields of its header and its records, or why they can't be read; or else a line that says why the
/// bytes are no batch. The records of a compressed batch can't be read.
fn push_batch(sheet: &mut Sheet, batch: &Bytes) -> Result<(), AllocError> {
    let mut cursor = Cursor::over(batch);
    let Ok(header) = read_header(&mut cursor) else {
        return push_no_batch(sheet, batch, BatchFault::Length);
    };
    if header.magic != MAGIC {
        return push_no_batch(sheet, batch, BatchFault::Magic);
    }
    header.push_fields(sheet)?;
    if header.is_control() && header.is_uncompressed() {
        push_marker(sheet, &header, &mut cursor)
    } else {
        push_data(sheet, batch, cursor.len())
    }
}

/// Appends a line that says why bytes are no record batch.
fn push_no_batch(sheet: &mut Sheet, bytes: &Bytes, fault: BatchFault) -> Result<(), AllocError> {
    let count = bytes.len();
    let line = format!(in sheet.alloc(); "{count} bytes that are no batch: {fault}")?;
    sheet.push_line(line.as_str())
}

/// How many bytes the first of these batches has by its length field, that field and the base offset included; `None` where the
/// length is too small for a batch header, or fewer bytes are left.
fn first_length(bytes: &Bytes) -> Option<usize> {
    let mut cursor = Cursor::over(bytes);
    cursor.read_i64().ok()?;
    let length = cursor.read_i32().ok()?;
    if length < LEAST_LENGTH {
        return None;
    }
    let end = BATCH_START.saturating_add(length as usize);
    if end <= bytes.len() { Some(end) } else { None }
}

/// Cuts off the first batch, by its length field; `None` where the bytes begin with no whole batch.
fn split_first(bytes: &Bytes) -> Result<Option<FirstBatch>, AllocError> {
    let Some(end) = first_length(bytes) else {
        return Ok(None);
    };
    let end = end.min(bytes.len());
    Ok(Some(FirstBatch {
        batch: bytes.slice(0..end)?,
        rest: bytes.slice(end..bytes.len())?,
    }))
}

/// Appends an entry for the first batch, and gives the bytes after it. Where the bytes begin with no whole batch, the entry says
/// so, and no bytes are given.
fn push_first(sheet: &mut Sheet, bytes: &Bytes) -> Result<Bytes, AllocError> {
    sheet.begin_entry();
    let rest = match split_first(bytes)? {
        Some(FirstBatch { batch, rest }) => {
            push_batch(sheet, &batch)?;
            rest
        }
        None => {
            push_no_batch(sheet, bytes, BatchFault::Length)?;
            Bytes::new()
        }
    };
    sheet.end();
    Ok(rest)
}

/// Appends the field `records`: an entry for each record batch, with its records. Where the bytes after a batch are no whole
/// batch, a last entry says so.
pub(crate) fn push_records(sheet: &mut Sheet, records: &Bytes) -> Result<(), AllocError> {
    if records.is_empty() {
        return sheet.push("records", "[]");
    }
    sheet.begin("records")?;
    let mut rest = records.clone()?;
    for _ in 0..records.len() {
        if rest.is_empty() {
            break;
        }
        rest = push_first(sheet, &rest)?;
    }
    sheet.end();
    Ok(())
}
