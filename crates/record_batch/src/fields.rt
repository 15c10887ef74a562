//! A batch's fields, each of which is read from its bytes when it is asked for, but for the base offset and the leader epoch of a
//! batch in its place.

ghost use Rattle.std.specs.Prelude.{◌≡◌};
ghost use Rattle.record_batch.specs.BatchHeader.{is_transactional, is_control};

use crate::batch::Batch;
use crate::transaction_result::TransactionResult;

impl Batch {
    /// How many of the batch's bytes follow this field.
    pub fn batch_length(&self) -> i32
        ensures { result ≡ self.now.header.batch_length }
    {
        self.header().batch_length
    }

    /// The epoch of the partition's leader, as the header holds it: whatever the producer sent, and 0 once this broker stores the
    /// batch.
    pub fn partition_leader_epoch(&self) -> i32
        ensures { result ≡ self.now.header.partition_leader_epoch }
    {
        self.header().partition_leader_epoch
    }

    /// The message format, which is 2.
    pub fn magic(&self) -> i8
        ensures { result ≡ self.now.header.magic }
    {
        self.header().magic
    }

    /// The header's checksum: the CRC-32C of the bytes from the attributes on.
    pub fn crc(&self) -> u32
        ensures { result ≡ self.now.header.crc }
    {
        self.header().crc
    }

    /// The attribute bits, 0 the lowest: compression type (0 to 2), timestamp type (3), transactional (4), control batch (5).
    pub fn attributes(&self) -> i16
        ensures { result ≡ self.now.header.attributes }
    {
        self.header().attributes
    }

    /// The timestamp in milliseconds that the records' timestamp deltas count from.
    pub fn base_timestamp(&self) -> i64
        ensures { result ≡ self.now.header.base_timestamp }
    {
        self.header().base_timestamp
    }

    /// The greatest timestamp of a record, in milliseconds, as the header tells it. It isn't compared with the records.
    pub fn max_timestamp(&self) -> i64
        ensures { result ≡ self.now.header.max_timestamp }
    {
        self.header().max_timestamp
    }

    /// The producer id, or -1 where the producer is not idempotent.
    pub fn producer_id(&self) -> i64
        ensures { result ≡ self.now.header.producer_id }
    {
        self.header().producer_id
    }

    /// The producer's epoch, or whatever the header holds (-1 from most clients) where the producer id is -1.
    pub fn producer_epoch(&self) -> i16
        ensures { result ≡ self.now.header.producer_epoch }
    {
        self.header().producer_epoch
    }

    /// The sequence number of the first record; -1 in a control batch, and whatever the header holds where the producer id is -1.
    pub fn base_sequence(&self) -> i32
        ensures { result ≡ self.now.header.base_sequence }
    {
        self.header().base_sequence
    }

    /// The number of records, at least 1.
    pub fn record_count(&self) -> i32
        ensures { result ≡ self.now.header.record_count }
    {
        self.header().record_count
    }

    /// Whether the batch is part of a transaction.
    pub fn is_transactional(&self) -> bool
        ensures { result ≡ is_transactional self.now.header }
    {
        self.header().is_transactional()
    }

    /// Whether the batch is a control batch: a transaction marker and no data.
    pub fn is_control(&self) -> bool
        ensures { result ≡ is_control self.now.header }
    {
        self.header().is_control()
    }
}
