//! The fields of the messages about topics and their data.

use crate::codes::{acks_name, timestamp_name};
use crate::records::push_records;
use crate::sheet::{Fields, Sheet};
use crate::topics::{TopicNames, push_topics};
use msg_data::{
    AbortedTransaction, BrokerInfo, FetchPartition, FetchReply, FetchRequest, FetchedRecords,
    FoundOffset, Isolation, ListOffsetsReply, ListOffsetsRequest, MetadataReply, MetadataRequest,
    PartitionInfo, ProduceReply, ProduceRequest, ProducedOffset, ProducedRecords, TopicInfo,
    WantedOffset,
};
use std::alloc::AllocError;
use wire_types::Text;

impl Fields for ProducedRecords {
    /// Appends a partition of a Produce request: its index, and its record batches, or `null`.
    fn push_fields(&self, sheet: &mut Sheet) -> Result<(), AllocError> {
        sheet.push("index", self.index)?;
        match &self.records {
            Some(records) => push_records(sheet, records.bytes()),
            None => sheet.push("records", "null"),
        }
    }
}

impl Fields for ProduceRequest {
    /// Appends the request: its transactional id, acks and timeout, and the record batches of each partition.
    fn push_fields(&self, sheet: &mut Sheet) -> Result<(), AllocError> {
        let names = TopicNames {
            list: "topic_data",
            name: "name",
            partitions: "partition_data",
        };
        match &self.transactional_id {
            Some(id) => sheet.push_text("transactional_id", id.value())?,
            None => sheet.push("transactional_id", "null")?,
        }
        sheet.push_coded("acks", self.acks, acks_name(self.acks))?;
        sheet.push("timeout_ms", self.timeout)?;
        push_topics(sheet, names, self.topics.as_slice())
    }
}

impl Fields for ProducedOffset {
    /// Appends a partition of a Produce response: its index, its error, the base offset, and the log append time.
    fn push_fields(&self, sheet: &mut Sheet) -> Result<(), AllocError> {
        sheet.push("index", self.index)?;
        sheet.push_error("error_code", self.error)?;
        sheet.push("base_offset", self.base_offset)?;
        sheet.push("log_append_time_ms", self.log_append_time)
    }
}

impl Fields for ProduceReply {
    /// Appends the response: the result of each partition, and the throttle time.
    fn push_fields(&self, sheet: &mut Sheet) -> Result<(), AllocError> {
        let names = TopicNames {
            list: "responses",
            name: "name",
            partitions: "partition_responses",
        };
        push_topics(sheet, names, self.topics.as_slice())?;
        sheet.push("throttle_time_ms", self.throttle)
    }
}

/// Appends the field `isolation_level`: its number and its name.
fn push_isolation(sheet: &mut Sheet, isolation: Isolation) -> Result<(), AllocError> {
    match isolation {
        Isolation::ReadUncommitted => sheet.push("isolation_level", "0 read_uncommitted"),
        Isolation::ReadCommitted => sheet.push("isolation_level", "1 read_committed"),
    }
}

impl Fields for FetchPartition {
    /// Appends a partition of a Fetch request: its index, from which offset it is read, and how many bytes at most.
    fn push_fields(&self, sheet: &mut Sheet) -> Result<(), AllocError> {
        sheet.push("partition", self.index)?;
        sheet.push("fetch_offset", self.offset)?;
        sheet.push("partition_max_bytes", self.max_bytes)
    }
}

impl Fields for FetchRequest {
    /// Appends the request: its replica id, its limits of time and bytes, its isolation level, and its partitions.
    fn push_fields(&self, sheet: &mut Sheet) -> Result<(), AllocError> {
        let names = TopicNames {
            list: "topics",
            name: "topic",
            partitions: "partitions",
        };
        sheet.push("replica_id", self.replica)?;
        sheet.push("max_wait_ms", self.max_wait)?;
        sheet.push("min_bytes", self.min_bytes)?;
        sheet.push("max_bytes", self.max_bytes)?;
        push_isolation(sheet, self.isolation)?;
        push_topics(sheet, names, self.topics.as_slice())
    }
}

impl Fields for AbortedTransaction {
    /// Appends an aborted transaction of a Fetch response: its producer id, and its first offset.
    fn push_fields(&self, sheet: &mut Sheet) -> Result<(), AllocError> {
        sheet.push("producer_id", self.producer)?;
        sheet.push("first_offset", self.first_offset)
    }
}

impl Fields for FetchedRecords {
    /// Appends a partition of a Fetch response: its index, its error, its high watermark and last stable offset, its aborted
    /// transactions and its record batches, for which the records are copied together.
    fn push_fields(&self, sheet: &mut Sheet) -> Result<(), AllocError> {
        sheet.push("partition_index", self.index)?;
        sheet.push_error("error_code", self.error)?;
        sheet.push("high_watermark", self.high_watermark)?;
        sheet.push("last_stable_offset", self.last_stable_offset)?;
        sheet.push_nullable_list("aborted_transactions", &self.aborted)?;
        let records = self.records.to_bytes(sheet.alloc())?;
        push_records(sheet, &records)
    }
}

impl Fields for FetchReply {
    /// Appends the response: its throttle time, and what was fetched of each partition.
    fn push_fields(&self, sheet: &mut Sheet) -> Result<(), AllocError> {
        let names = TopicNames {
            list: "responses",
            name: "topic",
            partitions: "partitions",
        };
        sheet.push("throttle_time_ms", self.throttle)?;
        push_topics(sheet, names, self.topics.as_slice())
    }
}

impl Fields for WantedOffset {
    /// Appends a partition of a ListOffsets request: its index, and the timestamp whose offset is asked for.
    fn push_fields(&self, sheet: &mut Sheet) -> Result<(), AllocError> {
        sheet.push("partition_index", self.index)?;
        sheet.push_coded("timestamp", self.timestamp, timestamp_name(self.timestamp))
    }
}

impl Fields for ListOffsetsRequest {
    /// Appends the request: its replica id, its isolation level, and its partitions.
    fn push_fields(&self, sheet: &mut Sheet) -> Result<(), AllocError> {
        sheet.push("replica_id", self.replica)?;
        push_isolation(sheet, self.isolation)?;
        push_topics(sheet, TopicNames::USUAL, self.topics.as_slice())
    }
}

impl Fields for FoundOffset {
    /// Appends a partition of a ListOffsets response: its index, its error, and the timestamp and the offset that were found.
    fn push_fields(&self, sheet: &mut Sheet) -> Result<(), AllocError> {
        sheet.push("partition_index", self.index)?;
        sheet.push_error("error_code", self.error)?;
        sheet.push("timestamp", self.timestamp)?;
        sheet.push("offset", self.offset)
    }
}

impl Fields for ListOffsetsReply {
    /// Appends the response: its throttle time, and the offset of each partition.
    fn push_fields(&self, sheet: &mut Sheet) -> Result<(), AllocError> {
        sheet.push("throttle_time_ms", self.throttle)?;
        push_topics(sheet, TopicNames::USUAL, self.topics.as_slice())
    }
}

/// The name of a topic in a Metadata request.
impl Fields for Text {
    /// Appends the topic's name.
    fn push_fields(&self, sheet: &mut Sheet) -> Result<(), AllocError> {
        sheet.push_text("name", self)
    }
}

impl Fields for MetadataRequest {
    /// Appends the names of the topics that are asked for; `null` asks for all of them.
    fn push_fields(&self, sheet: &mut Sheet) -> Result<(), AllocError> {
        sheet.push_nullable_list("topics", &self.topics)
    }
}

impl Fields for BrokerInfo {
    /// Appends a broker of a Metadata response: its node id, its host and port, and its rack.
    fn push_fields(&self, sheet: &mut Sheet) -> Result<(), AllocError> {
        sheet.push("node_id", self.node)?;
        sheet.push_text("host", &self.host)?;
        sheet.push("port", self.port)?;
        sheet.push_nullable("rack", &self.rack)
    }
}

impl Fields for PartitionInfo {
    /// Appends a partition of a Metadata response: its error, its index, its leader, its replicas, and those in sync.
    fn push_fields(&self, sheet: &mut Sheet) -> Result<(), AllocError> {
        sheet.push_error("error_code", self.error)?;
        sheet.push("partition_index", self.index)?;
        sheet.push("leader_id", self.leader)?;
        sheet.push_numbers("replica_nodes", self.replicas.value().as_slice())?;
        sheet.push_numbers("isr_nodes", self.in_sync.value().as_slice())
    }
}

impl Fields for TopicInfo {
    /// Appends a topic of a Metadata response: its error, its name, whether it is internal, and its partitions.
    fn push_fields(&self, sheet: &mut Sheet) -> Result<(), AllocError> {
        sheet.push_error("error_code", self.error)?;
        sheet.push_text("name", &self.name)?;
        sheet.push("is_internal", self.internal)?;
        sheet.push_list("partitions", self.partitions.value().as_slice())
    }
}

impl Fields for MetadataReply {
    /// Appends the response: the brokers, the controller and the topics.
    fn push_fields(&self, sheet: &mut Sheet) -> Result<(), AllocError> {
        sheet.push_list("brokers", self.brokers.value().as_slice())?;
        sheet.push("controller_id", self.controller)?;
        sheet.push_list("topics", self.topics.as_slice())
    }
}
