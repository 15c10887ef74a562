//! The fields of the messages about transactions.

use crate::codes::key_type_name;
use crate::sheet::{Fields, Sheet};
use crate::topics::{TopicNames, push_numbered_topics, push_topics};
use msg_txn::{
    AddOffsetsToTxnReply, AddOffsetsToTxnRequest, AddPartitionsToTxnReply,
    AddPartitionsToTxnRequest, AddedPartition, EndTxnReply, EndTxnRequest, Ended, EndedWithPair,
    FindCoordinatorReply, FindCoordinatorRequest, FlexibleEnded, InitProducerIdReply,
    InitProducerIdRequest, OffsetToStage, StagedOffset, TxnOffsetCommitReply,
    TxnOffsetCommitRequest,
};
use std::alloc::AllocError;

impl Fields for FindCoordinatorRequest {
    /// Appends the request: the group or the transactional id whose coordinator is asked for.
    fn push_fields(&self, sheet: &mut Sheet) -> Result<(), AllocError> {
        sheet.push_text("key", &self.key)?;
        sheet.push_coded("key_type", self.key_type, key_type_name(self.key_type))
    }
}

impl Fields for FindCoordinatorReply {
    /// Appends the response: its throttle time, its error and message, and the broker that is the coordinator.
    fn push_fields(&self, sheet: &mut Sheet) -> Result<(), AllocError> {
        sheet.push("throttle_time_ms", self.throttle)?;
        sheet.push_error("error_code", self.error)?;
        sheet.push_nullable("error_message", &self.message)?;
        sheet.push("node_id", self.node)?;
        sheet.push_text("host", &self.host)?;
        sheet.push("port", self.port)
    }
}

impl Fields for InitProducerIdRequest {
    /// Appends the request: the transactional id, or `null`, and the timeout of its transactions in milliseconds.
    fn push_fields(&self, sheet: &mut Sheet) -> Result<(), AllocError> {
        sheet.push_nullable("transactional_id", &self.transactional_id)?;
        sheet.push("transaction_timeout_ms", self.timeout)
    }
}

impl Fields for InitProducerIdReply {
    /// Appends the response: its throttle time, its error, and the producer's id and epoch.
    fn push_fields(&self, sheet: &mut Sheet) -> Result<(), AllocError> {
        sheet.push("throttle_time_ms", self.throttle)?;
        sheet.push_error("error_code", self.error)?;
        sheet.push("producer_id", self.producer)?;
        sheet.push("producer_epoch", self.epoch)
    }
}

impl Fields for AddPartitionsToTxnRequest {
    /// Appends the request: the transactional id, the producer, and the partitions that its transaction takes in.
    fn push_fields(&self, sheet: &mut Sheet) -> Result<(), AllocError> {
        let names = TopicNames {
            list: "v3_and_below_topics",
            ..TopicNames::USUAL
        };
        sheet.push_text("v3_and_below_transactional_id", &self.transactional_id)?;
        sheet.push("v3_and_below_producer_id", self.producer)?;
        sheet.push("v3_and_below_producer_epoch", self.epoch)?;
        push_numbered_topics(sheet, names, self.topics.as_slice())
    }
}

impl Fields for AddedPartition {
    /// Appends a partition of an AddPartitionsToTxn response: its index and its error.
    fn push_fields(&self, sheet: &mut Sheet) -> Result<(), AllocError> {
        sheet.push("partition_index", self.index)?;
        sheet.push_error("partition_error_code", self.error)
    }
}

impl Fields for AddPartitionsToTxnReply {
    /// Appends the response: its throttle time, and the result of each partition.
    fn push_fields(&self, sheet: &mut Sheet) -> Result<(), AllocError> {
        let names = TopicNames {
            list: "results_by_topic_v3_and_below",
            name: "name",
            partitions: "results_by_partition",
        };
        sheet.push("throttle_time_ms", self.throttle)?;
        push_topics(sheet, names, self.topics.as_slice())
    }
}

impl Fields for AddOffsetsToTxnRequest {
    /// Appends the request: the transactional id, the producer, and the group whose offsets its transaction takes in.
    fn push_fields(&self, sheet: &mut Sheet) -> Result<(), AllocError> {
        sheet.push_text("transactional_id", &self.transactional_id)?;
        sheet.push("producer_id", self.producer)?;
        sheet.push("producer_epoch", self.epoch)?;
        sheet.push_text("group_id", &self.group)
    }
}

impl Fields for AddOffsetsToTxnReply {
    /// Appends the response: its throttle time and its error.
    fn push_fields(&self, sheet: &mut Sheet) -> Result<(), AllocError> {
        sheet.push("throttle_time_ms", self.throttle)?;
        sheet.push_error("error_code", self.error)
    }
}

impl Fields for EndTxnRequest {
    /// Appends the request: the transactional id, the producer, and whether its transaction commits or aborts.
    fn push_fields(&self, sheet: &mut Sheet) -> Result<(), AllocError> {
        let asked = self.asked();
        sheet.push_text("transactional_id", &asked.transactional_id)?;
        sheet.push("producer_id", asked.producer)?;
        sheet.push("producer_epoch", asked.epoch)?;
        sheet.push("committed", asked.committed)
    }
}

impl Fields for Ended {
    /// Appends an EndTxn response of version 0 to 2: its throttle time and its error.
    fn push_fields(&self, sheet: &mut Sheet) -> Result<(), AllocError> {
        sheet.push("throttle_time_ms", self.throttle)?;
        sheet.push_error("error_code", self.error)
    }
}

impl Fields for FlexibleEnded {
    /// Appends an EndTxn response of version 3 or 4: its throttle time and its error.
    fn push_fields(&self, sheet: &mut Sheet) -> Result<(), AllocError> {
        sheet.push("throttle_time_ms", self.throttle)?;
        sheet.push_error("error_code", self.error)
    }
}

impl Fields for EndedWithPair {
    /// Appends an EndTxn response of version 5: its throttle time, its error, and the producer's id and epoch to go on with
    /// (KIP-890).
    fn push_fields(&self, sheet: &mut Sheet) -> Result<(), AllocError> {
        sheet.push("throttle_time_ms", self.throttle)?;
        sheet.push_error("error_code", self.error)?;
        sheet.push("producer_id", self.producer)?;
        sheet.push("producer_epoch", self.epoch)
    }
}

impl Fields for EndTxnReply {
    /// Appends the response, in the form of its version.
    fn push_fields(&self, sheet: &mut Sheet) -> Result<(), AllocError> {
        match self {
            EndTxnReply::Version0(body) => body.push_fields(sheet),
            EndTxnReply::Version1(body) => body.push_fields(sheet),
            EndTxnReply::Version2(body) => body.push_fields(sheet),
            EndTxnReply::Version3(body) => body.push_fields(sheet),
            EndTxnReply::Version4(body) => body.push_fields(sheet),
            EndTxnReply::Version5(body) => body.push_fields(sheet),
        }
    }
}

impl Fields for OffsetToStage {
    /// Appends a partition of a TxnOffsetCommit request: its index, and the offset that is committed with the transaction, its
    /// leader epoch and metadata.
    fn push_fields(&self, sheet: &mut Sheet) -> Result<(), AllocError> {
        sheet.push("partition_index", self.index)?;
        sheet.push("committed_offset", self.offset)?;
        sheet.push("committed_leader_epoch", self.leader_epoch)?;
        sheet.push_nullable("committed_metadata", &self.metadata)
    }
}

impl Fields for TxnOffsetCommitRequest {
    /// Appends the request: the transactional id, the group, the producer, the generation and the member, and the offset for each
    /// partition.
    fn push_fields(&self, sheet: &mut Sheet) -> Result<(), AllocError> {
        sheet.push_text("transactional_id", &self.transactional_id)?;
        sheet.push_text("group_id", &self.group)?;
        sheet.push("producer_id", self.producer)?;
        sheet.push("producer_epoch", self.epoch)?;
        sheet.push("generation_id", self.generation)?;
        sheet.push_text("member_id", &self.member)?;
        sheet.push_nullable("group_instance_id", &self.instance)?;
        push_topics(sheet, TopicNames::USUAL, self.topics.as_slice())
    }
}

impl Fields for StagedOffset {
    /// Appends a partition of a TxnOffsetCommit response: its index and its error.
    fn push_fields(&self, sheet: &mut Sheet) -> Result<(), AllocError> {
        sheet.push("partition_index", self.index)?;
        sheet.push_error("error_code", self.error)
    }
}

impl Fields for TxnOffsetCommitReply {
    /// Appends the response: its throttle time, and the result of each partition.
    fn push_fields(&self, sheet: &mut Sheet) -> Result<(), AllocError> {
        sheet.push("throttle_time_ms", self.throttle)?;
        push_topics(sheet, TopicNames::USUAL, self.topics.as_slice())
    }
}
