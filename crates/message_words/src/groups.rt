//! The fields of the messages about groups and their offsets.

use crate::sheet::{Fields, Sheet};
use crate::topics::{TopicNames, push_numbered_topics, push_topics};
use msg_group::{
    CommittedOffset, FetchedOffset, HeartbeatReply, HeartbeatRequest, JoinGroupReply,
    JoinGroupRequest, JoinedMember, LeaveGroupReply, LeaveGroupRequest, MemberAssignment,
    OfferedProtocol, OffsetCommitReply, OffsetCommitRequest, OffsetFetchReply, OffsetFetchRequest,
    OffsetToCommit, SyncGroupReply, SyncGroupRequest,
};
use std::alloc::AllocError;

impl Fields for OfferedProtocol {
    /// Appends a protocol that a member offers in a JoinGroup request, such as `range`, with its metadata.
    fn push_fields(&self, sheet: &mut Sheet) -> Result<(), AllocError> {
        sheet.push_text("name", &self.name)?;
        sheet.push_bytes("metadata", self.metadata.as_slice())
    }
}

impl Fields for JoinGroupRequest {
    /// Appends the request: the group, its timeouts, the member, the protocol type, and the protocols that it offers.
    fn push_fields(&self, sheet: &mut Sheet) -> Result<(), AllocError> {
        sheet.push_text("group_id", &self.group)?;
        sheet.push("session_timeout_ms", self.session_timeout)?;
        sheet.push("rebalance_timeout_ms", self.rebalance_timeout)?;
        sheet.push_text("member_id", &self.member)?;
        sheet.push_text("protocol_type", &self.protocol_type)?;
        sheet.push_list("protocols", self.protocols.as_slice())
    }
}

impl Fields for JoinedMember {
    /// Appends a member of the group, as a JoinGroup response names it to the leader.
    fn push_fields(&self, sheet: &mut Sheet) -> Result<(), AllocError> {
        sheet.push_text("member_id", &self.member)?;
        sheet.push_bytes("metadata", self.metadata.as_slice())
    }
}

impl Fields for JoinGroupReply {
    /// Appends the response: its throttle time, its error, the generation, the protocol, the leader, the member's own id, and the
    /// members.
    fn push_fields(&self, sheet: &mut Sheet) -> Result<(), AllocError> {
        sheet.push("throttle_time_ms", self.throttle)?;
        sheet.push_error("error_code", self.error)?;
        sheet.push("generation_id", self.generation)?;
        sheet.push_text("protocol_name", &self.protocol)?;
        sheet.push_text("leader", &self.leader)?;
        sheet.push_text("member_id", &self.member)?;
        sheet.push_list("members", self.members.as_slice())
    }
}

impl Fields for MemberAssignment {
    /// Appends what the leader assigns to one member in a SyncGroup request.
    fn push_fields(&self, sheet: &mut Sheet) -> Result<(), AllocError> {
        sheet.push_text("member_id", &self.member)?;
        sheet.push_bytes("assignment", self.assignment.as_slice())
    }
}

impl Fields for SyncGroupRequest {
    /// Appends the request: the group, the member and its generation, and the assignments, of which only the leader sends any.
    fn push_fields(&self, sheet: &mut Sheet) -> Result<(), AllocError> {
        sheet.push_text("group_id", &self.group)?;
        sheet.push("generation_id", self.generation)?;
        sheet.push_text("member_id", &self.member)?;
        sheet.push_list("assignments", self.assignments.as_slice())
    }
}

impl Fields for SyncGroupReply {
    /// Appends the response: its throttle time, its error, and the member's assignment.
    fn push_fields(&self, sheet: &mut Sheet) -> Result<(), AllocError> {
        sheet.push("throttle_time_ms", self.throttle)?;
        sheet.push_error("error_code", self.error)?;
        sheet.push_bytes("assignment", self.assignment.as_slice())
    }
}

impl Fields for HeartbeatRequest {
    /// Appends the request: the group, the member and its generation.
    fn push_fields(&self, sheet: &mut Sheet) -> Result<(), AllocError> {
        sheet.push_text("group_id", &self.group)?;
        sheet.push("generation_id", self.generation)?;
        sheet.push_text("member_id", &self.member)
    }
}

impl Fields for HeartbeatReply {
    /// Appends the response: its throttle time and its error.
    fn push_fields(&self, sheet: &mut Sheet) -> Result<(), AllocError> {
        sheet.push("throttle_time_ms", self.throttle)?;
        sheet.push_error("error_code", self.error)
    }
}

impl Fields for LeaveGroupRequest {
    /// Appends the request: the group, and the member that leaves it.
    fn push_fields(&self, sheet: &mut Sheet) -> Result<(), AllocError> {
        sheet.push_text("group_id", &self.group)?;
        sheet.push_text("member_id", &self.member)
    }
}

impl Fields for LeaveGroupReply {
    /// Appends the response: its throttle time and its error.
    fn push_fields(&self, sheet: &mut Sheet) -> Result<(), AllocError> {
        sheet.push("throttle_time_ms", self.throttle)?;
        sheet.push_error("error_code", self.error)
    }
}

impl Fields for OffsetToCommit {
    /// Appends a partition of an OffsetCommit request: its index, and the offset to commit with its metadata.
    fn push_fields(&self, sheet: &mut Sheet) -> Result<(), AllocError> {
        sheet.push("partition_index", self.index)?;
        sheet.push("committed_offset", self.offset)?;
        sheet.push_nullable("committed_metadata", &self.metadata)
    }
}

impl Fields for OffsetCommitRequest {
    /// Appends the request: the group, the member and its generation, the retention time, and the offset to commit for each
    /// partition.
    fn push_fields(&self, sheet: &mut Sheet) -> Result<(), AllocError> {
        sheet.push_text("group_id", &self.group)?;
        sheet.push("generation_id_or_member_epoch", self.generation)?;
        sheet.push_text("member_id", &self.member)?;
        sheet.push("retention_time_ms", self.retention)?;
        push_topics(sheet, TopicNames::USUAL, self.topics.as_slice())
    }
}

impl Fields for CommittedOffset {
    /// Appends a partition of an OffsetCommit response: its index and its error.
    fn push_fields(&self, sheet: &mut Sheet) -> Result<(), AllocError> {
        sheet.push("partition_index", self.index)?;
        sheet.push_error("error_code", self.error)
    }
}

impl Fields for OffsetCommitReply {
    /// Appends the response: the result of each partition.
    fn push_fields(&self, sheet: &mut Sheet) -> Result<(), AllocError> {
        push_topics(sheet, TopicNames::USUAL, self.topics.as_slice())
    }
}

impl Fields for OffsetFetchRequest {
    /// Appends the request: the group, the partitions whose offsets are asked for, where `null` asks for all of them, and whether
    /// the offsets must be stable.
    fn push_fields(&self, sheet: &mut Sheet) -> Result<(), AllocError> {
        let names = TopicNames {
            list: "topics",
            name: "name",
            partitions: "partition_indexes",
        };
        sheet.push_text("group_id", &self.group)?;
        match &self.topics {
            Some(topics) => push_numbered_topics(sheet, names, topics.as_slice())?,
            None => sheet.push(names.list, "null")?,
        }
        sheet.push("require_stable", self.require_stable)
    }
}

impl Fields for FetchedOffset {
    /// Appends a partition of an OffsetFetch response: its index, its committed offset, or -1, with leader epoch and metadata,
    /// and its error.
    fn push_fields(&self, sheet: &mut Sheet) -> Result<(), AllocError> {
        sheet.push("partition_index", self.index)?;
        sheet.push("committed_offset", self.offset)?;
        sheet.push("committed_leader_epoch", self.leader_epoch)?;
        sheet.push_nullable("metadata", &self.metadata)?;
        sheet.push_error("error_code", self.error)
    }
}

impl Fields for OffsetFetchReply {
    /// Appends the response: its throttle time, the committed offset of each partition, and its error.
    fn push_fields(&self, sheet: &mut Sheet) -> Result<(), AllocError> {
        sheet.push("throttle_time_ms", self.throttle)?;
        push_topics(sheet, TopicNames::USUAL, self.topics.as_slice())?;
        sheet.push_error("error_code", self.error)
    }
}
