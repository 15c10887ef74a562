//! The fields of a reply.

use crate::sheet::{Fields, Sheet};
use msg_admin::Reply;
use std::alloc::AllocError;

/// The reply to a tick or a mark has no fields.
impl Fields for Reply {
    /// Appends the fields of the body that the reply has by its api. The reply to a Produce with acks 0, which isn't sent, has
    /// its fields too; that to a tick or a mark has none.
    fn push_fields(&self, sheet: &mut Sheet) -> Result<(), AllocError> {
        match self {
            Reply::Produce(body) => body.value().push_fields(sheet),
            Reply::SilentProduce(body) => body.value().push_fields(sheet),
            Reply::Fetch(body) => body.value().push_fields(sheet),
            Reply::ListOffsets(body) => body.value().push_fields(sheet),
            Reply::Metadata(body) => body.value().push_fields(sheet),
            Reply::OffsetCommit(body) => body.value().push_fields(sheet),
            Reply::OffsetFetch(body) => body.value().push_fields(sheet),
            Reply::FindCoordinator(body) => body.value().push_fields(sheet),
            Reply::JoinGroup(body) => body.value().push_fields(sheet),
            Reply::Heartbeat(body) => body.push_fields(sheet),
            Reply::LeaveGroup(body) => body.push_fields(sheet),
            Reply::SyncGroup(body) => body.value().push_fields(sheet),
            Reply::SaslHandshake(body) => body.value().push_fields(sheet),
            Reply::ApiVersions(body) => body.value().push_fields(sheet),
            Reply::InitProducerId(body) => body.value().push_fields(sheet),
            Reply::AddPartitionsToTxn(body) => body.value().push_fields(sheet),
            Reply::AddOffsetsToTxn(body) => body.push_fields(sheet),
            Reply::EndTxn(body) => body.value().push_fields(sheet),
            Reply::TxnOffsetCommit(body) => body.value().push_fields(sheet),
            Reply::DescribeAcls(body) => body.value().push_fields(sheet),
            Reply::CreateAcls(body) => body.value().push_fields(sheet),
            Reply::DeleteAcls(body) => body.value().push_fields(sheet),
            Reply::SaslAuthenticate(body) => body.value().push_fields(sheet),
            Reply::Marked { .. } | Reply::Idle | Reply::Ticked { .. } => Ok(()),
        }
    }
}

/// Appends the fields of a reply's body, by their names in the protocol guide: also those of the reply to a Produce with acks 0,
/// which isn't sent. The reply to a tick or a mark has none.
pub fn push_reply(sheet: &mut Sheet, reply: &Reply) -> Result<(), AllocError> {
    reply.push_fields(sheet)
}
