//! The fields of a request.

use crate::sheet::{Fields, Sheet};
use msg_admin::{Header, Request};
use std::alloc::AllocError;

impl Fields for Request {
    /// Appends the fields of the body that the request has by its api. ApiVersions has none.
    fn push_fields(&self, sheet: &mut Sheet) -> Result<(), AllocError> {
        match self {
            Request::Produce(body) => body.value().push_fields(sheet),
            Request::Fetch(body) => body.value().push_fields(sheet),
            Request::ListOffsets(body) => body.value().push_fields(sheet),
            Request::Metadata(body) => body.value().push_fields(sheet),
            Request::OffsetCommit(body) => body.value().push_fields(sheet),
            Request::OffsetFetch(body) => body.value().push_fields(sheet),
            Request::FindCoordinator(body) => body.value().push_fields(sheet),
            Request::JoinGroup(body) => body.value().push_fields(sheet),
            Request::Heartbeat(body) => body.value().push_fields(sheet),
            Request::LeaveGroup(body) => body.value().push_fields(sheet),
            Request::SyncGroup(body) => body.value().push_fields(sheet),
            Request::SaslHandshake(body) => body.value().push_fields(sheet),
            Request::ApiVersions => Ok(()),
            Request::InitProducerId(body) => body.value().push_fields(sheet),
            Request::AddPartitionsToTxn(body) => body.value().push_fields(sheet),
            Request::AddOffsetsToTxn(body) => body.value().push_fields(sheet),
            Request::EndTxn(body) => body.value().push_fields(sheet),
            Request::TxnOffsetCommit(body) => body.value().push_fields(sheet),
            Request::DescribeAcls(body) => body.value().push_fields(sheet),
            Request::CreateAcls(body) => body.value().push_fields(sheet),
            Request::DeleteAcls(body) => body.value().push_fields(sheet),
            Request::SaslAuthenticate(body) => body.value().push_fields(sheet),
        }
    }
}

/// Appends the fields of a request: its correlation id, the client id, and those of its body.
pub fn push_request(
    sheet: &mut Sheet,
    header: &Header,
    request: &Request,
) -> Result<(), AllocError> {
    sheet.push("correlation_id", header.correlation)?;
    sheet.push_nullable("client_id", &header.client)?;
    request.push_fields(sheet)
}
