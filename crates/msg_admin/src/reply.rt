//! A reply, written as the frame of a response.

ghost use Rattle.std.specs.Prelude.{◌≡◌, IfOk, OnOk, Err};
ghost use Rattle.wire_types.specs.declared.fault.WriteFault.TheVariants as faults;
ghost use Rattle.wire_types.specs.Combinators.{◌⨟◌};
ghost use Rattle.wire_types.specs.Schema.{int32};
ghost use Rattle.msg_txn.specs.EndTxn.{version_answered};
ghost use Rattle.msg_admin.specs.Api.{api_in, in_last_version, is_flexible};
ghost use Rattle.msg_admin.specs.Header.{with_header_tags};
ghost use Rattle.msg_admin.specs.Frame.{GivesFrame};
ghost use Rattle.msg_admin.specs.Response.{response, IsTooLong, GivesReply};

use crate::api::Api;
use crate::api_key::ApiKey;
use crate::frame::write_frame;
use msg_acl::{CreateAclsReply, DeleteAclsReply, DescribeAclsReply};
use msg_data::{FetchReply, ListOffsetsReply, MetadataReply, ProduceReply};
use msg_group::{
    HeartbeatReply, JoinGroupReply, LeaveGroupReply, OffsetCommitReply, OffsetFetchReply,
    SyncGroupReply,
};
use msg_login::{ApiVersionsReply, SaslAuthenticateReply, SaslHandshakeReply};
use msg_txn::{
    AddOffsetsToTxnReply, AddPartitionsToTxnReply, EndTxnReply, FindCoordinatorReply,
    InitProducerIdReply, TxnOffsetCommitReply,
};
use std::alloc::Global;
use wire_types::{Boxed, Bytes, Wire, WriteFault};

/// What an event is answered. Only the answers to requests are sent, and of these not `SilentProduce`. Bodies of more than eight
/// bytes stand in blocks of their own, so that a reply is small where it is kept.
#[derive(PartialEq, Eq)]
pub enum Reply {
    Produce(Boxed<ProduceReply>),
    /// The answer to a Produce with acks 0: it is kept, and no bytes are sent.
    SilentProduce(Boxed<ProduceReply>),
    Fetch(Boxed<FetchReply>),
    ListOffsets(Boxed<ListOffsetsReply>),
    Metadata(Boxed<MetadataReply>),
    OffsetCommit(Boxed<OffsetCommitReply>),
    OffsetFetch(Boxed<OffsetFetchReply>),
    FindCoordinator(Boxed<FindCoordinatorReply>),
    JoinGroup(Boxed<JoinGroupReply>),
    Heartbeat(HeartbeatReply),
    LeaveGroup(LeaveGroupReply),
    SyncGroup(Boxed<SyncGroupReply>),
    SaslHandshake(Boxed<SaslHandshakeReply>),
    ApiVersions(Boxed<ApiVersionsReply>),
    InitProducerId(Boxed<InitProducerIdReply>),
    AddPartitionsToTxn(Boxed<AddPartitionsToTxnReply>),
    AddOffsetsToTxn(AddOffsetsToTxnReply),
    EndTxn(Boxed<EndTxnReply>),
    TxnOffsetCommit(Boxed<TxnOffsetCommitReply>),
    DescribeAcls(Boxed<DescribeAclsReply>),
    CreateAcls(Boxed<CreateAclsReply>),
    DeleteAcls(Boxed<DeleteAclsReply>),
    SaslAuthenticate(Boxed<SaslAuthenticateReply>),
    /// A transaction marker was written, and so many are still pending. It isn't sent.
    Marked { left: u64 },
    /// No marker was pending. It isn't sent.
    Idle,
    /// The time was set, and so many markers are pending. It isn't sent.
    Ticked { left: u64 },
}

impl Drop for Reply {
    fn drop(self) {
        match self {
            Reply::Produce(body) => drop(body),
            Reply::SilentProduce(body) => drop(body),
            Reply::Fetch(body) => drop(body),
            Reply::ListOffsets(body) => drop(body),
            Reply::Metadata(body) => drop(body),
            Reply::OffsetCommit(body) => drop(body),
            Reply::OffsetFetch(body) => drop(body),
            Reply::FindCoordinator(body) => drop(body),
            Reply::JoinGroup(body) => drop(body),
            Reply::Heartbeat(body) => drop(body),
            Reply::LeaveGroup(body) => drop(body),
            Reply::SyncGroup(body) => drop(body),
            Reply::SaslHandshake(body) => drop(body),
            Reply::ApiVersions(body) => drop(body),
            Reply::InitProducerId(body) => drop(body),
            Reply::AddPartitionsToTxn(body) => drop(body),
            Reply::AddOffsetsToTxn(body) => drop(body),
            Reply::EndTxn(body) => drop(body),
            Reply::TxnOffsetCommit(body) => drop(body),
            Reply::DescribeAcls(body) => drop(body),
            Reply::CreateAcls(body) => drop(body),
            Reply::DeleteAcls(body) => drop(body),
            Reply::SaslAuthenticate(body) => drop(body),
            Reply::Marked { left: _ } | Reply::Idle | Reply::Ticked { left: _ } => {}
        }
    }
}

/// The whole frame of a response with this correlation id, with its size field; no bytes for a reply that isn't sent. `TooLong`
/// if the frame is longer than its size field can hold, or a length in it than its field; `NoMemory` on an allocation failure.
pub fn write_reply(alloc: Global, correlation: i32, reply: &Reply) -> Result<Bytes, WriteFault>
    ensures written { IfOk result (λ bytes. bytes ≡ response correlation reply.now) }
    ensures within { OnOk result (¬ IsTooLong correlation reply.now) }
    ensures too_long { result ≡ Err faults.TooLong → IsTooLong correlation reply.now }
    // The same by a test, for those who define by it.
    ensures decided { GivesReply correlation reply.now result }
{
    write_response(alloc, correlation, reply)
}

/// The whole frame of a response of this API with this body, in the API's last version. It is for all APIs but EndTxn, which are
/// served in one version.
fn write_as<B: Wire>(
    alloc: Global,
    key: ApiKey,
    correlation: &i32,
    answer: &B,
) -> Result<Bytes, WriteFault>
    ensures { GivesFrame (with_header_tags (is_flexible (in_last_version key)) int32 ⨟ B.grammar)
        (correlation.now, answer.now) result }
{
    let flexible = Api::in_last_version(key).is_flexible();
    write_frame(alloc, flexible, correlation, answer)
}

/// EndTxn in the version of this reply.
fn ended_api(answer: &EndTxnReply) -> Api
    ensures { result ≡ api_in ApiKey.EndTxn (version_answered answer.now) }
{
    Api {
        key: ApiKey::EndTxn,
        version: answer.version(),
    }
}

/// The whole frame of an EndTxn response in the version of the reply.
#[tactic(auto, unfolding(crate::specs::Response::is_sendable, crate::specs::Bodies::reply_body, crate::specs::Frame::frame_fits))]
fn write_ended(alloc: Global, correlation: i32, answer: &EndTxnReply) -> Result<Bytes, WriteFault>
    ensures { GivesReply correlation (Reply.EndTxn answer.now) result }
{
    let flexible = ended_api(answer).is_flexible();
    match answer {
        EndTxnReply::Version0(body) => write_frame(alloc, flexible, &correlation, body),
        EndTxnReply::Version1(body) => write_frame(alloc, flexible, &correlation, body),
        EndTxnReply::Version2(body) => write_frame(alloc, flexible, &correlation, body),
        EndTxnReply::Version3(body) => write_frame(alloc, flexible, &correlation, body),
        EndTxnReply::Version4(body) => write_frame(alloc, flexible, &correlation, body),
        EndTxnReply::Version5(body) => write_frame(alloc, flexible, &correlation, body),
    }
}

/// Writes the response of whichever api the reply is of; no bytes for a reply that isn't sent. `write_reply` is its public
/// form.
#[tactic(auto, unfolding(crate::specs::Response::is_sendable, crate::specs::Bodies::reply_body, crate::specs::Frame::frame_fits))]
fn write_response(alloc: Global, correlation: i32, reply: &Reply) -> Result<Bytes, WriteFault>
    ensures { GivesReply correlation reply.now result }
{
    let to = &correlation;
    match reply {
        Reply::SilentProduce(_) => Ok(Bytes::new()),
        Reply::Marked { .. } | Reply::Idle | Reply::Ticked { .. } => Ok(Bytes::new()),
        Reply::Produce(body) => write_as(alloc, ApiKey::Produce, to, body),
        Reply::Fetch(body) => write_as(alloc, ApiKey::Fetch, to, body),
        Reply::ListOffsets(body) => write_as(alloc, ApiKey::ListOffsets, to, body),
        Reply::Metadata(body) => write_as(alloc, ApiKey::Metadata, to, body),
        Reply::OffsetCommit(body) => write_as(alloc, ApiKey::OffsetCommit, to, body),
        Reply::OffsetFetch(body) => write_as(alloc, ApiKey::OffsetFetch, to, body),
        Reply::FindCoordinator(body) => write_as(alloc, ApiKey::FindCoordinator, to, body),
        Reply::JoinGroup(body) => write_as(alloc, ApiKey::JoinGroup, to, body),
        Reply::Heartbeat(body) => write_as(alloc, ApiKey::Heartbeat, to, body),
        Reply::LeaveGroup(body) => write_as(alloc, ApiKey::LeaveGroup, to, body),
        Reply::SyncGroup(body) => write_as(alloc, ApiKey::SyncGroup, to, body),
        Reply::SaslHandshake(body) => write_as(alloc, ApiKey::SaslHandshake, to, body),
        Reply::ApiVersions(body) => write_as(alloc, ApiKey::ApiVersions, to, body),
        Reply::InitProducerId(body) => write_as(alloc, ApiKey::InitProducerId, to, body),
        Reply::AddPartitionsToTxn(body) => write_as(alloc, ApiKey::AddPartitionsToTxn, to, body),
        Reply::AddOffsetsToTxn(body) => write_as(alloc, ApiKey::AddOffsetsToTxn, to, body),
        Reply::EndTxn(body) => write_ended(alloc, correlation, body.value()),
        Reply::TxnOffsetCommit(body) => write_as(alloc, ApiKey::TxnOffsetCommit, to, body),
        Reply::DescribeAcls(body) => write_as(alloc, ApiKey::DescribeAcls, to, body),
        Reply::CreateAcls(body) => write_as(alloc, ApiKey::CreateAcls, to, body),
        Reply::DeleteAcls(body) => write_as(alloc, ApiKey::DeleteAcls, to, body),
        Reply::SaslAuthenticate(body) => write_as(alloc, ApiKey::SaslAuthenticate, to, body),
    }
}
