//! A request, read from the bytes of a frame and written as a frame.

ghost use Rattle.std.specs.Prelude.{◌≡◌, ◌≤◌, ◌↔◌, length, IfOk, IsTrue, Ok, Some};
ghost use Rattle.wire_types.specs.Reading.{Reads};
ghost use Rattle.msg_txn.specs.EndTxn.{version_asked};
ghost use Rattle.msg_admin.specs.Api.{api_in, api_at};
ghost use Rattle.msg_admin.specs.Bodies.{api_of, request_form, request_body};
ghost use Rattle.msg_admin.specs.Request.{IsRequest, Answers, request_at, GivesRequest, Fits};
ghost use Rattle.msg_admin.specs.declared.header.Header.{Header};
ghost use Rattle.msg_admin.specs.declared.request.Request.{Request};

use crate::api::Api;
use crate::api_key::ApiKey;
use crate::frame::{write_frame, write_header_frame};
use crate::header::{Header, least_header, read_sender};
use crate::laws::read_fits;
use msg_acl::{CreateAclsRequest, DeleteAclsRequest, DescribeAclsRequest};
use msg_data::{FetchRequest, ListOffsetsRequest, MetadataRequest, ProduceRequest};
use msg_group::{
    HeartbeatRequest, JoinGroupRequest, LeaveGroupRequest, OffsetCommitRequest, OffsetFetchRequest,
    SyncGroupRequest,
};
use msg_login::{SaslAuthenticateRequest, SaslHandshakeRequest};
use msg_txn::{
    AddOffsetsToTxnRequest, AddPartitionsToTxnRequest, EndTxnRequest, FindCoordinatorRequest,
    InitProducerIdRequest, TxnOffsetCommitRequest,
};
use std::alloc::Global;
use wire_types::{Boxed, Bytes, Cursor, Malformed, ReadFault, Wire, WriteFault, deduct};

/// The greatest size of a request's frame in bytes, its size field not counted: 100 MiB, as Kafka's socket.request.max.bytes.
pub const FRAME_LIMIT: usize = 104_857_600;

/// The body of a request. Each stands in a block of its own, so that a request is small where it is kept or handed on.
#[derive(PartialEq, Eq)]
pub enum Request {
    Produce(Boxed<ProduceRequest>),
    Fetch(Boxed<FetchRequest>),
    ListOffsets(Boxed<ListOffsetsRequest>),
    Metadata(Boxed<MetadataRequest>),
    OffsetCommit(Boxed<OffsetCommitRequest>),
    OffsetFetch(Boxed<OffsetFetchRequest>),
    FindCoordinator(Boxed<FindCoordinatorRequest>),
    JoinGroup(Boxed<JoinGroupRequest>),
    Heartbeat(Boxed<HeartbeatRequest>),
    LeaveGroup(Boxed<LeaveGroupRequest>),
    SyncGroup(Boxed<SyncGroupRequest>),
    SaslHandshake(Boxed<SaslHandshakeRequest>),
    /// Its body is empty.
    ApiVersions,
    InitProducerId(Boxed<InitProducerIdRequest>),
    AddPartitionsToTxn(Boxed<AddPartitionsToTxnRequest>),
    AddOffsetsToTxn(Boxed<AddOffsetsToTxnRequest>),
    EndTxn(Boxed<EndTxnRequest>),
    TxnOffsetCommit(Boxed<TxnOffsetCommitRequest>),
    DescribeAcls(Boxed<DescribeAclsRequest>),
    CreateAcls(Boxed<CreateAclsRequest>),
    DeleteAcls(Boxed<DeleteAclsRequest>),
    SaslAuthenticate(Boxed<SaslAuthenticateRequest>),
}

impl Drop for Request {
    fn drop(self) {
        match self {
            Request::Produce(body) => drop(body),
            Request::Fetch(body) => drop(body),
            Request::ListOffsets(body) => drop(body),
            Request::Metadata(body) => drop(body),
            Request::OffsetCommit(body) => drop(body),
            Request::OffsetFetch(body) => drop(body),
            Request::FindCoordinator(body) => drop(body),
            Request::JoinGroup(body) => drop(body),
            Request::Heartbeat(body) => drop(body),
            Request::LeaveGroup(body) => drop(body),
            Request::SyncGroup(body) => drop(body),
            Request::SaslHandshake(body) => drop(body),
            Request::ApiVersions => {}
            Request::InitProducerId(body) => drop(body),
            Request::AddPartitionsToTxn(body) => drop(body),
            Request::AddOffsetsToTxn(body) => drop(body),
            Request::EndTxn(body) => drop(body),
            Request::TxnOffsetCommit(body) => drop(body),
            Request::DescribeAcls(body) => drop(body),
            Request::CreateAcls(body) => drop(body),
            Request::DeleteAcls(body) => drop(body),
            Request::SaslAuthenticate(body) => drop(body),
        }
    }
}

/// EndTxn in the version of this request.
fn ending_api(request: &EndTxnRequest) -> Api
    ensures { result ≡ api_in ApiKey.EndTxn (version_asked request.now) }
{
    Api {
        key: ApiKey::EndTxn,
        version: request.version(),
    }
}

/// How many of `budget` bytes are left after the body of an EndTxn request in its version. None if it needs more, or can't be
/// written.
#[tactic(auto, unfolding(crate::specs::Bodies::request_body))]
fn deduct_ending(request: &EndTxnRequest, budget: usize) -> Option<usize>
    ensures { result ≡ (request_body (api_of (Request.EndTxn request.now))).left
        (Request.EndTxn request.now) budget }
{
    match request {
        EndTxnRequest::Version0(body) => body.deduct_from(budget),
        EndTxnRequest::Version1(body) => body.deduct_from(budget),
        EndTxnRequest::Version2(body) => body.deduct_from(budget),
        EndTxnRequest::Version3(body) => body.deduct_from(budget),
        EndTxnRequest::Version4(body) => body.deduct_from(budget),
        EndTxnRequest::Version5(body) => body.deduct_from(budget),
    }
}

impl Request {
    /// The API and the version that the request is for.
    pub fn api(&self) -> Api
        ensures { result ≡ api_of self.now }
    {
        match self {
            Request::EndTxn(body) => ending_api(body.value()),
            Request::Produce(_) => Api::in_last_version(ApiKey::Produce),
            Request::Fetch(_) => Api::in_last_version(ApiKey::Fetch),
            Request::ListOffsets(_) => Api::in_last_version(ApiKey::ListOffsets),
            Request::Metadata(_) => Api::in_last_version(ApiKey::Metadata),
            Request::OffsetCommit(_) => Api::in_last_version(ApiKey::OffsetCommit),
            Request::OffsetFetch(_) => Api::in_last_version(ApiKey::OffsetFetch),
            Request::FindCoordinator(_) => Api::in_last_version(ApiKey::FindCoordinator),
            Request::JoinGroup(_) => Api::in_last_version(ApiKey::JoinGroup),
            Request::Heartbeat(_) => Api::in_last_version(ApiKey::Heartbeat),
            Request::LeaveGroup(_) => Api::in_last_version(ApiKey::LeaveGroup),
            Request::SyncGroup(_) => Api::in_last_version(ApiKey::SyncGroup),
            Request::SaslHandshake(_) => Api::in_last_version(ApiKey::SaslHandshake),
            Request::ApiVersions => Api::in_last_version(ApiKey::ApiVersions),
            Request::InitProducerId(_) => Api::in_last_version(ApiKey::InitProducerId),
            Request::AddPartitionsToTxn(_) => Api::in_last_version(ApiKey::AddPartitionsToTxn),
            Request::AddOffsetsToTxn(_) => Api::in_last_version(ApiKey::AddOffsetsToTxn),
            Request::TxnOffsetCommit(_) => Api::in_last_version(ApiKey::TxnOffsetCommit),
            Request::DescribeAcls(_) => Api::in_last_version(ApiKey::DescribeAcls),
            Request::CreateAcls(_) => Api::in_last_version(ApiKey::CreateAcls),
            Request::DeleteAcls(_) => Api::in_last_version(ApiKey::DeleteAcls),
            Request::SaslAuthenticate(_) => Api::in_last_version(ApiKey::SaslAuthenticate),
        }
    }

    /// Whether the request can be written in a frame of at most `FRAME_LIMIT` bytes, with a header whose client id is null.
    pub fn fits(&self) -> bool
        ensures { IsTrue result ↔ Fits self.now }
    {
        let header = least_header(self.api().is_flexible());
        self.deduct_from(FRAME_LIMIT - header).is_some()
    }

    /// How many of `budget` bytes are left after the request's body. None if it needs more, or can't be written.
    #[tactic(auto, unfolding(crate::specs::Bodies::request_body))]
    fn deduct_from(&self, budget: usize) -> Option<usize>
        ensures { result ≡ (request_body (api_of self.now)).left self.now budget }
    {
        match self {
            Request::Produce(body) => body.deduct_from(budget),
            Request::Fetch(body) => body.deduct_from(budget),
            Request::ListOffsets(body) => body.deduct_from(budget),
            Request::Metadata(body) => body.deduct_from(budget),
            Request::OffsetCommit(body) => body.deduct_from(budget),
            Request::OffsetFetch(body) => body.deduct_from(budget),
            Request::FindCoordinator(body) => body.deduct_from(budget),
            Request::JoinGroup(body) => body.deduct_from(budget),
            Request::Heartbeat(body) => body.deduct_from(budget),
            Request::LeaveGroup(body) => body.deduct_from(budget),
            Request::SyncGroup(body) => body.deduct_from(budget),
            Request::SaslHandshake(body) => body.deduct_from(budget),
            Request::ApiVersions => deduct(0, budget),
            Request::InitProducerId(body) => body.deduct_from(budget),
            Request::AddPartitionsToTxn(body) => body.deduct_from(budget),
            Request::AddOffsetsToTxn(body) => body.deduct_from(budget),
            Request::EndTxn(body) => deduct_ending(body.value(), budget),
            Request::TxnOffsetCommit(body) => body.deduct_from(budget),
            Request::DescribeAcls(body) => body.deduct_from(budget),
            Request::CreateAcls(body) => body.deduct_from(budget),
            Request::DeleteAcls(body) => body.deduct_from(budget),
            Request::SaslAuthenticate(body) => body.deduct_from(budget),
        }
    }
}

/// Reads the body of a request to this API. The version matters to EndTxn alone, since each other API is served in one.
fn read_form(
    alloc: Global,
    key: ApiKey,
    version: i16,
    cursor: &mut Cursor<'_>,
) -> Result<Request, ReadFault>
    ensures { Reads ((request_form key version).reading cursor.old) result cursor.new }
{
    Ok(match key {
        ApiKey::Produce => Request::Produce(Wire::read(alloc, cursor)?),
        ApiKey::Fetch => Request::Fetch(Wire::read(alloc, cursor)?),
        ApiKey::ListOffsets => Request::ListOffsets(Wire::read(alloc, cursor)?),
        ApiKey::Metadata => Request::Metadata(Wire::read(alloc, cursor)?),
        ApiKey::OffsetCommit => Request::OffsetCommit(Wire::read(alloc, cursor)?),
        ApiKey::OffsetFetch => Request::OffsetFetch(Wire::read(alloc, cursor)?),
        ApiKey::FindCoordinator => Request::FindCoordinator(Wire::read(alloc, cursor)?),
        ApiKey::JoinGroup => Request::JoinGroup(Wire::read(alloc, cursor)?),
        ApiKey::Heartbeat => Request::Heartbeat(Wire::read(alloc, cursor)?),
        ApiKey::LeaveGroup => Request::LeaveGroup(Wire::read(alloc, cursor)?),
        ApiKey::SyncGroup => Request::SyncGroup(Wire::read(alloc, cursor)?),
        ApiKey::SaslHandshake => Request::SaslHandshake(Wire::read(alloc, cursor)?),
        ApiKey::ApiVersions => Request::ApiVersions,
        ApiKey::InitProducerId => Request::InitProducerId(Wire::read(alloc, cursor)?),
        ApiKey::AddPartitionsToTxn => Request::AddPartitionsToTxn(Wire::read(alloc, cursor)?),
        ApiKey::AddOffsetsToTxn => Request::AddOffsetsToTxn(Wire::read(alloc, cursor)?),
        ApiKey::EndTxn => {
            let body = EndTxnRequest::read(alloc, version, cursor)?;
            Request::EndTxn(Boxed::new(alloc, body)?)
        }
        ApiKey::TxnOffsetCommit => Request::TxnOffsetCommit(Wire::read(alloc, cursor)?),
        ApiKey::DescribeAcls => Request::DescribeAcls(Wire::read(alloc, cursor)?),
        ApiKey::CreateAcls => Request::CreateAcls(Wire::read(alloc, cursor)?),
        ApiKey::DeleteAcls => Request::DeleteAcls(Wire::read(alloc, cursor)?),
        ApiKey::SaslAuthenticate => Request::SaslAuthenticate(Wire::read(alloc, cursor)?),
    })
}

/// Reads the body of a request to this API in its version. Bytes after the body are left to the caller.
#[tactic(auto, unfolding(crate::specs::Bodies::request_body))]
fn read_body(alloc: Global, api: Api, cursor: &mut Cursor<'_>) -> Result<Request, ReadFault>
    ensures { Reads ((request_body api).reading cursor.old) result cursor.new }
{
    read_form(alloc, api.key(), api.version(), cursor)
}

/// Reads a frame's header and request, and refuses bytes after them. `read_request` is its public form.
#[tactic(auto, unfolding(crate::specs::Request::request_at))]
fn read_whole(alloc: Global, frame: &Bytes) -> Result<(Header, Request), ReadFault>
    ensures { Answers (request_at frame.now) result }
{
    let mut cursor = Cursor::over(frame);
    let key = cursor.read_i16()?;
    let version = cursor.read_i16()?;
    let Some(api) = Api::of(key, version) else {
        return Err(ReadFault::Malformed(Malformed::Unknown));
    };
    let (correlation, client) = read_sender(alloc, api.is_flexible(), &mut cursor)?;
    let request = read_body(alloc, api, &mut cursor)?;
    if cursor.len() != 0 {
        return Err(ReadFault::Malformed(Malformed::Rest));
    }
    let header = Header {
        key,
        version,
        correlation,
        client,
    };
    Ok((header, request))
}

/// Reads a frame, given without its size field: the header and the request. Byte fields of the request share the frame's
/// bytes.
///
/// `Malformed::Unknown` if the api or its version isn't served, `Malformed::Rest` if bytes follow the body, and else the
/// first fault from left to right; `NoMemory` on an allocation failure.
pub fn read_request(alloc: Global, frame: &Bytes) -> Result<(Header, Request), ReadFault>
    // What is read is spelled by the bytes.
    ensures found { IfOk result (λ read. IsRequest frame.now read.0 read.1) }
    // What the bytes spell is read, unless memory runs out.
    ensures only { (h : Header) (r : Request) → IsRequest frame.now h r
        → Answers (Ok (h, r)) result }
    // The header names the api of the request.
    ensures named { IfOk result (λ read.
        api_at read.0.key read.0.version ≡ Some (api_of read.1)) }
    // What is read within the limit fits.
    ensures fits { IfOk result (λ read. length frame.now ≤ FRAME_LIMIT → Fits read.1) }
    // The fault is the first from left to right.
    ensures exact { Answers (request_at frame.now) result }
{
    // A law, for the clause `fits`.
    read_fits(frame.as_slice());
    read_whole(alloc, frame)
}

/// The whole frame of an EndTxn request in its version, with its size field. The header has to be one of EndTxn in that version.
#[tactic(auto, unfolding(crate::specs::Request::is_writable, crate::specs::Bodies::request_body, crate::specs::Frame::frame_fits))]
fn write_ending(
    alloc: Global,
    header: &Header,
    request: &EndTxnRequest,
) -> Result<Bytes, WriteFault>
    requires { api_at header.now.key header.now.version
        ≡ Some (api_of (Request.EndTxn request.now)) }
    ensures { GivesRequest header.now (Request.EndTxn request.now) result }
{
    let flexible = ending_api(request).is_flexible();
    match request {
        EndTxnRequest::Version0(body) => write_frame(alloc, flexible, header, body),
        EndTxnRequest::Version1(body) => write_frame(alloc, flexible, header, body),
        EndTxnRequest::Version2(body) => write_frame(alloc, flexible, header, body),
        EndTxnRequest::Version3(body) => write_frame(alloc, flexible, header, body),
        EndTxnRequest::Version4(body) => write_frame(alloc, flexible, header, body),
        EndTxnRequest::Version5(body) => write_frame(alloc, flexible, header, body),
    }
}

/// The whole frame of a request, with its size field. The header has to name the request's API and version. `TooLong` if the
/// frame is longer than its size field can hold (`FRAME_LIMIT` isn't checked), or a length in it than its field; `NoMemory` on an
/// allocation failure.
#[tactic(auto, unfolding(crate::specs::Request::is_writable, crate::specs::Bodies::request_body, crate::specs::Frame::frame_fits))]
pub fn write_request(alloc: Global, header: &Header, request: &Request) -> Result<Bytes, WriteFault>
    requires { api_at header.now.key header.now.version ≡ Some (api_of request.now) }
    ensures { GivesRequest header.now request.now result }
{
    let flexible = request.api().is_flexible();
    match request {
        Request::Produce(body) => write_frame(alloc, flexible, header, body),
        Request::Fetch(body) => write_frame(alloc, flexible, header, body),
        Request::ListOffsets(body) => write_frame(alloc, flexible, header, body),
        Request::Metadata(body) => write_frame(alloc, flexible, header, body),
        Request::OffsetCommit(body) => write_frame(alloc, flexible, header, body),
        Request::OffsetFetch(body) => write_frame(alloc, flexible, header, body),
        Request::FindCoordinator(body) => write_frame(alloc, flexible, header, body),
        Request::JoinGroup(body) => write_frame(alloc, flexible, header, body),
        Request::Heartbeat(body) => write_frame(alloc, flexible, header, body),
        Request::LeaveGroup(body) => write_frame(alloc, flexible, header, body),
        Request::SyncGroup(body) => write_frame(alloc, flexible, header, body),
        Request::SaslHandshake(body) => write_frame(alloc, flexible, header, body),
        Request::ApiVersions => write_header_frame(alloc, flexible, header),
        Request::InitProducerId(body) => write_frame(alloc, flexible, header, body),
        Request::AddPartitionsToTxn(body) => write_frame(alloc, flexible, header, body),
        Request::AddOffsetsToTxn(body) => write_frame(alloc, flexible, header, body),
        Request::EndTxn(body) => write_ending(alloc, header, body.value()),
        Request::TxnOffsetCommit(body) => write_frame(alloc, flexible, header, body),
        Request::DescribeAcls(body) => write_frame(alloc, flexible, header, body),
        Request::CreateAcls(body) => write_frame(alloc, flexible, header, body),
        Request::DeleteAcls(body) => write_frame(alloc, flexible, header, body),
        Request::SaslAuthenticate(body) => write_frame(alloc, flexible, header, body),
    }
}
