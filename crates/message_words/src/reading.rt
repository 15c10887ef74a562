//! Reads what `write_reply` writes.

ghost use Rattle.std.specs.Prelude.{ℤ, Ok, IfOk};
ghost use Rattle.wire_types.specs.Schema.{int32};
ghost use Rattle.wire_types.specs.Reading.{Reads};
ghost use Rattle.msg_admin.specs.declared.reply.Reply.{Reply as AnyReply};
ghost use Rattle.msg_admin.specs.Header.{with_header_tags};
ghost use Rattle.msg_admin.specs.Bodies.{reply_form, reply_body};
ghost use Rattle.msg_admin.specs.Request.{Answers};
ghost use Rattle.msg_admin.specs.Response.{IsResponse};
ghost use Rattle.message_words.specs.Reading.{response_at};

use msg_admin::{Api, ApiKey, Reply};
use msg_txn::EndTxnReply;
use std::alloc::Global;
use wire_types::{Boxed, Bytes, Cursor, Malformed, ReadFault, Wire};

/// Reads a response's header, and gives its correlation id. In a flexible version (KIP-482) tagged fields follow it, which are
/// skipped.
fn read_correlation(flexible: bool, cursor: &mut Cursor<'_>) -> Result<i32, ReadFault>
    ensures { Reads ((with_header_tags flexible int32).reading cursor.old) result cursor.new }
{
    let correlation = cursor.read_i32()?;
    if flexible {
        cursor.skip_tags()?;
    }
    Ok(correlation)
}

/// Reads the body of an api's response in the form of this version.
fn read_form(
    alloc: Global,
    key: ApiKey,
    version: i16,
    cursor: &mut Cursor<'_>,
) -> Result<Reply, ReadFault>
    ensures { Reads ((reply_form key version).reading cursor.old) result cursor.new }
{
    Ok(match key {
        ApiKey::Produce => Reply::Produce(Wire::read(alloc, cursor)?),
        ApiKey::Fetch => Reply::Fetch(Wire::read(alloc, cursor)?),
        ApiKey::ListOffsets => Reply::ListOffsets(Wire::read(alloc, cursor)?),
        ApiKey::Metadata => Reply::Metadata(Wire::read(alloc, cursor)?),
        ApiKey::OffsetCommit => Reply::OffsetCommit(Wire::read(alloc, cursor)?),
        ApiKey::OffsetFetch => Reply::OffsetFetch(Wire::read(alloc, cursor)?),
        ApiKey::FindCoordinator => Reply::FindCoordinator(Wire::read(alloc, cursor)?),
        ApiKey::JoinGroup => Reply::JoinGroup(Wire::read(alloc, cursor)?),
        ApiKey::Heartbeat => Reply::Heartbeat(Wire::read(alloc, cursor)?),
        ApiKey::LeaveGroup => Reply::LeaveGroup(Wire::read(alloc, cursor)?),
        ApiKey::SyncGroup => Reply::SyncGroup(Wire::read(alloc, cursor)?),
        ApiKey::SaslHandshake => Reply::SaslHandshake(Wire::read(alloc, cursor)?),
        ApiKey::ApiVersions => Reply::ApiVersions(Wire::read(alloc, cursor)?),
        ApiKey::InitProducerId => Reply::InitProducerId(Wire::read(alloc, cursor)?),
        ApiKey::AddPartitionsToTxn => Reply::AddPartitionsToTxn(Wire::read(alloc, cursor)?),
        ApiKey::AddOffsetsToTxn => Reply::AddOffsetsToTxn(Wire::read(alloc, cursor)?),
        ApiKey::EndTxn => {
            let body = EndTxnReply::read(alloc, version, cursor)?;
            Reply::EndTxn(Boxed::new(alloc, body)?)
        }
        ApiKey::TxnOffsetCommit => Reply::TxnOffsetCommit(Wire::read(alloc, cursor)?),
        ApiKey::DescribeAcls => Reply::DescribeAcls(Wire::read(alloc, cursor)?),
        ApiKey::CreateAcls => Reply::CreateAcls(Wire::read(alloc, cursor)?),
        ApiKey::DeleteAcls => Reply::DeleteAcls(Wire::read(alloc, cursor)?),
        ApiKey::SaslAuthenticate => Reply::SaslAuthenticate(Wire::read(alloc, cursor)?),
    })
}

/// Reads the body of an api's response.
#[tactic(auto, unfolding(msg_admin::specs::Bodies::reply_body))]
fn read_body(alloc: Global, api: Api, cursor: &mut Cursor<'_>) -> Result<Reply, ReadFault>
    ensures { Reads ((reply_body api).reading cursor.old) result cursor.new }
{
    read_form(alloc, api.key(), api.version(), cursor)
}

/// Reads a response to its end, its header and its body. Bytes after the body are the fault `Rest`.
#[tactic(auto, unfolding(crate::specs::Reading::response_at))]
fn read_whole(alloc: Global, api: Api, response: &Bytes) -> Result<(i32, Reply), ReadFault>
    ensures { Answers (response_at api response.now) result }
{
    let mut cursor = Cursor::over(response);
    let correlation = read_correlation(api.is_flexible(), &mut cursor)?;
    let reply = read_body(alloc, api, &mut cursor)?;
    if cursor.len() != 0 {
        return Err(ReadFault::Malformed(Malformed::Rest));
    }
    Ok((correlation, reply))
}

/// Reads an api's response, given without its size field, as a client does: its correlation id and its reply. The fault says what
/// is malformed, or that an allocation failed.
///
/// Blobs of the reply share the response's bytes.
pub fn read_reply(alloc: Global, api: Api, response: &Bytes) -> Result<(i32, Reply), ReadFault>
    // What is read is spelled by the bytes.
    ensures found { IfOk result (λ read. IsResponse api response.now read.0 read.1) }
    // What the bytes spell is read, unless memory runs out.
    ensures only { (correlation : ℤ) (reply : AnyReply) → IsResponse api response.now correlation reply
        → Answers (Ok (correlation, reply)) result }
    // The fault is the first from left to right.
    ensures exact { Answers (response_at api response.now) result }
{
    read_whole(alloc, api, response)
}
