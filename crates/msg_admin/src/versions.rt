//! What ApiVersions is answered: each API that is served, with its versions.
//!
//! A client asks for the versions before it knows them, and so in any version. Of a request in a version that isn't served only
//! the start is read that each header has, and the answer has the form of version 0.

ghost use Rattle.std.specs.Prelude.{◌≡◌, ℤ, map, IfOk, IfSome, OnSome, Some, Err};
ghost use Rattle.wire_types.specs.declared.fault.Malformed.TheVariants.{Unknown};
ghost use Rattle.wire_types.specs.Reading.{Takes};
ghost use Rattle.msg_admin.specs.Request.{request_at};
ghost use Rattle.msg_admin.specs.Versions.{header_start, served_in, versions_reply, AsksUnsupported, unsupported_at, unsupported_reply, unsupported_response};

use crate::api_key::ApiKey;
use crate::frame::write_frame;
use msg_login::{ApiVersionsReply, ServedVersions};
use std::alloc::{AllocError, Global};
use wire_types::{Bytes, Cursor, ErrorCode, Items, Malformed, WriteFault};

/// The entry of an API in the reply to ApiVersions: its key and its first and last served version.
fn served_in(key: ApiKey) -> ServedVersions
    ensures { result ≡ served_in key }
{
    let served = key.served();
    ServedVersions {
        key: served.number,
        min: served.first,
        max: served.last,
    }
}

/// The entries of these APIs in the reply to ApiVersions, in the same order. An error is an allocation failure.
fn all_served(alloc: Global, keys: &[ApiKey]) -> Result<Items<ServedVersions>, AllocError>
    ensures { IfOk result (λ served. served ≡ map served_in keys.now) }
{
    let mut served = Items::new(alloc);
    for key in keys {
        served.push(served_in(*key))?;
    }
    Ok(served)
}

/// The reply to ApiVersions in version 0: each served API with its versions, by rising keys. An error is an allocation failure.
#[tactic(auto, unfolding(crate::specs::ApiKey::all_keys))]
pub fn versions_reply(alloc: Global) -> Result<ApiVersionsReply, AllocError>
    ensures { IfOk result (λ answer. answer ≡ versions_reply) }
{
    Ok(ApiVersionsReply {
        error: ErrorCode::None,
        apis: all_served(alloc, &ApiKey::ALL)?,
    })
}

/// Reads what every request header starts with: api key, version and correlation id.
fn read_start(cursor: &mut Cursor<'_>) -> Result<((i16, i16), i32), Malformed>
    ensures { Takes (header_start.reading cursor.old) result cursor.new }
{
    let key = cursor.read_i16()?;
    let version = cursor.read_i16()?;
    let correlation = cursor.read_i32()?;
    Ok(((key, version), correlation))
}

/// As `unsupported_versions`, which is its public form.
#[tactic(auto, unfolding(crate::specs::Versions::unsupported_at))]
fn asked_in_another(frame: &Bytes) -> Option<i32>
    ensures { result ≡ unsupported_at frame.now }
{
    let mut cursor = Cursor::over(frame);
    let ((key, version), correlation) = read_start(&mut cursor).ok()?;
    if key == ApiKey::ApiVersions.number() && !ApiKey::ApiVersions.serves(version) {
        Some(correlation)
    } else {
        None
    }
}

/// The correlation id of a frame that asks for ApiVersions in a version that isn't served (KIP-511); None for any other frame.
/// The frame is given without its size field, and only its first eight bytes are read.
pub fn unsupported_versions(frame: &Bytes) -> Option<i32>
    ensures found { IfSome result (λ correlation. AsksUnsupported frame.now correlation) }
    ensures only { (correlation : ℤ) → AsksUnsupported frame.now correlation
        → result ≡ Some correlation }
    // Such a frame is none that `read_request` reads.
    ensures unread { OnSome result (request_at frame.now ≡ Err Unknown) }
    // The same by a test, for those who define by it.
    ensures exact { result ≡ unsupported_at frame.now }
{
    asked_in_another(frame)
}

/// The reply to ApiVersions in a version that isn't served: UNSUPPORTED_VERSION, and the served versions of ApiVersions alone
/// (KIP-511). An error is an allocation failure.
fn unsupported_reply(alloc: Global) -> Result<ApiVersionsReply, AllocError>
    ensures { IfOk result (λ answer. answer ≡ unsupported_reply) }
{
    let served = served_in(ApiKey::ApiVersions);
    Ok(ApiVersionsReply {
        error: ErrorCode::UnsupportedVersion,
        apis: Items::from(vec![in alloc; served]?),
    })
}

/// The whole frame, with its size field, that answers ApiVersions in a version that isn't served (KIP-511): UNSUPPORTED_VERSION
/// and the served versions of ApiVersions alone, in the form of version 0. An error is an allocation failure.
pub fn write_unsupported_versions(alloc: Global, correlation: i32) -> Result<Bytes, AllocError>
    ensures { IfOk result (λ bytes. bytes ≡ unsupported_response correlation) }
{
    let answer = unsupported_reply(alloc)?;
    match write_frame(alloc, false, &correlation, &answer) {
        Ok(response) => Ok(response),
        Err(WriteFault::NoMemory) => Err(AllocError),
        Err(WriteFault::TooLong) => unreachable!(),
    }
}
