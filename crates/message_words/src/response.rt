//! What a frame is answered, in words.

use crate::names::api_name;
use crate::reading::read_reply;
use crate::reply::push_reply;
use crate::sheet::Sheet;
use msg_admin::{Api, ApiKey, Reply, unsupported_versions, write_unsupported_versions};
use std::alloc::{AllocError, Global};
use wire_types::{Bytes, Cursor, Malformed, ReadFault};

/// The bytes of a frame's size field.
const SIZE_FIELD: usize = 4;

/// Appends a field `answer` that says, in the words `why`, that no answer is shown.
pub fn push_no_answer(sheet: &mut Sheet, why: &str) -> Result<(), AllocError> {
    sheet.push("answer", why)
}

/// Appends a field `answer` that says that nothing is sent, as after a Produce with acks 0.
pub fn push_silence(sheet: &mut Sheet) -> Result<(), AllocError> {
    push_no_answer(sheet, "none, nothing is sent")
}

/// Appends a field `answer` that says that the connection is closed without an answer.
pub fn push_closed(sheet: &mut Sheet) -> Result<(), AllocError> {
    push_no_answer(sheet, "none, the connection is closed")
}

/// Appends a reply as the field `answer`. Its correlation id is shown only where it isn't `asked`, that of the request.
pub fn push_sent_reply(
    sheet: &mut Sheet,
    asked: i32,
    correlation: i32,
    reply: &Reply,
) -> Result<(), AllocError> {
    sheet.begin("answer")?;
    if correlation != asked {
        sheet.push("correlation_id", correlation)?;
    }
    push_reply(sheet, reply)?;
    sheet.end();
    Ok(())
}

/// Which answer a frame, without its size field, asks for: the api in its version, and the correlation id. `None` where the api
/// isn't served in that version, or the frame is too short. An ApiVersions in a version that isn't served is answered in the last
/// one that is.
fn asked_of(frame: &Bytes) -> Option<(Api, i32)> {
    if let Some(correlation) = unsupported_versions(frame) {
        return Some((Api::in_last_version(ApiKey::ApiVersions), correlation));
    }
    let mut cursor = Cursor::over(frame);
    let key = cursor.read_i16().ok()?;
    let version = cursor.read_i16().ok()?;
    let api = Api::of(key, version)?;
    Some((api, cursor.read_i32().ok()?))
}

/// The bytes after the size field; `None` where that isn't whole, or isn't the number of bytes after it.
fn after_size(response: &Bytes) -> Result<Option<Bytes>, AllocError> {
    let mut cursor = Cursor::over(response);
    match cursor.read_u32() {
        Ok(size) => {
            if size as usize != cursor.len() {
                return Ok(None);
            }
        }
        Err(_) => return Ok(None),
    }
    Ok(Some(response.slice(SIZE_FIELD.min(response.len())..response.len())?))
}

/// A sentence that says why `count` bytes are no response of an api.
fn unread_text(
    alloc: Global,
    api: Api,
    count: usize,
    fault: Malformed,
) -> Result<String, AllocError> {
    let name = api_name(api);
    let version = api.version();
    format!(in alloc; "{count} bytes that are no response of {name} version {version}: {fault}")
}

/// Appends the response to a request as the field `answer`, or why it can't be read. `frame` is the request's frame without its
/// size field, `response` has its own in front.
pub fn push_response(sheet: &mut Sheet, frame: &Bytes, response: &Bytes) -> Result<(), AllocError> {
    let alloc = sheet.alloc();
    let Some((api, asked)) = asked_of(frame) else {
        return push_no_answer(sheet, "a response, though no api is asked that is served");
    };
    let Some(body) = after_size(response)? else {
        return push_no_answer(
            sheet,
            "a response whose first four bytes are not the number of bytes after them",
        );
    };
    match read_reply(alloc, api, &body) {
        Ok((correlation, reply)) => push_sent_reply(sheet, asked, correlation, &reply),
        Err(ReadFault::Malformed(fault)) => {
            let why = unread_text(alloc, api, body.len(), fault)?;
            push_no_answer(sheet, why.as_str())
        }
        Err(ReadFault::NoMemory) => Err(AllocError),
    }
}

/// Appends the answer to a frame that asks ApiVersions in a version that isn't served, under this correlation id:
/// UNSUPPORTED_VERSION, and which versions of ApiVersions are served (KIP-511). `frame` stands without its size field.
pub fn push_served_versions(
    sheet: &mut Sheet,
    frame: &Bytes,
    correlation: i32,
) -> Result<(), AllocError> {
    let response = write_unsupported_versions(sheet.alloc(), correlation)?;
    push_response(sheet, frame, &response)
}
