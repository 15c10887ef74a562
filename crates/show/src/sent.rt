//! What a line of a script sends: a request, or bytes that are none.

use acl_binding::Caller;
use audit_trail::push_word;
use commands::Sent;
use message_words::{Sheet, api_name, fault_end, key_name, push_request};
use msg_admin::{FRAME_LIMIT, Frame, Header, Request, decode_frame};
use std::alloc::AllocError;
use wire_types::{Bytes, Cursor, Malformed};

/// Appends `line N: WHO at HOST WHAT`. WHO and HOST are percent-encoded as in an audit line, `what` stands there raw. What
/// follows stands indented under it until the caller calls `Sheet::end`.
fn push_heading(
    sheet: &mut Sheet,
    number: u64,
    caller: &Caller,
    what: &str,
) -> Result<(), AllocError> {
    let mut line = format!(in sheet.alloc(); "line {number}:")?;
    push_word(&mut line, caller.who.as_str())?;
    line.push_str(" at")?;
    push_word(&mut line, caller.host.as_str())?;
    line.push_str(" ")?;
    line.push_str(what)?;
    sheet.begin(line.as_str())
}

/// Appends which api a caller asks, in which version, and under it the fields of the request. The indentation stays until
/// `Sheet::end`.
fn push_asked(
    sheet: &mut Sheet,
    number: u64,
    caller: &Caller,
    header: &Header,
    request: &Request,
) -> Result<(), AllocError> {
    let name = api_name(request.api());
    let version = header.version;
    let what = format!(in sheet.alloc(); "asks {name} version {version}")?;
    push_heading(sheet, number, caller, what.as_str())?;
    push_request(sheet, header, request)
}

/// Says that a frame is no request: what its first fault is, and at which byte, counted from 1 after the size field, or after
/// which byte, if too many follow the body.
fn fault_text(sheet: &Sheet, frame: &Bytes, fault: Malformed) -> Result<String, AllocError> {
    let alloc = sheet.alloc();
    let count = frame.len();
    let byte = fault_end(alloc, frame)?;
    match fault {
        Malformed::Rest => {
            format!(in alloc;
                "sends {count} bytes that are no request: {fault} (after byte {byte})"
            )
        }
        _ => format!(in alloc; "sends {count} bytes that are no request: {fault} (at byte {byte})"),
    }
}

/// Appends the first fields of a request header, the api key, the version and the correlation id, as far as the frame has bytes
/// for them.
fn push_start(sheet: &mut Sheet, frame: &Bytes) -> Result<(), AllocError> {
    let mut cursor = Cursor::over(frame);
    if let Ok(key) = cursor.read_i16() {
        sheet.push_coded("request_api_key", key, key_name(key))?;
    }
    if let Ok(version) = cursor.read_i16() {
        sheet.push("request_api_version", version)?;
    }
    if let Ok(correlation) = cursor.read_i32() {
        sheet.push("correlation_id", correlation)?;
    }
    Ok(())
}

/// Appends a frame that asks ApiVersions in a version that isn't served, and the first fields of its header. The indentation
/// stays until `Sheet::end`.
fn push_other_versions(sheet: &mut Sheet, number: u64, sent: &Sent) -> Result<(), AllocError> {
    let what = "asks ApiVersions in a version that isn't served";
    push_heading(sheet, number, &sent.caller, what)?;
    push_start(sheet, &sent.frame)
}

/// Appends a frame that is no request: its first fault, and the first fields of its header. The indentation stays until
/// `Sheet::end`.
fn push_malformed(
    sheet: &mut Sheet,
    number: u64,
    sent: &Sent,
    fault: Malformed,
) -> Result<(), AllocError> {
    let what = fault_text(sheet, &sent.frame, fault)?;
    push_heading(sheet, number, &sent.caller, what.as_str())?;
    push_start(sheet, &sent.frame)
}

/// Appends a frame that is longer than one may be: its length alone. The indentation stays until `Sheet::end`.
fn push_too_long(sheet: &mut Sheet, number: u64, sent: &Sent) -> Result<(), AllocError> {
    let count = sent.frame.len();
    let what = format!(in sheet.alloc();
        "sends {count} bytes, and a frame has at most {FRAME_LIMIT}"
    )?;
    push_heading(sheet, number, &sent.caller, what.as_str())
}

/// Appends who sends the line of this number, and the fields of the request, or why the bytes are no served request. What follows
/// stands indented under it until the caller calls `Sheet::end`.
pub(crate) fn push_sent(sheet: &mut Sheet, number: u64, sent: &Sent) -> Result<(), AllocError> {
    if sent.frame.len() > FRAME_LIMIT {
        return push_too_long(sheet, number, sent);
    }
    match decode_frame(sheet.alloc(), &sent.frame)? {
        Frame::Request(header, request) => {
            push_asked(sheet, number, &sent.caller, &header, &request)
        }
        Frame::OtherApiVersions(_) => push_other_versions(sheet, number, sent),
        Frame::Malformed(fault) => push_malformed(sheet, number, sent, fault),
    }
}
