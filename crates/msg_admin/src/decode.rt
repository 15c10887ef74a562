//! What a frame is, decided in one place for all that read frames whole.

ghost use Rattle.std.specs.Prelude.{◌≡◌, ℤ, length, IfOk};
ghost use Rattle.msg_admin.specs.Decode.{frame_at, FitsWithin};
ghost use Rattle.msg_admin.specs.Request.{IsRequest};
ghost use Rattle.msg_admin.specs.Versions.{AsksUnsupported};
ghost use Rattle.msg_admin.specs.declared.decode.Frame.TheVariants as frames;
ghost use Rattle.msg_admin.specs.declared.header.Header.{Header};
ghost use Rattle.msg_admin.specs.declared.request.Request.{Request};

use crate::header::Header;
use crate::request::{Request, read_request};
use crate::versions::unsupported_versions;
use std::alloc::{AllocError, Global};
use wire_types::{Bytes, Malformed, ReadFault};

/// What a client sends in one frame.
#[derive(Drop)]
pub enum Frame {
    /// A request that is served.
    Request(Header, Request),
    /// ApiVersions in a version that isn't served, under this correlation id. It is answered all the same (KIP-511).
    OtherApiVersions(i32),
    /// Neither of these: the first fault that is met from left to right.
    Malformed(Malformed),
}

/// Decides what a frame, given without its size field, is. `decode_frame` is its public form.
fn decode(alloc: Global, frame: &Bytes) -> Result<Frame, AllocError>
    ensures exact { IfOk result (λ f. f ≡ frame_at frame.now) }
    ensures fits { IfOk result (FitsWithin (length frame.now)) }
{
    if let Some(correlation) = unsupported_versions(frame) {
        return Ok(Frame::OtherApiVersions(correlation));
    }
    match read_request(alloc, frame) {
        Ok((header, request)) => Ok(Frame::Request(header, request)),
        Err(ReadFault::Malformed(fault)) => Ok(Frame::Malformed(fault)),
        Err(ReadFault::NoMemory) => Err(AllocError),
    }
}

/// Decodes a frame, given without its size field: a served request with its header, ApiVersions in a version that isn't served,
/// or malformed bytes, which are no error here. Byte fields of the request share the frame's bytes. The frame may be longer than
/// `FRAME_LIMIT`. An error is an allocation failure.
pub fn decode_frame(alloc: Global, frame: &Bytes) -> Result<Frame, AllocError>
    ensures exact { IfOk result (λ f. f ≡ frame_at frame.now) }
    // A request is read as one.
    ensures request { (h : Header) (r : Request) → IsRequest frame.now h r
        → IfOk result (λ f. f ≡ frames.Request h r) }
    // Whoever asks ApiVersions in another version is found.
    ensures versions { (correlation : ℤ) → AsksUnsupported frame.now correlation
        → IfOk result (λ f. f ≡ frames.OtherApiVersions correlation) }
    // A request that is read within the limit fits.
    ensures fits { IfOk result (FitsWithin (length frame.now)) }
{
    decode(alloc, frame)
}
