//! The laws between bytes, requests and replies, each the contract of a function with nothing to do.

ghost use Rattle.msg_admin.specs.Laws.{OneRequest, FoundIsRequest, WrittenIsRead, SpellsFitting, FitsIsWritable, OneReply, OneResponse, WrittenReplyIsRead, SendableIsShort};

/// A frame's bytes are at most one request: they determine header and request.
pub fn one_request()
    ensures { OneRequest }
{}

/// Reading a frame finds a request exactly where the frame's bytes follow the grammar of that request.
pub fn found_is_request()
    ensures { FoundIsRequest }
{}

/// Reading what was written of a request, under a header of its API and version, gives the same header and request.
pub fn written_is_read()
    ensures { WrittenIsRead }
{}

/// A request that is read from this frame, if the frame has at most `FRAME_LIMIT` bytes, fits into such a frame when it is
/// written (`Request::fits`).
pub fn read_fits(frame: &[u8])
    ensures { SpellsFitting frame.now }
{}

/// A request that fits within `FRAME_LIMIT` (`Request::fits`) can be written after a header whose client id is null.
pub fn fits_is_writable()
    ensures { FitsIsWritable }
{}

/// Two responses of the same api with the same bytes have the same correlation id and the same reply.
pub fn one_reply()
    ensures { OneReply }
{}

/// Bytes follow the grammar of at most one response of an api: they determine correlation id and reply.
pub fn one_response()
    ensures { OneResponse }
{}

/// Reading what was written of a reply gives the same correlation id and reply.
pub fn written_reply_is_read()
    ensures { WrittenReplyIsRead }
{}

/// A reply can be sent exactly where its response isn't too long for a frame.
pub fn sendable_is_short()
    ensures { SendableIsShort }
{}
