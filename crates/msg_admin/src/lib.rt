//! Requests and replies as the frames that travel: headers, the apis that are served, and what stands after each.
//!
//! `read_request` and `write_reply` are a broker's side, `write_request` a client's. A new api is a variant of
//! `ApiKey`, `Request` and `Reply`, a row of the table `ApiKey::served`, a line where each of them is dispatched, and its
//! grammar in `specs/Bodies.antt`. An `Api` is a key in a version that is served: `Api::is_flexible` tells the form of its
//! headers. `versions_reply` lists each key that `ApiKey::ALL` has, with its versions.
//! `decode_frame` says what a frame is: a request, ApiVersions in another version (`unsupported_versions`), or neither.
#![tactic(auto)]

mod api;
mod api_key;
mod decode;
mod frame;
mod header;
mod laws;
mod reply;
mod request;
mod versions;

pub use api::Api;
pub use api_key::{ApiKey, ServedApi};
pub use decode::{Frame, decode_frame};
pub use header::Header;
pub use laws::{
    fits_is_writable, found_is_request, one_reply, one_request, one_response, read_fits,
    sendable_is_short, written_is_read, written_reply_is_read,
};
pub use reply::{Reply, write_reply};
pub use request::{FRAME_LIMIT, Request, read_request, write_request};
pub use versions::{unsupported_versions, versions_reply, write_unsupported_versions};
