//! The messages before and at a login: what each api is asked and what it answers.
//!
//! One file for each api, with the fields in their order on the wire; `specs/` has the grammar of each.
//! Each message and each part of one is a `Wire`: `read` reads it from bytes, `put` appends its bytes, and `deduct_from`
//! returns how many of a budget of bytes are left after these.
#![tactic(auto)]

mod api_versions;
mod sasl_authenticate;
mod sasl_handshake;

pub use api_versions::{ApiVersionsReply, ServedVersions};
pub use sasl_authenticate::{SaslAuthenticateReply, SaslAuthenticateRequest};
pub use sasl_handshake::{SaslHandshakeReply, SaslHandshakeRequest};
