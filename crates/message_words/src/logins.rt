//! The fields of the messages before and at a login.

use crate::names::key_name;
use crate::sheet::{Fields, Sheet};
use msg_login::{
    ApiVersionsReply, SaslAuthenticateReply, SaslAuthenticateRequest, SaslHandshakeReply,
    SaslHandshakeRequest, ServedVersions,
};
use std::alloc::AllocError;

impl Fields for ServedVersions {
    /// Appends an api of an ApiVersions response, and the versions of it that are served.
    fn push_fields(&self, sheet: &mut Sheet) -> Result<(), AllocError> {
        sheet.push_coded("api_key", self.key, key_name(self.key))?;
        sheet.push("min_version", self.min)?;
        sheet.push("max_version", self.max)
    }
}

impl Fields for ApiVersionsReply {
    /// Appends the response: its error, and the versions of each api.
    fn push_fields(&self, sheet: &mut Sheet) -> Result<(), AllocError> {
        sheet.push_error("error_code", self.error)?;
        sheet.push_list("api_keys", self.apis.as_slice())
    }
}

impl Fields for SaslHandshakeRequest {
    /// Appends the SASL mechanism that is asked for, such as `PLAIN`.
    fn push_fields(&self, sheet: &mut Sheet) -> Result<(), AllocError> {
        sheet.push_text("mechanism", &self.mechanism)
    }
}

impl Fields for SaslHandshakeReply {
    /// Appends the response: its error, and the mechanisms that are served.
    fn push_fields(&self, sheet: &mut Sheet) -> Result<(), AllocError> {
        sheet.push_error("error_code", self.error)?;
        sheet.push_texts("mechanisms", self.mechanisms.as_slice())
    }
}

/// Only the length of the SASL bytes, since a password is in them.
impl Fields for SaslAuthenticateRequest {
    /// Appends how many bytes are sent to log in, not the bytes: a password is among them.
    fn push_fields(&self, sheet: &mut Sheet) -> Result<(), AllocError> {
        let count = self.auth.len();
        let told = format!(in sheet.alloc(); "{count} bytes, which are not shown")?;
        sheet.push("auth_bytes", told)
    }
}

impl Fields for SaslAuthenticateReply {
    /// Appends the response: its error, the error's message, and the SASL bytes.
    fn push_fields(&self, sheet: &mut Sheet) -> Result<(), AllocError> {
        sheet.push_error("error_code", self.error)?;
        sheet.push_nullable("error_message", &self.message)?;
        sheet.push_bytes("auth_bytes", self.auth.as_slice())
    }
}
