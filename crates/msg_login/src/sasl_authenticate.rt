//! SaslAuthenticate, version 0: the bytes that client and broker exchange for a SASL mechanism.

ghost use Rattle.std.specs.Prelude.{◌≡◌};
ghost use Rattle.msg_login.specs.SaslAuthenticate.{authenticate_reply};

use std::alloc::Global;
use wire_types::{
    Bytes, Cursor, ErrorCode, ReadFault, Text, Wire, WriteFault, deduct_bytes, deduct_nullable,
    write_bytes, write_nullable,
};

/// The client's bytes for its SASL mechanism; with PLAIN `[authzid] NUL authcid NUL passwd` (RFC 4616).
#[derive(Drop, PartialEq, Eq)]
pub struct SaslAuthenticateRequest {
    pub auth: Bytes,
}

/// Whether the client is logged in (error code 0), and what the broker sends for the SASL mechanism.
#[derive(Drop, PartialEq, Eq)]
pub struct SaslAuthenticateReply {
    pub error: ErrorCode,
    pub message: Option<Text>,
    pub auth: Bytes,
}

impl SaslAuthenticateReply {
    /// The reply with this error code, which is 0 for a login, with no message and empty SASL bytes: with PLAIN the broker has
    /// nothing to send.
    pub fn telling(error: ErrorCode) -> SaslAuthenticateReply
        ensures { result ≡ authenticate_reply error }
    {
        SaslAuthenticateReply {
            error,
            message: None,
            auth: Bytes::new(),
        }
    }
}

impl Wire for SaslAuthenticateRequest {
    ghost use Rattle.msg_login.specs.SaslAuthenticate.{sasl_authenticate_request};

    ghost grammar = { sasl_authenticate_request };

    fn read(alloc: Global, cursor: &mut Cursor<'_>) -> Result<SaslAuthenticateRequest, ReadFault> {
        let auth = cursor.read_bytes(alloc)?;
        Ok(SaslAuthenticateRequest { auth })
    }

    fn put(&self, out: &mut Vec<u8>) -> Result<(), WriteFault> {
        write_bytes(out, &self.auth)?;
        Ok(())
    }

    fn deduct_from(&self, budget: usize) -> Option<usize> {
        deduct_bytes(&self.auth, budget)
    }
}

impl Wire for SaslAuthenticateReply {
    ghost use Rattle.msg_login.specs.SaslAuthenticate.{sasl_authenticate_reply};

    ghost grammar = { sasl_authenticate_reply };

    fn read(alloc: Global, cursor: &mut Cursor<'_>) -> Result<SaslAuthenticateReply, ReadFault> {
        let error = ErrorCode::read(alloc, cursor)?;
        let message = cursor.read_nullable(alloc)?;
        let auth = cursor.read_bytes(alloc)?;
        Ok(SaslAuthenticateReply {
            error,
            message,
            auth,
        })
    }

    fn put(&self, out: &mut Vec<u8>) -> Result<(), WriteFault> {
        self.error.write(out)?;
        write_nullable(out, &self.message)?;
        write_bytes(out, &self.auth)?;
        Ok(())
    }

    fn deduct_from(&self, budget: usize) -> Option<usize> {
        let budget = self.error.deduct_from(budget)?;
        let budget = deduct_nullable(&self.message, budget)?;
        deduct_bytes(&self.auth, budget)
    }
}
