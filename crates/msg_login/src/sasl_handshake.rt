//! SaslHandshake, version 1: the mechanism by which a client is going to log in. PLAIN alone is offered (RFC 4616).

ghost use Rattle.std.specs.Prelude.{◌≡◌, IfOk};
ghost use Rattle.msg_login.specs.SaslHandshake.{handshake_reply};

use std::alloc::{AllocError, Global};
use wire_types::{
    Cursor, ErrorCode, Items, ReadFault, Text, Wire, WriteFault, deduct_array, deduct_string,
    read_array, write_array, write_string,
};

/// Names the mechanism that the client chose.
#[derive(Drop, PartialEq, Eq)]
pub struct SaslHandshakeRequest {
    pub mechanism: Text,
}

/// Whether the chosen mechanism is served (error code 0), and the list of those that are.
#[derive(Drop, PartialEq, Eq)]
pub struct SaslHandshakeReply {
    pub error: ErrorCode,
    pub mechanisms: Items<Text>,
}

impl SaslHandshakeReply {
    /// The reply with this error code and the list of served mechanisms, which is PLAIN alone. An error is an allocation failure.
    pub fn telling(alloc: Global, error: ErrorCode) -> Result<SaslHandshakeReply, AllocError>
        ensures { IfOk result (λ reply. reply ≡ handshake_reply error) }
    {
        let plain = Text::of(alloc, "PLAIN")?;
        Ok(SaslHandshakeReply {
            error,
            mechanisms: Items::from(vec![in alloc; plain]?),
        })
    }
}

impl Wire for SaslHandshakeRequest {
    ghost use Rattle.msg_login.specs.SaslHandshake.{sasl_handshake_request};

    ghost grammar = { sasl_handshake_request };

    fn read(alloc: Global, cursor: &mut Cursor<'_>) -> Result<SaslHandshakeRequest, ReadFault> {
        let mechanism = cursor.read_string(alloc)?;
        Ok(SaslHandshakeRequest { mechanism })
    }

    fn put(&self, out: &mut Vec<u8>) -> Result<(), WriteFault> {
        write_string(out, &self.mechanism)?;
        Ok(())
    }

    fn deduct_from(&self, budget: usize) -> Option<usize> {
        deduct_string(&self.mechanism, budget)
    }
}

impl Wire for SaslHandshakeReply {
    ghost use Rattle.msg_login.specs.SaslHandshake.{sasl_handshake_reply};

    ghost grammar = { sasl_handshake_reply };

    fn read(alloc: Global, cursor: &mut Cursor<'_>) -> Result<SaslHandshakeReply, ReadFault> {
        let error = ErrorCode::read(alloc, cursor)?;
        let mechanisms = read_array(alloc, cursor)?;
        Ok(SaslHandshakeReply { error, mechanisms })
    }

    fn put(&self, out: &mut Vec<u8>) -> Result<(), WriteFault> {
        self.error.write(out)?;
        write_array(out, &self.mechanisms)?;
        Ok(())
    }

    fn deduct_from(&self, budget: usize) -> Option<usize> {
        let budget = self.error.deduct_from(budget)?;
        deduct_array(&self.mechanisms, budget)
    }
}
