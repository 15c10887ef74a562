//! The replies to SASL requests at a login.

use msg_login::{SaslAuthenticateReply, SaslHandshakeReply};
use std::test::Fail;
use wire_types::ErrorCode;

/// The answer to a SaslHandshake offers PLAIN alone, and that to a failed login holds no message and no bytes.
#[test]
fn what_is_told_at_a_login(rt: HostRuntime) -> Result<(), Fail> {
    let offered = SaslHandshakeReply::telling(rt.alloc(), ErrorCode::IllegalSaslState)?;
    let mechanisms = offered.mechanisms.as_slice();
    assert!(rt; mechanisms.len() == 1 && mechanisms[0].as_str() == "PLAIN");
    let told = SaslAuthenticateReply::telling(ErrorCode::SaslAuthenticationFailed);
    assert!(rt; told.message.is_none() && told.auth.is_empty());
    Ok(())
}
