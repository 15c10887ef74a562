//! The apis that all callers are answered alike: ApiVersions, and the SASL requests that come after the login.

ghost use Rattle.std.specs.Prelude.{◌≡◌, [], IfOk};
ghost use Rattle.msg_login.specs.SaslHandshake.{handshake_reply};
ghost use Rattle.msg_login.specs.SaslAuthenticate.{authenticate_reply};
ghost use Rattle.msg_admin.specs.Versions.{versions_reply};

use authorizer::Paid;
use broker_world::{HandlerResult, served_whole};
use msg_admin::{Reply, versions_reply};
use msg_login::{SaslAuthenticateReply, SaslHandshakeReply};
use std::alloc::{AllocError, Global};
use wire_types::{Boxed, ErrorCode};

/// Handles an ApiVersions: the apis that are served, with their versions. It needs no permission.
pub(crate) fn answer_api_versions(alloc: Global) -> Result<HandlerResult, AllocError>
    ensures { IfOk result
        (λ o. o ≡ record {
          reply = Reply.ApiVersions versions_reply;
          refusals = [];
          paid = [];
          spent = 0;
        }) }
{
    let reply = Reply::ApiVersions(Boxed::new(alloc, versions_reply(alloc)?)?);
    Ok(served_whole(alloc, reply, Paid::nothing()))
}

/// Handles a SaslHandshake that comes after the login: ILLEGAL_SASL_STATE, with the mechanisms that are served.
pub(crate) fn answer_sasl_handshake(alloc: Global) -> Result<HandlerResult, AllocError>
    ensures { IfOk result
        (λ o. o ≡ record {
          reply = Reply.SaslHandshake (handshake_reply ErrorCode.IllegalSaslState);
          refusals = [];
          paid = [];
          spent = 0;
        }) }
{
    let told = SaslHandshakeReply::telling(alloc, ErrorCode::IllegalSaslState)?;
    let reply = Reply::SaslHandshake(Boxed::new(alloc, told)?);
    Ok(served_whole(alloc, reply, Paid::nothing()))
}

/// Handles a SaslAuthenticate that comes after the login: ILLEGAL_SASL_STATE.
pub(crate) fn answer_sasl_authenticate(alloc: Global) -> Result<HandlerResult, AllocError>
    ensures { IfOk result
        (λ o. o ≡ record {
          reply = Reply.SaslAuthenticate
              (authenticate_reply ErrorCode.IllegalSaslState);
          refusals = [];
          paid = [];
          spent = 0;
        }) }
{
    let told = SaslAuthenticateReply::telling(ErrorCode::IllegalSaslState);
    let reply = Reply::SaslAuthenticate(Boxed::new(alloc, told)?);
    Ok(served_whole(alloc, reply, Paid::nothing()))
}
