//! What a session answers by itself, before a login.

ghost use Rattle.std.specs.Prelude.{◌≡◌, true, IfOk};
ghost use Rattle.msg_admin.specs.Response.{response, is_sendable};
ghost use Rattle.msg_admin.specs.declared.reply.Reply.TheVariants as replies;
ghost use Rattle.msg_login.specs.SaslHandshake.{handshake_reply};
ghost use Rattle.msg_login.specs.SaslAuthenticate.{authenticate_reply};
ghost use Rattle.sasl_login.specs.Listed.{versions_listed};

use crate::listed::{ListedVersions, versions_listed};
use msg_admin::{Reply, write_reply};
use msg_login::{SaslAuthenticateReply, SaslHandshakeReply};
use std::alloc::{AllocError, Global};
use wire_types::{Boxed, Bytes, ErrorCode, WriteFault};

/// The response to a request that the session answers itself, size field included. It is never too long, so the only error is an
/// allocation failure.
#[tactic(auto, using(crate::proofs::Short::never_long))]
fn write_own(alloc: Global, correlation: i32, reply: &Reply) -> Result<Bytes, AllocError>
    requires { is_sendable correlation reply.now ≡ true }
    ensures { IfOk result (λ bytes. bytes ≡ response correlation reply.now) }
{
    match write_reply(alloc, correlation, reply) {
        Ok(bytes) => Ok(bytes),
        Err(WriteFault::NoMemory) => Err(AllocError),
        Err(WriteFault::TooLong) => unreachable!(),
    }
}

/// The response to an ApiVersions before a login, with the versions as they are listed there.
#[tactic(auto, using(crate::proofs::Short::versions_short))]
pub fn write_versions(
    alloc: Global,
    correlation: i32,
    listed: ListedVersions,
) -> Result<Bytes, AllocError>
    ensures { IfOk result
        (λ bytes. bytes ≡ response correlation (replies.ApiVersions (versions_listed listed))) }
{
    let reply = Reply::ApiVersions(Boxed::new(alloc, versions_listed(alloc, listed)?)?);
    write_own(alloc, correlation, &reply)
}

/// The response to a SaslHandshake with this error, which is `ErrorCode::None` where the mechanism is agreed on.
#[tactic(auto, using(crate::proofs::Short::handshake_short))]
pub fn write_handshake(
    alloc: Global,
    correlation: i32,
    error: ErrorCode,
) -> Result<Bytes, AllocError>
    ensures { IfOk result
        (λ bytes. bytes ≡ response correlation (replies.SaslHandshake (handshake_reply error))) }
{
    let told = SaslHandshakeReply::telling(alloc, error)?;
    let reply = Reply::SaslHandshake(Boxed::new(alloc, told)?);
    write_own(alloc, correlation, &reply)
}

/// The response to a SaslAuthenticate with this error, which is `ErrorCode::None` where the user is logged in.
#[tactic(auto, using(crate::proofs::Short::login_short))]
pub fn write_login(alloc: Global, correlation: i32, error: ErrorCode) -> Result<Bytes, AllocError>
    ensures { IfOk result
        (λ bytes. bytes ≡ response correlation
        (replies.SaslAuthenticate (authenticate_reply error))) }
{
    let reply = SaslAuthenticateReply::telling(error);
    let reply = Reply::SaslAuthenticate(Boxed::new(alloc, reply)?);
    write_own(alloc, correlation, &reply)
}
