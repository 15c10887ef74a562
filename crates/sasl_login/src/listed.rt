//! Which versions ApiVersions lists before a login.

ghost use Rattle.std.specs.Prelude.{◌≡◌, map, IfOk};
ghost use Rattle.sasl_login.specs.Listed.{is_looked_for, from_zero, versions_listed};

use msg_admin::versions_reply;
use msg_login::{ApiVersionsReply, ServedVersions};
use std::alloc::{AllocError, Global};
use wire_types::{ErrorCode, Items};

/// How ApiVersions lists the apis before a login.
#[derive(Clone, Copy, Debug, PartialEq, Eq)]
pub enum ListedVersions {
    /// Each api in the versions that are served.
    AsServed,
    /// The same, but FindCoordinator and SaslHandshake from version 0 on. librdkafka uses SASL and coordinators only where it
    /// sees them listed so, and then asks them in version 1, which is served. Version 0 of the two isn't.
    ForLibrdkafka,
}

const FIND_COORDINATOR: i16 = 10;

const SASL_HANDSHAKE: i16 = 17;

/// Whether librdkafka looks for version 0 of the api with this key: FindCoordinator and SaslHandshake.
fn is_looked_for(key: i16) -> bool
    ensures { result ≡ is_looked_for key }
{
    key == FIND_COORDINATOR || key == SASL_HANDSHAKE
}

/// The versions of an api that are listed for librdkafka: from 0 on where it looks for version 0, else as served.
fn from_zero(served: &ServedVersions) -> ServedVersions
    ensures { result ≡ from_zero served.now }
{
    let min = if is_looked_for(served.key) {
        0
    } else {
        served.min
    };
    ServedVersions {
        key: served.key,
        min,
        max: served.max,
    }
}

/// The versions of all these apis that are listed for librdkafka, in the same order.
fn all_from_zero(
    alloc: Global,
    apis: &[ServedVersions],
) -> Result<Items<ServedVersions>, AllocError>
    ensures { IfOk result (λ listed. listed ≡ map from_zero apis.now) }
{
    let mut listed = Items::new(alloc);
    for served in apis {
        listed.push(from_zero(served))?;
    }
    Ok(listed)
}

/// What an ApiVersions is answered before a login: each api with the versions of it that are listed. The error is an allocation
/// failure.
pub(crate) fn versions_listed(
    alloc: Global,
    listed: ListedVersions,
) -> Result<ApiVersionsReply, AllocError>
    ensures { IfOk result (λ reply. reply ≡ versions_listed listed) }
{
    let served = versions_reply(alloc)?;
    match listed {
        ListedVersions::AsServed => Ok(served),
        ListedVersions::ForLibrdkafka => Ok(ApiVersionsReply {
            error: ErrorCode::None,
            apis: all_from_zero(alloc, served.apis.as_slice())?,
        }),
    }
}
