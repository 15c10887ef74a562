//! What a session is served with.

use crate::session::Limits;
use sasl_login::ListedVersions;
use settings_text::Users;
use wire_types::Text;

/// What a login goes by: the peer's host, who may log in, and how ApiVersions lists versions before a login.
#[derive(Clone, Copy)]
pub struct LoginContext<'a> {
    pub host: &'a Text,
    pub users: &'a Users,
    pub listed: ListedVersions,
}

/// What a session is served with, from its first frame to its last.
#[derive(Drop)]
pub struct SessionContext<'a, D, G> {
    /// The number by which the gate knows the session.
    pub session: u64,
    pub login: LoginContext<'a>,
    pub limits: Limits,
    pub desk: &'a D,
    pub gate: &'a G,
}
