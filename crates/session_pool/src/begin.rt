//! What the first bytes of a frame say of it, before a body is read.

ghost use Rattle.std.specs.Prelude.{◌≡◌, ◌≤◌, ℕ, List, length};
ghost use Rattle.wire_types.specs.Reading.{Takes};
ghost use Rattle.msg_admin.specs.Versions.{header_start};
ghost use Rattle.session_pool.specs.Asks.{Setting, start_of, is_served, is_login};
ghost use Rattle.session_pool.specs.Turns.{CameOf, IsBegun};

use frame_streams::Came;
use msg_admin::unsupported_versions;
use sasl_login::SessionState;
use wire_types::{Bytes, Cursor, Malformed};

const SASL_HANDSHAKE: i16 = 17;

const API_VERSIONS: i16 = 18;

const SASL_AUTHENTICATE: i16 = 36;

/// What the first eight bytes of a frame, and its length, say of it.
#[derive(Drop)]
pub(crate) enum Begun {
    /// It asks ApiVersions in a version that isn't served, under this correlation id.
    OtherVersion(i32),
    /// Its api may not be asked in the session's state.
    Unserved,
    /// It is a SaslAuthenticate of version 0 under this correlation id, longer than any that logs somebody in, so it wasn't kept
    /// whole.
    Overlong(i32),
    /// It is longer than what is kept before a login, and no SaslAuthenticate of version 0; or it has no eight bytes.
    Unreadable,
    /// All of it was kept, so its body says what it asks.
    Whole,
}

/// Reads the start of a request header: the api key and the version, and the correlation id. The error is `Short`.
fn read_start(cursor: &mut Cursor<'_>) -> Result<((i16, i16), i32), Malformed>
    ensures { Takes (header_start.reading cursor.old) result cursor.new }
{
    let key = cursor.read_i16()?;
    let version = cursor.read_i16()?;
    let correlation = cursor.read_i32()?;
    Ok(((key, version), correlation))
}

/// The start of a frame's request header: its api key and its version, and its correlation id. `None` where the frame is shorter
/// than eight bytes.
fn start_of(bytes: &Bytes) -> Option<((i16, i16), i32)>
    ensures { result ≡ start_of bytes.now }
{
    let mut cursor = Cursor::over(bytes);
    read_start(&mut cursor).ok()
}

/// Whether an api may be asked in this state: before a login ApiVersions, and SaslHandshake until a mechanism is agreed on, then
/// SaslAuthenticate; after a login any.
fn is_served(state: &SessionState, key: i16) -> bool
    ensures { result ≡ is_served state.now key }
{
    match state {
        SessionState::Fresh(_) => key == API_VERSIONS || key == SASL_HANDSHAKE,
        SessionState::Offered(_) => key == API_VERSIONS || key == SASL_AUTHENTICATE,
        SessionState::Known(_) => true,
    }
}

/// Whether a request of this api key and version is a SaslAuthenticate of version 0, in the state between a SaslHandshake and the
/// login.
fn is_login(state: &SessionState, names: (i16, i16)) -> bool
    ensures { result ≡ is_login state.now names }
{
    match state {
        SessionState::Offered(_) => names.0 == SASL_AUTHENTICATE && names.1 == 0,
        _ => false,
    }
}

/// What a frame leads to in this state, as far as its first eight bytes and its length say it. An ApiVersions in a version that
/// isn't served comes before all else.
pub(crate) fn begin(state: &SessionState, came: &Came) -> Begun
    requires { length came.now.kept ≤ came.now.size }
    ensures { (g : Setting) (limit : ℕ) (frame : List ℕ) → CameOf g limit state.now came.now frame
        → IsBegun g state.now came.now frame result }
{
    if let Some(correlation) = unsupported_versions(&came.kept) {
        return Begun::OtherVersion(correlation);
    }
    let Some((names, correlation)) = start_of(&came.kept) else {
        return Begun::Unreadable;
    };
    if !is_served(state, names.0) {
        return Begun::Unserved;
    }
    if came.kept.len() == came.size {
        return Begun::Whole;
    }
    if is_login(state, names) {
        Begun::Overlong(correlation)
    } else {
        Begun::Unreadable
    }
}
