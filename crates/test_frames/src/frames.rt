//! The frames of a session, what is answered to them, and the events that they are.

ghost use Rattle.std.specs.Prelude.{◌≡◌, [], IfSome};
ghost use Rattle.request_handlers.specs.Bounds.{EventFits};

use acl_binding::Caller;
use audit_trail::Event;
use msg_admin::{FRAME_LIMIT, read_request};
use request_handlers::Core;
use settings_text::{Document, Users, document_of_text};
use std::alloc::Global;
use std::test::Fail;
use wire_types::{Bytes, Shared, Text};

/// Ann may log in, and do all with the topic `b`.
const SETTINGS: &str =
    "node_id = 1\nhost = \"h\"\nport = 9092\n[[user]]\nname = \"ann\"\npassword = \"pw\"\n\
    [[topic]]\nname = \"b\"\npartitions = 1\n\
    [[acl]]\nkind = \"Topic\"\nname = \"b\"\npattern = \"LITERAL\"\nprincipal = \"User:ann\"\nhost = \"*\"\n\
    operation = \"ALL\"\npermission = \"ALLOW\"\n";

/// Another node with the topic `b`, without users and ACLs.
const OTHER_SETTINGS: &str =
    "node_id = 2\nhost = \"h\"\nport = 9092\n[[topic]]\nname = \"b\"\npartitions = 1\n";

/// Ann chooses PLAIN.
pub const HANDSHAKE: &str = "000000110011000100000001ffff0005504c41494e";

pub const HANDSHAKE_TOLD: &str = "00000011000000010000000000010005504c41494e";

/// Ann logs in with her password.
pub const LOGIN: &str = "000000150024000000000002ffff0000000700616e6e007077";

pub const LOGIN_TOLD: &str = "0000000c000000020000ffff00000000";

/// All topics are asked for, of which `b` is described to ann.
pub const METADATA: &str = "0000000e0003000100000003ffffffffffff";

pub const METADATA_TOLD: &str = "00000041000000030000000100000001000168\
    00002384ffff0000000100000001000000016200000000010000000000000000000100000001000000010000000100000001";

/// Topics of these names are asked for: `a` and `x`, and `a` and `b`.
pub const TWO_REFUSED: &str = "000000140003000100000003ffff00000002000161000178";

pub const ONE_REFUSED: &str = "000000140003000100000003ffff00000002000161000162";

/// One record is produced to `b`, where it gets offset 0, and fetched.
pub const PRODUCE: &str =
    "0000006a0000000300000004ffffffff0001000000000000000100016200000001000000000000004500000000000000\
    00000000390000000002dbe9c87600000000000000000000000000000000000000000000ffffffffffffffffffffffff\
    ffff000000010e00000001026100";

pub const FETCH: &str =
    "000000360001000400000005ffffffffffff0000000000000001000003e8000000000100016200000001000000000000\
    0000000000000000008a";

pub const PRODUCE_TOLD: &str =
    "000000290000000400000001000162000000010000000000000000000000000000ffffffffffffffff00000000";

pub const FETCH_TOLD: &str =
    "000000760000000500000000000000010001620000000100000000000000000000000000010000000000000001ffffff\
    ff000000450000000000000000000000390000000002dbe9c87600000000000000000000000000000000000000000000\
    ffffffffffffffffffffffffffff000000010e00000001026100";

/// A core opened with the settings in this text; `None` where they are refused, or an allocation fails.
pub fn core_of(alloc: Global, settings: &str) -> Option<Core>
    ensures { IfSome result (λ core. core.trail ≡ []) }
{
    let Document { settings, .. } = document_of_text(alloc, settings.as_bytes()).ok()?;
    Core::open_checked(alloc, settings).ok()
}

/// A core by `SETTINGS`.
pub fn core(alloc: Global) -> Option<Core>
    ensures { IfSome result (λ core. core.trail ≡ []) }
{
    core_of(alloc, SETTINGS)
}

/// A core by `OTHER_SETTINGS`.
pub fn other_core(alloc: Global) -> Option<Core>
    ensures { IfSome result (λ core. core.trail ≡ []) }
{
    core_of(alloc, OTHER_SETTINGS)
}

/// The users of `SETTINGS`, of whom ann is the only one.
pub fn users(alloc: Global) -> Result<Users, Fail> {
    let Document { users, .. } = document_of_text(alloc, SETTINGS.as_bytes())
        .ok()
        .ok_or("settings")?;
    Ok(users)
}

/// The bytes that texts of hexadecimal digits spell, one after the other. The error is a text that spells none, or an allocation
/// failure.
pub fn bytes_of(alloc: Global, parts: &[&str]) -> Result<Vec<u8>, Fail> {
    let mut bytes = Vec::new(alloc);
    for part in parts {
        let decoded = hex::decode(alloc, *part).ok().ok_or("digits")?;
        bytes.extend_from_slice(decoded.as_slice())?;
    }
    Ok(bytes)
}

/// The event of ann's frame from 10.0.0.5, which comes with its size field in hexadecimal digits; `None` where the frame is no
/// request that is served, or after an allocation failure. What the size field holds isn't looked at.
pub fn event_of(alloc: Global, digits: &str) -> Option<Event>
    ensures { IfSome result EventFits }
{
    event_by(alloc, "User:ann", digits)
}

/// As `event_of`, of this principal.
pub fn event_by(alloc: Global, who: &str, digits: &str) -> Option<Event>
    ensures { IfSome result EventFits }
{
    let frame = Bytes::from_vec(hex::decode(alloc, digits).ok()?).ok()?;
    if frame.len() < 4 {
        return None;
    }
    let frame = frame.slice(4..frame.len()).ok()?;
    if frame.len() > FRAME_LIMIT {
        return None;
    }
    let (header, request) = read_request(alloc, &frame).ok()?;
    let caller = Caller {
        who: Text::of(alloc, who).ok()?,
        host: Text::of(alloc, "10.0.0.5").ok()?,
    };
    let caller = Shared::new(alloc, caller).ok()?;
    let client = Shared::new(alloc, header.client).ok()?;
    Some(Event::Ask {
        caller,
        client,
        request,
    })
}
