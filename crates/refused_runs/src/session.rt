//! One session at a desk of its own, whose frames come from a script.

ghost use Rattle.std.specs.Prelude.{◌≡◌, ◌+◌, [], IfSome};
ghost use Rattle.request_handlers.specs.Seats.{most_seats};

use request_handlers::{Core, MOST_SEATS};
use session_pool::{
    DeskLedger, EndReason, Limits, ListedVersions, LockedDesk, LoginContext, SessionContext,
    SessionEnd, Users, serve_session,
};
use settings_text::{Document, document_of_text};
use std::alloc::{AllocError, Global};
use std::io;
use std::io::Write;
use std::marker::Brand;
use std::sync::Wait;
use std::sync::ledger::Blank;
use wire_types::Text;

/// How many bytes may be written in a session without more memory for them.
const ROOM: usize = 4_096;

/// What a session needs before it begins: its core, its users, its host, and its bytes.
#[derive(Drop)]
pub(crate) struct Script {
    core: Core,
    users: Users,
    host: Text,
    /// All frames, one after the other, with their size fields.
    input: Vec<u8>,
    /// What is written to the session, with room for 4,096 bytes.
    output: Vec<u8>,
}

/// What a session came to.
#[derive(Drop)]
struct Came {
    receipts: usize,
    why: EndReason,
    output: Vec<u8>,
}

/// The bytes that lines of hexadecimal digits spell, one after the other. `None` where a line spells none, or after an allocation
/// failure.
fn bytes_of(alloc: Global, lines: &str) -> Option<Vec<u8>> {
    let mut bytes = Vec::new(alloc);
    for line in lines.lines() {
        let decoded = hex::decode(alloc, line).ok()?;
        bytes.extend_from_slice(decoded.as_slice()).ok()?;
    }
    Some(bytes)
}

impl Script {
    /// The script of a session: a core and users by these settings, the host 10.0.0.5, and the frames that are sent, a line of
    /// hexadecimal digits each. `None` where the settings or the frames can't be read, or after an allocation failure.
    pub(crate) fn of(alloc: Global, settings: &str, frames: &str) -> Option<Script>
        ensures { IfSome result (λ script. script.core.trail ≡ []) }
    {
        let Document { users, settings } = document_of_text(alloc, settings.as_bytes()).ok()?;
        Some(Script {
            users,
            host: Text::of(alloc, "10.0.0.5").ok()?,
            input: bytes_of(alloc, frames)?,
            output: Vec::with_capacity(alloc, ROOM).ok()?,
            core: Core::open_checked(alloc, settings).ok()?,
        })
    }
}

/// Serves the session at a desk with the blank's seats, and returns what came of it; `None` where the desk gives no seat.
fn serve_at<L: DeskLedger, R: Wait + Drop>(
    rt: R,
    alloc: Global,
    blank: Blank,
    script: Script,
) -> Option<Came>
    requires settings { script.core.settings ≡ L.settings }
    requires empty { script.core.trail ≡ [] }
    requires ledger { (blank.name ≡ L.name) × (blank.parts ≡ L.parts)
        × (blank.parts ≡ most_seats + 1) }
{
    let Script {
        core,
        users,
        host,
        input,
        mut output,
    } = script;
    let desk: LockedDesk<L, R> = LockedDesk::new(core, blank, rt);
    let seat = desk.seat()?;
    let context = SessionContext {
        session: 0,
        login: LoginContext {
            host: &host,
            users: &users,
            listed: ListedVersions::AsServed,
        },
        limits: Limits::default(),
        desk: &desk,
        gate: &(),
    };
    let SessionEnd { receipts, why, .. } = serve_session(
        alloc,
        &context,
        input.as_slice(),
        &mut output,
        seat,
    );
    Some(Came {
        receipts: receipts.len(),
        why,
        output,
    })
}

/// As `serve_at`, with a ledger of its own.
fn serve<R: Wait + Drop>(rt: R, alloc: Global, script: Script) -> Option<Came>
    requires { script.core.trail ≡ [] }
{
    serve_at::<Brand, R>(rt, alloc, Blank::new(MOST_SEATS + 1), script)
}

/// Serves the session, and prints `receipts N`, `written HEX`, all that was written to it, and `end WHY`. The error is an
/// allocation failure, or a failed write.
pub(crate) fn tell<R: Wait + Drop, W: Write>(
    rt: R,
    alloc: Global,
    script: Script,
    writer: &mut W,
) -> io::Result<()>
    requires { script.core.trail ≡ [] }
{
    let Some(came) = serve(rt, alloc, script) else {
        return Err(AllocError.into());
    };
    let Came {
        receipts,
        why,
        output,
    } = came;
    let written = hex::encode(alloc, output.as_slice())?;
    writer.write_all(format!(in alloc; "receipts {receipts}\n")?.as_bytes())?;
    writer.write_all(format!(in alloc; "written {written}\n")?.as_bytes())?;
    writer.write_all(format!(in alloc; "end {why:?}\n")?.as_bytes())
}
