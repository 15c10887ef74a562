//! A client's frames and the answers that are due, and one session over any reader and writer.

ghost use Rattle.std.specs.Prelude.{◌≡◌, ◌+◌, ◌≤◌, []};
ghost use Rattle.msg_admin.specs.declared.request.TheConstants.{FRAME_LIMIT as LIMIT};
ghost use Rattle.request_handlers.specs.Seats.{most_seats};

use request_handlers::{Core, MOST_SEATS};
use session_pool::{
    DeskLedger, EndReason, Gate, Limits, ListedVersions, LockedDesk, LoginContext, SessionContext,
    SessionEnd, Users, serve_session,
};
use settings_text::{Document, document_of_text};
use std::alloc::Global;
use std::io::{Read, Write};
use std::marker::Brand;
use std::sync::Wait;
use std::sync::ledger::Blank;
use std::test::Fail;
use wire_types::Text;

/// Ann and bob may log in, the topic `b` is described to ann, and the trail takes three events.
const SETTINGS: &str =
    "node_id = 1\nhost = \"h\"\nport = 9092\nsupers = [\"User:root\"]\ntrail_limit = 3\n\
    [[user]]\nname = \"ann\"\npassword = \"pw\"\n[[user]]\nname = \"bob\"\npassword = \"other\"\n\
    [[topic]]\nname = \"a\"\npartitions = 1\n[[topic]]\nname = \"b\"\npartitions = 1\n\
    [[acl]]\nkind = \"Topic\"\nname = \"b\"\npattern = \"LITERAL\"\nprincipal = \"User:ann\"\nhost = \"*\"\n\
    operation = \"DESCRIBE\"\npermission = \"ALLOW\"\n";

/// Ann asks for all topics.
pub(crate) const METADATA: &str = "0000000e0003000100000001ffffffffffff";

pub(crate) const METADATA_TOLD: &str = "00000041000000010000000100000001000168\
    00002384ffff0000000100000001000000016200000000010000000000000000000100000001000000010000000100000001";

/// What a session came to.
#[derive(Clone, Copy, Debug, PartialEq, Eq)]
pub(crate) struct End {
    pub(crate) why: EndReason,
    pub(crate) receipts: usize,
    /// The place of the first receipt in the trail; `None` without one.
    pub(crate) place: Option<u64>,
    /// How many events were answered by its seat.
    pub(crate) count: u64,
}

/// Serves one session, of the number 7, at a desk with the blank's seats, and returns how it ended.
fn serve_on<L: DeskLedger, R: Wait + Drop, Rd: Read + Drop, Wr: Write, G: Gate>(
    rt: R,
    alloc: Global,
    core: Core,
    users: Users,
    blank: Blank,
    host: Text,
    reader: Rd,
    writer: &mut Wr,
    limits: Limits,
    gate: &G,
) -> Result<End, Fail>
    requires settings { core.settings ≡ L.settings }
    requires empty { core.trail ≡ [] }
    requires ledger { (blank.name ≡ L.name) × (blank.parts ≡ L.parts)
        × (blank.parts ≡ most_seats + 1) }
    requires within { limits.frame ≤ LIMIT }
{
    let desk: LockedDesk<L, R> = LockedDesk::new(core, blank, rt);
    let seat = desk.seat().ok_or("seat")?;
    let context = SessionContext {
        session: 7,
        login: LoginContext {
            host: &host,
            users: &users,
            listed: ListedVersions::AsServed,
        },
        limits,
        desk: &desk,
        gate,
    };
    let SessionEnd {
        receipts,
        seat,
        why,
    } = serve_session(alloc, &context, reader, writer, seat);
    Ok(End {
        why,
        receipts: receipts.len(),
        place: receipts.first().map(|receipt| receipt.place()),
        count: seat.count(),
    })
}

/// Serves one session, of the number 7, of a peer at this host, by `SETTINGS` at a desk of its own, with this gate, and returns
/// how it ended.
pub(crate) fn serve_gated<R: Wait + Drop, Rd: Read + Drop, Wr: Write, G: Gate>(
    rt: R,
    alloc: Global,
    host: &str,
    reader: Rd,
    writer: &mut Wr,
    limits: Limits,
    gate: &G,
) -> Result<End, Fail>
    requires { limits.frame ≤ LIMIT }
{
    let Document { users, settings } = document_of_text(alloc, SETTINGS.as_bytes())
        .ok()
        .ok_or("settings")?;
    let core = Core::open_checked(alloc, settings)?;
    let host = Text::of(alloc, host)?;
    serve_on::<Brand, R, Rd, Wr, G>(
        rt,
        alloc,
        core,
        users,
        Blank::new(MOST_SEATS + 1),
        host,
        reader,
        writer,
        limits,
        gate,
    )
}

/// As `serve_gated`, of a peer at 10.0.0.5, with a gate that does nothing.
pub(crate) fn serve<R: Wait + Drop, Rd: Read + Drop, Wr: Write>(
    rt: R,
    alloc: Global,
    reader: Rd,
    writer: &mut Wr,
    limits: Limits,
) -> Result<End, Fail>
    requires { limits.frame ≤ LIMIT }
{
    serve_gated(rt, alloc, "10.0.0.5", reader, writer, limits, &())
}
