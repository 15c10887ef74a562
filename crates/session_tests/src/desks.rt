//! A desk's seats, and the calls of a gate round each frame.

ghost use Rattle.std.specs.Prelude.{◌≡◌, ◌+◌, []};
ghost use Rattle.request_handlers.specs.Seats.{most_seats};

use crate::clients::{METADATA, serve_gated};
use request_handlers::{Core, MOST_SEATS};
use session_pool::{DeskLedger, EndReason, Gate, Limits, LockedDesk};
use settings_text::{Document, document_of_text};
use std::alloc::Global;
use std::marker::Brand;
use std::sync::Wait;
use std::sync::atomic::{AtomicU64, Ordering};
use std::sync::ledger::Blank;
use std::test::Fail;
use test_frames::{HANDSHAKE, LOGIN, bytes_of};
use wire_types::Text;

/// A gate that counts its calls, and adds up the numbers of the frames that it was called with.
#[derive(Drop)]
struct Counting {
    befores: AtomicU64,
    logins: AtomicU64,
    afters: AtomicU64,
    frames: AtomicU64,
    others: AtomicU64,
}

impl Counting {
    /// The numbers of calls: before a frame, for the login of ann in session 7, and after a frame; then the sum of the frames'
    /// numbers over both kinds of calls; and how many calls were of other sessions than 7, or for other users.
    fn counts(&self) -> [u64; 5] {
        [
            self.befores.load(Ordering::SeqCst),
            self.logins.load(Ordering::SeqCst),
            self.afters.load(Ordering::SeqCst),
            self.frames.load(Ordering::SeqCst),
            self.others.load(Ordering::SeqCst),
        ]
    }
}

impl Gate for Counting {
    /// Counts the call, and adds the frame's number.
    fn before(&self, session: u64, frame: u64) {
        self.befores.fetch_add(1, Ordering::SeqCst);
        self.frames.fetch_add(frame, Ordering::SeqCst);
        self.others
            .fetch_add(u64::from(session != 7), Ordering::SeqCst);
    }

    /// Counts the call: as a login, if it is ann's in session 7, else among the others.
    fn logged_in(&self, session: u64, who: &Text) {
        let is_ann = session == 7 && who.as_bytes() == b"User:ann".as_slice();
        self.logins.fetch_add(u64::from(is_ann), Ordering::SeqCst);
        self.others.fetch_add(u64::from(!is_ann), Ordering::SeqCst);
    }

    /// Counts the call, and adds the frame's number.
    fn after(&self, session: u64, frame: u64) {
        self.afters.fetch_add(1, Ordering::SeqCst);
        self.frames.fetch_add(frame, Ordering::SeqCst);
        self.others
            .fetch_add(u64::from(session != 7), Ordering::SeqCst);
    }
}

/// The gate is called before and after each of three frames, of which the second is a login, and where a fourth would be, at the
/// end of the input.
#[test]
fn round_each_frame(rt: HostRuntime) -> Result<(), Fail> {
    let alloc = rt.alloc();
    let input = bytes_of(alloc, &[HANDSHAKE, LOGIN, METADATA])?;
    let gate = Counting {
        befores: AtomicU64::new(0),
        logins: AtomicU64::new(0),
        afters: AtomicU64::new(0),
        frames: AtomicU64::new(0),
        others: AtomicU64::new(0),
    };
    let mut written = Vec::new(alloc);
    let end = serve_gated(
        rt,
        alloc,
        "10.0.0.5",
        input.as_slice(),
        &mut written,
        Limits::default(),
        &gate,
    )?;
    assert!(rt; end.why == EndReason::Closed);
    assert!(rt; gate.counts() == [4, 1, 4, 2 * (1 + 2 + 3), 0]);
    Ok(())
}

/// How many seats a desk of this core gives when it is asked `asked` times.
fn given_on<L: DeskLedger, R: Wait + Drop>(
    rt: R,
    core: Core,
    blank: Blank,
    asked: u64,
) -> Result<u64, Fail>
    requires settings { core.settings ≡ L.settings }
    requires empty { core.trail ≡ [] }
    requires ledger { (blank.name ≡ L.name) × (blank.parts ≡ L.parts)
        × (blank.parts ≡ most_seats + 1) }
{
    let desk: LockedDesk<L, R> = LockedDesk::new(core, blank, rt);
    let mut given = 0u64;
    for _ in 0..asked {
        given = given.wrapping_add(u64::from(desk.seat().is_some()));
    }
    Ok(given)
}

/// As `given_on`, for a new desk.
fn given<R: Wait + Drop>(rt: R, alloc: Global, asked: u64) -> Result<u64, Fail> {
    let text = b"node_id = 1\nhost = \"h\"\nport = 1\n".as_slice();
    let Document { settings, .. } = document_of_text(alloc, text).ok().ok_or("settings")?;
    let core = Core::open_checked(alloc, settings)?;
    given_on::<Brand, R>(rt, core, Blank::new(MOST_SEATS + 1), asked)
}

/// A desk gives 1,048,576 seats, and then none.
#[test]
fn as_many_seats_as_there_are(rt: HostRuntime) -> Result<(), Fail> {
    assert_eq!(rt; given(rt, rt.alloc(), 1)?, 1);
    assert_eq!(rt; given(rt, rt.alloc(), 1_048_579)?, 1_048_576);
    Ok(())
}
