//! When a peer's time is over.

use crate::peer::{Deaf, Hand, Peer, Piece};
use deadlines::{Limit, Notes, Timed, TimedWriter, Times};
use std::cell::Cell;
use std::io::{Read, Write};
use std::test::Fail;
use std::time::Duration;

/// A second for a first frame, a second for a login, a second for each frame, and no idle time.
fn times() -> Times {
    Times {
        idle: None,
        first: Duration::from_secs(1),
        login: Duration::from_secs(1),
        frame: Duration::from_secs(1),
    }
}

/// A frame of three bytes, whole.
const WHOLE: &[u8] = b"\0\0\0\x03abc";

/// What a session came to: how many pieces were read, what the clock shows after that, and which time was over, if one was.
type End = (usize, Option<u64>, Option<Limit>);

/// Reads as often as there are pieces, or until a read fails. The session begins at 7,000 milliseconds, and its user is known
/// once `known_after` pieces were read. Returns how that ended.
fn end_of(times: Times, pieces: &[Piece], known_after: usize) -> End {
    let clock = Hand::at(7_000);
    let notes = Notes::new();
    let (read, waits) = (Cell::new(0), Cell::new(None));
    let peer = Peer {
        clock: &clock,
        pieces,
        read: &read,
        waits: &waits,
    };
    let mut timed = Timed::new(&clock, peer, times, &notes);
    let mut piece = [0u8; 64];
    for turn in 0..pieces.len() {
        if turn == known_after {
            notes.log_in();
        }
        if timed.read(&mut piece).is_err() {
            break;
        }
    }
    (read.get(), clock.shows.get(), notes.over())
}

/// A peer that says nothing is waited for until the time for its first frame is over, a second after the session began.
#[test]
fn a_silent_peer_has_the_time_of_a_login(rt: HostRuntime) -> Result<(), Fail> {
    assert!(rt; end_of(times(), &[(5_000, WHOLE)], 9) == (0, Some(8_000), Some(Limit::Login)));
    Ok(())
}

/// The wait for a worker is taken off a silent peer's time, down to a quarter of a second.
#[test]
fn a_silent_peer_that_has_waited_has_less(rt: HostRuntime) -> Result<(), Fail> {
    for (waited, ends) in [(0, 8_000), (600, 7_400), (900, 7_250), (60_000, 7_250)] {
        let times = times().after(Duration::from_millis(waited));
        assert!(rt; end_of(times, &[(5_000, WHOLE)], 9) == (0, Some(ends), Some(Limit::Login)));
    }
    Ok(())
}

/// The wait for a worker is taken off the time of a login too, down to two fifths of a second: a first frame wins no more.
#[test]
fn a_peer_that_has_waited_and_speaks_has_less_for_its_login(rt: HostRuntime) -> Result<(), Fail> {
    let pieces = [(100, WHOLE), (100, WHOLE), (5_000, WHOLE)];
    for (waited, ends) in [(0, 8_000), (300, 7_700), (600, 7_400), (60_000, 7_400)] {
        let times = times().after(Duration::from_millis(waited));
        assert!(rt; end_of(times, &pieces, 9) == (2, Some(ends), Some(Limit::Login)));
    }
    Ok(())
}

/// Where the server ends the session, the next read fails at once, and nothing is read of the stream.
#[test]
fn where_the_server_ends_the_session_nothing_is_read(rt: HostRuntime) -> Result<(), Fail> {
    let clock = Hand::at(7_000);
    let notes = Notes::new();
    let (read, waits) = (Cell::new(0), Cell::new(None));
    let peer = Peer {
        clock: &clock,
        pieces: &[(0, WHOLE), (0, WHOLE)],
        read: &read,
        waits: &waits,
    };
    let mut timed = Timed::new(&clock, peer, times(), &notes);
    assert!(rt; timed.read(&mut [0u8; 64]).is_ok());
    assert!(rt; (notes.take_passed(), notes.take_passed()) == (7, 0));
    notes.log_in();
    notes.close();
    assert!(rt; timed.read(&mut [0u8; 64]).is_err());
    assert!(rt; (read.get(), notes.over()) == (1, None));
    Ok(())
}

/// A peer that has waited long for a worker, and sends single bytes of its first frame, has a quarter of a second.
#[test]
fn a_peer_that_has_waited_and_drips_has_less(rt: HostRuntime) -> Result<(), Fail> {
    let begins: Piece = (100, b"\0");
    let pieces = [begins, (100, b"\0"), (100, b"\0")];
    let times = times().after(Duration::from_secs(60));
    assert!(rt; end_of(times, &pieces, 9) == (2, Some(7_250), Some(Limit::Login)));
    Ok(())
}

/// The time of a login runs from the session's beginning, however many frames have come since.
#[test]
fn whole_frames_do_not_stretch_a_login(rt: HostRuntime) -> Result<(), Fail> {
    let pieces = [(400, WHOLE), (400, WHOLE), (400, WHOLE)];
    assert!(rt; end_of(times(), &pieces, 9) == (2, Some(8_000), Some(Limit::Login)));
    Ok(())
}

/// Once the user is known, a peer may wait without end between two frames, if there is no idle time.
#[test]
fn a_known_user_has_no_time_between_frames(rt: HostRuntime) -> Result<(), Fail> {
    let pieces = [(400, WHOLE), (400_000, WHOLE), (900, WHOLE)];
    assert!(rt; end_of(times(), &pieces, 1) == (3, Some(408_300), None));
    Ok(())
}

/// The idle time begins anew with each read.
#[test]
fn an_idle_peer_has_so_long_for_each_read(rt: HostRuntime) -> Result<(), Fail> {
    let times = Times {
        idle: Some(Duration::from_millis(500)),
        ..times()
    };
    let pieces = [(400, WHOLE), (400, WHOLE), (400, WHOLE), (500, WHOLE)];
    assert!(rt; end_of(times, &pieces, 1) == (3, Some(8_700), Some(Limit::Idle)));
    Ok(())
}

/// The time of a frame runs from its first byte to its last, however many reads bring it.
#[test]
fn a_frame_has_its_time_from_its_first_byte(rt: HostRuntime) -> Result<(), Fail> {
    let begins: Piece = (300, b"\0");
    let pieces = [
        begins,
        (300, b"\0"),
        (300, b"\0"),
        (300, b"\x03"),
        (300, b"a"),
        (300, b"bc"),
    ];
    assert!(rt; end_of(times(), &pieces, 0) == (4, Some(8_300), Some(Limit::Frame)));
    Ok(())
}

/// A frame that begins in the read that ends another has its time from that read on.
#[test]
fn a_frame_may_begin_in_the_read_that_ends_another(rt: HostRuntime) -> Result<(), Fail> {
    let begins: Piece = (300, b"\0\0\0\x03ab");
    let pieces = [begins, (600, b"c\0"), (600, b"\0"), (600, b"\0")];
    assert!(rt; end_of(times(), &pieces, 0) == (3, Some(8_900), Some(Limit::Frame)));
    Ok(())
}

/// The end of a frame ends its time, and the next frame has a second of its own.
#[test]
fn each_frame_has_its_own_time(rt: HostRuntime) -> Result<(), Fail> {
    let begins: Piece = (300, b"\0\0\0\x03ab");
    let pieces = [
        begins,
        (900, b"c"),
        (900, b"\0\0"),
        (900, b"\0\x03abc"),
        (900, WHOLE),
    ];
    assert!(rt; end_of(times(), &pieces, 0) == (5, Some(10_900), None));
    Ok(())
}

/// A read may bring several frames, empty ones among them, and the front of another, whose time then runs.
#[test]
fn frames_in_one_read_are_told_apart(rt: HostRuntime) -> Result<(), Fail> {
    let begins: Piece = (300, b"\0\0\0\0\0\0\0\x01a\0\0\0\x02ab\0\0\x01");
    let pieces = [begins, (900, b"\0"), (200, b"a")];
    assert!(rt; end_of(times(), &pieces, 0) == (2, Some(8_300), Some(Limit::Frame)));
    Ok(())
}

/// Where the time is over before a read, the read fails, and nothing is read of the stream.
#[test]
fn where_no_time_is_left_nothing_is_read(rt: HostRuntime) -> Result<(), Fail> {
    let clock = Hand::at(7_000);
    let notes = Notes::new();
    let (read, waits) = (Cell::new(0), Cell::new(None));
    let peer = Peer {
        clock: &clock,
        pieces: &[(0, WHOLE)],
        read: &read,
        waits: &waits,
    };
    let mut timed = Timed::new(&clock, peer, times(), &notes);
    clock.shows.set(Some(8_000));
    assert!(rt; timed.read(&mut [0u8; 64]).is_err());
    assert!(rt; (read.get(), waits.get()) == (0, None));
    assert!(rt; notes.over() == Some(Limit::Login));
    Ok(())
}

/// Where the clock can't be read, a frame that has begun has no time left; between frames it is read on.
#[test]
fn a_clock_that_cannot_be_read_leaves_no_time(rt: HostRuntime) -> Result<(), Fail> {
    let clock = Hand::at(7_000);
    let notes = Notes::new();
    let (read, waits) = (Cell::new(0), Cell::new(None));
    let peer = Peer {
        clock: &clock,
        pieces: &[(0, WHOLE), (0, b"\0"), (0, b"\0")],
        read: &read,
        waits: &waits,
    };
    let mut timed = Timed::new(&clock, peer, times(), &notes);
    notes.log_in();
    clock.shows.set(None);
    assert!(rt; timed.read(&mut [0u8; 64]).is_ok());
    assert!(rt; timed.read(&mut [0u8; 64]).is_ok());
    assert!(rt; timed.read(&mut [0u8; 64]).is_err());
    assert!(rt; (read.get(), notes.over()) == (2, Some(Limit::Frame)));
    Ok(())
}

/// A second after it began, a write to a peer that reads nothing fails, unless its user is known: then the stream waits for it
/// without end.
#[test]
fn a_peer_that_reads_nothing_has_the_time_of_a_login(rt: HostRuntime) -> Result<(), Fail> {
    for (is_known, wait, over) in [(false, Some(600), Some(Limit::Login)), (true, None, None)] {
        let clock = Hand::at(7_000);
        let notes = Notes::new();
        let waits = Cell::new(None);
        let peer = Deaf {
            clock: &clock,
            waits: &waits,
        };
        let mut writer = TimedWriter::new(&clock, peer, times(), &notes);
        if is_known {
            notes.log_in();
        }
        clock.shows.set(Some(7_400));
        assert!(rt; writer.write(b"answer").is_err());
        assert!(rt; (waits.get(), notes.over()) == (wait, over));
        clock.shows.set(Some(8_000));
        assert!(rt; writer.write(b"answer").is_err());
        assert!(rt; (waits.get(), notes.over()) == (wait, over));
    }
    Ok(())
}
