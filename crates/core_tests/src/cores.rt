//! What a core answers to one event after the other: how many markers are pending, and what it does when its trail is full.

ghost use Rattle.request_handlers.specs.Bounds.{EventFits};

use audit_trail::{Event, Trail, is_same_event, is_same_reply, push_audit_lines};
use msg_admin::{Reply, write_reply};
use request_handlers::{Core, FixedSeed, Receipt, Stop};
use settings_text::document_of_text;
use std::alloc::Global;
use std::hash::RandomState;
use std::test::Fail;
use test_frames::{core_of, event_by};

/// Ann may do all with the id `t`, the topic `b` and the group `g`.
const SETTINGS: &str = "node_id = 1\nhost = \"h\"\nport = 9092\nsupers = [\"User:root\"]\n\
    [[topic]]\nname = \"b\"\npartitions = 1\n\
    [[acl]]\nkind = \"TransactionalId\"\nname = \"t\"\npattern = \"LITERAL\"\nprincipal = \"User:ann\"\nhost = \"*\"\n\
    operation = \"ALL\"\npermission = \"ALLOW\"\n\
    [[acl]]\nkind = \"Topic\"\nname = \"b\"\npattern = \"LITERAL\"\nprincipal = \"User:ann\"\nhost = \"*\"\n\
    operation = \"ALL\"\npermission = \"ALLOW\"\n\
    [[acl]]\nkind = \"Group\"\nname = \"g\"\npattern = \"LITERAL\"\nprincipal = \"User:ann\"\nhost = \"*\"\n\
    operation = \"ALL\"\npermission = \"ALLOW\"\n";

/// The trail takes three events.
const SHORT_SETTINGS: &str =
    "node_id = 1\nhost = \"h\"\nport = 9092\nsupers = [\"User:root\"]\ntrail_limit = 3\n\
    [[topic]]\nname = \"b\"\npartitions = 1\n";

/// The audit lines of what ann is refused by `SHORT_SETTINGS`.
const REFUSED: &str = "unmatched DESCRIBE Topic b User:ann 10.0.0.5\n\
    unmatched WRITE TransactionalId t User:ann 10.0.0.5\n\
    unmatched WRITE TransactionalId t User:ann 10.0.0.5\n";

const ANN: &str = "User:ann";

const ROOT: &str = "User:root";

/// The id `t` is initialized with a timeout of a minute, or of a second, and gets producer 0 in epoch 0.
const INIT: &str = "000000110016000000000007ffff0001740000ea60";

const INIT_FOR_A_SECOND: &str = "000000110016000000000007ffff000174000003e8";

const INIT_TOLD: &str = "000000140000000700000000000000000000000000000000";

/// The partition 0 of `b` is added to its transaction, which is answered 0; later 53.
const ADD_PARTITION: &str =
    "000000260018000000000007ffff00017400000000000000000000000000010001620000000100000000";

const ADD_PARTITION_TOLD: &str = "0000001900000007000000000000000100016200000001000000000000";

const ADD_PARTITION_REFUSED: &str = "0000001900000007000000000000000100016200000001000000000035";

/// The group `g` is added, and offset 5 of `b` is staged.
const ADD_GROUP: &str = "0000001a0019000000000007ffff00017400000000000000000000000167";

const ADD_GROUP_TOLD: &str = "0000000a00000007000000000000";

const STAGE: &str =
    "00000037001c000300000007ffff000274026700000000000000000000ffffffff0100020262020000000000000000\
    00000005ffffffff00000000";

const STAGE_TOLD: &str = "0000001600000007000000000002026202000000000000000000";

/// The transaction is committed; of another epoch that is answered 47.
const COMMIT: &str = "00000018001a000000000007ffff0001740000000000000000000001";

const COMMIT_TOLD: &str = "0000000a00000007000000000000";

const COMMIT_LATE: &str = "0000000a0000000700000000002f";

/// Root denies ann everything with the id `t`.
const DENY: &str = "00000022001e000100000007ffff0000000105000174030008557365723a616e6e00012a0202";

const DENY_TOLD: &str = "000000100000000700000000000000010000ffff";

/// All bindings are described then, resource by resource in the order of the first binding of each.
const DESCRIBE: &str = "00000014001d000100000007ffff01ffff01ffffffff0101";

const DESCRIBED: &str =
    "0000006700000007000000000000ffff000000030500017403000000020008557365723a616e6e00012a020300085573\
    65723a616e6e00012a02020200016203000000010008557365723a616e6e00012a020303000167030000000100085573\
    65723a616e6e00012a0203";

/// Where `b` ends for whoever reads committed records, and which offset the group has there.
const END: &str =
    "000000260002000200000007ffffffffffff01000000010001620000000100000000ffffffffffffffff";

const END_AT_0: &str =
    "0000002900000007000000000000000100016200000001000000000000ffffffffffffffff0000000000000000";

const END_AT_1: &str =
    "0000002900000007000000000000000100016200000001000000000000ffffffffffffffff0000000000000001";

const OFFSET: &str = "000000180009000700000007ffff0002670202620200000000000100";

const OFFSET_UNSTABLE: &str =
    "000000250000000700000000000202620200000000ffffffffffffffffffffffff0100580000000000";

const OFFSET_5: &str =
    "0000002500000007000000000002026202000000000000000000000005ffffffff0100000000000000";

/// All that `b` holds, which is an abort marker of epoch 1 at the moment 1001.
const FETCH: &str =
    "000000360001000400000007ffffffffffff0000000000000001000010000000000001000162000000010000000000\
    0000000000000000001000";

const FETCHED_MARKER: &str =
    "0000007f0000000700000000000000010001620000000100000000000000000000000000010000000000000001ffff\
    ffff0000004e000000000000000000000042000000000215a1776500300000000000000000000003e9000000000000\
    03e900000000000000000001ffffffff000000012000000008000000000c00000000000000";

/// What a core answers to somebody's frame, under correlation id 7: the response in hexadecimal digits. An error where the frame
/// is no request or is stopped.
fn told(alloc: Global, core: &mut Core, who: &str, frame: &str) -> Result<String, Fail> {
    let event = event_by(alloc, who, frame).ok_or("event")?;
    let receipt = core.step(event).ok().ok_or("stopped")?;
    let written = write_reply(alloc, 7, receipt.reply()).ok().ok_or("unsent")?;
    Ok(hex::encode(alloc, written.as_slice())?)
}

/// Whether a core gives this reply to an event, such as a mark or a tick.
fn replies(core: &mut Core, event: Event, reply: Reply) -> bool
    requires { EventFits event }
{
    match core.step(event) {
        Ok(receipt) => *receipt.reply() == reply,
        Err(_) => false,
    }
}

/// Commits a transaction of ann with one partition and one group, and then denies her the transactional id; an error where an
/// answer isn't the one that is due.
fn deny_owner(alloc: Global, core: &mut Core) -> Result<(), Fail> {
    for (who, frame, answer) in [
        (ANN, INIT, INIT_TOLD),
        (ANN, ADD_PARTITION, ADD_PARTITION_TOLD),
        (ANN, ADD_GROUP, ADD_GROUP_TOLD),
        (ANN, STAGE, STAGE_TOLD),
        (ANN, COMMIT, COMMIT_TOLD),
        (ROOT, DENY, DENY_TOLD),
    ] {
        if told(alloc, core, who, frame)?.as_str() != answer {
            return Err(Fail::from(frame));
        }
    }
    Ok(())
}

/// Two marks write what a committed transaction owes to its partition and its group, and show what was committed, though its
/// owner is denied the id meanwhile; after them there is nothing to write.
#[test]
fn markers_owed_by_a_denied_owner(rt: HostRuntime) -> Result<(), Fail> {
    let alloc = rt.alloc();
    let mut core = core_of(alloc, SETTINGS).ok_or("core")?;
    deny_owner(alloc, &mut core)?;
    assert!(rt; told(alloc, &mut core, ROOT, END)?.as_str() == END_AT_0);
    assert!(rt; replies(&mut core, Event::Mark, Reply::Marked { left: 1 }));
    assert!(rt; told(alloc, &mut core, ROOT, END)?.as_str() == END_AT_1);
    assert!(rt; told(alloc, &mut core, ROOT, OFFSET)?.as_str() == OFFSET_UNSTABLE);
    assert!(rt; replies(&mut core, Event::Mark, Reply::Marked { left: 0 }));
    assert!(rt; told(alloc, &mut core, ROOT, OFFSET)?.as_str() == OFFSET_5);
    let added = told(alloc, &mut core, ANN, ADD_PARTITION)?;
    assert!(rt; added.as_str() == ADD_PARTITION_REFUSED);
    assert!(rt; replies(&mut core, Event::Mark, Reply::Idle));
    assert!(rt; told(alloc, &mut core, ROOT, END)?.as_str() == END_AT_1);
    Ok(())
}

/// A core of `SETTINGS` whose tables hash by the keys of this seed.
fn core_by(alloc: Global, seed: u8) -> Option<Core> {
    let document = document_of_text(alloc, SETTINGS.as_bytes()).ok()?;
    let hasher = RandomState::new(&FixedSeed(seed)).ok()?;
    Core::checked_with_hasher(alloc, document.settings, hasher).ok()
}

/// By whatever keys names are hashed, the answers are the same, and what they list stands in the same order.
#[test]
fn no_answer_depends_on_the_seed(rt: HostRuntime) -> Result<(), Fail> {
    let alloc = rt.alloc();
    for seed in [0, 7, 255] {
        let mut core = core_by(alloc, seed).ok_or("core")?;
        deny_owner(alloc, &mut core)?;
        assert!(rt;
            told(alloc, &mut core, ROOT, DESCRIBE)?.as_str() == DESCRIBED,
            "{seed}"
        );
        assert!(rt;
            told(alloc, &mut core, ROOT, OFFSET)?.as_str() == OFFSET_UNSTABLE,
            "{seed}"
        );
        assert!(rt;
            replies(&mut core, Event::Mark, Reply::Marked { left: 1 }),
            "{seed}"
        );
        assert!(rt;
            replies(&mut core, Event::Mark, Reply::Marked { left: 0 }),
            "{seed}"
        );
        assert!(rt;
            told(alloc, &mut core, ROOT, OFFSET)?.as_str() == OFFSET_5,
            "{seed}"
        );
        assert!(rt;
            told(alloc, &mut core, ROOT, END)?.as_str() == END_AT_1,
            "{seed}"
        );
    }
    Ok(())
}

/// A transaction isn't over a second after it began, by its timeout of a second; a millisecond later its marker is pending, and
/// its producer fenced.
#[test]
fn a_marker_owed_when_time_is_over(rt: HostRuntime) -> Result<(), Fail> {
    let alloc = rt.alloc();
    let mut core = core_of(alloc, SETTINGS).ok_or("core")?;
    assert!(rt; told(alloc, &mut core, ANN, INIT_FOR_A_SECOND)?.as_str() == INIT_TOLD);
    assert!(rt; told(alloc, &mut core, ANN, ADD_PARTITION)?.as_str() == ADD_PARTITION_TOLD);
    assert!(rt; replies(&mut core, Event::Tick(1000), Reply::Ticked { left: 0 }));
    assert!(rt; replies(&mut core, Event::Tick(1001), Reply::Ticked { left: 1 }));
    assert!(rt; replies(&mut core, Event::Mark, Reply::Marked { left: 0 }));
    assert!(rt; told(alloc, &mut core, ROOT, FETCH)?.as_str() == FETCHED_MARKER);
    assert!(rt; told(alloc, &mut core, ANN, COMMIT)?.as_str() == COMMIT_LATE);
    assert!(rt; replies(&mut core, Event::Tick(5), Reply::Ticked { left: 0 }));
    Ok(())
}

/// Whether a trail's entries are the events and replies of these receipts, in order, and no others.
fn is_of(trail: &Trail, receipts: &[Receipt]) -> bool {
    for (place, receipt) in receipts.iter().enumerate() {
        match trail.entry(place) {
            Some(entry)
                if is_same_event(entry.event.value(), receipt.event())
                    && is_same_reply(entry.reply.value(), receipt.reply()) => {}
            _ => return false,
        }
    }
    trail.len() == receipts.len()
}

/// The audit lines of all refusals in a trail, in its order.
fn refused(alloc: Global, trail: &Trail) -> Result<String, Fail> {
    let mut text = String::new(alloc);
    for place in 0..trail.len() {
        let entry = trail.entry(place).ok_or("entry")?;
        push_audit_lines(alloc, &mut text, entry.refusals.as_slice())?;
    }
    Ok(text)
}

/// Where a trail takes three events, the fourth is stopped, and whatever is asked after it; and the trail stays as it was.
#[test]
fn a_full_trail(rt: HostRuntime) -> Result<(), Fail> {
    let alloc = rt.alloc();
    let mut core = core_of(alloc, SHORT_SETTINGS).ok_or("core")?;
    let mut receipts = Vec::new(alloc);
    for frame in [END, INIT, COMMIT] {
        let event = event_by(alloc, ANN, frame).ok_or("event")?;
        receipts.push(core.step(event).ok().ok_or("stopped")?)?;
    }
    let lines = refused(alloc, core.trail())?;
    assert!(rt; lines.as_str() == REFUSED && is_of(core.trail(), receipts.as_slice()));
    for frame in [END, END, INIT] {
        let event = event_by(alloc, ROOT, frame).ok_or("event")?;
        assert!(rt; core.step(event).err() == Some(Stop::TrailFull));
        assert!(rt; core.step(Event::Mark).err() == Some(Stop::TrailFull));
        assert!(rt; core.step(Event::Tick(9)).err() == Some(Stop::TrailFull));
        let lines = refused(alloc, core.trail())?;
        assert!(rt; lines.as_str() == REFUSED && is_of(core.trail(), receipts.as_slice()));
    }
    Ok(())
}
