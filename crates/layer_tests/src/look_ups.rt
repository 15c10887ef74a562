//! How often names are looked up for a verdict, over a policy that holds such names.

ghost use Rattle.std.specs.Prelude.{◌+◌, ◌<◌, ◌≤◌};

use acl_binding::{Binding, Caller, Kind, Operation, Pattern, Permission, Question, Verdict};
use authorizer::Policy;
use std::alloc::{AllocError, Global};
use std::hash::RandomState;
use std::test::Fail;
use wire_types::{Items, Text};

/// Adds an ACL that allows or denies User:ann to WRITE to the topic of this name, or with `Prefixed` to those whose names begin
/// with it. The test fails on an empty name.
fn bind(
    alloc: Global,
    policy: &mut Policy,
    name: &str,
    pattern: Pattern,
    permission: Permission,
) -> Result<(), Fail>
    requires { policy.old.book.next < 100 }
    ensures { policy.new.book.next ≤ policy.old.book.next + 1 }
{
    if name.is_empty() {
        return Err(Fail::from("no name"));
    }
    let binding = Binding {
        kind: Kind::Topic,
        name: Text::of(alloc, name)?,
        pattern,
        principal: Text::of(alloc, "User:ann")?,
        host: Text::of(alloc, "*")?,
        operation: Operation::Write,
        permission,
    };
    policy.add(alloc, binding)?;
    Ok(())
}

/// A policy in which User:root is a super user, and User:ann may WRITE to topics whose names begin with `pay.`, but not to
/// `pay.x`, and to `zoë`.
fn policy_of(alloc: Global, hasher: RandomState) -> Result<Policy, Fail> {
    let supers = vec![in alloc; Text::of(alloc, "User:root")?]?;
    let mut policy = Policy::new(alloc, Items::from(supers), hasher);
    bind(
        alloc,
        &mut policy,
        "pay.",
        Pattern::Prefixed,
        Permission::Allow,
    )?;
    bind(
        alloc,
        &mut policy,
        "pay.x",
        Pattern::Literal,
        Permission::Deny,
    )?;
    bind(
        alloc,
        &mut policy,
        "zoë",
        Pattern::Literal,
        Permission::Allow,
    )?;
    Ok(policy)
}

/// The question whether `who`, from the host 10.0.0.5, may WRITE to a topic.
fn asked(alloc: Global, who: &str, topic: &str) -> Result<Question, AllocError> {
    let caller = Caller {
        who: Text::of(alloc, who)?,
        host: Text::of(alloc, "10.0.0.5")?,
    };
    caller.asks(Operation::Write, Kind::Topic, &Text::of(alloc, topic)?)
}

/// How many names are looked up if User:ann asks to WRITE to this topic.
fn looked(alloc: Global, policy: &Policy, topic: &str) -> Result<u64, AllocError> {
    Ok(policy.verdict_counted(&asked(alloc, "User:ann", topic)?).1)
}

/// A verdict takes two look-ups, and one for each beginning of the name that is no longer than `pay.`, the longest prefix: `zoë`
/// has three in four bytes. For a super user it takes none.
#[test]
fn few_look_ups(rt: HostRuntime) -> Result<(), Fail> {
    let policy = policy_of(rt.alloc(), RandomState::new(&rt)?)?;
    for (who, topic, verdict, times) in [
        ("User:ann", "pay.x", Verdict::Denied(2), 6),
        ("User:ann", "pay.y", Verdict::Yes, 6),
        ("User:ann", "pay.roll.of.2026", Verdict::Yes, 6),
        ("User:ann", "zoë", Verdict::Yes, 5),
        ("User:ann", "zoës", Verdict::Nothing, 5),
        ("User:ann", "zoe", Verdict::Nothing, 5),
        ("User:ann", "ëëë", Verdict::Nothing, 4),
        ("User:ann", "zooë", Verdict::Nothing, 5),
        ("User:ann", "", Verdict::Nothing, 2),
        ("User:root", "pay.x", Verdict::Yes, 0),
    ] {
        let (found, looked) = policy.verdict_counted(&asked(rt.alloc(), who, topic)?);
        assert_eq!(rt; found, verdict, "{who} {topic}");
        assert_eq!(rt; looked, times, "{who} {topic}");
    }
    Ok(())
}

/// A name as long as a frame can bear takes no look-up more than a short one.
#[test]
fn long_name_is_looked_up_as_a_short_one(rt: HostRuntime) -> Result<(), Fail> {
    let alloc = rt.alloc();
    let policy = policy_of(alloc, RandomState::new(&rt)?)?;
    let long = "pay.".repeat(alloc, 8191)?;
    assert_eq!(rt; looked(alloc, &policy, &long)?, 6);
    Ok(())
}
