//! Operations that no served request asks the policy for, DESCRIBE_CONFIGS and ALL, and what allows them.

use acl_binding::{Binding, Book, Caller, Kind, Operation, Pattern, Permission, Question, Verdict};
use std::alloc::{AllocError, Global};
use std::test::Fail;
use wire_types::Text;

const ANN: &str = "User:ann";

/// The question whether User:ann, from the host 10.0.0.5, may do this operation on the topic `a`.
fn asked(alloc: Global, operation: Operation) -> Result<Question, AllocError> {
    let caller = Caller {
        who: Text::of(alloc, ANN)?,
        host: Text::of(alloc, "10.0.0.5")?,
    };
    caller.asks(operation, Kind::Topic, &Text::of(alloc, "a")?)
}

/// A binding that allows Ann an operation on the topic `a`, from any host.
fn allow(alloc: Global, operation: Operation) -> Result<Binding, AllocError> {
    Ok(Binding {
        kind: Kind::Topic,
        name: Text::of(alloc, "a")?,
        pattern: Pattern::Literal,
        principal: Text::of(alloc, ANN)?,
        host: Text::of(alloc, "*")?,
        operation,
        permission: Permission::Allow,
    })
}

/// The verdict on `operation` by a book whose only binding allows `own`.
fn verdict(alloc: Global, own: Operation, operation: Operation) -> Result<Verdict, AllocError> {
    let question = asked(alloc, operation)?;
    let binding = allow(alloc, own)?;
    let mut book = Book::new(alloc);
    book.add(alloc, binding)?;
    Ok(book.verdict(&question))
}

/// To allow ALTER_CONFIGS allows DESCRIBE_CONFIGS too, and only to allow ALL allows ALL.
#[test]
fn operations_that_nothing_is_asked_for(rt: HostRuntime) -> Result<(), Fail> {
    for (own, operation, answer) in [
        (
            Operation::AlterConfigs,
            Operation::DescribeConfigs,
            Verdict::Yes,
        ),
        (
            Operation::Alter,
            Operation::DescribeConfigs,
            Verdict::Nothing,
        ),
        (Operation::Write, Operation::All, Verdict::Nothing),
        (Operation::All, Operation::All, Verdict::Yes),
    ] {
        assert!(rt;
            verdict(rt.alloc(), own, operation)? == answer,
            "{own:?} and {operation:?}"
        );
    }
    Ok(())
}
