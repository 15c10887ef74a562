//! Callers, the questions that they ask, and the verdicts.

ghost use Rattle.std.specs.Prelude.{◌≡◌, IfOk};
ghost use Rattle.std.specs.Option.{option_map};
ghost use Rattle.acl_binding.specs.Verdict.{question_of};

use crate::words::{Kind, Operation};
use std::alloc::AllocError;
use wire_types::{Boxed, Text};

/// A principal, and the host that it calls from.
#[derive(Clone, Debug, Drop)]
pub struct Caller {
    pub who: Text,
    pub host: Text,
}

/// Whether the principal `who` at this host may do this operation on the resource of this kind and name.
#[derive(Clone, Debug, Drop)]
pub struct Question {
    pub who: Text,
    pub host: Text,
    pub op: Operation,
    pub kind: Kind,
    pub name: Text,
}

/// What the bindings answer to a question. Only `Yes` permits.
#[derive(Clone, Copy, Debug, PartialEq, Eq)]
pub enum Verdict {
    Yes,
    /// The creation number of the first binding that denies what is asked.
    Denied(u64),
    /// No binding denies what is asked, and none allows it.
    Nothing,
}

impl Caller {
    /// The question whether the caller may do this operation on the resource of this kind and name. The texts aren't copied; an
    /// error comes only where their count of owners is full.
    pub fn asks(&self, op: Operation, kind: Kind, name: &Text) -> Result<Question, AllocError>
        ensures { IfOk result (λ question. question ≡ question_of self.now op kind name.now) }
    {
        Ok(Question {
            who: self.who.clone()?,
            host: self.host.clone()?,
            op,
            kind,
            name: name.clone()?,
        })
    }

    /// As `asks` about a resource whose name may be missing: None where it is, since then nothing is asked.
    pub fn asks_given(
        &self,
        op: Operation,
        kind: Kind,
        name: &Option<Boxed<Text>>,
    ) -> Result<Option<Question>, AllocError>
        ensures { IfOk result (λ asks. asks ≡ option_map (question_of self.now op kind) name.now) }
    {
        match name {
            Some(name) => Ok(Some(self.asks(op, kind, name.value())?)),
            None => Ok(None),
        }
    }
}
