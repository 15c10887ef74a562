//! Asking once what all parts of a request ask: each part takes its permit or refusal from the one answer.

ghost use Rattle.std.specs.Prelude.{◌≡◌, IfOk};
ghost use Rattle.authorizer.specs.Asking.{answer_by};
ghost use Rattle.authorizer.specs.Settled.{settled_value_if_given};

use crate::answer::{Answer, DenyReason, Refusal};
use crate::permit::Permit;
use crate::policy::Policy;
use acl_binding::{Question, Verdict};
use std::alloc::AllocError;
use std::marker::Model;

/// A policy's answer to a question, which holds until the next change of the bindings. [`Policy::settle`] makes it.
pub struct Settled {
    pub(crate) edit: u64,
    pub(crate) question: Question,
    pub(crate) verdict: Verdict,
}

impl Drop for Settled {
    fn drop(self) {
        let Settled {
            edit: _,
            question: _question,
            verdict: _,
        } = self;
    }
}

impl Model for Settled {
    ghost use Rattle.authorizer.specs.Settled.{SettledValue};

    ghost Value = { SettledValue };

    ghost view = { λ s. record { edit = s.edit; question = s.question; verdict = s.verdict } };
}

impl Settled {
    /// A copy, for one more part of the request. An `AllocError` is an allocation failure.
    pub fn again(&self) -> Result<Settled, AllocError>
        ensures { IfOk result (λ settled. settled ≡ self.now) }
    {
        Ok(Settled {
            edit: self.edit,
            question: self.question.clone()?,
            verdict: self.verdict,
        })
    }

    /// Returns the permit if the verdict is `Yes`, else the refusal with the reason.
    pub(crate) fn answer(self) -> Answer
        ensures { result ≡ answer_by self.verdict self.edit self.question }
    {
        let Settled {
            edit,
            question,
            verdict,
        } = self;
        let why = match verdict {
            Verdict::Yes => return Answer::Granted(Permit::new(edit, question)),
            Verdict::Denied(number) => DenyReason::Denied(number),
            Verdict::Nothing => DenyReason::Nothing,
        };
        Answer::Refused(Refusal { question, why })
    }
}

/// Asks the policy a question for all parts of a request. `None` where there is no question.
pub fn settle_if_given(policy: &Policy, question: Option<Question>) -> Option<Settled>
    ensures { result ≡ settled_value_if_given policy.now question }
{
    match question {
        Some(question) => Some(policy.settle(question)),
        None => None,
    }
}

/// A copy, for one more part of the request. `None` where there was no question.
pub fn again_if_given(settled: &Option<Settled>) -> Result<Option<Settled>, AllocError>
    ensures { IfOk result (λ again. again ≡ settled.now) }
{
    match settled {
        Some(settled) => Ok(Some(settled.again()?)),
        None => Ok(None),
    }
}
