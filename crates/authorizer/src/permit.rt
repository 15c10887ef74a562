//! A permit to do what a question asked, once, before the next change of the book.

ghost use Rattle.std.specs.Prelude.{◌≡◌};
ghost use Rattle.authorizer.specs.Policy.{IsGood};

use crate::policy::Policy;
use acl_binding::Question;
use std::marker::Model;

/// The right to do what a question asked, once, before the next change of the bindings. Neither `Clone` nor `Drop`: it must
/// be spent or declined.
pub struct Permit {
    edit: u64,
    question: Question,
}

impl Model for Permit {
    ghost use Rattle.authorizer.specs.Policy.{PermitValue};

    ghost Value = { PermitValue };

    ghost view = { λ p. record { edit = p.edit; question = p.question } };
}

/// The evidence that the permit of a question was spent. It is made by [`Permit::spend`] alone, and can't be copied.
pub struct Spent {
    question: Question,
}

impl Drop for Spent {
    fn drop(self) {
        let Spent {
            question: _question,
        } = self;
    }
}

impl Model for Spent {
    ghost use Rattle.acl_binding.specs.declared.question.Question.{Question};

    ghost Value = { Question };

    ghost view = { λ s. s.question };
}

impl Permit {
    /// The permit of a question that was granted under this edit number of the policy.
    pub(crate) fn new(edit: u64, question: Question) -> Permit
        ensures { result ≡ record { edit = edit; question = question } }
    {
        Permit { edit, question }
    }

    /// The question that was granted.
    pub fn question(&self) -> &Question
        ensures { result.now ≡ self.now.question }
    {
        &self.question
    }

    /// Uses the permit up for what it was asked for, and gives the evidence of that. The policy is the one that gave the
    /// permit, with no change of its bindings since.
    pub fn spend(self, policy: &Policy) -> Spent
        requires { IsGood policy.now self }
        ensures { result ≡ self.question }
    {
        let Permit { edit, question } = self;
        let is_current = edit == policy.edit();
        prove!(is_current);
        Spent { question }
    }

    /// Gives the permit up unused, since another question of the same part was refused.
    pub fn decline(self) {
        let Permit {
            edit: _,
            question: _question,
        } = self;
    }
}
