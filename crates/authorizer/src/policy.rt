//! The policy in force: the book of bindings and the super users.

ghost use Rattle.std.specs.Prelude.{◌≡◌, ◌+◌, ◌^◌, ◌<◌, ◌≤◌, length, IfOk, OnOk, OnErr};
ghost use Rattle.acl_binding.specs.Adding.{adding_answer};
ghost use Rattle.acl_binding.specs.Filter.{matching_bindings};
ghost use Rattle.authorizer.specs.LookUps.{look_ups};
ghost use Rattle.authorizer.specs.Policy.{first_policy, policy_verdict, policy_added, policy_removed, is_super};
ghost use Rattle.authorizer.specs.AnyTopic.{any_topic};
ghost use Rattle.authorizer.specs.Asking.{asking_answer};
ghost use Rattle.authorizer.specs.Settled.{settled_value, IsSettled};
ghost use Rattle.acl_binding.specs.declared.words.Pattern.TheVariants.{Prefixed};

use crate::answer::Answer;
use crate::indexed::IndexedBook;
use crate::settled::Settled;
use acl_binding::{Added, Binding, Filter, Question, Verdict};
use std::alloc::{AllocError, Global};
use std::hash::RandomState;
use std::marker::Model;
use wire_types::{Items, Text};

/// The bindings in force (the ACLs) and the super users, with the edit number: how often the bindings were changed.
#[derive(Drop)]
pub struct Policy {
    book: IndexedBook,
    supers: Items<Text>,
    edit: u64,
}

impl Model for Policy {
    ghost use Rattle.authorizer.specs.Policy.{PolicyValue};

    ghost Value = { PolicyValue };

    ghost use Rattle.authorizer.specs.Policy.{IsCounted};

    ghost view = { λ p. record { book = p.book; supers = p.supers; edit = p.edit } };

    ghost invariant = { λ p. IsCounted p.edit p.book };
}

impl Policy {
    /// A policy without bindings and with these super users. `hasher` hashes names; no answer depends on it.
    pub fn new(alloc: Global, supers: Items<Text>, hasher: RandomState) -> Policy
        ensures { result ≡ first_policy supers }
    {
        Policy {
            book: IndexedBook::new(alloc, hasher),
            supers,
            edit: 0,
        }
    }

    /// The hasher of names, with its random keys. Other tables of names are to use the same.
    pub fn hasher(&self) -> RandomState {
        self.book.hasher()
    }

    /// The edit number: how often the bindings were changed. A permit is good under one edit number.
    pub(crate) fn edit(&self) -> u64
        ensures { result ≡ self.now.edit }
    {
        self.edit
    }

    /// Adds a binding under the next creation number and counts the edit number up (`Added::Added`). If an equal binding is
    /// in the book (`Added::There`, with its number), or on an allocation failure, nothing changes.
    pub fn add(&mut self, alloc: Global, binding: Binding) -> Result<Added, AllocError>
        requires next { self.old.book.next + 1 < 2 ^ 63 }
        requires named { binding.pattern ≡ Prefixed → 0 < length binding.name }
        ensures ok { OnOk result (self.new ≡ policy_added self.old binding) }
        ensures number { IfOk result (λ answer. answer ≡ adding_answer self.old.book binding) }
        ensures err { OnErr result (self.new ≡ self.old) }

        // What a caller needs to keep the numbers in their range.
        ensures next { self.new.book.next ≤ self.old.book.next + 1 }
    {
        let answer = self.book.add(alloc, binding)?;
        if let Added::Added(_) = answer {
            self.edit += 1;
        }
        Ok(answer)
    }

    /// Copies of the bindings that match the filter, in creation order.
    pub fn matching(&self, alloc: Global, filter: &Filter) -> Result<Items<Binding>, AllocError>
        ensures { IfOk result
            (λ picked. picked ≡ matching_bindings self.now.book.entries filter.now) }
    {
        self.book.matching(alloc, filter)
    }

    /// Removes the bindings that match the filter, and gives them in creation order. The edit number is counted up if there
    /// are any. An allocation failure removes none.
    pub fn remove(&mut self, alloc: Global, filter: &Filter) -> Result<Items<Binding>, AllocError>
        requires { self.old.book.next < 2 ^ 63 }
        ensures ok { OnOk result (self.new ≡ policy_removed self.old filter.now) }
        ensures picked { IfOk result
            (λ list. list ≡ matching_bindings self.old.book.entries filter.now) }
        ensures err { OnErr result (self.new ≡ self.old) }
    {
        let picked = self.book.remove(alloc, filter)?;
        if picked.len() != 0 {
            self.edit += 1;
        }
        Ok(picked)
    }

    /// What the policy answers to a question: `Yes` to a super user, else what the bindings say, DENY before ALLOW.
    pub fn verdict(&self, question: &Question) -> Verdict
        ensures { result ≡ policy_verdict self.now question.now }
    {
        self.verdict_counted(question).0
    }

    /// The verdict, and how many names were looked up for it: for a super user none, else the asked name, `*`, and each
    /// beginning of the name that is no longer than the longest prefixed name of that kind.
    pub fn verdict_counted(&self, question: &Question) -> (Verdict, u64)
        ensures verdict { result.0 ≡ policy_verdict self.now question.now }
        ensures looked { result.1 ≡ look_ups self.now question.now }
    {
        if self.is_super(&question.who) {
            return (Verdict::Yes, 0);
        }
        self.book.verdict_counted(question)
    }

    /// Whether the bindings let this principal at this host have a producer id without a transactional id: one allows WRITE
    /// to some topic, and no DENY covers all names of that binding (KIP-679). Super users aren't regarded; they need no
    /// such binding.
    pub fn any_topic(&self, who: &Text, host: &Text) -> bool
        ensures { result ≡ any_topic self.now.book.entries who.now host.now }
    {
        self.book.any_topic(who, host)
    }

    /// Asks a question once for all parts of a request. The answer holds until the next change of the bindings.
    pub fn settle(&self, question: Question) -> Settled
        ensures { result ≡ settled_value self.now question }
    {
        let verdict = self.verdict(&question);
        Settled {
            edit: self.edit,
            question,
            verdict,
        }
    }

    /// Asks a question. The answer is a permit if the verdict is `Yes`, else a refusal with the reason.
    pub fn ask(&self, question: Question) -> Answer
        ensures { result ≡ asking_answer self.now question }
    {
        self.answer(self.settle(question))
    }

    /// The permit or the refusal of a question that was settled under this policy, with no change of the bindings since.
    pub fn answer(&self, settled: Settled) -> Answer
        requires { IsSettled self.now settled }
        ensures { result ≡ asking_answer self.now settled.question }
    {
        settled.answer()
    }

    /// Whether the principal (`User:..`) is a super user.
    fn is_super(&self, who: &Text) -> bool
        ensures { result ≡ is_super self.now.supers who.now }
    {
        self.supers.iter().any(|name| name == who)
    }
}
