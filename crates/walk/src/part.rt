//! What an api does with one part of a request, such as a partition, and what becomes of the part.

ghost use Rattle.std.specs.Prelude.{◌≡◌, ◌≤◌, Bool, IfOk, OnOk};
ghost use Rattle.authorizer.specs.Asking.{policy_rules};
ghost use Rattle.authorizer.specs.Policy.{PolicyValue};
ghost use Rattle.walk.specs.Rule.{PartRule};
ghost use Rattle.authorizer.specs.Tally.{count_after};
ghost use Rattle.walk.specs.Steps.{refusal_in, spent_in, part_done, part_world};
ghost use Rattle.walk.specs.declared.part.PartResult.TheVariants as endings;

use authorizer::{Paid, Policy, Refusal, Tally};
use std::alloc::{AllocError, Global};
use wire_types::Text;

/// What became of one part of a request, such as a partition.
#[derive(Drop)]
pub enum PartResult {
    /// It was served, and this was spent for it.
    Served(Paid),
    /// It was refused.
    Refused(Refusal),
    /// All that it asked was granted, but it isn't served: its permits were declined.
    Cut,
}

impl PartResult {
    /// Counts in `spent` the permits of a part that was served, and gives the refusal of one that was refused; else `None`.
    pub fn counted(self, spent: &mut Tally) -> Option<Refusal>
        ensures refusal { result ≡ refusal_in self }
        ensures spent { spent.new ≡ count_after spent.old (spent_in self) }
    {
        match self {
            PartResult::Served(paid) => {
                spent.add(paid);
                None
            }
            PartResult::Refused(refusal) => Some(refusal),
            PartResult::Cut => None,
        }
    }
}

/// The answer for one part of a request, and what became of the part.
#[derive(Drop)]
pub struct Part<A> {
    pub answer: A,
    pub ending: PartResult,
}

impl<A> Part<A> {
    /// The outcome of a part that was served, with the permits that were spent for it.
    pub fn served(answer: A, paid: Paid) -> Part<A>
        ensures { result ≡ record { answer = answer; ending = endings.Served paid } }
    {
        Part {
            answer,
            ending: PartResult::Served(paid),
        }
    }

    /// The outcome of a part that was refused, with the refusal.
    pub fn refused(answer: A, refusal: Refusal) -> Part<A>
        ensures { result ≡ record { answer = answer; ending = endings.Refused refusal } }
    {
        Part {
            answer,
            ending: PartResult::Refused(refusal),
        }
    }

    /// The outcome of a part that was granted all that it asked, but isn't served: its permits were declined.
    pub fn cut(answer: A) -> Part<A>
        ensures { result ≡ record { answer = answer; ending = endings.Cut } }
    {
        Part {
            answer,
            ending: PartResult::Cut,
        }
    }
}

/// What an api does with one part of a request. `P` is a part, such as a partition, `A` its answer, and `W` what serving may
/// change, such as the topics.
pub trait PartApi<P, A, W> {
    /// What a part asks, does and is answered.
    ghost rule: { Self → PartRule P A W };

    /// Granted parts aren't served, and nothing is spent for them.
    ghost cuts: { Self → Bool };

    /// What all parts ask was asked of this policy.
    ghost settles: { Self → PolicyValue → Type 0 };

    /// Asks the policy for one part of the topic `name`. Serves the part if all is granted (`Served`, its permits are spent),
    /// unless the api cuts granted parts (`Cut`); else answers the refusal's code (`Refused`). An `AllocError` is an allocation
    /// failure; `world` may have changed by then.
    fn serve(
        &self,
        alloc: Global,
        policy: &Policy,
        world: &mut W,
        name: &Text,
        part: &P,
    ) -> Result<Part<A>, AllocError>
        requires settled { settles self.now policy.now }
        requires budget { (rule self.now).weight part.now ≤ (rule self.now).budget world.old }
        ensures world { OnOk result
            (world.new ≡ part_world (rule self.now) (policy_rules policy.now) world.old name.now
            part.now) }
        ensures done { IfOk result (λ done. done ≡ part_done (cuts self.now) (rule self.now) (policy_rules policy.now) world.old name.now part.now) };
}
