//! Asking for a part of a request: all of its questions are granted, or the first that isn't refuses it.

ghost use Rattle.std.specs.Prelude.{◌≡◌, [], ◌∷◌, IfOk, IfErr, IfSome, OnOk};
ghost use Rattle.std.specs.List.{cons_option};
ghost use Rattle.authorizer.specs.Policy.{IsGood, IsGranted};
ghost use Rattle.authorizer.specs.Asking.{AreYes, IsRefusalOf};
ghost use Rattle.authorizer.specs.Settled.{IsSettled, IsSettledIfGiven, settled_question};
ghost use Rattle.authorizer.specs.Permits.{AreBothGood, AreBothGranted, AreThreeGood, AreThreeGranted, AreGivenGranted, given_question};

use crate::answer::{Answer, Refusal};
use crate::paid::Paid;
use crate::permit::{Permit, Spent};
use crate::policy::Policy;
use crate::settled::Settled;
use acl_binding::Question;

/// The permits of two questions.
pub struct TwoPermits {
    pub first: Permit,
    pub second: Permit,
}

/// The permits of three questions.
pub struct ThreePermits {
    pub first: Permit,
    pub second: Permit,
    pub third: Permit,
}

/// The permit of a first question that may be absent, and of the last.
pub struct GivenPermits {
    pub given: Option<Permit>,
    pub last: Permit,
}

/// Asks the policy. `Ok` is the permit, which must be spent or declined; `Err` is the refusal with its reason.
pub fn ask_one(policy: &Policy, question: Question) -> Result<Permit, Refusal>
    ensures granted { IfOk result (λ permit. IsGranted policy.now question permit) }
    ensures yes { OnOk result (AreYes policy.now (question ∷ [])) }
    ensures refused { IfErr result (IsRefusalOf policy.now (question ∷ [])) }
{
    ask_settled(policy, policy.settle(question))
}

/// As `ask_one`, for a question that this policy was already asked ([`Policy::settle`]), with no change of its bindings
/// since.
pub fn ask_settled(policy: &Policy, settled: Settled) -> Result<Permit, Refusal>
    requires { IsSettled policy.now settled }
    ensures granted { IfOk result (λ permit. IsGranted policy.now settled.question permit) }
    ensures yes { OnOk result (AreYes policy.now (settled.question ∷ [])) }
    ensures refused { IfErr result (IsRefusalOf policy.now (settled.question ∷ [])) }
{
    match policy.answer(settled) {
        Answer::Granted(permit) => Ok(permit),
        Answer::Refused(refusal) => Err(refusal),
    }
}

/// Asks for both permits, and returns them or the first refusal. `first` was already asked ([`Policy::settle`]) and holds.
/// If the second question is refused, the first permit is declined.
pub fn ask_two(policy: &Policy, first: Settled, second: Question) -> Result<TwoPermits, Refusal>
    requires { IsSettled policy.now first }
    ensures granted { IfOk result
        (λ permits. AreBothGranted policy.now first.question second permits) }
    ensures yes { OnOk result (AreYes policy.now (first.question ∷ second ∷ [])) }
    ensures refused { IfErr result (IsRefusalOf policy.now (first.question ∷ second ∷ [])) }
{
    let first = ask_settled(policy, first)?;
    match ask_one(policy, second) {
        Ok(second) => Ok(TwoPermits { first, second }),
        Err(refusal) => {
            first.decline();
            Err(refusal)
        }
    }
}

/// As `ask_two`, but for three permits, of which the first two questions were already asked ([`Policy::settle`]). The
/// permits that were given before a refusal are declined.
pub fn ask_three(
    policy: &Policy,
    first: Settled,
    second: Settled,
    third: Question,
) -> Result<ThreePermits, Refusal>
    requires first { IsSettled policy.now first }
    requires second { IsSettled policy.now second }
    ensures granted { IfOk result
        (AreThreeGranted policy.now first.question second.question third) }
    ensures yes { OnOk result (AreYes policy.now (first.question ∷ second.question ∷ third ∷ [])) }
    ensures refused { IfErr result
        (IsRefusalOf policy.now (first.question ∷ second.question ∷ third ∷ [])) }
{
    let first = ask_settled(policy, first)?;
    match ask_two(policy, second, third) {
        Ok(
            TwoPermits {
                first: second,
                second: third,
            },
        ) => Ok(ThreePermits {
            first,
            second,
            third,
        }),
        Err(refusal) => {
            first.decline();
            Err(refusal)
        }
    }
}

/// As `ask_two`, but without the first question if `given` is `None`.
pub fn ask_given(
    policy: &Policy,
    given: Option<Settled>,
    last: Question,
) -> Result<GivenPermits, Refusal>
    requires { IsSettledIfGiven policy.now given }
    ensures granted { IfOk result
        (λ permits. AreGivenGranted policy.now (settled_question given) last permits) }
    ensures yes { OnOk result
        (AreYes policy.now (cons_option (settled_question given) (last ∷ []))) }
    ensures refused { IfErr result
        (IsRefusalOf policy.now (cons_option (settled_question given) (last ∷ []))) }
{
    match given {
        Some(given) => {
            let TwoPermits { first, second } = ask_two(policy, given, last)?;
            Ok(GivenPermits {
                given: Some(first),
                last: second,
            })
        }
        None => {
            let last = ask_one(policy, last)?;
            Ok(GivenPermits { given: None, last })
        }
    }
}

impl TwoPermits {
    /// Uses both permits up, and gives the evidence that they were spent.
    pub fn spend(self, policy: &Policy) -> Paid
        requires { AreBothGood policy.now self }
        ensures { result ≡ self.first.question ∷ self.second.question ∷ [] }
    {
        let TwoPermits { first, second } = self;
        Paid::two(first.spend(policy), second.spend(policy))
    }
}

impl ThreePermits {
    /// Uses all three permits up, and gives the evidence that they were spent.
    pub fn spend(self, policy: &Policy) -> Paid
        requires { AreThreeGood policy.now self }
        ensures { result ≡ self.first.question ∷ self.second.question ∷ self.third.question ∷ [] }
    {
        let ThreePermits {
            first,
            second,
            third,
        } = self;
        Paid::three(
            first.spend(policy),
            second.spend(policy),
            third.spend(policy),
        )
    }
}

impl GivenPermits {
    /// Spends the permit of the first question, if there is one. Returns the evidence of that, and the last permit,
    /// unspent.
    pub fn last(self, policy: &Policy) -> (Option<Spent>, Permit)
        requires { IfSome self.given (IsGood policy.now) }
        ensures given { result.0 ≡ given_question self.given }
        ensures last { result.1 ≡ self.last }
    {
        let GivenPermits { given, last } = self;
        match given {
            Some(given) => (Some(given.spend(policy)), last),
            None => (None, last),
        }
    }

    /// Spends the last permit, and the first if there is one. Returns the evidence of both.
    pub fn spend(self, policy: &Policy) -> Paid
        requires given { IfSome self.given (IsGood policy.now) }
        requires last { IsGood policy.now self.last }
        ensures { result ≡ cons_option (given_question self.given) (self.last.question ∷ []) }
    {
        let (given, last) = self.last(policy);
        Paid::given(given, last.spend(policy))
    }
}
