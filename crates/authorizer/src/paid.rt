//! The evidence of what was spent for a part of a request.

ghost use Rattle.std.specs.Prelude.{◌≡◌, [], ◌∷◌};
ghost use Rattle.std.specs.List.{cons_option};

use crate::permit::Spent;
use std::marker::Model;

/// The evidence of the permits that were spent for a part of a request, in order and at most three. It allocates nothing.
pub struct Paid {
    pub(crate) first: Option<Spent>,
    pub(crate) second: Option<Spent>,
    pub(crate) third: Option<Spent>,
}

impl Drop for Paid {
    fn drop(self) {
        let Paid {
            first: _first,
            second: _second,
            third: _third,
        } = self;
    }
}

impl Model for Paid {
    ghost use Rattle.std.specs.Prelude.{List, []};
    ghost use Rattle.std.specs.List.{cons_option};
    ghost use Rattle.acl_binding.specs.declared.question.Question.{Question};

    ghost Value = { List Question };

    ghost view = { λ p. cons_option p.first (cons_option p.second (cons_option p.third [])) };
}

impl Paid {
    /// For a part that needed no permit.
    pub fn nothing() -> Paid
        ensures { result ≡ [] }
    {
        Paid {
            first: None,
            second: None,
            third: None,
        }
    }

    /// For a part that needed one permit.
    pub fn one(first: Spent) -> Paid
        ensures { result ≡ first ∷ [] }
    {
        Paid {
            first: Some(first),
            second: None,
            third: None,
        }
    }

    /// For a part that needed two permits.
    pub fn two(first: Spent, second: Spent) -> Paid
        ensures { result ≡ first ∷ second ∷ [] }
    {
        Paid {
            first: Some(first),
            second: Some(second),
            third: None,
        }
    }

    /// For a part that needed three permits.
    pub fn three(first: Spent, second: Spent, third: Spent) -> Paid
        ensures { result ≡ first ∷ second ∷ third ∷ [] }
    {
        Paid {
            first: Some(first),
            second: Some(second),
            third: Some(third),
        }
    }

    /// For a part that needed the last permit, and before it the permit of a first question if it asked one.
    pub fn given(given: Option<Spent>, last: Spent) -> Paid
        ensures { result ≡ cons_option given (last ∷ []) }
    {
        Paid {
            first: given,
            second: Some(last),
            third: None,
        }
    }
}
