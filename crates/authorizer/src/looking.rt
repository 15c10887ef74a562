//! What the bindings under a name say to a question.

ghost use Rattle.std.specs.Prelude.{◌≡◌, ◌+◌, ◌^◌, ◌<◌, false, List, ℕ, length, filter as kept, None};
ghost use Rattle.std.specs.List.{AllByRecursion};
ghost use Rattle.std.specs.Str.{chars};
ghost use Rattle.acl_binding.specs.declared.binding.Numbered.{Numbered as Entry};
ghost use Rattle.acl_binding.specs.declared.words.Pattern.TheVariants.{Prefixed};
ghost use Rattle.acl_binding.specs.Book.{IsRising};
ghost use Rattle.acl_binding.specs.Verdict.{verdict_by};
ghost use Rattle.authorizer.specs.Index.{bindings_under};
ghost use Rattle.authorizer.specs.Longest.{longest_name};
ghost use Rattle.authorizer.specs.LookUps.{beginnings_within};
ghost use Rattle.authorizer.specs.Looking.{finding_of, combined_finding, min_some, is_longer, IsNamed, IsTableOf};

use crate::index::Names;
use acl_binding::{Numbered, Question, Verdict, any_grant, first_denial};
use wire_types::Shared;

/// What some of the bindings say to a question.
#[derive(Clone, Copy)]
pub struct Finding {
    /// The creation number of the first binding that denies, if one does.
    pub denied: Option<u64>,
    /// Whether a binding allows.
    pub allowed: bool,
}

impl Finding {
    /// The finding of no bindings: nothing is denied, nothing allowed.
    pub(crate) fn none() -> Finding
        ensures { result ≡ record { denied = None; allowed = false } }
    {
        Finding {
            denied: None,
            allowed: false,
        }
    }

    /// What these bindings, in creation order, say to the question.
    pub(crate) fn of(entries: &[Shared<Numbered>], question: &Question) -> Finding
        requires { IsRising 1 entries.now }
        ensures { result ≡ finding_of entries.now question.now }
    {
        Finding {
            denied: first_denial(entries, question),
            allowed: any_grant(entries, question),
        }
    }

    /// What the bindings of both findings say together: the lesser number of a denial, and whether any allows.
    pub(crate) fn joined(self, other: Finding) -> Finding
        ensures { result ≡ combined_finding self other }
    {
        Finding {
            denied: min_some(self.denied, other.denied),
            allowed: self.allowed || other.allowed,
        }
    }

    /// The answer to the question: DENY goes before ALLOW.
    pub(crate) fn verdict(self) -> Verdict
        ensures { result ≡ verdict_by self.denied self.allowed }
    {
        match self.denied {
            Some(number) => Verdict::Denied(number),
            None if self.allowed => Verdict::Yes,
            None => Verdict::Nothing,
        }
    }
}

/// The lesser of the numbers that are there, `None` if neither is.
fn min_some(a: Option<u64>, b: Option<u64>) -> Option<u64>
    ensures { result ≡ min_some a b }
{
    match (a, b) {
        (None, b) => b,
        (Some(a), None) => Some(a),
        (Some(a), Some(b)) => Some(a.min(b)),
    }
}

/// Returns what the bindings of this name say to the question. Adds the one look-up that it takes to `looked`.
pub(crate) fn look_up_name(
    names: &Names,
    name: &str,
    question: &Question,
    looked: &mut u64,
) -> Finding
    requires rising { IsRising 1 (bindings_under names.now name.now) }
    requires count { looked.old + 1 < 2 ^ 64 }
    ensures finding { result ≡ finding_of (bindings_under names.now name.now) question.now }
    ensures looked { looked.new ≡ looked.old + 1 }
{
    names.look_up(name, question, looked)
}

/// Returns what the prefixed bindings say whose names begin the question's name. `names` holds the prefixed bindings of the
/// question's kind. Adds to `looked` one look-up for each beginning that is no longer than the longest name in `names`.
pub(crate) fn look_up_prefixes(names: &Names, question: &Question, looked: &mut u64) -> Finding
    requires rising { (name : List ℕ) → IsRising 1 (bindings_under names.now name) }
    requires count { looked.old + length question.now.name + 1 < 2 ^ 64 }
    ensures finding { (es : List Entry) → AllByRecursion IsNamed es
        → IsTableOf names.now question.now.kind Prefixed es → result
        ≡ finding_of (kept (is_longer question.now.kind question.now.name 0) es) question.now }
    ensures looked { looked.new ≡ looked.old + beginnings_within (longest_name names.now)
        (chars question.now.name) }
{
    let name = question.name.as_str();
    let longest = names.longest();
    let mut finding = Finding::none();
    let mut end = 0;
    for c in name.chars() {
        end += c.len_utf8();
        if end > longest {
            break;
        }
        finding = finding.joined(look_up_name(names, &name[..end], question, looked));
    }
    finding
}
