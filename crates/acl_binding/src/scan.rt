//! Walks over bindings in the order of their creation.

ghost use Rattle.std.specs.Prelude.{◌≡◌, IfOk};
ghost use Rattle.acl_binding.specs.Book.{number_of, IsRising};
ghost use Rattle.acl_binding.specs.Filter.{matching_bindings};
ghost use Rattle.acl_binding.specs.Verdict.{least_of, denials, any_grant};

use crate::binding::{Binding, Numbered};
use crate::filter::Filter;
use crate::question::Question;
use std::alloc::{AllocError, Global};
use wire_types::{Items, Shared};

/// The creation number of the binding that is equal to this one, `None` if there is none.
pub fn number_of(entries: &[Shared<Numbered>], binding: &Binding) -> Option<u64>
    ensures { result ≡ number_of entries.now binding.now }
{
    for entry in entries {
        let entry = entry.value();
        if entry.binding == *binding {
            return Some(entry.number);
        }
    }
    None
}

/// The creation number of the first binding that denies what is asked; None if none does. The entries have to stand by rising
/// numbers, so that it is the least.
pub fn first_denial(entries: &[Shared<Numbered>], question: &Question) -> Option<u64>
    requires { IsRising 1 entries.now }
    ensures { result ≡ least_of (denials entries.now question.now) }
{
    for entry in entries {
        let entry = entry.value();
        if entry.binding.is_denial(question) {
            return Some(entry.number);
        }
    }
    None
}

/// Whether some binding allows what is asked.
pub fn any_grant(entries: &[Shared<Numbered>], question: &Question) -> bool
    ensures { result ≡ any_grant entries.now question.now }
{
    entries
        .iter()
        .any(|entry| entry.value().binding.is_grant(question))
}

/// Copies of the bindings that match the filter, in creation order. An error is an allocation failure.
pub fn matching(
    alloc: Global,
    entries: &[Shared<Numbered>],
    filter: &Filter,
) -> Result<Items<Binding>, AllocError>
    ensures { IfOk result (λ picked. picked ≡ matching_bindings entries.now filter.now) }
{
    let mut picked = Items::new(alloc);
    for entry in entries {
        if filter.matches(&entry.value().binding) {
            picked.push(entry.value().binding.clone()?)?;
        }
    }
    Ok(picked)
}
