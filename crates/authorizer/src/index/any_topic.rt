//! Whether a principal may write to any topic at all (KIP-679).

ghost use Rattle.std.specs.Prelude.{◌≡◌, ◌==◌, ◌&&◌, List, filter as kept};
ghost use Rattle.std.specs.List.{list_any, AllByRecursion};
ghost use Rattle.acl_binding.specs.declared.binding.Numbered.{Numbered as Entry};
ghost use Rattle.acl_binding.specs.declared.words.Kind.TheVariants.{Topic};
ghost use Rattle.acl_binding.specs.declared.words.Pattern.TheVariants.{Literal, Prefixed};
ghost use Rattle.acl_binding.specs.Words.{pattern_number};
ghost use Rattle.authorizer.specs.AnyTopic.{bars_write, is_star, is_overridden_by_deny, is_overridden_by_name, is_unbarred, any_topic};
ghost use Rattle.authorizer.specs.Index.{bindings_under};
ghost use Rattle.authorizer.specs.Looking.{is_longer, IsNamed, IsTableOf};

use crate::index::names::{ANY_NAME, Names};
use crate::indexed::IndexedBook;
use acl_binding::{Binding, Kind, Numbered, Operation, Pattern};
use wire_types::{Shared, Text};

/// Whether one of these bindings is a DENY of WRITE or of ALL for this principal at this host.
fn bar_write(entries: &[Shared<Numbered>], who: &Text, host: &Text) -> bool
    ensures { result ≡ list_any (λ (e : Entry). bars_write who.now host.now e.binding) entries.now }
{
    entries.iter().any(|entry| {
        let binding = &entry.value().binding;
        binding.applies(who, host) && binding.denies(Operation::Write)
    })
}

/// Whether the binding is for every name: literal `*`.
fn is_star(binding: &Binding) -> bool
    ensures { result ≡ is_star binding.now }
{
    binding.pattern == Pattern::Literal && binding.name.as_str() == ANY_NAME
}

/// Whether the binding is literal, and a literal binding of the same name denies WRITE to this principal at this host.
/// `names` holds the literal bindings of topics.
fn own_name_bars(names: &Names, binding: &Binding, who: &Text, host: &Text) -> bool
    ensures { result
        ≡ ((pattern_number binding.now.pattern == pattern_number Literal) && list_any
        (λ (e : Entry). bars_write who.now host.now e.binding)
        (bindings_under names.now binding.now.name)) }
{
    binding.pattern == Pattern::Literal && bar_write(names.held(binding.name.as_str()), who, host)
}

/// Whether a prefixed binding that matches this name denies WRITE to this principal at this host. `names` holds the
/// prefixed bindings of topics.
fn prefixes_deny_write(names: &Names, name: &Text, who: &Text, host: &Text) -> bool
    ensures { (es : List Entry) → AllByRecursion IsNamed es → IsTableOf names.now Topic Prefixed es
        → result ≡ list_any (λ (e : Entry). bars_write who.now host.now e.binding)
        (kept (is_longer Topic name.now 0) es) }
{
    let text = name.as_str();
    let mut end = 0;
    for c in text.chars() {
        end += c.len_utf8();
        if bar_write(names.held(&text[..end]), who, host) {
            return true;
        }
    }
    false
}

impl IndexedBook {
    /// Whether the bindings allow this principal at this host to WRITE to some topic: one allows it, and no DENY covers all
    /// names of that binding (KIP-679, `authorizeByResourceType`). Super users aren't regarded.
    pub(crate) fn any_topic(&self, who: &Text, host: &Text) -> bool
        ensures { result ≡ any_topic self.now.entries who.now host.now }
    {
        let topics = self.index().of(Kind::Topic);
        topics.literal.any_not_overridden(self, who, host)
            || topics.prefixed.any_not_overridden(self, who, host)
    }

    /// Whether the binding of topics allows this principal at this host to WRITE, and no DENY in the book covers all its
    /// names.
    pub(crate) fn is_unbarred(&self, entry: &Numbered, who: &Text, host: &Text) -> bool
        ensures { result ≡ is_unbarred self.now.entries who.now host.now entry.now }
    {
        let binding = &entry.binding;
        binding.applies(who, host)
            && binding.allows(Operation::Write)
            && !self.is_overridden_by_deny(binding, who, host)
    }

    /// Whether a DENY of WRITE for this principal at this host covers all names of the binding: one of literal `*`, or, if
    /// the binding isn't literal `*` itself, one of its name or of a beginning of it.
    fn is_overridden_by_deny(&self, binding: &Binding, who: &Text, host: &Text) -> bool
        ensures { result ≡ is_overridden_by_deny self.now.entries who.now host.now binding.now }
    {
        let topics = self.index().of(Kind::Topic);
        bar_write(topics.literal.held(ANY_NAME), who, host)
            || !is_star(binding) && self.is_overridden_by_name(binding, who, host)
    }

    /// Whether a DENY of WRITE for this principal at this host is bound to the binding's own literal name, or prefixed to
    /// its name or a beginning of it.
    fn is_overridden_by_name(&self, binding: &Binding, who: &Text, host: &Text) -> bool
        ensures { result ≡ is_overridden_by_name self.now.entries who.now host.now binding.now }
    {
        let topics = self.index().of(Kind::Topic);
        own_name_bars(&topics.literal, binding, who, host)
            || prefixes_deny_write(&topics.prefixed, &binding.name, who, host)
    }
}
