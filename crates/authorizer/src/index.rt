//! The index of the bindings, by kind, pattern type and name.

ghost use Rattle.std.specs.Prelude.{◌≡◌, List, [], ◌∷◌, ◌++◌, OnOk, OnErr, filter as kept};
ghost use Rattle.std.specs.Str.{IsUtf8};
ghost use Rattle.acl_binding.specs.declared.binding.Numbered.{Numbered as Entry};
ghost use Rattle.acl_binding.specs.declared.words.Kind.{Kind as AnyKind};
ghost use Rattle.acl_binding.specs.Book.{IsRising};
ghost use Rattle.acl_binding.specs.Filter.{is_not_matched};
ghost use Rattle.acl_binding.specs.Words.{kind_number};
ghost use Rattle.authorizer.specs.Looking.{bindings_about, is_at, IsKindIndexed, IsIndexed, kind_index, pattern_names};
ghost use Rattle.authorizer.specs.Picking.{is_left, stands_at, stands_in, HasPicked};

mod any_topic;
mod longest;
mod names;

use crate::acl_key::AclKey;
use crate::picking::{ByNumber, pick_from};
use acl_binding::{Filter, Kind, Numbered, Pattern};
pub(crate) use names::{ANY_NAME, Names};
use std::alloc::{AllocError, Global};
use std::hash::RandomState;
use wire_types::Shared;

/// The bindings of one kind of resource, by pattern type and name.
#[derive(Drop)]
pub struct KindIndex {
    pub(crate) literal: Names,
    pub(crate) prefixed: Names,
}

/// The bindings of each kind of resource, by pattern type and name.
#[derive(Drop)]
pub struct Index {
    topics: KindIndex,
    groups: KindIndex,
    cluster: KindIndex,
    ids: KindIndex,
}

impl KindIndex {
    /// An index of one kind without bindings. `hasher` hashes the names.
    fn new(alloc: Global, hasher: RandomState) -> KindIndex
        ensures { (kind : AnyKind) → IsKindIndexed result kind [] }
    {
        KindIndex {
            literal: Names::new(alloc, hasher),
            prefixed: Names::new(alloc, hasher),
        }
    }

    /// The bindings of this pattern type, by their names.
    fn of(&self, pattern: Pattern) -> &Names
        ensures { result.now ≡ pattern_names self.now pattern }
    {
        match pattern {
            Pattern::Literal => &self.literal,
            Pattern::Prefixed => &self.prefixed,
        }
    }

    /// Adds a binding of this kind under its pattern type and name, with one more owner of it. On an allocation failure
    /// what was indexed stays indexed.
    fn add(&mut self, alloc: Global, entry: &Shared<Numbered>) -> Result<(), AllocError>
        ensures ok { OnOk result
            ((kind : AnyKind) (es : List Entry) → kind_number entry.now.binding.kind
            ≡ kind_number kind → IsKindIndexed self.old kind es
            → IsKindIndexed self.new kind (es ++ entry.now ∷ [])) }
        ensures err { OnErr result
            ((kind : AnyKind) (es : List Entry) → IsKindIndexed self.old kind es
            → IsKindIndexed self.new kind es) }
        ensures text { IsUtf8 entry.now.binding.name }
    {
        let name = entry.value().binding.name.as_str();
        let shared = entry.share()?;
        match entry.value().binding.pattern {
            Pattern::Literal => self.literal.add(alloc, name, shared),
            Pattern::Prefixed => self.prefixed.add(alloc, name, shared),
        }
    }

    /// Drops the bindings of this kind that match the filter.
    fn clean(&mut self, filter: &Filter)
        ensures { (kind : AnyKind) (es : List Entry) → IsKindIndexed self.old kind es
            → IsKindIndexed self.new kind (kept (is_not_matched filter.now) es) }
    {
        self.literal.clean(filter);
        self.prefixed.clean(filter);
    }

    /// Drops the bindings of this pattern type and name that match the filter.
    fn clean_at(&mut self, pattern: Pattern, name: &str, filter: &Filter)
        ensures { (kind : AnyKind) (es : List Entry) → IsKindIndexed self.old kind es
            → IsKindIndexed self.new kind
            (kept (is_left filter.now (is_at kind pattern name.now)) es) }
    {
        match pattern {
            Pattern::Literal => self.literal.clean_at(name, filter),
            Pattern::Prefixed => self.prefixed.clean_at(name, filter),
        }
    }
}

impl Index {
    /// An index without bindings. `hasher` hashes the names.
    pub(crate) fn new(alloc: Global, hasher: RandomState) -> Index
        ensures { IsIndexed result [] }
    {
        Index {
            topics: KindIndex::new(alloc, hasher),
            groups: KindIndex::new(alloc, hasher),
            cluster: KindIndex::new(alloc, hasher),
            ids: KindIndex::new(alloc, hasher),
        }
    }

    /// The index of this kind of resource.
    pub(crate) fn of(&self, kind: Kind) -> &KindIndex
        ensures { result.now ≡ kind_index self.now kind }
    {
        match kind {
            Kind::Topic => &self.topics,
            Kind::Group => &self.groups,
            Kind::Cluster => &self.cluster,
            Kind::TransactionalId => &self.ids,
        }
    }

    /// The bindings under this key, in creation order.
    fn held(&self, acl_key: &AclKey) -> &[Shared<Numbered>]
        ensures { (es : List Entry) → IsIndexed self.now es → result.now
            ≡ bindings_about acl_key.now.kind acl_key.now.pattern acl_key.now.name.now es }
    {
        self.of(acl_key.kind).of(acl_key.pattern).held(acl_key.name)
    }

    /// Adds to `picked` the bindings under these keys that match the filter. On an allocation failure some may have been
    /// added.
    pub(crate) fn pick(
        &self,
        acl_keys: &[AclKey],
        filter: &Filter,
        picked: &mut ByNumber,
    ) -> Result<(), AllocError>
        ensures { OnOk result
            ((es : List Entry) → IsRising 1 es → IsIndexed self.now es
            → HasPicked picked.old.entries picked.new.entries filter.now es
            (stands_in acl_keys.now)) }
    {
        for acl_key in acl_keys {
            pick_from(self.held(acl_key), filter, picked)?;
        }
        Ok(())
    }

    /// Adds a binding, whose creation number is greater than all others. On an allocation failure what was indexed stays
    /// indexed.
    pub(crate) fn add(&mut self, alloc: Global, entry: &Shared<Numbered>) -> Result<(), AllocError>
        ensures ok { OnOk result
            ((es : List Entry) → IsIndexed self.old es
            → IsIndexed self.new (es ++ entry.now ∷ [])) }
        ensures err { OnErr result
            ((es : List Entry) → IsIndexed self.old es → IsIndexed self.new es) }
        ensures text { IsUtf8 entry.now.binding.name }
    {
        match entry.value().binding.kind {
            Kind::Topic => self.topics.add(alloc, entry),
            Kind::Group => self.groups.add(alloc, entry),
            Kind::Cluster => self.cluster.add(alloc, entry),
            Kind::TransactionalId => self.ids.add(alloc, entry),
        }
    }

    /// Drops all bindings that match the filter.
    pub(crate) fn clean(&mut self, filter: &Filter)
        ensures { (es : List Entry) → IsIndexed self.old es
            → IsIndexed self.new (kept (is_not_matched filter.now) es) }
    {
        self.topics.clean(filter);
        self.groups.clean(filter);
        self.cluster.clean(filter);
        self.ids.clean(filter);
    }

    /// Drops the bindings under this key that match the filter.
    fn clean_at(&mut self, acl_key: &AclKey, filter: &Filter)
        ensures { (es : List Entry) → IsIndexed self.old es
            → IsIndexed self.new (kept (is_left filter.now (stands_at acl_key.now)) es) }
    {
        match acl_key.kind {
            Kind::Topic => self.topics.clean_at(acl_key.pattern, acl_key.name, filter),
            Kind::Group => self.groups.clean_at(acl_key.pattern, acl_key.name, filter),
            Kind::Cluster => self.cluster.clean_at(acl_key.pattern, acl_key.name, filter),
            Kind::TransactionalId => self.ids.clean_at(acl_key.pattern, acl_key.name, filter),
        }
    }

    /// Drops the bindings under these keys that match the filter.
    pub(crate) fn clean_keys(&mut self, acl_keys: &[AclKey], filter: &Filter)
        ensures { (es : List Entry) → IsIndexed self.old es
            → IsIndexed self.new (kept (is_left filter.now (stands_in acl_keys.now)) es) }
    {
        for acl_key in acl_keys {
            self.clean_at(acl_key, filter);
        }
    }
}
