//! What the broker keeps between two events, beside the audit trail.

ghost use Rattle.std.specs.Prelude.{◌≡◌, ◌≤◌, length, true, IfOk, None};
ghost use Rattle.std.specs.List.{list_all};
ghost use Rattle.authorizer.specs.Asking.{policy_rules};
ghost use Rattle.acl_binding.specs.Book.{empty_book};
ghost use Rattle.acl_binding.specs.Creatable.{is_creatable};
ghost use Rattle.settings.specs.Fault.{first_fault};
ghost use Rattle.broker_world.specs.World.{rules_of};
ghost use Rattle.broker_world.specs.First.{first_world, with_bindings};

use crate::cluster::Cluster;
use crate::moment::Moment;
use crate::node::Node;
use crate::topics::Topics;
use acl_binding::Binding;
use authorizer::Policy;
use group_offsets::Groups;
use settings::Settings;
use std::alloc::{AllocError, Global};
use std::hash::RandomState;
use std::marker::Model;
use txn_coordinator::Coordinator;
use wire_types::{Items, Text};

/// The broker's world: the cluster, the policy, the topics with their logs, transactions, groups and the clock.
pub struct State {
    pub cluster: Cluster,
    pub policy: Policy,
    pub topics: Topics,
    pub coordinator: Coordinator,
    pub groups: Groups,
    pub moment: Moment,
    /// How many events the broker has answered. JoinGroup makes the ids of new members of it.
    pub events: u64,
}

impl Drop for State {
    fn drop(self) {
        let State {
            cluster: _cluster,
            policy: _policy,
            topics: _topics,
            coordinator: _coordinator,
            groups: _groups,
            moment: _moment,
            events: _events,
        } = self;
    }
}

impl Model for State {
    ghost use Rattle.std.specs.Prelude.{[]};
    ghost use Rattle.broker_world.specs.World.{World};

    ghost Value = { World };

    ghost view = { λ s. record { node = s.cluster; supers = s.policy.supers; book = s.policy.book; topics = s.topics; coordinator = s.coordinator; groups = s.groups; moment = s.moment; events = s.events } };
}

impl State {
    /// The world that a broker begins with, by settings without a fault. `hasher` hashes the names that clients choose; no
    /// answer depends on it. An `AllocError` is an allocation failure.
    pub fn first(
        alloc: Global,
        settings: &Settings,
        hasher: RandomState,
    ) -> Result<State, AllocError>
        requires { first_fault settings.now ≡ None }
        ensures { IfOk result (λ s. s ≡ first_world settings.now) }
    {
        let node = Node::first(settings)?;
        Ok(State {
            policy: first_policy(alloc, &settings.supers, settings.acls.as_slice(), hasher)?,
            topics: Topics::first(alloc, node.node_id, settings.topics.as_slice())?,
            coordinator: Coordinator::new(alloc, hasher),
            groups: Groups::new(alloc, hasher),
            moment: Moment::first(),
            events: 0,
            cluster: Cluster::of(alloc, node)?,
        })
    }

    /// The one node.
    pub fn node(&self) -> &Node
        ensures { result.now ≡ self.now.node }
    {
        self.cluster.node()
    }

    /// The policy in force: bindings and super users.
    pub fn policy(&self) -> &Policy
        ensures { policy_rules result.now ≡ rules_of self.now }
    {
        &self.policy
    }

    /// The topics with their logs.
    pub fn topics(&self) -> &Topics
        ensures { result.now ≡ self.now.topics }
    {
        &self.topics
    }
}

/// The policy of these super users, to which the bindings of the settings are added in their order.
fn first_policy(
    alloc: Global,
    supers: &Items<Text>,
    acls: &[Binding],
    hasher: RandomState,
) -> Result<Policy, AllocError>
    requires few { length acls.now ≤ 100000 }
    requires creatable { list_all is_creatable acls.now ≡ true }
    ensures book { IfOk result (λ policy. policy.book ≡ with_bindings empty_book acls.now) }
    ensures supers { IfOk result (λ policy. policy.supers ≡ supers.now) }
{
    let mut policy = Policy::new(alloc, supers.clone()?, hasher);
    for binding in acls {
        policy.add(alloc, binding.clone()?)?;
    }
    Ok(policy)
}
