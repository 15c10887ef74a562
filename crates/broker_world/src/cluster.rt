//! The cluster: its one node, and the lists that Metadata answers about it.

ghost use Rattle.std.specs.Prelude.{◌≡◌, [], IfOk};
ghost use Rattle.broker_world.specs.Brokers.{broker_info, brokers_of};

use crate::node::Node;
use msg_data::{BrokerInfo, PartitionInfo};
use std::alloc::{AllocError, Global};
use std::marker::Model;
use wire_types::{Items, Shared};

/// The one node, with the lists that Metadata answers about it: they are made once, and all replies share them.
pub struct Cluster {
    node: Node,
    brokers: Shared<Items<BrokerInfo>>,
    no_partitions: Shared<Items<PartitionInfo>>,
}

impl Model for Cluster {
    ghost use Rattle.std.specs.Prelude.{◌≡◌, []};
    ghost use Rattle.broker_world.specs.Brokers.{brokers_of};
    ghost use Rattle.broker_world.specs.declared.node.Node.{Node};

    ghost Value = { Node };

    ghost view = { λ c. c.node };

    ghost invariant = { λ c. (c.brokers ≡ brokers_of c.node) × (c.no_partitions ≡ []) };
}

impl Drop for Cluster {
    fn drop(self) {
        let Cluster {
            node: _node,
            brokers: _brokers,
            no_partitions: _no_partitions,
        } = self;
    }
}

impl Cluster {
    /// The cluster that consists of this node alone. An `AllocError` is an allocation failure.
    pub(crate) fn of(alloc: Global, node: Node) -> Result<Cluster, AllocError>
        ensures { IfOk result (λ cluster. cluster ≡ node) }
    {
        let mut brokers = Items::new(alloc);
        brokers.push(broker_info(&node)?)?;
        let brokers = Shared::new(alloc, brokers)?;
        let no_partitions = Shared::new(alloc, Items::new(alloc))?;
        Ok(Cluster {
            node,
            brokers,
            no_partitions,
        })
    }

    /// The one node of the cluster.
    pub fn node(&self) -> &Node
        ensures { result.now ≡ self.now }
    {
        &self.node
    }

    /// One more owner of the list of brokers that Metadata answers. It fails only where the count of owners is full.
    pub fn brokers(&self) -> Result<Shared<Items<BrokerInfo>>, AllocError>
        ensures { IfOk result (λ brokers. brokers ≡ brokers_of self.now) }
    {
        self.brokers.share()
    }

    /// One more owner of the empty list of partitions, which Metadata answers for a topic with an error. It fails only where
    /// the count of owners is full.
    pub fn no_partitions(&self) -> Result<Shared<Items<PartitionInfo>>, AllocError>
        ensures { IfOk result (λ partitions. partitions ≡ []) }
    {
        self.no_partitions.share()
    }
}

/// The node as Metadata lists it, without a rack.
fn broker_info(node: &Node) -> Result<BrokerInfo, AllocError>
    ensures { IfOk result (λ broker. broker ≡ broker_info node.now) }
{
    Ok(BrokerInfo {
        node: node.node_id,
        host: node.host.clone()?,
        port: node.port,
        rack: None,
    })
}
