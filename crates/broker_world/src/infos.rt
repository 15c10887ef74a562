//! A topic's partitions as Metadata lists them.

ghost use Rattle.std.specs.Prelude.{◌≡◌, ◌<◌, ◌^◌, [], ◌∷◌, IfOk};
ghost use Rattle.broker_world.specs.Partitions.{partition_info, partitions_from};

use msg_data::PartitionInfo;
use std::alloc::{AllocError, Global};
use wire_types::{ErrorCode, Items, Shared};

/// The partition of this index as Metadata lists it: the node with the id `node` is its leader and its only replica, in sync.
/// `nodes` is the list of that node alone, which the lists of replicas share.
fn partition_info(
    node: i32,
    nodes: &Shared<Items<i32>>,
    index: u32,
) -> Result<PartitionInfo, AllocError>
    requires index { index < 2 ^ 31 }
    requires nodes { nodes.now ≡ node ∷ [] }
    ensures { IfOk result (λ p. p ≡ partition_info node index) }
{
    Ok(PartitionInfo {
        error: ErrorCode::None,
        index: index as i32,
        leader: node,
        replicas: nodes.share()?,
        in_sync: nodes.share()?,
    })
}

/// The partitions 0 to `count` - 1 of a topic as Metadata lists them, led and kept by the node with the id `node`.
pub(crate) fn led_by(
    alloc: Global,
    node: i32,
    count: u32,
) -> Result<Shared<Items<PartitionInfo>>, AllocError>
    requires { count < 2 ^ 31 }
    ensures { IfOk result (λ infos. infos ≡ partitions_from node 0 count) }
{
    let nodes = Shared::new(alloc, Items::from(vec![in alloc; node]?))?;
    let mut infos = Items::new(alloc);
    for index in 0..count {
        infos.push(partition_info(node, &nodes, index)?)?;
    }
    Ok(Shared::new(alloc, infos)?)
}
