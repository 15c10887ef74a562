//! The cluster's one node, as clients see it, and the limits that it keeps.

ghost use Rattle.std.specs.Prelude.{◌≡◌, true, IfOk};
ghost use Rattle.settings.specs.Fault.{is_within, are_numbers_within};
ghost use Rattle.broker_world.specs.First.{first_node};

use settings::Settings;
use std::alloc::{AllocError, Global};
use wire_types::Text;

/// The node's id and address, and the limits of batches and transactions.
#[derive(Clone, Debug, Drop)]
pub struct Node {
    pub node_id: i32,
    pub host: Text,
    pub port: i32,
    /// The greatest size of a batch that Produce appends, in bytes.
    pub max_batch: i32,
    /// The greatest transaction timeout that InitProducerId may ask for, in milliseconds.
    pub max_txn_timeout: i32,
}

/// A number that stands in checked settings, which is 0 to 2^31 - 1, as an `i32`.
fn narrow(number: i64) -> i32
    requires { is_within 0 2147483647 number ≡ true }
    ensures { result ≡ number }
{
    number as i32
}

impl Node {
    /// The node that settings without a fault describe. An `AllocError` is an allocation failure.
    pub(crate) fn first(settings: &Settings) -> Result<Node, AllocError>
        requires { are_numbers_within settings.now ≡ true }
        ensures { IfOk result (λ node. node ≡ first_node settings.now) }
    {
        Ok(Node {
            node_id: narrow(settings.node_id),
            host: settings.host.clone()?,
            port: narrow(settings.port),
            max_batch: narrow(settings.max_batch),
            max_txn_timeout: narrow(settings.max_txn_timeout),
        })
    }
}
