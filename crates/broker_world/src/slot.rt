//! A topic with its logs.

use crate::logs::Logs;
use wire_types::Text;

/// A topic's name, and the logs of its partitions.
#[derive(Drop)]
pub struct Slot {
    pub name: Text,
    pub partitions: Logs,
}
