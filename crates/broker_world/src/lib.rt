//! The broker's world, all that it keeps between two events, and what the handlers of its apis share.
#![tactic(auto)]

mod cluster;
mod codes;
mod handler_result;
mod infos;
mod logs;
mod moment;
mod node;
mod numbers;
mod questions;
mod slot;
mod state;
mod topics;
mod whole;

pub use cluster::Cluster;
pub use codes::{code_in, refused_by};
pub use handler_result::HandlerResult;
pub use logs::Logs;
pub use moment::Moment;
pub use node::Node;
pub use numbers::non_negative;
pub use questions::{asks_cluster, id_question, read_question};
pub use slot::Slot;
pub use state::State;
pub use topics::Topics;
pub use whole::{refused_whole, served_in_parts, served_whole};
