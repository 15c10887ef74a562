//! The laws of transactions over the coordinator together with the logs and the groups: each transaction that is
//! prepared is completed at each of its partitions and groups, and a producer that is fenced writes nothing more.
#![tactic(auto)]

mod laws;

pub use laws::{
    calls_by_table, completion, expiry, fencing, keeping, soundness, turns_away_by_table,
};
