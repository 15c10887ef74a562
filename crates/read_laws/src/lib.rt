//! The laws that reads succeed: what may be read is told, from where it is asked for on. They are of the definitions that the
//! handlers' contracts cite.
#![tactic(auto)]

mod laws;

pub use laws::{
    fetches_fail_rightly, fetches_serve_whole_batches, fetches_succeed, list_offsets_fails_rightly,
    list_offsets_succeeds,
};
