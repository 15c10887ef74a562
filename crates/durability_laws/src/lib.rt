//! The laws that what a broker acknowledged and committed stays, and can be read: over all later events, whatever they are.
#![tactic(auto)]

mod laws;

pub use laws::{
    acknowledged_records_are_read, acknowledged_records_stay, committed_offsets_stay,
    committed_records_stay,
};
