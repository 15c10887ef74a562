//! The plain broker, the allowed part of a request, and the law that joins them.
#![tactic(auto)]

mod laws;

pub use laws::{
    allowed_is_exact, plain_knows_no_permission, plain_of_allowed, reads_committed,
    refusals_are_of_parts, refused_changes_nothing,
};
