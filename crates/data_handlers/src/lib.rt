//! Metadata, Produce, Fetch and ListOffsets: what each does, and what it answers, under the bindings in force.
#![tactic(auto)]

mod fetch;
mod fetch_budget;
mod list_offsets;
mod metadata;
mod produce;

pub use fetch::answer_fetch;
pub use fetch_budget::FetchBudget;
pub use list_offsets::answer_list_offsets;
pub use metadata::answer_metadata;
pub use produce::answer_produce;
