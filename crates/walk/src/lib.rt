//! Requests that ask for partitions of topics: one walk over them, for every api.
//!
//! An api says by a [`PartApi`] what it does with one partition. [`walk`] serves the partitions that are allowed, and
//! answers each refused one by its code at its place.
#![tactic(auto)]

mod code;
mod laws;
mod part;
mod parts;
mod walking;

pub use code::refusal_code;
pub use laws::{answers_each_part, first_is_granted, one_walk};
pub use part::{Part, PartApi, PartResult};
pub use parts::has_part;
pub use walking::{Walked, walk, walk_cut, walk_granted};
