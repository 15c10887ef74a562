//! The authorizer: who may do what, by permits that are spent once.
//!
//! A [`Policy`] is the book of bindings in force with the super users. Asking it gives a [`Permit`] or a
//! [`Refusal`]; a permit is good until the next change of the book.
#![tactic(auto)]

mod acl_key;
mod answer;
mod asking;
mod bucket;
mod content;
mod index;
mod indexed;
mod laws;
mod looking;
mod paid;
mod permit;
mod picking;
mod policy;
mod principals;
mod settled;
mod shelf;
mod tally;

pub use answer::{Answer, DenyReason, Refusal};
pub use asking::{
    GivenPermits, ThreePermits, TwoPermits, ask_given, ask_one, ask_settled, ask_three, ask_two,
};
pub use laws::{look_ups_are_few, permit_ends_with_edit, some_topic_is_exact};
pub use paid::Paid;
pub use permit::{Permit, Spent};
pub use policy::Policy;
pub use settled::{Settled, again_if_given, settle_if_given};
pub use tally::Tally;
