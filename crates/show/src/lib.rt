//! A script in words: each request and each answer by the names of the Kafka protocol guide.
//!
//! `show_and_explain` reads what `replay` reads, and lays out each line and its answer as `message_words` has them.
#![tactic(auto)]

mod anew;
mod answer;
mod command;
mod noted;
mod outcome;
mod reason;
mod script;
mod sent;
mod told;

pub use command::{explain, explain_by, show_and_explain};
pub use noted::Noted;
pub use reason::Reason;
