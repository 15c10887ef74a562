//! Access control: bindings, the book that keeps them, the questions that are asked of it and its verdicts.
//!
//! The terms are those of the Kafka documentation ('Authorization and ACLs') and of KIP-290 (prefixed ACLs).
#![tactic(auto)]

mod binding;
mod book;
mod creatable;
mod entries;
mod filter;
mod laws;
mod names;
mod question;
mod scan;
mod wire_numbers;
mod words;

pub use binding::{Binding, Numbered};
pub use book::{Added, Book};
pub use creatable::{CLUSTER_NAME, is_principal};
pub use entries::BadEntry;
pub use filter::{Filter, FilterPattern};
pub use laws::{equal_bindings, tests_are_relations, verdict_is_decided};
pub use question::{Caller, Question, Verdict};
pub use scan::{any_grant, first_denial, number_of};
pub use words::{Kind, Operation, Pattern, Permission};
