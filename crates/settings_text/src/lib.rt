//! Settings as a TOML text: what it sets, or what is wrong with it first.
#![tactic(auto)]

mod document;
mod doubts;
mod fault;
mod fields;
mod rows;
mod sentences;
mod users;

pub use document::{Document, User, document_of_text};
pub use doubts::warnings;
pub use fault::SettingsFault;
pub use sentences::explain;
pub use users::Users;
