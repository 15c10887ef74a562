//! What the broker is set up with, and what can be wrong with it.
#![tactic(auto)]

mod checked;
mod entry;
mod fault;
mod names;
mod sentences;
mod settings;

pub use checked::CheckedSettings;
pub use entry::{Entry, name_twice};
pub use fault::{OpenFault, first_fault};
pub use names::is_topic_name;
pub use sentences::explain;
pub use settings::{Settings, TopicSetting};
