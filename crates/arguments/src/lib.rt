//! The program's command line.
#![tactic(auto)]

mod address;
mod help;
mod job;
mod misused;
mod serve_options;
mod serving;

pub use help::VERSION;
pub use job::{Job, Showing, arguments};
pub use serving::{Serving, ShutdownOptions};
