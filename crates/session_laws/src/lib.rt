//! Laws of what a client meets before it has logged in, each of which refutes wrong rules.
#![tactic(auto)]

mod laws;

pub use laws::{passwords_log_in, wrong_passwords_are_last};
