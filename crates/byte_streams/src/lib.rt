//! Reads a whole input within its limit, and writes whole texts, over any reader and writer.
#![tactic(auto)]

mod device;

pub use device::{INPUT_LIMIT, InputFault, read_input, write_whole};
