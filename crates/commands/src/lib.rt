//! The program's commands, over any reader and writer.
//!
//! The lines of a script are read here for others too: what each asks for is `req USER HOST HEX`, `mark` or `tick N`.
#![tactic(auto)]

mod cause;
mod command;
mod hints;
mod lines;
mod open;
mod order;
mod run;
mod text;
mod turn;

pub use lines::{content, split_input, split_line};
pub use open::{Opened, open_and_explain};
pub use order::{Order, Sent, Unreadable, parse_number, parse_order};
pub use run::{check, replay};
