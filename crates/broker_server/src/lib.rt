//! Serves the connections of a bound listener: says where it listens, serves them at a desk while the keeper keeps its time,
//! settles the books, and says how that went.
#![tactic(auto)]

mod lines;
mod server;

pub use server::{ServeOptions, Server, serve};
