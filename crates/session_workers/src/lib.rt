//! Worker threads that serve sessions, those of a listener's connections among them, and the keeper that tells the core the time
//! and has it write pending markers.
//!
//! `serve_all` starts the workers, each of which takes one job after the other from a channel and serves it at a locked desk, and
//! meanwhile does the keeper's `Steps` on the calling thread: by a clock a tick at each of its moments, and marks after it. What
//! a session reads is held to the times that its peer has (`deadlines`).
//!
//! When all sessions have ended, `settle` compares their receipts with the trail, value by value and place by place.
#![tactic(auto)]

mod accept;
mod connections;
mod guest;
mod job;
mod keeper;
mod markers;
mod pacing;
mod patience;
mod sessions;
mod settlement;
mod times;
mod workers;

pub use connections::{ConnectionOptions, Service, serve_connections};
pub use job::Job;
pub use sessions::Ended;
pub use settlement::{SettleFault, Settled, settle};
pub use workers::{PoolFault, ServerContext, SessionOptions, serve_all};
