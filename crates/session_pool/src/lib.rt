//! Sessions: whoever connects logs in and asks, one frame after the other, and a desk of one core answers.
//!
//! `serve_session` reads frames, keeps how far the login went in a state that each call uses up, and hands the events of a user
//! who is known to a `Desk`. `LockedDesk` is the desk that many threads share. `Steps` says when a keeper, which asks nothing,
//! tells the core the time or has it write a marker: by a clock (`Clocked`), or as whoever steers the broker wants.
//!
//! A login itself needs no desk, and stands in `sasl_login`; how frames are read and long answers written, in `frame_streams`.
#![tactic(auto)]

mod begin;
mod context;
mod desk;
mod end_reason;
mod gate;
mod kept;
mod laws;
mod locked;
mod respond;
mod response;
mod session;
mod shutdown_flag;
mod steps;

pub use context::{LoginContext, SessionContext};
pub use desk::{Desk, DeskLedger};
pub use end_reason::EndReason;
pub use gate::Gate;
pub use laws::{asks_are_own, long_frames_go_by_their_front, long_frames_log_nobody_in};
pub use locked::{LockedDesk, Quiet};
pub use sasl_login::{ListedVersions, name_in};
pub use session::{Limits, SessionEnd, serve_session};
pub use settings_text::Users;
pub use shutdown_flag::ShutdownFlag;
pub use steps::{Clock, Clocked, Step, Steps};
