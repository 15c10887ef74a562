//! Which connections are let in: how many each host and each user has, with a most that none goes beyond; who is told of those that wait or
//! aren't let in; and how fast each user may ask.
#![tactic(auto)]

mod doorman;
mod laws;
mod pace;
mod peer;
mod quota;

pub use doorman::Doorman;
pub use laws::rate_is_kept;
pub use pace::{Load, Pace, Rate};
pub use peer::{host_of, network_of};
pub use quota::Quota;
