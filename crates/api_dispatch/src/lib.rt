//! Hands an event to its handler, by its kind and its api. It also answers ticks of the clock, ApiVersions, and the SASL
//! requests that come after the login.
#![tactic(auto)]

mod dispatch;
mod login;
mod reading;
mod tick;

pub use dispatch::{apply, count};
pub use reading::is_reading;
