//! The broker's core: it takes one event at a time, answers exactly what the bindings in force allow of it, and
//! keeps what it answered and refused in a trail.
#![tactic(auto)]

mod booked;
mod machine;
mod polling;
mod receipt;
mod seed;
mod stop;

pub use booked::{Booked, MOST_SEATS, Seat};
pub use machine::Core;
pub use receipt::Receipt;
pub use seed::FixedSeed;
pub use stop::Stop;
