//! Tests of sessions: readers and writers that fail, are interrupted or give one byte at a time; a desk's seats, the gate that is
//! called round each frame, and how many frames are served.
#![tactic(auto)]

#[cfg(test)]
mod clients;
#[cfg(test)]
mod desks;
#[cfg(test)]
mod limits;
#[cfg(test)]
mod session_devices;
