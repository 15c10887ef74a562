//! Tests of a reader that keeps times, with a clock and a peer that tests move: what no clause can say of a clock and of a
//! stream's waits. Sockets are in `tests/server/test_deadlines.py`.
#![tactic(auto)]

#[cfg(test)]
mod peer;
#[cfg(test)]
mod timed;
