//! Idempotent producers (KIP-98): which sequence numbers each producer of a partition has written, and how the batch that it
//! sends next is judged by that.
//!
//! [`Producers`] keeps for each producer id its epoch, the expected sequence number and the last five batches, without end: a
//! producer that is silent isn't forgotten.
#![tactic(auto)]

mod judgment;
mod laws;
mod producer_entry;
mod producers;
mod sequence;

pub use judgment::Judgment;
pub use laws::{accepted_once, newer_fences, next_is_count, numbers_alone, sent_again_repeats};
pub use producers::Producers;
pub use sequence::{last_sequence, next_sequence};
