//! The transaction coordinator: the record of each transactional id, the producer ids given out, what each call for an
//! id comes to, and the markers that are owed once a transaction is prepared.
//!
//! The calls are those of KIP-98 and of EndTxn up to version 5 (KIP-890). Each call of [`Coordinator`] for a transactional
//! id takes a permit to write it, and spends it whatever it answers.
#![tactic(auto)]

mod adding;
mod change;
mod coordinator;
mod counts;
mod ending;
mod expiry;
mod init;
mod laws;
mod marker;
mod partitions;
mod pending_markers;
mod producer_id;
mod records;
mod target;
mod transaction;
mod warrant;

pub use coordinator::Coordinator;
pub use ending::{EndForm, EndTransaction};
pub use laws::calls_keep_ranges;
pub use marker::PendingMarker;
pub use partitions::Partitions;
pub use pending_markers::PendingMarkers;
pub use producer_id::{ProducerIdAndEpoch, ProducerIdAnswer, ProducerIdOwner};
pub use target::{Target, TopicPartition};
pub use transaction::{Transaction, TransactionState};
pub use warrant::Warrant;
