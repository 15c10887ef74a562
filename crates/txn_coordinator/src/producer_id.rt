//! Producer ids with their epochs.

ghost use Rattle.std.specs.Prelude.{◌≡◌, ◌<ℤ◌, IfOk};
ghost use Rattle.txn_coordinator.specs.Coordinator.{refusal_answer};
ghost use Rattle.txn_coordinator.specs.Words.{is_same_producer, with_next_epoch, is_exhausted, next_id_and_epoch, given_after, last_epoch};

use std::alloc::{AllocError, Global};
use wire_types::{ErrorCode, Items, Text};

/// From this epoch on the epochs of a producer id are used up: what follows is a new producer id.
const EXHAUSTED_EPOCH: i16 = 32_766;

/// A producer id with its epoch, which requests, record batches and markers name together.
#[derive(Clone, Copy, Debug, PartialEq, Eq)]
pub struct ProducerIdAndEpoch {
    pub producer: i64,
    pub epoch: i16,
}

/// The answer to an InitProducerId or EndTxn: an error code, and a producer id with its epoch, which is
/// [`ProducerIdAndEpoch::NONE`] with an error.
#[derive(Clone, Copy, Debug, PartialEq, Eq)]
pub struct ProducerIdAnswer {
    pub code: ErrorCode,
    pub pair: ProducerIdAndEpoch,
}

impl ProducerIdAnswer {
    /// An answer with this error code, and no producer id.
    pub fn refused(code: ErrorCode) -> ProducerIdAnswer
        ensures { result ≡ refusal_answer code }
    {
        ProducerIdAnswer {
            code,
            pair: ProducerIdAndEpoch::NONE,
        }
    }
}

/// To whom a producer id was given out.
#[derive(Clone, Copy, Debug, PartialEq, Eq)]
pub enum ProducerIdOwner {
    /// It wasn't given out.
    Never,
    /// To a producer without transactional id.
    Free,
    /// To a transactional id.
    Owned,
}

impl ProducerIdAndEpoch {
    /// Producer id -1 and epoch -1, which stand for no producer.
    pub const NONE: ProducerIdAndEpoch = ProducerIdAndEpoch {
        producer: -1,
        epoch: -1,
    };

    /// Whether both the producer ids and the epochs are the same.
    pub(crate) fn is_same(self, other: ProducerIdAndEpoch) -> bool
        ensures { result ≡ is_same_producer self other }
    {
        self.producer == other.producer && self.epoch == other.epoch
    }

    /// The same producer id with the next epoch, for an epoch that isn't the last.
    pub(crate) fn raised(self) -> ProducerIdAndEpoch
        requires { self.epoch <ℤ last_epoch }
        ensures { result ≡ with_next_epoch self }
    {
        ProducerIdAndEpoch {
            producer: self.producer,
            epoch: self.epoch + 1,
        }
    }

    /// Whether the epochs of the producer id are used up.
    fn is_exhausted(self) -> bool
        ensures { result ≡ is_exhausted self }
    {
        EXHAUSTED_EPOCH <= self.epoch
    }

    /// What a transactional id gets next: the same producer id with the next epoch, or the producer id `fresh` with epoch 0 if
    /// the epochs are used up.
    pub(crate) fn after(self, fresh: i64) -> ProducerIdAndEpoch
        ensures { result ≡ next_id_and_epoch self fresh }
    {
        if self.is_exhausted() {
            ProducerIdAndEpoch {
                producer: fresh,
                epoch: 0,
            }
        } else {
            self.raised()
        }
    }

    /// The list of owners of the producer ids that are newly given out when the transactional id `id` gets its next epoch: `id`
    /// alone if the epochs are used up, else none.
    pub(crate) fn given_after(
        self,
        alloc: Global,
        id: &Text,
    ) -> Result<Items<Option<Text>>, AllocError>
        ensures { IfOk result (λ given. given ≡ given_after self id.now) }
    {
        let mut given = Items::new(alloc);
        if self.is_exhausted() {
            given.push(Some(id.clone()?))?;
        }
        Ok(given)
    }
}
