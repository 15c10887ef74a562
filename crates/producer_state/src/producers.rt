//! The producers of a partition, as Kafka's ProducerStateManager keeps them.

ghost use Rattle.std.specs.Prelude.{◌≡◌, ◌≤ℤ◌, pos, List, [], ◌∷◌, ◌++◌, OnOk, OnErr, None};
ghost use Rattle.record_batch.specs.Batch.{BatchData, written_at};
ghost use Rattle.producer_state.specs.Sequences.{sequence, judgment_of};
ghost use Rattle.producer_state.specs.State.{Describes, IsMarkerOf};

use crate::judgment::Judgment;
use crate::producer_entry::{ProducerEntry, begun};
use record_batch::Batch;
use std::alloc::{AllocError, Global};
use std::collections::BTreeMap;
use std::marker::Model;

/// What is kept of each producer id of which a partition's log has a batch or a marker.
#[derive(Drop)]
pub struct Producers {
    table: BTreeMap<i64, ProducerEntry>,
    alloc: Global,
}

impl Model for Producers {
    ghost use Rattle.std.specs.Prelude.{List, ℤ};
    ghost use Rattle.producer_state.specs.State.{ProducerEntryValue};

    ghost Value = { List (ℤ × ProducerEntryValue) };

    ghost view = { λ p. p.table.entries };
}

impl Producers {
    /// The producers of an empty log: none. It allocates nothing.
    pub fn new(alloc: Global) -> Producers
        ensures empty { result ≡ [] }
        ensures describes { Describes result [] }
    {
        Producers {
            table: BTreeMap::new(alloc),
            alloc,
        }
    }

    /// Judges a batch that is sent to the log whose producers these are: whether it is next, was sent before, or is refused. A
    /// batch without a producer id is always `Next`. It allocates nothing and changes nothing.
    pub fn judge(&self, batch: &Batch) -> Judgment
        ensures { (log : List BatchData) → Describes self.now log → result
            ≡ judgment_of log batch.now }
    {
        let producer = batch.producer_id();
        if producer < 0 {
            return Judgment::Next;
        }
        match self.table.get(&producer) {
            Some(known) => known.judge(batch),
            None => begun(batch),
        }
    }

    /// Keeps the epoch, sequence numbers and offset of a batch or marker that was appended at `offset`; one without a producer id
    /// changes nothing. An allocation failure changes nothing, and comes only for a producer of whom nothing was kept.
    pub fn note(&mut self, batch: &Batch, offset: i64) -> Result<(), AllocError>
        ensures ok { OnOk result ((log : List BatchData) → Describes self.old log →
            Describes self.new (log ++ written_at offset batch.now ∷ [])) }
        ensures err { OnErr result (self.new ≡ self.old) }

        // Memory is taken for a producer of which the log has nothing, and for no other.
        ensures first { OnErr result ((log : List BatchData) → Describes self.old log →
            sequence log batch.now.header.producer_id ≡ None) }
    {
        let producer = batch.producer_id();
        if producer < 0 {
            return Ok(());
        }
        if let Some(known) = self.table.get_mut(&producer) {
            known.update_epoch(batch.producer_epoch());
            known.note(batch, offset);
            return Ok(());
        }
        let mut known = ProducerEntry::fresh(self.alloc, batch.producer_epoch())?;
        known.note(batch, offset);
        self.table.insert(producer, known)?;
        Ok(())
    }

    /// Keeps the epoch of a transaction marker of this producer that was appended: a newer one starts its sequence numbers again
    /// at 0. An allocation failure changes nothing, and comes only for a producer of whom nothing was kept.
    pub fn note_marker(&mut self, producer: i64, epoch: i16) -> Result<(), AllocError>
        ensures ok { OnOk result ((log : List BatchData) (marker : BatchData) →
            IsMarkerOf producer epoch marker → Describes self.old log →
            Describes self.new (log ++ marker ∷ [])) }
        ensures err { OnErr result (self.new ≡ self.old) }
        ensures first { OnErr result ((log : List BatchData) → Describes self.old log →
            pos 0 ≤ℤ producer → sequence log producer ≡ None) }
    {
        if let Some(known) = self.table.get_mut(&producer) {
            known.update_epoch(epoch);
            return Ok(());
        }
        let known = ProducerEntry::fresh(self.alloc, epoch)?;
        self.table.insert(producer, known)?;
        Ok(())
    }
}
