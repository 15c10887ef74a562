//! The rows of a group's partitions.

ghost use Rattle.std.specs.Prelude.{◌≡◌, ◌<◌, ℕ, [], Some, IfOk, OnOk, OnErr};
ghost use Rattle.std.specs.List.{All};
ghost use Rattle.std.specs.Option.{option_copied};
ghost use Rattle.indexmap.specs.IndexMap.{keys, values, index_map_len};
ghost use Rattle.group_offsets.specs.declared.event.OffsetEvent.TheVariants as events;
ghost use Rattle.group_offsets.specs.Kept.{place_in, row_in, committed_in, some_waits, AreDecided, IsTable, StillDescribes, DescribesNext, IsKept};

use crate::event::{OffsetEvent, PartitionOffset};
use crate::partition::{Partition, Wanted};
use crate::row::Row;
use crate::staged::{Staged, enter};
use indexmap::IndexMap;
use record_batch::TransactionResult;
use std::alloc::{AllocError, Global};
use std::collections::HashMap;
use wire_types::Text;

/// What the events come to for each partition of which an offset was committed or staged: a row for each, and the rows in which
/// each producer has staged offsets. Events are named by their places in the group's list of events.
#[derive(Drop)]
pub struct Table {
    /// The rows by their partitions, in the order of the partitions' first events.
    pub rows: IndexMap<Partition, Row>,
    /// By producer id, the places of the rows in which it has an undecided offset.
    pub staged: Staged,
    pub alloc: Global,
}

impl Table {
    /// A table without rows. It allocates nothing.
    pub(crate) fn new(alloc: Global) -> Table
        ensures { IsKept result [] }
    {
        Table {
            rows: IndexMap::new(alloc),
            staged: HashMap::new(alloc),
            alloc,
        }
    }

    /// The place of a partition's row, `None` if it has none.
    fn place_of(&self, topic: &Text, index: i32) -> Option<usize>
        ensures { result ≡ place_in self.now.rows.entries topic.now index }
    {
        self.rows.get_index_of(Wanted {
            topic: topic.as_str(),
            index,
        })
    }

    /// The row of a partition, `None` if it has none.
    fn row(&self, topic: &Text, index: i32) -> Option<&Row>
        ensures { option_copied result ≡ row_in (place_in self.now.rows.entries)
            (values self.now.rows) topic.now index }
    {
        self.rows.get(Wanted {
            topic: topic.as_str(),
            index,
        })
    }

    /// The place of the event with the partition's committed offset, `None` if there is none.
    pub(crate) fn committed(&self, topic: &Text, index: i32) -> Option<usize>
        ensures { result ≡ committed_in (place_in self.now.rows.entries) (values self.now.rows)
            topic.now index }
    {
        self.row(topic, index)?.committed
    }

    /// Whether any producer has staged an offset of the partition that is still undecided.
    pub(crate) fn is_staged(&self, topic: &Text, index: i32) -> bool
        ensures { result
            ≡ some_waits (row_in (place_in self.now.rows.entries) (values self.now.rows) topic.now
            index) }
    {
        match self.row(topic, index) {
            Some(row) => row.is_staged(),
            None => false,
        }
    }

    /// Notes the next event, which stands at `place` in the group's list. An allocation failure changes no partition's offsets.
    pub(crate) fn note(&mut self, event: &OffsetEvent, place: usize) -> Result<(), AllocError>
        requires { IsTable self.old }
        ensures table { IsTable self.new }
        ensures ok { OnOk result (DescribesNext self.old self.new place event.now) }
        ensures err { OnErr result (StillDescribes self.old self.new) }
    {
        match event {
            OffsetEvent::Put(offset) => self.commit(offset, place),
            OffsetEvent::Stage { producer, offset } => self.stage(*producer, offset, place),
            OffsetEvent::Decide { producer, outcome } => {
                self.decide(*producer, *outcome);
                Ok(())
            }
        }
    }

    /// Notes that the event at this place commits the offset. An allocation failure changes no partition's offsets.
    fn commit(&mut self, offset: &PartitionOffset, place: usize) -> Result<(), AllocError>
        requires { IsTable self.old }
        ensures table { IsTable self.new }
        ensures ok { OnOk result (DescribesNext self.old self.new place (events.Put offset.now)) }
        ensures err { OnErr result (StillDescribes self.old self.new) }
    {
        let at = self.row_for(offset)?;
        self.rows[at].commit(place);
        Ok(())
    }

    /// Notes that the event at this place stages the offset for a producer. An allocation failure changes no partition's offsets.
    fn stage(
        &mut self,
        producer: i64,
        offset: &PartitionOffset,
        place: usize,
    ) -> Result<(), AllocError>
        requires { IsTable self.old }
        ensures table { IsTable self.new }
        ensures ok { OnOk result
            (DescribesNext self.old self.new place (events.Stage producer offset.now)) }
        ensures err { OnErr result (StillDescribes self.old self.new) }
    {
        let at = self.row_for(offset)?;
        self.rows[at].reserve()?;
        // This is the first change, and the last call that may fail.
        enter(&mut self.staged, self.alloc, producer, &self.rows[at], at)?;
        self.rows[at].stage(producer, place);
        Ok(())
    }

    /// Commits or drops all that the producer has staged in the group. It allocates nothing.
    fn decide(&mut self, producer: i64, outcome: TransactionResult)
        requires { IsTable self.old }
        ensures table { IsTable self.new }
        ensures described { (place : ℕ) → DescribesNext self.old self.new place
            (events.Decide producer outcome) }
    {
        if let Some(places) = self.staged.remove(&producer) {
            decide_rows(&mut self.rows, places.as_slice(), producer, outcome);
        }
    }

    /// Returns the place of the row of the offset's partition; a partition that has none gets an empty one. An allocation
    /// failure adds none.
    fn row_for(&mut self, offset: &PartitionOffset) -> Result<usize, AllocError>
        requires { IsTable self.old }
        ensures table { IsTable self.new }
        ensures same { StillDescribes self.old self.new }
        ensures place { IfOk result
            (λ at. place_in self.new.rows.entries offset.now.topic offset.now.index ≡ Some at) }
        ensures within { IfOk result (λ at. at < index_map_len self.new.rows) }
    {
        if let Some(at) = self.place_of(&offset.topic, offset.index) {
            return Ok(at);
        }
        let partition = Partition::of(self.alloc, offset)?;
        let (at, _) = self.rows.insert_full(partition, Row::new(self.alloc))?;
        Ok(at)
    }
}

/// Commits or drops what the producer staged in the rows at these places.
fn decide_rows(
    rows: &mut IndexMap<Partition, Row>,
    places: &[usize],
    producer: i64,
    outcome: TransactionResult,
)
    requires { All (λ n. n < index_map_len rows.old) places.now }
    ensures decided { AreDecided places.now producer outcome (values rows.old) (values rows.new) }
    ensures same { keys rows.new ≡ keys rows.old }
{
    for at in places {
        rows[*at].decide(producer, outcome);
    }
}
