//! The rows, by producer id, in which a producer has undecided offsets.

ghost use Rattle.std.specs.Prelude.{◌≡◌, ℤ, is_some, OnOk, OnErr};
ghost use Rattle.group_offsets.specs.Kept.{waits, rows_of, has_row, AreOnce, HasMore, HasSame, HasLast};

use crate::row::Row;
use std::alloc::{AllocError, Global};
use std::collections::HashMap;

/// By producer id, the places of the rows in which it has a staged offset that is undecided.
pub(crate) type Staged = HashMap<i64, Vec<usize>>;

/// Lists the row at the place `at` of the table under the producer, unless the producer already has an undecided offset in it.
/// `row` is that row. An allocation failure lists nothing.
pub(crate) fn enter(
    staged: &mut Staged,
    alloc: Global,
    producer: i64,
    row: &Row,
    at: usize,
) -> Result<(), AllocError>
    requires exact { has_row staged.old.entries producer at ≡ is_some (waits row.now producer) }
    requires once { AreOnce staged.old.entries }
    ensures ok { OnOk result (HasMore staged.old.entries staged.new.entries producer at) }
    ensures err { OnErr result (HasSame staged.old.entries staged.new.entries) }
    ensures once { AreOnce staged.new.entries }
{
    if row.waits(producer) {
        return Ok(());
    }
    add(staged, alloc, producer, at)
}

/// Lists the row at the place `at` of the table under the producer, after its others. An allocation failure lists nothing.
fn add(staged: &mut Staged, alloc: Global, producer: i64, at: usize) -> Result<(), AllocError>
    ensures ok { OnOk result (HasLast staged.old.entries staged.new.entries producer at) }
    ensures err { OnErr result
        ((p : ℤ) → rows_of staged.new.entries p ≡ rows_of staged.old.entries p) }
{
    if let Some(places) = staged.get_mut(&producer) {
        places.push(at)?;
        return Ok(());
    }
    let mut places = Vec::new(alloc);
    places.push(at)?;
    staged.insert(producer, places)?;
    Ok(())
}
