//! Topics in the messages of flexible versions (KIP-482): in compact forms, with tagged fields after each.

ghost use Rattle.std.specs.Prelude.{◌≡◌, ◌++◌, OnErr};
ghost use Rattle.std.specs.Io.{StartsWith};
ghost use Rattle.wire_types.specs.Reading.{Reads, many_at};
ghost use Rattle.wire_types.specs.Writing.{Writes, Puts};
ghost use Rattle.wire_types.specs.Spelling.{many_fit, many_written, many_left};
ghost use Rattle.wire_types.specs.Combinators.{items};
ghost use Rattle.wire_types.specs.Schema.{compact_array, compact_nullable_array};
ghost use Rattle.wire_types.specs.Topic.{flexible_topic_of};

use crate::arrays::{deduct_compact_array, read_compact_array, write_compact_array};
use crate::budget::deduct;
use crate::counts::{deduct_compact_count, write_compact_count, write_compact_null};
use crate::cursor::Cursor;
use crate::fault::{Malformed, ReadFault, WriteFault};
use crate::items::Items;
use crate::tags::write_no_tags;
use crate::texts::{deduct_compact_string, write_compact_string};
use crate::topic::Topic;
use crate::wire::Wire;
use std::alloc::Global;

/// Reads a topic of a flexible version: its name as a COMPACT_STRING, its partitions as a COMPACT_ARRAY, and tagged fields, which
/// are skipped.
#[tactic(auto, unfolding(crate::specs::Topic::flexible_topic_of))]
fn read_topic<P: Wire>(alloc: Global, cursor: &mut Cursor<'_>) -> Result<Topic<P>, ReadFault>
    ensures { Reads ((flexible_topic_of P.grammar).reading cursor.old) result cursor.new }
{
    let name = cursor.read_compact_string(alloc)?;
    let partitions = read_compact_array(alloc, cursor)?;
    cursor.skip_tags()?;
    Ok(Topic { name, partitions })
}

/// Appends a topic as `read_topic` reads it, with no tagged fields. An error may leave a part of it in `out`.
#[tactic(auto, unfolding(crate::specs::Topic::flexible_topic_of), using(std::proofs::Transfers::starts_with_trans))]
fn put_topic<P: Wire>(out: &mut Vec<u8>, topic: &Topic<P>) -> Result<(), WriteFault>
    ensures spelled { Puts (flexible_topic_of P.grammar) topic.now out.old.items result
        out.new.items }
    ensures grown { StartsWith out.new.items out.old.items }
{
    write_compact_string(out, &topic.name)?;
    write_compact_array(out, &topic.partitions)?;
    write_no_tags(out)?;
    Ok(())
}

/// As `put_topic`, but an error leaves `out` as it was.
fn write_topic<P: Wire>(out: &mut Vec<u8>, topic: &Topic<P>) -> Result<(), WriteFault>
    ensures spelled { Puts (flexible_topic_of P.grammar) topic.now out.old.items result
        out.new.items }
    ensures err { OnErr result (out.new.items ≡ out.old.items) }
    ensures grown { StartsWith out.new.items out.old.items }
{
    let start = out.len();
    let written = put_topic(out, topic);
    if written.is_err() {
        out.truncate(start);
    }
    written
}

/// How many of `budget` bytes are left after a topic in a flexible version's form. None where it needs more, or where a length or
/// a count is too large for its field.
#[tactic(auto, unfolding(crate::specs::Topic::flexible_topic_of))]
fn deduct_topic<P: Wire>(topic: &Topic<P>, budget: usize) -> Option<usize>
    ensures { result ≡ (flexible_topic_of P.grammar).left topic.now budget }
{
    let budget = deduct_compact_string(&topic.name, budget)?;
    let budget = deduct_compact_array(&topic.partitions, budget)?;
    deduct(1, budget)
}

/// Reads `count` topics one after the other. The count isn't compared with the bytes left: the first topic that is missing is
/// `Malformed::Short`.
fn read_topics<P: Wire>(
    alloc: Global,
    cursor: &mut Cursor<'_>,
    count: u32,
) -> Result<Items<Topic<P>>, ReadFault>
    ensures { Reads (many_at (flexible_topic_of P.grammar).reading count cursor.old) result
        cursor.new }
{
    let mut topics = Items::new(alloc);
    for _ in 0..count {
        topics.push(read_topic(alloc, cursor)?)?;
    }
    Ok(topics)
}

/// As `read_topics`, but a count above the number of bytes left is `Malformed::Short` before any topic is read.
#[tactic(auto, unfolding(crate::specs::Reading::items_at))]
fn read_counted<P: Wire>(
    alloc: Global,
    cursor: &mut Cursor<'_>,
    count: u32,
) -> Result<Items<Topic<P>>, ReadFault>
    ensures { Reads ((items (flexible_topic_of P.grammar)).reading count cursor.old) result
        cursor.new }
{
    if cursor.len() < count as usize {
        return Err(ReadFault::Malformed(Malformed::Short));
    }
    read_topics(alloc, cursor, count)
}

/// Appends the topics one after the other, without their count. An error leaves `out` as it was.
#[tactic(auto, unfolding(crate::specs::Spelling::many_fit, crate::specs::Spelling::many_written))]
fn write_topics<P: Wire>(out: &mut Vec<u8>, topics: &[Topic<P>]) -> Result<(), WriteFault>
    ensures spelled { Writes (many_fit (flexible_topic_of P.grammar).fits topics.now)
        (out.old.items ++ many_written (flexible_topic_of P.grammar).written topics.now) result
        out.new.items }
    ensures err { OnErr result (out.new.items ≡ out.old.items) }
    ensures grown { StartsWith out.new.items out.old.items }
{
    let start = out.len();
    for topic in topics {
        match write_topic(out, topic) {
            Ok(()) => {}
            Err(fault) => {
                out.truncate(start);
                return Err(fault);
            }
        }
    }
    Ok(())
}

/// How many of `budget` bytes are left after these topics, one after the other and without their count. None where they need
/// more, or where a length or a count is too large for its field.
fn deduct_topics<P: Wire>(topics: &[Topic<P>], budget: usize) -> Option<usize>
    ensures { result ≡ many_left (flexible_topic_of P.grammar).left topics.now budget }
{
    let mut left = budget;
    for topic in topics {
        left = deduct_topic(topic, left)?;
    }
    Some(left)
}

/// Reads the topics of a flexible version, as a COMPACT_ARRAY. `Malformed::Range` where its first number is 0 (null),
/// `Malformed::Short` for a count above the number of bytes left.
#[tactic(auto, using(crate::proofs::Announced::many_after, crate::proofs::Announced::many_refused))]
pub fn read_flexible_topics<P: Wire>(
    alloc: Global,
    cursor: &mut Cursor<'_>,
) -> Result<Items<Topic<P>>, ReadFault>
    ensures { Reads ((compact_array (flexible_topic_of P.grammar)).reading cursor.old) result
        cursor.new }
{
    match cursor.read_compact_count() {
        Ok(count) => read_topics(alloc, cursor, count),
        Err(malformed) => Err(ReadFault::from(malformed)),
    }
}

/// Appends the topics in a flexible version's form, as a COMPACT_ARRAY. `TooLong` where a count or a length is too large for its
/// field. An error leaves `out` as it was.
#[tactic(auto, unfolding(crate::specs::Spelling::after_count_fits))]
pub fn write_flexible_topics<P: Wire>(
    out: &mut Vec<u8>,
    topics: &Items<Topic<P>>,
) -> Result<(), WriteFault>
    ensures spelled { Puts (compact_array (flexible_topic_of P.grammar)) topics.now out.old.items
        result out.new.items }
    ensures err { OnErr result (out.new.items ≡ out.old.items) }
    ensures grown { StartsWith out.new.items out.old.items }
{
    let start = out.len();
    write_compact_count(out, topics.len())?;
    let rest = write_topics(out, topics.as_slice());
    if rest.is_err() {
        out.truncate(start);
    }
    rest
}

/// How many of `budget` bytes are left after the topics as `write_flexible_topics` writes them. None where they need more, or
/// where a length or a count is too large for its field.
pub fn deduct_flexible_topics<P: Wire>(topics: &Items<Topic<P>>, budget: usize) -> Option<usize>
    ensures { result ≡ (compact_array (flexible_topic_of P.grammar)).left topics.now budget }
{
    let budget = deduct_compact_count(topics.len(), budget)?;
    deduct_topics(topics.as_slice(), budget)
}

/// As `read_flexible_topics`, but None where the first number is 0.
#[tactic(auto, unfolding(crate::specs::Reading::after_null_count_at, crate::specs::Reading::null_or))]
pub fn read_nullable_flexible_topics<P: Wire>(
    alloc: Global,
    cursor: &mut Cursor<'_>,
) -> Result<Option<Items<Topic<P>>>, ReadFault>
    ensures { Reads ((compact_nullable_array (flexible_topic_of P.grammar)).reading cursor.old)
        result cursor.new }
{
    match cursor.read_compact_null_count()? {
        None => Ok(None),
        Some(count) => Ok(Some(read_counted(alloc, cursor, count)?)),
    }
}

/// As `write_flexible_topics`, but None is written as the number 0.
#[tactic(auto, unfolding(crate::specs::Spelling::after_count_fits, crate::specs::Spelling::after_null_count_fits, crate::specs::Spelling::after_null_count_put, crate::specs::Spelling::null_count_fits, crate::specs::Spelling::compact_null_count_fits))]
pub fn write_nullable_flexible_topics<P: Wire>(
    out: &mut Vec<u8>,
    topics: &Option<Items<Topic<P>>>,
) -> Result<(), WriteFault>
    ensures spelled { Puts (compact_nullable_array (flexible_topic_of P.grammar)) topics.now
        out.old.items result out.new.items }
    ensures err { OnErr result (out.new.items ≡ out.old.items) }
    ensures grown { StartsWith out.new.items out.old.items }
{
    match topics {
        None => write_compact_null(out)?,
        Some(topics) => write_flexible_topics(out, topics)?,
    }
    Ok(())
}

/// As `deduct_flexible_topics`, but a null takes one byte.
#[tactic(auto, unfolding(crate::specs::Spelling::after_null_count_left, crate::specs::Spelling::null_count_fits, crate::specs::Spelling::compact_null_count_fits, crate::specs::Spelling::compact_null_count_written, crate::specs::Spelling::varint_written))]
pub fn deduct_nullable_flexible_topics<P: Wire>(
    topics: &Option<Items<Topic<P>>>,
    budget: usize,
) -> Option<usize>
    ensures { result ≡ (compact_nullable_array (flexible_topic_of P.grammar)).left topics.now budget }
{
    match topics {
        None => deduct(1, budget),
        Some(topics) => deduct_flexible_topics(topics, budget),
    }
}
