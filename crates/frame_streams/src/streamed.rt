//! Values that are written part after part: their bytes are gathered, and go to a writer whenever 65,536 are gathered, or before
//! a run of 32,768 bytes or more, which is written from where it stands.

ghost use Rattle.std.specs.Prelude.{◌≡◌, List, ℕ, [], length, OnOk};
ghost use Rattle.wire_types.specs.Spelling.{many_written};
ghost use Rattle.wire_types.specs.Writing.{Puts};
ghost use Rattle.frame_streams.specs.Streaming.{Streams, records_head, records_head_of, topic_head};

use byte_streams::write_whole;
use msg_data::{FetchedRecords, TopicInfo};
use std::alloc::AllocError;
use std::io;
use std::io::Write;
use thiserror::Error;
use wire_types::{
    Piece, Topic, Wire, WriteFault, write_count, write_i32, write_i64, write_nullable_array,
    write_string,
};

/// So many bytes are written once they are gathered.
pub(crate) const GATHERED: usize = 65_536;

/// So many bytes in a row aren't gathered: they are written from where they stand.
const UNCOPIED: usize = 32_768;

/// Why not all was written.
#[derive(Clone, Copy, Debug, PartialEq, Eq, Error)]
pub enum SendFault {
    /// An allocation failed.
    #[error("there is not enough memory")]
    NoMemory,
    /// A write failed.
    #[error("a write failed")]
    Write,
}

impl From<AllocError> for SendFault {
    ghost use Rattle.frame_streams.specs.declared.streamed.SendFault.TheVariants as faults;

    ghost from_gives = { λ _ fault. fault ≡ faults.NoMemory };

    /// An allocation failure is the fault `NoMemory`.
    fn from(_: AllocError) -> SendFault {
        SendFault::NoMemory
    }
}

/// Only values whose size is known to fit are streamed, so the fault is never that a length is too long for its field.
impl From<WriteFault> for SendFault {
    ghost use Rattle.frame_streams.specs.declared.streamed.SendFault.TheVariants as faults;

    ghost from_gives = { λ _ fault. fault ≡ faults.NoMemory };

    fn from(_: WriteFault) -> SendFault {
        SendFault::NoMemory
    }
}

impl From<io::Error> for SendFault {
    ghost use Rattle.frame_streams.specs.declared.streamed.SendFault.TheVariants as faults;

    ghost from_gives = { λ _ fault. fault ≡ faults.Write };

    /// A failed write is the fault `Write`.
    fn from(_: io::Error) -> SendFault {
        SendFault::Write
    }
}

/// Writes what was gathered, and then empties it. After an error some of it may be written, from the front, and it stays
/// gathered.
pub(crate) fn spill<W: Write>(gathered: &mut Vec<u8>, writer: &mut W) -> Result<(), SendFault>
    ensures streams { Streams (W.contents writer.old) (W.contents writer.new) gathered.old.items []
        gathered.new.items result }
    ensures empty { OnOk result (gathered.new.items ≡ []) }
{
    write_whole(writer, gathered.as_slice())?;
    gathered.clear();
    Ok(())
}

/// As `spill`, but only where 65,536 bytes or more are gathered.
fn spill_enough<W: Write>(gathered: &mut Vec<u8>, writer: &mut W) -> Result<(), SendFault>
    ensures { Streams (W.contents writer.old) (W.contents writer.new) gathered.old.items []
        gathered.new.items result }
{
    if gathered.len() < GATHERED {
        return Ok(());
    }
    spill(gathered, writer)
}

/// Gathers bytes after those gathered before. Where there are 32,768 or more, what was gathered is written, and then the bytes,
/// from where they stand.
fn stream_bytes<W: Write>(
    gathered: &mut Vec<u8>,
    writer: &mut W,
    bytes: &[u8],
) -> Result<(), SendFault>
    ensures { Streams (W.contents writer.old) (W.contents writer.new) gathered.old.items bytes.now
        gathered.new.items result }
{
    if bytes.len() >= UNCOPIED {
        spill(gathered, writer)?;
        write_whole(writer, bytes)?;
        return Ok(());
    }
    gathered.extend_from_slice(bytes)?;
    spill_enough(gathered, writer)
}

/// A value of which only a part is gathered at once.
pub(crate) trait Streamed {
    /// The bytes that spell it.
    ghost text: { Self → List ℕ };

    /// Gathers the bytes of its wire form, and writes them whenever enough are gathered.
    fn stream<W: Write>(&self, gathered: &mut Vec<u8>, writer: &mut W) -> Result<(), SendFault>
        ensures { Streams (W.contents writer.old) (W.contents writer.new) gathered.old.items (text self.now) gathered.new.items result };
}

/// Streams these values one after the other, without a count before them.
pub(crate) fn stream_all<T: Streamed, W: Write>(
    gathered: &mut Vec<u8>,
    writer: &mut W,
    values: &[T],
) -> Result<(), SendFault>
    ensures { Streams (W.contents writer.old) (W.contents writer.new) gathered.old.items
        (many_written T.text values.now) gathered.new.items result }
{
    for value in values {
        value.stream(gathered, writer)?;
    }
    Ok(())
}

impl Streamed for TopicInfo {
    ghost use Rattle.msg_data.specs.Metadata.{topic};

    ghost text = { topic.written };

    /// Streams a topic of a Metadata response, all of which is gathered at once.
    fn stream<W: Write>(&self, gathered: &mut Vec<u8>, writer: &mut W) -> Result<(), SendFault> {
        self.put(gathered)?;
        spill_enough(gathered, writer)
    }
}

impl Streamed for Piece {
    ghost text = { λ piece. piece };

    /// Streams a piece of a log: its own bytes, and those that it shares with the log.
    fn stream<W: Write>(&self, gathered: &mut Vec<u8>, writer: &mut W) -> Result<(), SendFault> {
        let (own, shared) = self.runs();
        stream_bytes(gathered, writer, own)?;
        stream_bytes(gathered, writer, shared)
    }
}

/// Appends what stands before the records of a partition in a Fetch response: its index, its error, its high watermark and last
/// stable offset, its aborted transactions and the records' length.
fn put_records_head(out: &mut Vec<u8>, records: &FetchedRecords) -> Result<(), WriteFault>
    ensures { Puts records_head (records_head_of records.now) out.old.items result out.new.items }
{
    write_i32(out, records.index)?;
    records.error.write(out)?;
    write_i64(out, records.high_watermark)?;
    write_i64(out, records.last_stable_offset)?;
    write_nullable_array(out, &records.aborted)?;
    write_count(out, records.records.len())
}

impl Streamed for FetchedRecords {
    ghost use Rattle.msg_data.specs.Fetch.{fetched_records};

    ghost text = { fetched_records.written };

    /// Streams a partition of a Fetch response, and its record batches.
    fn stream<W: Write>(&self, gathered: &mut Vec<u8>, writer: &mut W) -> Result<(), SendFault> {
        put_records_head(gathered, self)?;
        stream_all(gathered, writer, self.records.as_slice())
    }
}

/// Appends what stands before the partitions of a topic in a Fetch response: its name, and the number of its partitions.
fn put_topic_head(out: &mut Vec<u8>, topic: &Topic<FetchedRecords>) -> Result<(), WriteFault>
    ensures { Puts topic_head (topic.now.name, length topic.now.partitions) out.old.items result
        out.new.items }
{
    write_string(out, &topic.name)?;
    write_count(out, topic.partitions.len())
}

impl Streamed for Topic<FetchedRecords> {
    ghost use Rattle.wire_types.specs.Topic.{topic_of};
    ghost use Rattle.msg_data.specs.Fetch.{fetched_records};

    ghost text = { (topic_of fetched_records).written };

    /// Streams a topic of a Fetch response, one partition after the other.
    fn stream<W: Write>(&self, gathered: &mut Vec<u8>, writer: &mut W) -> Result<(), SendFault> {
        put_topic_head(gathered, self)?;
        stream_all(gathered, writer, self.partitions.as_slice())
    }
}
