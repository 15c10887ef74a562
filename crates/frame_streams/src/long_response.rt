//! A long response: what stands before the topics of its answer, and these. It is written part after part, so that its bytes are
//! never all in memory: a Metadata of 15 KB asks for 130 MB, and what a Fetch answers stands in the log.

ghost use Rattle.std.specs.Prelude.{◌≡◌, IfOk, IfSome};
ghost use Rattle.wire_types.specs.Writing.{Puts};
ghost use Rattle.byte_streams.specs.Device.{Wrote};
ghost use Rattle.msg_admin.specs.declared.reply.Reply.TheVariants as replies;
ghost use Rattle.frame_streams.specs.Responses.{IsFront, IsSize, metadata_front, metadata_front_of, fetch_front, fetch_front_of, topics_of};
ghost use Rattle.frame_streams.specs.Streaming.{Streams};

use crate::streamed::{GATHERED, SendFault, spill, stream_all};
use msg_admin::Reply;
use msg_data::{FetchReply, MetadataReply};
use std::alloc::{AllocError, Global};
use std::io::Write;
use wire_types::{Bytes, Wire, WriteFault, size, write_count, write_i32};

/// A Metadata or Fetch response above so many bytes, without its size field, is written part after part.
const LONGEST_WHOLE: i32 = 65_536;

/// Writes the topics of a reply: gathered bytes once they are 65,536 or more, before a run of 32,768 bytes or more, and at the
/// end; such a run by itself. After an error some of it may be written, from the front.
pub fn send_topics<W: Write>(alloc: Global, writer: &mut W, reply: &Reply) -> Result<(), SendFault>
    ensures { Wrote (W.contents writer.old) (W.contents writer.new) (topics_of reply.now) result }
{
    let mut gathered = Vec::with_capacity(alloc, GATHERED)?;
    stream_topics(&mut gathered, writer, reply)?;
    spill(&mut gathered, writer)
}

/// Gathers the topics of a Metadata or Fetch reply one after the other, after what is gathered already, and writes them whenever
/// enough are gathered. What is left then stays in `gathered`, for the caller to write with `spill`. Another reply has no topics.
fn stream_topics<W: Write>(
    gathered: &mut Vec<u8>,
    writer: &mut W,
    reply: &Reply,
) -> Result<(), SendFault>
    ensures { Streams (W.contents writer.old) (W.contents writer.new) gathered.old.items
        (topics_of reply.now) gathered.new.items result }
{
    match reply {
        Reply::Metadata(answer) => stream_all(gathered, writer, answer.value().topics.as_slice()),
        Reply::Fetch(answer) => stream_all(gathered, writer, answer.value().topics.as_slice()),
        _ => Ok(()),
    }
}

/// What a Metadata or Fetch response of more than 65,536 bytes begins with, its size field first, up to its topics; `None` for any
/// other, which is written as a whole. The error is an allocation failure.
pub fn long_front(
    alloc: Global,
    correlation: i32,
    reply: &Reply,
) -> Result<Option<Bytes>, AllocError>
    ensures { IfOk result (λ front. IfSome front (IsFront correlation reply.now)) }
{
    match reply {
        Reply::Metadata(answer) => metadata_front(alloc, correlation, answer.value()),
        Reply::Fetch(answer) => fetch_front(alloc, correlation, answer.value()),
        _ => Ok(None),
    }
}

/// What the size field of a long response says: the bytes of the reply and of its correlation id. `None` where these are up to
/// 65,536, or too many for the field.
fn long_size<B: Wire>(answer: &B) -> Option<i32>
    ensures { IfSome result (IsSize B.grammar answer.now) }
{
    let size = i32::try_from(size(answer)?.checked_add(4)?).ok()?;
    if size > LONGEST_WHOLE {
        Some(size)
    } else {
        None
    }
}

/// What a long Metadata response begins with, its size field first, up to its topics; `None` where it isn't long.
fn metadata_front(
    alloc: Global,
    correlation: i32,
    answer: &MetadataReply,
) -> Result<Option<Bytes>, AllocError>
    ensures { IfOk result
        (λ front. IfSome front (IsFront correlation (replies.Metadata answer.now))) }
{
    let Some(size) = long_size(answer) else {
        return Ok(None);
    };
    let mut out = Vec::new(alloc);
    match put_metadata_front(&mut out, size, correlation, answer) {
        Ok(()) => Ok(Some(Bytes::from_vec(out)?)),
        Err(_) => Err(AllocError),
    }
}

/// Appends what a Metadata response begins with: its size, its correlation id, the brokers, the controller, and how many topics
/// follow.
fn put_metadata_front(
    out: &mut Vec<u8>,
    size: i32,
    correlation: i32,
    answer: &MetadataReply,
) -> Result<(), WriteFault>
    ensures { Puts metadata_front (metadata_front_of size correlation answer.now) out.old.items
        result out.new.items }
{
    write_i32(out, size)?;
    write_i32(out, correlation)?;
    answer.brokers.put(out)?;
    write_i32(out, answer.controller)?;
    write_count(out, answer.topics.len())
}

/// As `metadata_front`, but of a Fetch response.
fn fetch_front(
    alloc: Global,
    correlation: i32,
    answer: &FetchReply,
) -> Result<Option<Bytes>, AllocError>
    ensures { IfOk result (λ front. IfSome front (IsFront correlation (replies.Fetch answer.now))) }
{
    let Some(size) = long_size(answer) else {
        return Ok(None);
    };
    let mut out = Vec::new(alloc);
    match put_fetch_front(&mut out, size, correlation, answer) {
        Ok(()) => Ok(Some(Bytes::from_vec(out)?)),
        Err(_) => Err(AllocError),
    }
}

/// Appends what a Fetch response begins with: its size, its correlation id, its throttle time, and how many topics follow.
fn put_fetch_front(
    out: &mut Vec<u8>,
    size: i32,
    correlation: i32,
    answer: &FetchReply,
) -> Result<(), WriteFault>
    ensures { Puts fetch_front (fetch_front_of size correlation answer.now) out.old.items result
        out.new.items }
{
    write_i32(out, size)?;
    write_i32(out, correlation)?;
    write_i32(out, answer.throttle)?;
    write_count(out, answer.topics.len())
}
