//! Frames from a reader.

ghost use Rattle.std.specs.Prelude.{◌≡◌, ◌+◌, ◌-◌, ◌≤◌, ◌<◌, length, max, take, IfOk, IfErr, OnOk, OnErr};
ghost use Rattle.std.specs.Io.KnownBytes.{Consumes, Keeps, IsAtEnd};
ghost use Rattle.frame_streams.specs.declared.fault.FrameFault.TheVariants.{ReadFault, NoMemory};
ghost use Rattle.frame_streams.specs.Frames.{Lacks, Arrives};
ghost use Rattle.frame_streams.specs.Readers.{frames_left, longest_kept};
ghost use Rattle.frame_streams.specs.Reads.{HeadLacks, BodyLacks, Took, StopsShort, ReadsOn, Passes, ReadsPast};

use crate::fault::FrameFault;
use std::alloc::{AllocError, Global};
use std::io::{ErrorKind, Read};
use wire_types::{Block, Bytes};

/// How often in a row an interrupted read is made again.
const RETRIES: u32 = 1_000;

/// The size field's bytes.
const SIZE_FIELD: usize = 4;

/// The bytes of the shortest frame: api key, version, and correlation id.
const LEAST: u32 = 8;

/// For how many bytes of a frame that isn't short memory is taken at least, as far as it has so many, before any of them came.
const PIECE: usize = 8_192;

/// Reads once, and up to 1,000 times again where that was interrupted. Gives how many bytes came, 0 at the end of the input; the
/// error is `ReadFault`.
fn read_some<R: Read>(reader: &mut R, piece: &mut [u8]) -> Result<usize, FrameFault>
    ensures few { IfOk result (λ n. n ≤ length piece.new) }
    ensures ok { IfOk result
        (λ n. Consumes (R.remaining reader.old) (R.remaining reader.new) (take n piece.new)
        × (n ≡ 0 → 0 < length piece.new → IsAtEnd (R.remaining reader.new))) }
    ensures err { OnErr result (Keeps (R.remaining reader.old) (R.remaining reader.new)) }
    ensures fault { IfErr result (λ why. why ≡ ReadFault) }
{
    for _ in 0..RETRIES + 1 {
        match reader.read(piece) {
            Ok(count) => return Ok(count),
            Err(error) => {
                if error.kind() != ErrorKind::Interrupted {
                    return Err(FrameFault::ReadFault);
                }
            }
        }
    }
    Err(FrameFault::ReadFault)
}

/// Reads until the piece is full or the input ends, and gives how many bytes came. The error is `ReadFault`; how many bytes came
/// before that isn't told.
fn fill<R: Read>(reader: &mut R, piece: &mut [u8]) -> Result<usize, FrameFault>
    ensures few { IfOk result (λ n. n ≤ length piece.new) }
    ensures ok { IfOk result
        (λ n. Consumes (R.remaining reader.old) (R.remaining reader.new) (take n piece.new)
        × (n < length piece.new → IsAtEnd (R.remaining reader.new))) }
    ensures fault { IfErr result (λ why. why ≡ ReadFault) }
    ensures err { OnErr result
        (StopsShort (R.remaining reader.old) (R.remaining reader.new) (length piece.new)) }
{
    let mut filled = 0;
    while filled < piece.len() {
        let count = read_some(reader, &mut piece[filled..])?;
        if count == 0 {
            break;
        }
        filled += count;
    }
    Ok(filled)
}

/// Reads a frame's size field. The error is `Closed` where the input ends before it, `Cut` where it ends inside it, or
/// `ReadFault`.
#[tactic(auto, using(crate::proofs::Bytes::head_closed, crate::proofs::Bytes::head_cut, crate::proofs::Bytes::head_fault))]
fn read_head<R: Read>(reader: &mut R) -> Result<[u8; SIZE_FIELD], FrameFault>
    ensures ok { IfOk result
        (λ head. (length head ≡ 4) × Consumes (R.remaining reader.old) (R.remaining reader.new)
        head) }
    ensures err { IfErr result
        (λ why. Took (R.remaining reader.old) (R.remaining reader.new) (HeadLacks why)) }
{
    let mut head = [0; SIZE_FIELD];
    let count = fill(reader, &mut head)?;
    if count == 0 {
        return Err(FrameFault::Closed);
    }
    if count < SIZE_FIELD {
        return Err(FrameFault::Cut);
    }
    Ok(head)
}

/// Reads until the piece is full. The error is `Cut` where the input ends before that, or `ReadFault`.
#[tactic(auto, using(crate::proofs::Bytes::body_cut, crate::proofs::Bytes::body_fault))]
fn read_piece<R: Read>(reader: &mut R, piece: &mut [u8]) -> Result<(), FrameFault>
    ensures ok { IfOk result
        (λ _. Consumes (R.remaining reader.old) (R.remaining reader.new) piece.new) }
    ensures err { IfErr result
        (λ why. Took (R.remaining reader.old) (R.remaining reader.new)
        (BodyLacks (length piece.new) why)) }
{
    let count = fill(reader, piece)?;
    if count < piece.len() {
        return Err(FrameFault::Cut);
    }
    Ok(())
}

/// Makes the body longer by exactly so many bytes, which are 0. The error is `NoMemory`, and leaves the bytes as they are.
#[tactic(auto, using(crate::proofs::Bytes::front_kept))]
fn reserve_more(body: &mut Vec<u8>, more: usize) -> Result<(), FrameFault>
    ensures len { OnOk result (length body.new.items ≡ length body.old.items + more) }
    ensures kept { OnOk result (take (length body.old.items) body.new.items ≡ body.old.items) }
    ensures err { OnErr result (body.new.items ≡ body.old.items) }
    ensures fault { IfErr result (λ why. why ≡ NoMemory) }
{
    if body.reserve_exact(more).is_err() {
        return Err(FrameFault::NoMemory);
    }
    let end = body.len() + more;
    match body.resize(end, 0) {
        Ok(()) => Ok(()),
        Err(_) => Err(FrameFault::NoMemory),
    }
}

/// Fills the body from its byte `held` on, counted from 0. The error is `Cut` where the input ends before that, or `ReadFault`.
#[tactic(auto, using(crate::proofs::Bytes::rest_read))]
fn read_rest<R: Read>(reader: &mut R, body: &mut Vec<u8>, held: usize) -> Result<(), FrameFault>
    requires { held ≤ length body.old.items }
    ensures len { length body.new.items ≡ length body.old.items }
    ensures ok { IfOk result
        (λ _. ReadsOn (R.remaining reader.old) (R.remaining reader.new) (take held body.old.items)
        body.new.items) }
    ensures err { IfErr result
        (λ why. Took (R.remaining reader.old) (R.remaining reader.new)
        (BodyLacks (length body.old.items - held) why)) }
{
    match read_piece(reader, &mut body[held..]) {
        Ok(()) => Ok(()),
        Err(why) => Err(why),
    }
}

/// Reads `size` bytes. Memory is taken for the first 8,192 of them, or for `longest`, as many as the longest frame before had,
/// and then each time for as many more as have come, up to the size. So a size that announces bytes which never come costs at
/// most 8,192 bytes, or `longest`, or twice what came. The last step is exact: the block that is given has no spare room. The
/// error is `Cut`, `ReadFault` or `NoMemory`.
#[tactic(auto, using(crate::proofs::Bytes::unread, crate::proofs::Bytes::read_on))]
fn read_body<R: Read>(
    alloc: Global,
    reader: &mut R,
    longest: usize,
    size: usize,
) -> Result<Vec<u8>, FrameFault>
    ensures len { IfOk result (λ body. length body.items ≡ size) }
    ensures ok { IfOk result
        (λ body. Consumes (R.remaining reader.old) (R.remaining reader.new) body.items) }
    ensures err { IfErr result
        (λ why. Took (R.remaining reader.old) (R.remaining reader.new) (BodyLacks size why)) }
{
    let mut body = Vec::new(alloc);
    let mut held = 0;
    while held < size {
        let more = PIECE.max(longest).max(held).min(size - held);
        if let Err(why) = reserve_more(&mut body, more) {
            return Err(why);
        }
        if let Err(why) = read_rest(reader, &mut body, held) {
            return Err(why);
        }
        held += more;
    }
    Ok(body)
}

/// Whether a frame asks what the one before did: they differ in their correlation ids at most.
fn asks_again(frame: &[u8], before: &[u8]) -> bool {
    frame.len() >= LEAST as usize
        && frame.len() == before.len()
        && frame[..4] == before[..4]
        && frame[8..] == before[8..]
}

/// Where a session's short frames are read to: one after the other into a block. A frame that asks what the last short one did
/// gets memory of its own: a poll that is asked again isn't kept, and would leave a gap between those that are.
struct ShortFrames {
    block: Block,
    /// The last frame that is a part of a block.
    before: Bytes,
}

impl Drop for ShortFrames {
    fn drop(self) {
        let ShortFrames {
            block: _block,
            before: _before,
        } = self;
    }
}

impl ShortFrames {
    /// No frame yet, and no memory taken.
    fn new(alloc: Global) -> ShortFrames {
        ShortFrames {
            block: Block::new(alloc),
            before: Bytes::new(),
        }
    }

    /// The frame that was read into the block. An error is an allocation failure.
    fn take(&mut self, alloc: Global) -> Result<Bytes, AllocError>
        ensures { IfOk result (λ frame. frame ≡ self.old.block) }
    {
        if asks_again(self.block.as_slice(), self.before.as_slice()) {
            return Bytes::copy_from_slice(alloc, self.block.as_slice());
        }
        let frame = self.block.cut()?;
        if let Ok(before) = frame.clone() {
            self.before = before;
        }
        Ok(frame)
    }

    /// Reads `size` bytes. The error is `Cut`, `ReadFault` or `NoMemory`.
    #[tactic(auto, using(crate::proofs::Bytes::none_read, crate::proofs::Bytes::unread, crate::proofs::Bytes::front_lacks))]
    fn read<R: Read>(
        &mut self,
        alloc: Global,
        reader: &mut R,
        size: usize,
    ) -> Result<Bytes, FrameFault>
        ensures len { IfOk result (λ body. length body ≡ size) }
        ensures ok { IfOk result
            (λ body. Consumes (R.remaining reader.old) (R.remaining reader.new) body) }
        ensures err { IfErr result
            (λ why. Took (R.remaining reader.old) (R.remaining reader.new) (BodyLacks size why)) }
    {
        if self.block.begin(size).is_err() {
            return Err(FrameFault::NoMemory);
        }
        if let Err(why) = read_piece(reader, self.block.part()) {
            return Err(why);
        }
        match self.take(alloc) {
            Ok(body) => Ok(body),
            Err(_) => Err(FrameFault::NoMemory),
        }
    }
}

/// Reads `size` bytes: up to `Block::SHORT` as a short frame, and more into memory of their own. `longest` and the errors are
/// those of `read_body`.
#[tactic(auto, using(crate::proofs::Bytes::unread))]
fn read_bytes<R: Read>(
    alloc: Global,
    reader: &mut R,
    short: &mut ShortFrames,
    longest: usize,
    size: usize,
) -> Result<Bytes, FrameFault>
    ensures len { IfOk result (λ body. length body ≡ size) }
    ensures ok { IfOk result
        (λ body. Consumes (R.remaining reader.old) (R.remaining reader.new) body) }
    ensures err { IfErr result
        (λ why. Took (R.remaining reader.old) (R.remaining reader.new) (BodyLacks size why)) }
{
    if size <= Block::SHORT {
        return short.read(alloc, reader, size);
    }
    let body = match read_body(alloc, reader, longest, size) {
        Ok(body) => body,
        Err(why) => return Err(why),
    };
    match Bytes::from_vec(body) {
        Ok(body) => Ok(body),
        Err(_) => Err(FrameFault::NoMemory),
    }
}

/// Reads `size` bytes and drops them, by pieces of 8,192. The error is `Cut` or `ReadFault`.
#[tactic(auto, using(crate::proofs::Bytes::none_passed, crate::proofs::Bytes::more_passed))]
fn read_past<R: Read>(reader: &mut R, size: usize) -> Result<(), FrameFault>
    ensures ok { IfOk result (λ _. Passes (R.remaining reader.old) (R.remaining reader.new) size) }
    ensures err { IfErr result
        (λ why. Took (R.remaining reader.old) (R.remaining reader.new) (BodyLacks size why)) }
{
    if size == 0 {
        return Ok(());
    }
    let mut piece = [0; PIECE];
    let mut passed = 0;
    while passed < size {
        let more = PIECE.min(size - passed);
        if let Err(why) = read_piece(reader, &mut piece[..more]) {
            return Err(why);
        }
        passed += more;
    }
    Ok(())
}

/// Reads `size` bytes, keeps the first `kept` of them, and drops the others. `longest` and the errors are those of `read_body`.
#[tactic(auto, using(crate::proofs::Bytes::some_kept, crate::proofs::Bytes::front_lacks, crate::proofs::Bytes::rest_lacks))]
fn read_keeping<R: Read>(
    alloc: Global,
    reader: &mut R,
    short: &mut ShortFrames,
    longest: usize,
    kept: usize,
    size: usize,
) -> Result<Bytes, FrameFault>
    requires { kept ≤ size }
    ensures len { IfOk result (λ body. length body ≡ kept) }
    ensures ok { IfOk result
        (λ body. ReadsPast (R.remaining reader.old) (R.remaining reader.new) body size) }
    ensures err { IfErr result
        (λ why. Took (R.remaining reader.old) (R.remaining reader.new) (BodyLacks size why)) }
{
    let body = match read_bytes(alloc, reader, short, longest, kept) {
        Ok(body) => body,
        Err(why) => return Err(why),
    };
    match read_past(reader, size - kept) {
        Ok(()) => Ok(body),
        Err(why) => Err(why),
    }
}

/// What is kept of a frame that came, without its size field.
#[derive(Drop)]
pub struct Came {
    /// All its bytes, or the first eight of a frame that is too long to be kept whole.
    pub kept: Bytes,
    /// How many bytes it has.
    pub size: usize,
}

/// Reads a frame, its size field first, and gives what is kept of it, and its size: all its bytes, or the first eight where it
/// has more than `most`. The error is `BadFrame` where the size is below 8 or above `limit`, and else that of `read_head` or of
/// `read_body`.
#[tactic(auto, using(crate::proofs::Fronts::no_head, crate::proofs::Fronts::bad, crate::proofs::Fronts::no_body))]
fn read_sized<R: Read>(
    alloc: Global,
    reader: &mut R,
    short: &mut ShortFrames,
    longest: usize,
    most: u32,
    limit: u32,
) -> Result<Came, FrameFault>
    ensures within { IfOk result (λ came. (length came.kept ≤ came.size) × (came.size ≤ limit)) }
    ensures ok { IfOk result
        (λ came. Took (R.remaining reader.old) (R.remaining reader.new)
        (Arrives limit most came)) }
    ensures err { IfErr result
        (λ why. Took (R.remaining reader.old) (R.remaining reader.new) (Lacks limit why)) }
{
    let head = read_head(reader)?;
    let size = u32::from_be_bytes(head);
    if size < LEAST || size > limit {
        return Err(FrameFault::BadFrame);
    }
    let kept = if size > most { LEAST } else { size };
    match read_keeping(alloc, reader, short, longest, kept as usize, size as usize) {
        Ok(kept) => Ok(Came {
            kept,
            size: size as usize,
        }),
        Err(why) => Err(why),
    }
}

/// Reads a session's frames.
pub struct FrameReader<R> {
    reader: R,
    /// How many bytes were kept of the frame of which most were, whatever size fields announced.
    longest: usize,
    short: ShortFrames,
    /// Whether the session's user was known when the last frame was read.
    known: bool,
}

impl<R: Drop> Drop for FrameReader<R> {
    fn drop(self) {
        let FrameReader {
            reader: _reader,
            longest: _longest,
            short: _short,
            known: _known,
        } = self;
    }
}

impl<R: Read> FrameReader<R> {
    /// Reads frames from a reader, at whose first byte a frame begins. None was read yet, and no memory is taken.
    pub fn new(alloc: Global, reader: R) -> FrameReader<R>
        ensures left { frames_left R.remaining result ≡ R.remaining reader }
        ensures longest { longest_kept result ≡ 0 }
    {
        FrameReader {
            reader,
            longest: 0,
            short: ShortFrames::new(alloc),
            known: false,
        }
    }

    /// Once the user is `known`, reads short frames to memory that none before was read to: those of a login hold a password, and
    /// the trail would keep it as long as the requests that stand beside it.
    fn part_from_login(&mut self, alloc: Global, known: bool)
        ensures reader { self.new.reader ≡ self.old.reader }
        ensures longest { self.new.longest ≡ self.old.longest }
    {
        if known && !self.known {
            self.short = ShortFrames::new(alloc);
        }
        self.known = known;
    }

    /// Reads the next frame, without its size field, and keeps all of it, or the first eight bytes of one that is longer than
    /// `most`. A frame of more than `Block::SHORT` bytes isn't copied. `known` tells whether the session's user is known. The
    /// error is the reason for which none comes: `BadFrame` for a size below 8 or above `limit`, `Closed`, `Cut`,
    /// `ReadFault` or `NoMemory`.
    pub fn read(
        &mut self,
        alloc: Global,
        known: bool,
        most: u32,
        limit: u32,
    ) -> Result<Came, FrameFault>
        ensures within { IfOk result
            (λ came. (length came.kept ≤ came.size) × (came.size ≤ limit)) }
        ensures ok { IfOk result
            (λ came. Took (frames_left R.remaining self.old) (frames_left R.remaining self.new)
            (Arrives limit most came)) }
        ensures err { IfErr result
            (λ why. Took (frames_left R.remaining self.old) (frames_left R.remaining self.new)
            (Lacks limit why)) }
        ensures longest { IfOk result
            (λ came. longest_kept self.new ≡ max (longest_kept self.old) (length came.kept)) }
        ensures same { OnErr result (longest_kept self.new ≡ longest_kept self.old) }
    {
        self.part_from_login(alloc, known);
        let longest = self.longest;
        let (reader, short) = (&mut self.reader, &mut self.short);
        let came = read_sized(alloc, reader, short, longest, most, limit)?;
        self.longest = longest.max(came.kept.len());
        Ok(came)
    }
}
