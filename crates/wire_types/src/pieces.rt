//! Bytes in pieces that share memory: a batch's bytes, and those of several batches.

ghost use Rattle.std.specs.Prelude.{◌≡◌, ◌==◌, ◌^◌, ◌+◌, ◌-◌, ◌<◌, ◌≤◌, ◌++◌, [], IfOk, OnOk, OnErr, drop, length, slice_range, take};
ghost use Rattle.std.specs.Cmp.Lexicographic.{pointwise};
ghost use Rattle.std.specs.Io.{StartsWith};
ghost use Rattle.std.specs.List.{concat};
ghost use Rattle.wire_types.specs.Reading.{Reads};
ghost use Rattle.wire_types.specs.Writing.{Puts};
ghost use Rattle.wire_types.specs.Schema.{bytes};

use crate::budget::deduct;
use crate::counts::{deduct_count, write_count};
use crate::cursor::Cursor;
use crate::fault::{ReadFault, WriteFault};
use crate::items::{FIRST_MEMORY, only};
use crate::shared_bytes::Bytes;
use std::alloc::{AllocError, Global};
use std::marker::Model;
use std::mem;
use std::ops::Range;

/// Shared bytes, of which the first 16 may be the piece's own: a batch that a log serves has its base offset, batch length and
/// partition leader epoch there (https://kafka.apache.org/documentation/#recordbatch), and shares all else with the frame that
/// brought it.
pub struct Piece {
    own: Option<[u8; 16]>,
    shared: Bytes,
}

impl Model for Piece {
    ghost use Rattle.std.specs.Prelude.{List, ℕ};
    ghost use Rattle.wire_types.specs.Pieces.{piece_of, IsPiece};

    ghost Value = { List ℕ };

    ghost view = { λ p. piece_of p.own p.shared };

    ghost invariant = { λ p. IsPiece p.own };
}

impl Drop for Piece {
    fn drop(self) {
        let Piece {
            own: _,
            shared: _shared,
        } = self;
    }
}

impl Piece {
    /// A piece of shared bytes alone, with no bytes of its own.
    pub fn of(shared: Bytes) -> Piece
        ensures { result ≡ shared }
    {
        Piece { own: None, shared }
    }

    /// The number of bytes.
    pub fn len(&self) -> usize
        ensures { result ≡ length self.now }
    {
        match self.own {
            Some(_) => 16 + self.shared.as_slice().len(),
            None => self.shared.len(),
        }
    }

    /// A copy of the piece's first 16 bytes, which have to be there.
    pub fn front(&self) -> [u8; 16]
        requires { 16 ≤ length self.now }
        ensures { result ≡ take 16 self.now }
    {
        match self.own {
            Some(own) => own,
            None => first_of(self.shared.as_slice()),
        }
    }

    /// The same bytes but for the first 16, which `own` replaces; the piece shares the others. An error comes only where the
    /// count of owners is full.
    pub fn with_front(&self, own: [u8; 16]) -> Result<Piece, AllocError>
        requires { 16 ≤ length self.now }
        ensures { IfOk result (λ p. p ≡ own ++ drop 16 self.now) }
    {
        let shared = self.slice(16..self.len())?;
        Ok(Piece {
            own: Some(own),
            shared,
        })
    }

    /// The bytes of this range as shared bytes, without a copy. The range counts from the piece's first byte, starts at 16 or
    /// after it, and ends within the piece. An error comes only where the count of owners is full.
    pub fn slice(&self, range: Range<usize>) -> Result<Bytes, AllocError>
        requires start { (16 ≤ range.start) × (range.start ≤ range.end) }
        requires end { range.end ≤ length self.now }
        ensures { IfOk result (λ b. b ≡ slice_range self.now range.start range.end) }
    {
        match self.own {
            Some(_) => self.shared.slice(range.start - 16..range.end - 16),
            None => self.shared.slice(range),
        }
    }

    /// Appends the bytes to `out`. An error is an allocation failure, and leaves `out` as it was.
    pub fn push_to(&self, out: &mut Vec<u8>) -> Result<(), AllocError>
        ensures ok { OnOk result (out.new.items ≡ out.old.items ++ self.now) }
        ensures err { OnErr result (out.new.items ≡ out.old.items) }
    {
        let start = out.len();
        if let Some(own) = &self.own {
            out.extend_from_slice(own)?;
        }
        let rest = out.extend_from_slice(self.shared.as_slice());
        if rest.is_err() {
            out.truncate(start);
        }
        rest
    }

    /// Borrows the bytes as two runs, one after the other: the piece's own 16 (or none), and those that it shares.
    pub fn runs(&self) -> (&[u8], &[u8])
        ensures { result.0.now ++ result.1.now ≡ self.now }
    {
        match &self.own {
            Some(own) => (own, self.shared.as_slice()),
            None => (&[], self.shared.as_slice()),
        }
    }
}

/// The first 16 of these bytes, which have to be there.
fn first_of(bytes: &[u8]) -> [u8; 16]
    requires { 16 ≤ length bytes.now }
    ensures { result ≡ take 16 bytes.now }
{
    let mut first = [0; 16];
    first.copy_from_slice(&bytes[..16]);
    first
}

impl Clone for Piece {
    ghost is_clone = { λ p copy. copy ≡ p };

    fn clone(&self) -> Result<Piece, AllocError> {
        Ok(Piece {
            own: self.own,
            shared: self.shared.clone()?,
        })
    }
}

/// Pieces in order, which contracts see as the bytes of all of them, one after the other. Two are equal where these bytes are,
/// however they are cut into pieces. A single piece takes no block of its own.
pub struct Pieces {
    alloc: Global,
    held: HeldPieces,
}

/// One piece, or a vector of any number of them with the number of all their bytes.
#[derive(Drop)]
enum HeldPieces {
    One([Piece; 1]),
    Many(Vec<Piece>, usize),
}

impl Model for Pieces {
    ghost use Rattle.std.specs.Prelude.{List, ℕ};
    ghost use Rattle.std.specs.List.{concat};
    ghost use Rattle.wire_types.specs.HeldPieces.{pieces_held, IsCounted};

    ghost Value = { List ℕ };

    ghost view = { λ p. concat (pieces_held p.held) };

    ghost invariant = { λ p. IsCounted p.held };
}

impl Drop for Pieces {
    fn drop(self) {
        let Pieces {
            alloc: _,
            held: _held,
        } = self;
    }
}

impl Pieces {
    /// An empty list of pieces, which takes no memory.
    pub fn new(alloc: Global) -> Pieces
        ensures { result ≡ [] }
    {
        Pieces {
            alloc,
            held: HeldPieces::Many(Vec::new(alloc), 0),
        }
    }

    /// One piece, of these shared bytes.
    pub fn of(alloc: Global, bytes: Bytes) -> Pieces
        ensures { result ≡ bytes }
    {
        Pieces {
            alloc,
            held: HeldPieces::One([Piece::of(bytes)]),
        }
    }

    /// The number of bytes in all pieces.
    pub fn len(&self) -> usize
        ensures { result ≡ length self.now }
    {
        match &self.held {
            HeldPieces::One([piece]) => piece.len(),
            HeldPieces::Many(_, len) => *len,
        }
    }

    /// Appends a piece. An error is an allocation failure, or more bytes in all than a `usize` counts; it leaves the pieces as
    /// they were. The first piece takes no memory, and the second memory for four.
    #[tactic(auto, using(crate::proofs::Runs::concat_more, crate::proofs::Runs::length_more))]
    pub fn push(&mut self, piece: Piece) -> Result<(), AllocError>
        ensures ok { OnOk result (self.new ≡ self.old ++ piece) }
        ensures err { OnErr result (self.new ≡ self.old) }
    {
        let Some(sum) = self.len().checked_add(piece.len()) else {
            return Err(AllocError);
        };
        match &mut self.held {
            HeldPieces::One(_) => {}
            HeldPieces::Many(pieces, len) => {
                if !pieces.is_empty() {
                    pieces.push(piece)?;
                    *len = sum;
                    return Ok(());
                }
                self.held = HeldPieces::One([piece]);
                return Ok(());
            }
        }
        let alloc = self.alloc;
        let mut both = Vec::with_capacity(alloc, FIRST_MEMORY)?;
        let none = HeldPieces::Many(Vec::new(alloc), 0);
        if let HeldPieces::One(one) = mem::replace(&mut self.held, none) {
            both.push_reserved(only(one));
        }
        both.push_reserved(piece);
        self.held = HeldPieces::Many(both, sum);
        Ok(())
    }

    /// Appends all the bytes to `out`. An error is an allocation failure, and leaves `out` as it was.
    pub fn push_to(&self, out: &mut Vec<u8>) -> Result<(), AllocError>
        ensures ok { OnOk result (out.new.items ≡ out.old.items ++ self.now) }
        ensures err { OnErr result (out.new.items ≡ out.old.items) }
    {
        let start = out.len();
        for piece in self.as_slice() {
            if let Err(fault) = piece.push_to(out) {
                out.truncate(start);
                return Err(fault);
            }
        }
        Ok(())
    }

    /// The pieces, in order.
    pub fn as_slice(&self) -> &[Piece]
        ensures { concat result.now ≡ self.now }
    {
        match &self.held {
            HeldPieces::One(one) => one,
            HeldPieces::Many(pieces, _) => pieces.as_slice(),
        }
    }

    /// A copy of all the bytes, one after the other. An error is an allocation failure.
    pub fn to_bytes(&self, alloc: Global) -> Result<Bytes, AllocError>
        ensures { IfOk result (λ b. b ≡ self.now) }
    {
        let mut out = Vec::with_capacity(alloc, self.len())?;
        self.push_to(&mut out)?;
        Bytes::from_vec(out)
    }
}

/// What is left of pieces that are read from left to right: the run of bytes to read first, the next run, and the pieces after
/// them. The first run is empty only where nothing is left.
#[derive(Drop)]
struct Unread<'a> {
    run: &'a [u8],
    next: &'a [u8],
    pieces: &'a [Piece],
}

impl<'a> Model for Unread<'a> {
    ghost use Rattle.std.specs.Prelude.{◌≡◌, List, ℕ, ◌++◌, [], length};
    ghost use Rattle.std.specs.List.{concat};

    ghost Value = { List ℕ };

    ghost view = { λ p. p.run.now ++ (p.next.now ++ concat p.pieces.now) };

    ghost invariant = { λ p. length p.run.now ≡ 0 → (p.next.now ++ concat p.pieces.now) ≡ [] };
}

impl<'a> Unread<'a> {
    /// These runs and pieces as what is left: empty runs at the front are passed over.
    fn of(run: &'a [u8], next: &'a [u8], pieces: &'a [Piece]) -> Unread<'a>
        ensures { result ≡ run.now ++ (next.now ++ concat pieces.now) }
    {
        if !run.is_empty() {
            return Unread { run, next, pieces };
        }
        if !next.is_empty() {
            return Unread {
                run: next,
                next: &[],
                pieces,
            };
        }
        match pieces.split_first() {
            Some((piece, rest)) => {
                let (run, next) = piece.runs();
                Unread::of(run, next, rest)
            }
            None => Unread { run, next, pieces },
        }
    }
}

/// Whether the first `count` bytes of two runs are equal. Both runs have to have so many.
fn begin_alike(left: &[u8], right: &[u8], count: usize) -> bool
    requires { (count ≤ length left.now) × (count ≤ length right.now) }
    ensures { result ≡ pointwise ◌==◌ (take count left.now) (take count right.now) }
{
    left[..count] == right[..count]
}

impl PartialEq for Pieces {
    ghost use Rattle.std.specs.Cmp.{partial_equiv_from_equiv};
    ghost use Rattle.std.specs.Cmp.Lexicographic.{nat_list_eq_equiv};

    ghost eq = { pointwise ◌==◌ };

    ghost laws = { partial_equiv_from_equiv nat_list_eq_equiv };

    fn eq(&self, other: &Pieces) -> bool {
        let mut left = Unread::of(&[], &[], self.as_slice());
        let mut right = Unread::of(&[], &[], other.as_slice());
        while !left.run.is_empty() && !right.run.is_empty() {
            let count = left.run.len().min(right.run.len());
            if !begin_alike(left.run, right.run, count) {
                return false;
            }
            left = Unread::of(&left.run[count..], left.next, left.pieces);
            right = Unread::of(&right.run[count..], right.next, right.pieces);
        }
        left.run.is_empty() && right.run.is_empty()
    }
}

impl Eq for Pieces {
    ghost use Rattle.std.specs.Cmp.Lexicographic.{nat_list_eq_equiv};

    ghost laws = { nat_list_eq_equiv };
}

impl<'a> Cursor<'a> {
    /// Reads BYTES, as `read_bytes` does, into one piece.
    pub fn read_pieces(&mut self, alloc: Global) -> Result<Pieces, ReadFault>
        ensures { Reads (bytes.reading self.old) result self.new }
    {
        let bytes = self.read_bytes(alloc)?;
        Ok(Pieces::of(alloc, bytes))
    }
}

/// Appends the bytes as BYTES: their number in four bytes (INT32), and then all of them. `TooLong` above 2^31 - 1 bytes. An error
/// leaves `out` as it was.
#[tactic(auto, unfolding(crate::specs::Spelling::after_count_fits))]
pub fn write_pieces(out: &mut Vec<u8>, value: &Pieces) -> Result<(), WriteFault>
    ensures spelled { Puts bytes value.now out.old.items result out.new.items }
    ensures err { OnErr result (out.new.items ≡ out.old.items) }
    ensures grown { StartsWith out.new.items out.old.items }
{
    let start = out.len();
    write_count(out, value.len())?;
    let rest = value.push_to(out);
    if rest.is_err() {
        out.truncate(start);
    }
    Ok(rest?)
}

/// How many of `budget` bytes are left after the pieces as BYTES. None where they need more, or are too many for their length
/// field.
pub fn deduct_pieces(value: &Pieces, budget: usize) -> Option<usize>
    ensures { result ≡ bytes.left value.now budget }
{
    let budget = deduct_count(value.len(), budget)?;
    deduct(value.len(), budget)
}
