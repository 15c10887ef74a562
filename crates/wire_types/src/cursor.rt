//! A place in bytes that are read from left to right.

ghost use Rattle.std.specs.Prelude.{◌≡◌, ◌↔◌, [], IsTrue, ◌+◌, ◌<◌, ◌^◌, length, None, Some, MatchResult, Ok, Err};
ghost use Rattle.wire_types.specs.Reading.{Takes, byte_at, Reads, front_at};

use crate::fault::{Malformed, ReadFault};
use crate::shared_bytes::Bytes;
use std::alloc::Global;
use std::marker::Model;

/// A reader of bytes from left to right: those that are left, and the shared bytes whose end they are, if it was made over some.
/// After an error its place isn't specified, and it isn't to be read further.
#[derive(Drop)]
pub struct Cursor<'a> {
    left: &'a [u8],
    whole: Option<&'a Bytes>,
}

impl<'a> Model for Cursor<'a> {
    ghost use Rattle.std.specs.Prelude.{List, ℕ};
    ghost use Rattle.wire_types.specs.Place.{IsEndOf};

    ghost Value = { List ℕ };

    ghost view = { λ c. c.left.now };

    ghost invariant = { λ c. IsEndOf c.left.now c.whole };
}

impl<'a> Cursor<'a> {
    /// A reader of these bytes, from the first on. Texts and `Bytes` that are read from it are copies with memory of their own;
    /// `read_front` borrows.
    pub fn new(bytes: &'a [u8]) -> Cursor<'a>
        ensures { result ≡ bytes.now }
    {
        Cursor {
            left: bytes,
            whole: None,
        }
    }

    /// A reader of shared bytes, from the first on. Texts and `Bytes` that are read from it are parts of them, and aren't copied.
    pub fn over(bytes: &'a Bytes) -> Cursor<'a>
        ensures { result ≡ bytes.now }
    {
        Cursor {
            left: bytes.as_slice(),
            whole: Some(bytes),
        }
    }

    /// How many bytes are left.
    pub fn len(&self) -> usize
        ensures { result ≡ length self.now }
    {
        self.left.len()
    }

    /// Whether no bytes are left.
    pub fn is_empty(&self) -> bool
        ensures { IsTrue result ↔ (self.now ≡ []) }
    {
        self.left.is_empty()
    }

    /// Reads the next `len` bytes, borrowed and not copied. `Malformed::Short` where fewer are left.
    #[tactic(auto, unfolding(crate::specs::Reading::front_at))]
    pub fn read_front(&mut self, len: usize) -> Result<&'a [u8], Malformed>
        ensures { MatchResult result (λ x. front_at len self.old ≡ Ok (x.now, self.new))
            (λ e. front_at len self.old ≡ Err e) }
    {
        if self.len() < len {
            return Err(Malformed::Short);
        }
        let (front, rest) = self.left.split_at(len);
        self.left = rest;
        Ok(front)
    }

    /// Reads the next byte. `Malformed::Short` where none is left.
    #[tactic(auto, unfolding(crate::specs::Reading::front_at))]
    pub(crate) fn read_byte(&mut self) -> Result<u8, Malformed>
        ensures { Takes (byte_at self.old) result self.new }
    {
        let front = self.read_front(1)?;
        Ok(front[0])
    }

    /// Reads the next `len` bytes: a part of the shared bytes, or a copy where the reader has none. `Malformed::Short` where
    /// fewer are left. `NoMemory` is an allocation failure, or for a part a full count of owners.
    #[tactic(auto, unfolding(crate::specs::Reading::front_at))]
    pub fn read_shared(&mut self, alloc: Global, len: usize) -> Result<Bytes, ReadFault>
        ensures { Reads (front_at len self.old) result self.new }
    {
        let whole = self.whole;
        let before = self.len();
        let front = self.read_front(len)?;
        match whole {
            Some(whole) => {
                let at = whole.len() - before;
                Ok(whole.slice(at..at + len)?)
            }
            None => Ok(Bytes::copy_from_slice(alloc, front)?),
        }
    }
}
