//! Bytes that have several owners, which contracts see as the list of them.

ghost use Rattle.std.specs.Prelude.{◌≡◌, ◌^◌, ◌<◌, ◌≤◌, ◌↔◌, [], IfOk, IsTrue, drop, length, slice_range};

use bytes::Bytes as Part;
use std::alloc::{AllocError, Global};
use std::marker::Model;
use std::ops::Range;

/// A part of bytes that several owners share. A clone or a slice isn't a copy, but one more owner of the same bytes.
#[derive(Debug, Clone)]
pub struct Bytes {
    part: Part,
}

impl Model for Bytes {
    ghost use Rattle.std.specs.Prelude.{List, ℕ};

    ghost Value = { List ℕ };

    ghost view = { λ b. b.part };
}

impl Drop for Bytes {
    fn drop(self) {
        let Bytes { part: _part } = self;
    }
}

impl Bytes {
    /// No bytes, which take no memory.
    pub fn new() -> Bytes
        ensures { result ≡ [] }
    {
        Bytes { part: Part::new() }
    }

    /// Shares the bytes of a vector, without copying them. An error is an allocation failure.
    pub fn from_vec(bytes: Vec<u8>) -> Result<Bytes, AllocError>
        ensures { IfOk result (λ b. b ≡ bytes.items) }
    {
        Ok(Bytes {
            part: Part::from_vec(bytes)?,
        })
    }

    /// Copies bytes into shared ones. An error is an allocation failure.
    pub fn copy_from_slice(alloc: Global, bytes: &[u8]) -> Result<Bytes, AllocError>
        ensures { IfOk result (λ b. b ≡ bytes.now) }
    {
        Ok(Bytes {
            part: Part::copy_from_slice(alloc, bytes)?,
        })
    }

    /// The bytes of a part that the crate `bytes` shares.
    pub(crate) fn of_part(part: Part) -> Bytes
        ensures { result ≡ part }
    {
        Bytes { part }
    }

    /// The same bytes as the type of the crate `bytes`.
    pub(crate) fn into_part(self) -> Part
        ensures { result ≡ self }
    {
        let Bytes { part } = self;
        part
    }

    pub fn as_slice(&self) -> &[u8]
        ensures { result.now ≡ self.now }
    {
        self.part.as_slice()
    }

    pub fn len(&self) -> usize
        ensures { result ≡ length self.now }
    {
        self.part.len()
    }

    pub fn is_empty(&self) -> bool
        ensures { IsTrue result ↔ (self.now ≡ []) }
    {
        self.part.is_empty()
    }

    /// The bytes of this range, without a copy. An error comes only where the count of owners is full. An empty slice is no
    /// owner, and so keeps no memory alive.
    pub fn slice(&self, range: Range<usize>) -> Result<Bytes, AllocError>
        requires { (range.start ≤ range.end) × (range.end ≤ length self.now) }
        ensures { IfOk result (λ b. b ≡ slice_range self.now range.start range.end) }
    {
        Ok(Bytes {
            part: self.part.slice(range)?,
        })
    }
}

impl PartialEq for Bytes {
    ghost use Rattle.std.specs.Prelude.{◌==◌};
    ghost use Rattle.std.specs.Cmp.{partial_equiv_from_equiv};
    ghost use Rattle.std.specs.Cmp.Lexicographic.{pointwise, nat_list_eq_equiv};

    ghost eq = { pointwise ◌==◌ };

    ghost laws = { partial_equiv_from_equiv nat_list_eq_equiv };

    fn eq(&self, other: &Bytes) -> bool {
        self.as_slice() == other.as_slice()
    }
}

impl Eq for Bytes {
    ghost use Rattle.std.specs.Cmp.Lexicographic.{nat_list_eq_equiv};

    ghost laws = { nat_list_eq_equiv };
}
