//! Memory that short runs of bytes share.

ghost use Rattle.std.specs.Prelude.{◌≡◌, [], IfOk, OnOk, OnErr, length};
ghost use Rattle.std.specs.Borrow.{Lends, Array, sem, u8};
ghost use Rattle.std.specs.List.{refill};
ghost use Rattle.wire_types.specs.contracts.block.Block.{the_row};

use crate::shared_bytes::Bytes;
use bytes::BytesMut;
use std::alloc::{AllocError, Global};
use std::marker::Model;

/// How many bytes the first block has. Each later one has twice as many as the one before, up to `MOST`: so one who sends little
/// makes the broker keep little.
const FIRST: usize = 256;

/// The most bytes that a block has, but for one that is made for a single longer run.
const MOST: usize = 4_096;

/// Memory for short runs of bytes that come one after the other, as small frames do. Each run is the next part of a block of
/// memory, so it needs no allocation of its own, and the block lives as long as one of its parts. Contracts see the part that
/// is being filled.
pub struct Block {
    rest: BytesMut,
    /// How many bytes the next block is to have.
    size: usize,
}

impl Model for Block {
    ghost use Rattle.std.specs.Prelude.{List, ℕ};

    ghost Value = { List ℕ };

    ghost view = { λ b. b.rest.items };
}

impl Drop for Block {
    fn drop(self) {
        let Block {
            rest: _rest,
            size: _,
        } = self;
    }
}

impl Block {
    /// The most bytes of a run that should be a part of a block. A longer one would leave too much of a block unused where it
    /// doesn't fit any more.
    pub const SHORT: usize = 512;

    /// A block that takes no memory yet.
    pub fn new(alloc: Global) -> Block
        ensures { result ≡ [] }
    {
        Block {
            rest: BytesMut::new(alloc),
            size: FIRST,
        }
    }

    /// Begins the next part, of `len` bytes, in a new block where fewer are left. What the bytes are is not said. An error is an
    /// allocation failure, and then no part is begun.
    pub fn begin(&mut self, len: usize) -> Result<(), AllocError>
        ensures ok { OnOk result (length self.new ≡ len) }
        ensures err { OnErr result (self.new ≡ []) }
    {
        self.rest.clear();
        if self.rest.capacity() < len {
            let alloc = *self.rest.allocator();
            self.rest = BytesMut::with_capacity(alloc, self.size.max(len))?;
            self.size = MOST.min(self.size.saturating_mul(2));
        }
        self.rest.advance_mut(len);
        Ok(())
    }

    /// Lends the part that was begun, to be filled.
    pub fn part(&mut self) -> &mut [u8]
        ensures* writes_back { sem 𝓛
            (Lends the_row (Array u8 0) self.entry result (refill (length self.old) self.old)) }
        ensures value { result.now ≡ self.old }
    {
        self.rest.as_mut_slice()
    }

    /// The part that was begun.
    pub fn as_slice(&self) -> &[u8]
        ensures { result.now ≡ self.now }
    {
        self.rest.as_slice()
    }

    /// Cuts the part that was begun off the block. An error is an allocation failure, and leaves the part as it was.
    pub fn cut(&mut self) -> Result<Bytes, AllocError>
        ensures ok { IfOk result (λ bytes. bytes ≡ self.old) }
        ensures rest { OnOk result (self.new ≡ []) }
        ensures err { OnErr result (self.new ≡ self.old) }
    {
        let len = self.rest.len();
        Ok(Bytes::of_part(self.rest.freeze_to(len)?))
    }

    /// Copies bytes into the next part, and cuts it off. An error is an allocation failure.
    pub fn copy(&mut self, bytes: &[u8]) -> Result<Bytes, AllocError>
        ensures value { IfOk result (λ copy. copy ≡ bytes.now) }
        ensures rest { OnOk result (self.new ≡ []) }
    {
        self.begin(bytes.len())?;
        self.part().copy_from_slice(bytes);
        self.cut()
    }
}
