//! The trait of what is read from and written to a connection.

ghost use Rattle.std.specs.Prelude.{◌≡◌, ◌+◌, ◌<◌, ◌^◌, Some, OnErr};
ghost use Rattle.std.specs.Io.{StartsWith};
ghost use Rattle.wire_types.specs.Reading.{Reads};
ghost use Rattle.wire_types.specs.Writing.{Puts};
ghost use Rattle.wire_types.specs.Grammar.{Grammar};
ghost use Rattle.wire_types.specs.Laws.{size_of};

use crate::cursor::Cursor;
use crate::fault::{ReadFault, WriteFault};
use std::alloc::Global;

/// A type with a form on the wire: how a value is read, written and measured.
pub trait Wire: Drop {
    /// Which bytes spell which value, and which bytes are written for it.
    ghost grammar: { Grammar Self };

    /// Reads a value from the front of the bytes that are left, and moves the cursor past it. An error is an allocation failure
    /// or the first fault, and leaves the cursor at no specified place.
    fn read(alloc: Global, cursor: &mut Cursor<'_>) -> Result<Self, ReadFault>
        ensures { Reads (grammar.reading cursor.old) result cursor.new };

    /// Appends the value's spelling to `out`, the same bytes for equal values. `TooLong` where a length or a count doesn't fit
    /// its field. An error may leave a part in `out`: callers use `write`, which takes it back.
    fn put(&self, out: &mut Vec<u8>) -> Result<(), WriteFault>
        ensures spelled { Puts grammar self.now out.old.items result out.new.items }
        ensures grown { StartsWith out.new.items out.old.items };

    /// As `put`, but an error leaves `out` as it was.
    fn write(&self, out: &mut Vec<u8>) -> Result<(), WriteFault>
        ensures spelled { Puts grammar self.now out.old.items result out.new.items }
        ensures err { OnErr result (out.new.items ≡ out.old.items) }
        ensures grown { StartsWith out.new.items out.old.items }
    {
        let start = out.len();
        let written = self.put(out);
        if written.is_err() {
            out.truncate(start);
        }
        written
    }

    /// How many of `budget` bytes are left after the bytes that `put` appends, which aren't made for it. None where they are
    /// more, or where `put` gives `TooLong`.
    fn deduct_from(&self, budget: usize) -> Option<usize>
        ensures { result ≡ grammar.left self.now budget };
}

/// How many bytes `put` appends for the value, found without writing. None where it gives `TooLong`, or where they are more than
/// a `usize` counts.
pub fn size<T: Wire>(value: &T) -> Option<usize>
    ensures { result ≡ size_of T.grammar value.now }
{
    let left = value.deduct_from(usize::MAX)?;
    Some(usize::MAX - left)
}
