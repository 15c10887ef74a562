//! The laws between bytes and values, each the contract of a function with nothing to do.

ghost use Rattle.wire_types.specs.Laws.{FoundIsSpelled, SpelledIsFound, OneValue, WrittenIsSpelled, SpelledFits};

use crate::wire::Wire;

/// Where a read finds a value, the bytes that it takes spell that value.
pub fn found_is_spelled<T: Wire>()
    ensures { FoundIsSpelled T.grammar }
{}

/// Where bytes begin with a value's spelling, a read finds that value and takes just that spelling.
pub fn spelled_is_found<T: Wire>()
    ensures { SpelledIsFound T.grammar }
{}

/// The same bytes spell at most one value.
pub fn one_value<T: Wire>()
    ensures { OneValue T.grammar }
{}

/// The bytes that are written for a value spell it. With `spelled_is_found` they are read back as that value.
pub fn written_is_spelled<T: Wire>()
    ensures { WrittenIsSpelled T.grammar }
{}

/// Each value that bytes spell can be written, in no more bytes than those.
pub fn read_fits<T: Wire>()
    ensures { SpelledFits T.grammar }
{}
