//! How long a table's longest name is.

ghost use Rattle.std.specs.Prelude.{◌≡◌, ◌+◌, ◌^◌, ◌<◌, ◌++◌, ◌||◌, [], ◌∷◌, List, ℕ, Bool, cond, true, count_by, nat_lt, nat_le};
ghost use Rattle.std.specs.HashMap.{keys};
ghost use Rattle.authorizer.specs.Longest.{lengths, IsLongest};

use crate::shelf::Shelf;
use indexmap::IndexMap;
use std::hash::RandomState;

/// The bytes of a table's longest name, and how many names are that long. Both are 0 if there is no name. With the count,
/// the length is still known after one of several longest names was removed.
#[derive(Clone, Copy)]
pub struct Longest {
    pub(crate) bytes: usize,
    pub(crate) names: usize,
}

impl Longest {
    /// The value for a table without names: 0 bytes, 0 names.
    pub(crate) fn none() -> Longest
        ensures { IsLongest result [] }
    {
        Longest { bytes: 0, names: 0 }
    }

    /// How long a table's longest name is and how many names are that long, found by a look at all its names.
    pub(crate) fn of(shelves: &IndexMap<String, Shelf, RandomState>) -> Longest
        ensures { IsLongest result (lengths (keys shelves.now)) }
    {
        let mut longest = Longest::none();
        for (name, _shelf) in shelves.iter() {
            longest.add(name.as_str().len());
        }
        longest
    }

    /// Counts in a new name of so many bytes.
    pub(crate) fn add(&mut self, bytes: usize)
        requires { self.old.names + 1 < 2 ^ 64 }
        ensures { (ns : List ℕ) → IsLongest self.old ns → IsLongest self.new (ns ++ bytes ∷ []) }
    {
        if bytes > self.bytes {
            *self = Longest { bytes, names: 1 };
        } else if bytes == self.bytes {
            self.names += 1;
        }
    }

    /// Takes a name of so many bytes out of the count. Returns whether the longest is still known; `false` means that it
    /// was the only one of that length, and that nothing changed: the caller has to look through the table (`of`).
    pub(crate) fn lose(&mut self, bytes: usize) -> bool
        ensures left { (ns left : List ℕ)
            → ((p : ℕ → Bool) → count_by p left + cond (p bytes) 1 0 ≡ count_by p ns)
            → IsLongest self.old ns → result ≡ true → IsLongest self.new left }
        ensures known { result ≡ (nat_lt bytes self.old.bytes || nat_le 2 self.old.names) }
    {
        if bytes < self.bytes {
            return true;
        }
        if self.names < 2 {
            return false;
        }
        self.names -= 1;
        true
    }
}
