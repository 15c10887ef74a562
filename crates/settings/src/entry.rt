//! How a sentence names the entries of a list in the settings.

use std::alloc::{AllocError, Global};
use std::fmt;
use wire_types::Text;

/// An entry of a list of the settings. It is displayed with its number, counted from 1.
#[derive(Clone, Copy, Debug)]
pub struct Entry<'a> {
    /// The key of the list, such as `topic`.
    pub list: &'a str,
    /// The index in the list, counted from 0.
    pub place: usize,
}

/// The number, counted from 1, of the entry at this index, counted from 0.
fn number_of(place: usize) -> u64 {
    (place as u64).saturating_add(1)
}

impl fmt::Display for Entry<'_> {
    /// Writes the list's key and the entry's number from 1, as in "`topic`, entry 2".
    fn fmt<W: fmt::Write>(&self, f: &mut fmt::Formatter<W>) -> fmt::Result {
        let list = self.list;
        let number = number_of(self.place);
        write!(f, "`{list}`, entry {number}")
    }
}

/// The sentence that two entries of `list`, at these places counted from 0, have the same name. The name is escaped, so that the
/// sentence is one line. An error is an allocation failure.
pub fn name_twice(
    alloc: Global,
    list: &str,
    places: (usize, usize),
    name: &Text,
) -> Result<String, AllocError> {
    let first = number_of(places.0);
    let second = number_of(places.1);
    let name = name.as_str().escape_debug();
    format!(in alloc; "`{list}`, entries {first} and {second}: the name `{name}` stands twice")
}
