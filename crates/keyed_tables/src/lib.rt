//! Specifications of a table whose values hold their own keys: each value stands under its own key, so that a look-up by a key
//! finds the first value of that key, as a walk over the values does.
//!
//! There is no code here: an [`indexmap`] map is the table. The definition and its consequences are for each crate that keeps
//! one.
#![tactic(auto)]
