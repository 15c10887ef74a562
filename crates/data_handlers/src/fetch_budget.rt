//! How many bytes an answer to a Fetch may still serve.

/// What is left of the bytes of an answer to a Fetch, and whether it has a batch yet.
#[derive(Clone, Copy, Debug, PartialEq, Eq)]
pub struct FetchBudget {
    /// In bytes.
    pub left: u64,
    /// Whether some partition was given a batch. Before that, one batch is served whatever its size.
    pub given: bool,
}
