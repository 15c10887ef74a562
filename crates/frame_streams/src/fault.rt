//! Why no frame comes.

use thiserror::Error;

/// Why no frame comes from a reader.
#[derive(Clone, Copy, Debug, PartialEq, Eq, Error)]
pub enum FrameFault {
    /// The input ended between frames.
    #[error("the connection was closed between two requests")]
    Closed,
    /// The input ended inside a frame.
    #[error("the connection was closed inside a request")]
    Cut,
    /// A read failed, or was interrupted more than 1,000 times in a row.
    #[error("a read failed")]
    ReadFault,
    /// A frame's size is below 8 or above the limit.
    #[error("a frame is shorter than a request can be, or longer than the limit")]
    BadFrame,
    /// An allocation failed.
    #[error("there is not enough memory")]
    NoMemory,
}
