//! Why a script or a run ends before its input does, in sentences.

use crate::order::Unreadable;
use request_handlers::Stop;
use thiserror::Error;

/// Why a line ends its script.
#[derive(Clone, Copy, Debug, PartialEq, Eq, Error)]
pub(crate) enum Cause {
    /// It can't be read.
    #[error(transparent)]
    Unreadable(Unreadable),
    /// The core took no event.
    #[error(transparent)]
    Stop(Stop),
}

/// Why a run ends before its input is answered to the end.
#[derive(Clone, Copy, Debug, PartialEq, Eq, Error)]
pub(crate) enum Early {
    /// A read failed.
    #[error("the input can't be read")]
    Read,
    /// The input has more than 1,073,741,824 bytes.
    #[error("the input has more than 1,073,741,824 bytes")]
    TooLong,
    /// A write failed.
    #[error("the answer can't be written")]
    Write,
    /// An allocation failed where the input or the settings were read, or the core was opened.
    #[error("there is not enough memory for the settings")]
    Settings,
    /// An allocation failed at a line of the script.
    #[error("there is not enough memory for the next line of the script")]
    Script,
}
