//! How the showing of a script ends.

use commands::Unreadable;
use request_handlers::Stop;
use settings_text::SettingsFault;
use std::alloc::AllocError;
use thiserror::Error;

/// How far a script was shown.
#[derive(Clone, Copy, Debug, PartialEq, Eq)]
pub enum Shown {
    /// To its end.
    Whole,
    /// Not at all, since its settings are refused.
    Refused(SettingsFault),
    /// Up to the line of this number, counted from 1, which can't be read.
    Unreadable(u64, Unreadable),
    /// Up to the line of this number, counted from 1, at which the broker stops.
    Stopped(u64, Stop),
}

/// Why the showing of a script was given up.
#[derive(Clone, Copy, Debug, PartialEq, Eq, Error)]
pub enum ShowFault {
    /// An allocation failed.
    #[error("there is not enough memory for the next line of the script")]
    NoMemory,
    /// A write failed.
    #[error("the answer can't be written")]
    Write,
}

impl From<AllocError> for ShowFault {
    /// An allocation failure is the fault `NoMemory`.
    fn from(_error: AllocError) -> ShowFault {
        ShowFault::NoMemory
    }
}
