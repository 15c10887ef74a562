//! The program's commands.

/// Which command is run on an input, and what the input holds.
#[derive(Clone, Copy, Debug, PartialEq, Eq)]
pub(crate) enum Command {
    /// `replay`: settings and a script, which is answered.
    Replay,
    /// `check`: settings, which are checked.
    Check,
}
