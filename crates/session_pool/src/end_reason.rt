//! Why a session, or the keeper, ends.

use frame_streams::FrameFault;
use request_handlers::Stop;
use thiserror::Error;

/// Why a session, or the keeper, ended.
#[derive(Clone, Copy, Debug, PartialEq, Eq, Error)]
pub enum EndReason {
    /// The input ended between frames. Of the keeper: it had no further step.
    #[error("the connection was closed between two requests")]
    Closed,
    /// The input ended inside a frame.
    #[error("the connection was closed inside a request")]
    Cut,
    /// A read failed, or was interrupted more than 1,000 times in a row.
    #[error("a read failed")]
    ReadFault,
    /// A write failed, or was interrupted more than 1,000 times in a row.
    #[error("a write failed")]
    WriteFault,
    /// A frame's size is below 8 or above the limit.
    #[error("a frame is shorter than a request can be, or longer than the limit")]
    BadFrame,
    /// A frame isn't a request that is served, or before a login it is longer than any that is served there.
    #[error("a frame is no request that is served")]
    Malformed,
    /// The login failed, or a frame asked an api that may not be asked before the login.
    #[error("the login failed, or something was asked before it")]
    Login,
    /// The core didn't take an event.
    #[error(transparent)]
    Stopped(Stop),
    /// As many frames were served as a session may send.
    #[error("as many requests were served as one connection may ask")]
    Limit,
    /// An allocation failed.
    #[error("there is not enough memory")]
    NoMemory,
    /// A reply is longer than its size field can tell, or a text or list in it than its length field.
    #[error("a reply is longer than a response can be")]
    TooLong,
}

impl From<FrameFault> for EndReason {
    ghost use Rattle.std.specs.Prelude.{◌≡◌};
    ghost use Rattle.session_pool.specs.Frames.{why_none_comes};

    ghost from_gives = { λ fault why. why ≡ why_none_comes fault };

    /// Why a session ends for which no frame comes.
    fn from(fault: FrameFault) -> EndReason {
        match fault {
            FrameFault::Closed => EndReason::Closed,
            FrameFault::Cut => EndReason::Cut,
            FrameFault::ReadFault => EndReason::ReadFault,
            FrameFault::BadFrame => EndReason::BadFrame,
            FrameFault::NoMemory => EndReason::NoMemory,
        }
    }
}
