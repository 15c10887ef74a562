//! Why a step did not happen.

ghost use Rattle.std.specs.Prelude.{◌≡◌};
ghost use Rattle.request_handlers.specs.Stop.{stop_line};

use thiserror::Error;

/// Why a step did not happen.
#[derive(Clone, Copy, Debug, PartialEq, Eq, Error)]
pub enum Stop {
    /// Memory was refused. After an event that only reads the core is unchanged, after any other it is down.
    #[error("there is not enough memory")]
    NoMemory = 1,
    /// The trail has as many entries as the settings allow. The core is unchanged.
    #[error("the trail holds as many events as `trail_limit` allows")]
    TrailFull = 2,
    /// An earlier event put the core down. The core is unchanged.
    #[error("an earlier event put the broker down")]
    Down = 3,
}

impl Stop {
    /// The line `stop N` that reports the stop, with its line feed; `N` is 1 to 3.
    pub fn line(self) -> &'static str
        ensures { result.now ≡ stop_line self }
    {
        match self {
            Stop::NoMemory => "stop 1\n",
            Stop::TrailFull => "stop 2\n",
            Stop::Down => "stop 3\n",
        }
    }
}
