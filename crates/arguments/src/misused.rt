//! What can be wrong with the options of `serve`.

/// Which option of `serve` has a value that it can't have, excludes another option that is given, or lacks one that it needs.
#[derive(Clone, Copy, Debug, PartialEq, Eq)]
pub(crate) enum Misused {
    Listen,
    Workers,
    Connections,
    Endless,
    PerHost,
    PerUser,
    For,
    Idle,
    LoginWithin,
    FrameWithin,
    Rate,
    RateBytes,
    Audit,
    Control,
    Grace,
    StopWithInput,
}

impl Misused {
    /// Which values the option takes, or which other options it excludes or needs, in one sentence for the user.
    pub(crate) fn sentence(self) -> &'static str {
        match self {
            Misused::Listen => {
                "--listen takes HOST:PORT, as in 127.0.0.1:9092, with a port from 0 to 65535 and no PLAINTEXT:// before it"
            },
            Misused::Workers => "--workers takes a number from 1 to 64",
            Misused::Connections => "--connections takes a number from 1 to 1000000",
            Misused::Endless => {
                "--endless doesn't go with --connections, which says how many are served in all"
            }
            Misused::PerHost => "--per-host takes a number from 1 to 1000000",
            Misused::PerUser => "--per-user takes a number from 1 to 1000000",
            Misused::For => "--for takes a number of seconds from 1 to 1000000",
            Misused::Idle => "--idle takes a number of seconds from 1 to 1000000",
            Misused::LoginWithin => { "--login-within takes a number of seconds from 1 to 1000000" }
            Misused::FrameWithin => { "--frame-within takes a number of seconds from 1 to 1000000" }
            Misused::Rate => "--rate takes a number of requests from 1 to 1000000000",
            Misused::RateBytes => "--rate-bytes takes a number of bytes from 1 to 1000000000000",
            Misused::Audit => "--audit takes - alone, which is standard error",
            Misused::Control => {
                "--control takes standard input, so --settings names the settings' file; --audit doesn't go with it"
            }
            Misused::Grace => "--grace takes a number of seconds from 0 to 1000000",
            Misused::StopWithInput => {
                "--stop-with-input takes standard input, so --settings names the settings' file; --control doesn't go with it"
            }
        }
    }
}
