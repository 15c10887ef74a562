//! What the server prints.

ghost use Rattle.std.specs.Prelude.{◌≡◌, IfOk, string_bytes};
ghost use Rattle.broker_server.specs.Lines.{unbegun_line, listening_line, settled_line, failure_line};

use session_workers::{PoolFault, SettleFault, Settled};
use std::alloc::{AllocError, Global};
use thiserror::Error;

/// Why a server isn't begun.
#[derive(Clone, Copy, Debug, PartialEq, Eq, Error)]
pub(crate) enum Unbegun {
    /// The listener can't tell its address.
    #[error("the listener can't tell where it listens")]
    NoAddress,
    /// Memory was refused for the first line.
    #[error("there is not enough memory for the first line")]
    NoMemory,
}

impl Unbegun {
    /// The only line that a server prints which isn't begun: `listen failed`, or `settings refused: NoMemory`.
    pub(crate) fn line(self) -> &'static str
        ensures { result.now ≡ unbegun_line self }
    {
        match self {
            Unbegun::NoAddress => "listen failed\n",
            Unbegun::NoMemory => "settings refused: NoMemory\n",
        }
    }
}

/// Why the books are not settled.
#[derive(Clone, Copy, Debug, PartialEq, Eq, Error)]
pub(crate) enum Failure {
    /// The sessions' ends were given up, or nothing was served.
    #[error(transparent)]
    Pool(#[from] PoolFault),
    /// Receipts and trail don't agree.
    #[error(transparent)]
    Settle(#[from] SettleFault),
}

/// The first line, `listening on ADDRESS`.
pub(crate) fn listening_line(alloc: Global, address: &str) -> Result<String, AllocError>
    ensures { IfOk result (λ text. string_bytes text ≡ listening_line address.now) }
{
    format!(in alloc; "listening on {address}\n")
}

/// The last line, where the books are settled: `sessions S events E refusals R`. The error is an allocation failure.
pub(crate) fn settled_line(
    alloc: Global,
    sessions: u64,
    settled: Settled,
) -> Result<String, AllocError>
    ensures { IfOk result (λ text. string_bytes text ≡ settled_line sessions settled) }
{
    let Settled { events, refusals } = settled;
    let mut line = format!(in alloc; "sessions {sessions}")?;
    line.push_str(format!(in alloc; " events {events}")?.as_str())?;
    line.push_str(format!(in alloc; " refusals {refusals}\n")?.as_str())?;
    Ok(line)
}

/// The last line, where the books can't be settled: `settle failed: FAULT`.
pub(crate) fn failure_line(alloc: Global, failure: Failure) -> Result<String, AllocError>
    ensures { IfOk result (λ text. string_bytes text ≡ failure_line failure) }
{
    let name = match failure {
        Failure::Pool(fault) => fault.name(),
        Failure::Settle(fault) => fault.name(),
    };
    format!(in alloc; "settle failed: {name}\n")
}
