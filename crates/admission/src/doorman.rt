//! Who is told of connections that wait, or aren't served.

use std::io;
use std::time::Duration;
use wire_types::Text;

/// Is told of connections that wait for a worker, aren't served, or are closed by the server: from any thread, while no core is
/// locked. Whoever tells it doesn't go on before it returns.
pub trait Doorman {
    /// A connection couldn't be accepted. Of failures in a row, only the first is told.
    fn failed(&self, _error: &io::Error) {}

    /// So many connections were taken, as many as are served in all: no more are taken.
    fn used_up(&self, _connections: u64) {}

    /// A connection was closed at once, since its host has as many as it may. The doorman is told of at most one each second.
    fn turned_away(&self, _host: &Text) {}

    /// A connection was closed unserved, since the desk has no seat left for its session. Each of them is told.
    fn unseated(&self) {}

    /// A session is served by a seat that none had before. Each of them is told.
    fn seated(&self) {}

    /// A connection was accepted, and is to be served by one of so many workers, for which it may wait.
    fn taken(&self, _workers: usize) {}

    /// A worker takes a connection of this host, which has waited for it so long.
    fn begun(&self, _host: &Text, _waited: Duration) {}

    /// The server closes the connection of this session, which was still open so long after a stop.
    fn closed(&self, _session: u64, _grace: Duration) {}

    /// Fewer workers could be started than were asked for.
    fn fewer_workers(&self, _started: usize, _asked: usize) {}
}

/// Tells nobody: each method does nothing.
impl Doorman for () {}
