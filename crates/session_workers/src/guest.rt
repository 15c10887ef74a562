//! Connections that are counted, and that can be ended, as long as they are open.

use admission::Quota;
use session_pool::ShutdownFlag;
use std::alloc::{AllocError, Global};
use std::io;
use std::io::{ErrorKind, Read, Write};
use std::net::{OpenStream, Shutdown, TcpStream};
use std::sync::{Mutex, Wait};
use std::time::Duration;
use wire_types::{Shared, Text};

/// Whether a connection's peer is gone, so that nothing that it hasn't sent yet will come: it is closed from there, and all that
/// came was read, or it is broken. It doesn't wait.
pub(crate) fn is_gone(stream: &TcpStream) -> bool {
    if matches!(stream.take_error(), Ok(Some(_)) | Err(_)) {
        return true;
    }
    if stream.set_nonblocking(true).is_err() {
        return true;
    }
    let seen = stream.peek(&mut [0]);
    if stream.set_nonblocking(false).is_err() {
        return true;
    }
    match seen {
        Ok(count) => count == 0,
        Err(error) => error.kind() != ErrorKind::WouldBlock,
    }
}

/// A connection that counts among those of its host or network, until this is dropped.
pub(crate) struct Counted<'x, R: Wait> {
    rt: &'x R,
    quota: &'x Mutex<Quota>,
    holder: Text,
}

impl<'x, R: Wait> Counted<'x, R> {
    /// Counts one more of a holder, until the result is dropped; `None` where the holder has as many as it may. The error is an
    /// allocation failure, which counts nothing.
    pub(crate) fn enter(
        rt: &'x R,
        alloc: Global,
        quota: &'x Mutex<Quota>,
        holder: &Text,
    ) -> Result<Option<Counted<'x, R>>, AllocError> {
        let holder = holder.clone()?;
        let entered = quota.lock(rt).enter(alloc, &holder)?;
        if entered {
            Ok(Some(Counted { rt, quota, holder }))
        } else {
            Ok(None)
        }
    }
}

impl<'x, R: Wait> Drop for Counted<'x, R> {
    /// Counts one less of the holder.
    fn drop(self) {
        let Counted { rt, quota, holder } = self;
        quota.lock(rt).leave(&holder);
    }
}

/// The stream of a session whose connection is open.
#[derive(Drop)]
struct Open {
    session: u64,
    stream: Shared<TcpStream>,
}

/// The connections that are open, those that wait for a worker among them.
#[derive(Drop)]
pub(crate) struct OpenConnections {
    all: Mutex<Vec<Open>>,
}

impl OpenConnections {
    /// A table without an open connection.
    pub(crate) fn new(alloc: Global) -> OpenConnections {
        OpenConnections {
            all: Mutex::new(Vec::new(alloc)),
        }
    }

    /// Whether no connection is open.
    pub(crate) fn is_empty<R: Wait>(&self, rt: &R) -> bool {
        self.all.lock(rt).is_empty()
    }

    /// The numbers of the sessions whose connections are open. The error is an allocation failure.
    pub(crate) fn sessions<R: Wait>(&self, rt: &R, alloc: Global) -> Result<Vec<u64>, AllocError> {
        let all = self.all.lock(rt);
        all.iter().map(|open| open.session).collect(alloc)
    }

    /// Shuts each open connection down, for reading, or for reading and writing. Threads that wait in such a call go on at once.
    pub(crate) fn shut_down<R: Wait>(&self, rt: &R, how: Shutdown) {
        let all = self.all.lock(rt);
        for open in all.iter() {
            let _ = open.stream.value().shutdown(how);
        }
    }

    /// Takes the connection of this session from the open ones.
    fn leave<R: Wait>(&self, rt: &R, session: u64) {
        self.all.lock(rt).retain(|open| open.session != session);
    }
}

/// A connection that is among the open ones, until this is dropped.
pub(crate) struct Entered<'x, R: Wait> {
    rt: &'x R,
    open: &'x OpenConnections,
    session: u64,
}

impl<'x, R: Wait> Entered<'x, R> {
    /// Puts a session's connection among the open ones, until the result is dropped. The error is an allocation failure.
    pub(crate) fn enter(
        rt: &'x R,
        open: &'x OpenConnections,
        session: u64,
        stream: &Shared<TcpStream>,
    ) -> Result<Entered<'x, R>, AllocError> {
        let stream = stream.share()?;
        open.all.lock(rt).push(Open { session, stream })?;
        Ok(Entered { rt, open, session })
    }
}

impl<'x, R: Wait> Drop for Entered<'x, R> {
    /// Takes the connection from the open ones.
    fn drop(self) {
        let Entered { rt, open, session } = self;
        open.leave(rt, session);
    }
}

/// The reading half of a connection, which is at its end once no further request is read.
#[derive(Drop)]
pub(crate) struct Requests<'x> {
    pub(crate) stream: Shared<TcpStream>,
    pub(crate) reading: &'x ShutdownFlag,
}

impl<'x> Read for Requests<'x> {
    /// Reads from the connection; gives 0, its end, once no further request is read.
    fn read(&mut self, piece: &mut [u8]) -> io::Result<usize> {
        if self.reading.is_closed() {
            return Ok(0);
        }
        let mut stream = self.stream.value();
        stream.read(piece)
    }
}

impl<'x> OpenStream for Requests<'x> {
    /// Sets for how long a read of the connection waits; `None` is without end.
    fn set_read_timeout(&self, time: Option<Duration>) -> io::Result<()> {
        self.stream.value().set_read_timeout(time)
    }
}

/// The writing half of a connection. As long as it isn't dropped, the connection is among the open ones, and counts for its host,
/// where hosts are counted.
#[derive(Drop)]
pub(crate) struct Guest<'x, R: Wait> {
    pub(crate) stream: Shared<TcpStream>,
    pub(crate) entered: Entered<'x, R>,
    pub(crate) counted: Option<Counted<'x, R>>,
}

impl<'x, R: Wait> Write for Guest<'x, R> {
    /// Writes to the connection.
    fn write(&mut self, bytes: &[u8]) -> io::Result<usize> {
        let mut stream = self.stream.value();
        stream.write(bytes)
    }

    /// Flushes the connection.
    fn flush(&mut self) -> io::Result<()> {
        let mut stream = self.stream.value();
        stream.flush()
    }
}

impl<'x, R: Wait> OpenStream for Guest<'x, R> {
    /// Sets for how long a write to the connection waits; `None` is without end.
    fn set_write_timeout(&self, time: Option<Duration>) -> io::Result<()> {
        self.stream.value().set_write_timeout(time)
    }
}
