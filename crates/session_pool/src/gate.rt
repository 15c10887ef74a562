//! Who is called round each frame, and after the last.

use crate::end_reason::EndReason;
use request_handlers::Receipt;
use wire_types::{Bytes, Text};

/// Is called round the reading and answering of each frame, while no core is locked; whoever calls waits until it returns. A
/// session's frames are counted from 0.
pub trait Gate {
    /// Is called before a frame of a session is read, so before it is known whether one comes.
    fn before(&self, session: u64, frame: u64);

    /// Is called once a request of a user has its receipt, before its answer is written.
    fn answered(&self, _receipt: &Receipt) {}

    /// Is called once in a session, after the login's answer was written: from here on the session's user is known. `who` is the
    /// principal, `User:NAME`.
    fn logged_in(&self, _session: u64, _who: &Text) {}

    /// Is called after each `before`: once the frame was answered, or the session ended on it or since none came.
    fn after(&self, session: u64, frame: u64);

    /// Is called before the session ends on a frame that is no request that is served, with what is kept of the frame: all of it,
    /// or its first eight bytes.
    fn malformed(&self, _session: u64, _kept: &[u8]) {}

    /// Is called before the session ends on a frame since its login fails, or its api may not be asked before the login: with
    /// what is kept of the frame, all or its first eight bytes, and whether it is answered. A frame out of order isn't.
    fn refused(&self, _session: u64, _kept: &Bytes, _is_answered: bool) {}

    /// Is called once the session has ended, by those who call `serve_session`, not by itself: with the peer's host, the
    /// principal that had logged in, if one had, and why the session ended.
    fn ended(&self, _session: u64, _host: &Text, _who: Option<&Text>, _why: EndReason) {}

    /// Is called in place of `ended` where more is known of the reason than `why` tells: `_words` say it.
    fn ended_as(
        &self,
        session: u64,
        host: &Text,
        who: Option<&Text>,
        why: EndReason,
        _words: &str,
    ) {
        self.ended(session, host, who, why);
    }
}

/// Does nothing when it is called.
impl Gate for () {
    fn before(&self, _session: u64, _frame: u64) {}

    fn after(&self, _session: u64, _frame: u64) {}
}
