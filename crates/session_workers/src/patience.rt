//! Answers that are held back.

use audit_trail::Event;
use msg_admin::{Reply, Request};
use request_handlers::Receipt;
use session_pool::{EndReason, Gate};
use std::time;
use std::time::Duration;
use wire_types::{Bytes, ErrorCode, Text};

/// For how long the answer to a Fetch that brings no record and no error may be held back: the request's `max_wait_ms`. `None`
/// for any other answer, or where `max_wait_ms` is negative.
fn wait_of(receipt: &Receipt) -> Option<Duration> {
    let Event::Ask {
        request: Request::Fetch(request),
        ..
    } = receipt.event()
    else {
        return None;
    };
    let Reply::Fetch(reply) = receipt.reply() else {
        return None;
    };
    for topic in reply.value().topics.as_slice() {
        for part in topic.partitions.as_slice() {
            if part.records.len() > 0 || part.error != ErrorCode::None {
                return None;
            }
        }
    }
    u64::try_from(request.value().max_wait)
        .ok()
        .map(Duration::from_millis)
}

/// A gate that holds back the answer to a Fetch without a record and without an error, up to `most`, and leaves all else to
/// another gate. A client that is answered at once that there is nothing asks again at once (Kafka protocol guide, "Fetch API
/// (Key: 1)": `max_wait_ms`).
#[derive(Drop)]
pub(crate) struct Patient<'x, R, G> {
    rt: &'x R,
    gate: &'x G,
    most: Option<Duration>,
}

impl<'x, R, G> Patient<'x, R, G> {
    /// A gate that holds such answers back for `most` at most; with `None` it holds none back.
    pub(crate) fn new(rt: &'x R, gate: &'x G, most: Option<Duration>) -> Patient<'x, R, G> {
        Patient { rt, gate, most }
    }
}

impl<'x, R: time::Clock, G: Gate> Gate for Patient<'x, R, G> {
    /// Tells the other gate that a frame is about to be read.
    fn before(&self, session: u64, frame: u64) {
        self.gate.before(session, frame);
    }

    /// Tells the other gate of the receipt. Where the answer is a Fetch's without a record and without an error, it then sleeps
    /// as long as the request's `max_wait_ms` says, up to `most`. The log isn't looked at again: records that are produced
    /// meanwhile neither end the wait nor come into the answer, and `min_bytes` has no effect.
    fn answered(&self, receipt: &Receipt) {
        self.gate.answered(receipt);
        if let (Some(most), Some(wait)) = (self.most, wait_of(receipt)) {
            self.rt.sleep(wait.min(most));
        }
    }

    /// Tells the other gate whose session it is, once its user is known.
    fn logged_in(&self, session: u64, who: &Text) {
        self.gate.logged_in(session, who);
    }

    /// Tells the other gate that a frame was answered, or has ended the session.
    fn after(&self, session: u64, frame: u64) {
        self.gate.after(session, frame);
    }

    /// Tells the other gate of a frame that is no request that is served.
    fn malformed(&self, session: u64, kept: &[u8]) {
        self.gate.malformed(session, kept);
    }

    /// Tells the other gate of a frame that has ended the session, since its user isn't known.
    fn refused(&self, session: u64, kept: &Bytes, is_answered: bool) {
        self.gate.refused(session, kept, is_answered);
    }

    /// Tells the other gate that the session has ended, and why.
    fn ended(&self, session: u64, host: &Text, who: Option<&Text>, why: EndReason) {
        self.gate.ended(session, host, who, why);
    }

    /// Tells the other gate that the session has ended, and why, in these words.
    fn ended_as(&self, session: u64, host: &Text, who: Option<&Text>, why: EndReason, words: &str) {
        self.gate.ended_as(session, host, who, why, words);
    }
}
