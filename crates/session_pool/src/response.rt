//! The response to a request. A long one is written part after part from its reply, so that its bytes are never all in memory: a
//! Metadata of 15 KB asks for 130 MB, and what a Fetch answers stands in the log.

ghost use Rattle.std.specs.Prelude.{◌≡◌, Err};
ghost use Rattle.wire_types.specs.declared.fault.WriteFault.TheVariants as faults;
ghost use Rattle.byte_streams.specs.Device.{Wrote};
ghost use Rattle.msg_admin.specs.Response.{GivesReply, IsTooLong};

use byte_streams::write_whole;
use frame_streams::{SendFault, long_front, send_topics};
use msg_admin::{Reply, write_reply};
use request_handlers::Receipt;
use std::alloc::Global;
use std::io::Write;
use std::marker::Model;
use wire_types::{Bytes, Shared, WriteFault};

/// The bytes that are sent for a reply.
pub(crate) struct Response {
    /// The whole response, or what stands before the topics of a long one.
    front: Bytes,
    /// The reply whose topics follow; `None` where the front is all.
    rest: Option<Shared<Reply>>,
}

impl Model for Response {
    ghost use Rattle.std.specs.Prelude.{List, ℕ, ◌++◌};
    ghost use Rattle.session_pool.specs.Responses.{rest_of};

    ghost Value = { List ℕ };

    ghost view = { λ r. r.front ++ rest_of r.rest };
}

impl Drop for Response {
    fn drop(self) {
        let Response {
            front: _front,
            rest: _rest,
        } = self;
    }
}

impl Response {
    /// The response to a request, from its receipt's reply, under this correlation id; empty for a reply that isn't sent. The
    /// error is `TooLong`, or `NoMemory` after an allocation failure.
    pub(crate) fn of(
        alloc: Global,
        correlation: i32,
        receipt: &Receipt,
    ) -> Result<Response, WriteFault>
        ensures decided { GivesReply correlation receipt.now.reply result }
        ensures too_long { result ≡ Err faults.TooLong → IsTooLong correlation receipt.now.reply }
    {
        if let Some(front) = long_front(alloc, correlation, receipt.reply())? {
            return Ok(Response {
                front,
                rest: Some(receipt.share_reply()?),
            });
        }
        Ok(Response {
            front: write_reply(alloc, correlation, receipt.reply())?,
            rest: None,
        })
    }

    /// Writes the response. After an error some of it may be written, from the front.
    pub(crate) fn send<W: Write>(&self, alloc: Global, writer: &mut W) -> Result<(), SendFault>
        ensures { Wrote (W.contents writer.old) (W.contents writer.new) self.now result }
    {
        write_whole(writer, self.front.as_slice())?;
        match &self.rest {
            None => Ok(()),
            Some(reply) => send_topics(alloc, writer, reply.value()),
        }
    }
}
