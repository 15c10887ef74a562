//! A connection's bytes: frames that are read from a reader, and long answers that are written part after part.
//!
//! `FrameReader` cuts what a reader gives into frames by their size fields (Kafka protocol guide, "Common Request and Response
//! Structure"), and takes memory for what came, never for what a size field announces. `long_front` and `send_topics` write a
//! Metadata or a Fetch of more than 65,536 bytes, whose bytes are never all in memory.
#![tactic(auto)]

mod fault;
mod frame;
mod long_response;
mod streamed;

pub use fault::FrameFault;
pub use frame::{Came, FrameReader};
pub use long_response::{long_front, send_topics};
pub use streamed::SendFault;
