//! Where a frame's first fault stands.

ghost use Rattle.std.specs.Prelude.{◌≡◌, ◌≤◌, length, take, IfOk};
ghost use Rattle.message_words.specs.FaultPlace.{is_short, IsFaultEnd};

use msg_admin::read_request;
use std::alloc::{AllocError, Global};
use wire_types::{Bytes, Malformed, ReadFault};

/// Whether the first `count` bytes of a frame are a request that breaks off: they have no fault but that bytes are missing. The
/// error is an allocation failure.
fn is_short(alloc: Global, frame: &Bytes, count: usize) -> Result<bool, AllocError>
    requires { count ≤ length frame.now }
    ensures { IfOk result (λ short. short ≡ is_short (take count frame.now)) }
{
    match read_request(alloc, &frame.slice(0..count)?) {
        Ok(_) => Ok(false),
        Err(ReadFault::Malformed(Malformed::Short)) => Ok(true),
        Err(ReadFault::Malformed(_)) => Ok(false),
        Err(ReadFault::NoMemory) => Err(AllocError),
    }
}

/// Where the first fault of a malformed frame shows: the least number of leading bytes that are no longer a request which only
/// breaks off. `frame` stands without its size field.
///
/// That is where the field that is at fault ends, a text with its last byte and a count after its own bytes. Where bytes are
/// missing, it is the end of the frame; where bytes follow the body, the end of the body, as for a frame without a fault.
pub fn fault_end(alloc: Global, frame: &Bytes) -> Result<usize, AllocError>
    ensures { IfOk result (λ end. IsFaultEnd frame.now end) }
{
    let mut short = 0;
    let mut enough = frame.len();
    while enough - short > 1 {
        let middle = short + (enough - short) / 2;
        if is_short(alloc, frame, middle)? {
            short = middle;
        } else {
            enough = middle;
        }
    }
    Ok(enough)
}
