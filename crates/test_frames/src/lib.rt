//! What the tests of several crates send to a broker, in hexadecimal digits, and what it has to answer.
#![tactic(auto)]

mod frames;

pub use frames::{
    FETCH, FETCH_TOLD, HANDSHAKE, HANDSHAKE_TOLD, LOGIN, LOGIN_TOLD, METADATA, METADATA_TOLD,
    ONE_REFUSED, PRODUCE, PRODUCE_TOLD, TWO_REFUSED, bytes_of, core, core_of, event_by, event_of,
    other_core, users,
};
