//! Whole frames, as they travel.

use msg_admin::{Api, ApiKey, Header, Reply, read_request, write_reply, write_request};
use msg_data::ProduceReply;
use std::alloc::Global;
use std::test::Fail;
use wire_types::{Boxed, Bytes, Items, Malformed, ReadFault};

/// Asks for all topics.
const ALL_TOPICS: &[u8] =
    b"\x00\x00\x00\x0e\x00\x03\x00\x01\x00\x00\x00\x01\xff\xff\xff\xff\xff\xff";

/// The header of a request's frame, and whether the request is written as the same frame; `None` if it can't be read or
/// written.
fn comes_back(alloc: Global, frame: &[u8]) -> Option<(Header, bool)> {
    let (_size, bytes) = frame.split_at(frame.len().min(4));
    let bytes = Bytes::copy_from_slice(alloc, bytes).ok()?;
    let Ok((header, request)) = read_request(alloc, &bytes) else {
        return None;
    };
    let written = write_request(alloc, &header, &request);
    drop(request);
    let is = written.ok()?.as_slice() == frame;
    Some((header, is))
}

/// The header of a Metadata is read, and the request is written as the frame that came.
#[test]
fn a_header(rt: HostRuntime) {
    let header = Header::new(Api::in_last_version(ApiKey::Metadata), 1, None);
    assert!(rt; comes_back(rt.alloc(), ALL_TOPICS) == Some((header, true)));
}

/// Whether nothing is sent for a reply; `None` if it can't be written.
fn is_silent(alloc: Global, reply: Reply) -> Option<bool> {
    let written = write_reply(alloc, 9, &reply);
    drop(reply);
    Some(written.ok()?.is_empty())
}

/// Nothing is sent for a Produce with acks 0, a mark and a tick.
#[test]
fn silent_replies(rt: HostRuntime) -> Result<(), Fail> {
    let alloc = rt.alloc();
    let produced = ProduceReply {
        topics: Items::new(alloc),
        throttle: 0,
    };
    let produced = Boxed::new(alloc, produced)?;
    assert!(rt; is_silent(alloc, Reply::SilentProduce(produced)) == Some(true));
    assert!(rt; is_silent(alloc, Reply::Marked { left: 2 }) == Some(true));
    assert!(rt; is_silent(alloc, Reply::Idle) == Some(true));
    assert!(rt; is_silent(alloc, Reply::Ticked { left: 3 }) == Some(true));
    Ok(())
}

/// Each api is found by its key in the versions that are served, and in no others.
#[test]
fn apis(rt: HostRuntime) {
    for (number, version, key) in [
        (3, 1, Some(ApiKey::Metadata)),
        (3, 0, None),
        (1, 3, None),
        (1, 4, Some(ApiKey::Fetch)),
        (25, 0, Some(ApiKey::AddOffsetsToTxn)),
        (25, 1, None),
        (26, -1, None),
        (26, 0, Some(ApiKey::EndTxn)),
        (26, 5, Some(ApiKey::EndTxn)),
        (26, 6, None),
        (27, 0, None),
        (18, 0, Some(ApiKey::ApiVersions)),
        (18, 3, None),
        (28, 2, None),
        (28, 3, Some(ApiKey::TxnOffsetCommit)),
    ] {
        let found = Api::of(number, version);
        assert_eq!(rt; found.map(|api| api.key()), key, "{number} {version}");
        assert_eq!(rt; found, key.and_then(|key| Api::in_version(key, version)));
    }
    assert_eq!(rt; ApiKey::Metadata.number(), 3);
    assert_eq!(rt; Api::in_last_version(ApiKey::Metadata).version(), 1);
}

/// The fault of a frame without its size field, given in hexadecimal digits; `None` if it is a request that is served.
fn fault_of(alloc: Global, digits: &str) -> Result<Option<ReadFault>, Fail> {
    let frame = Bytes::from_vec(hex::decode(alloc, digits)?)?;
    Ok(read_request(alloc, &frame).err())
}

/// A Metadata is refused that counts more topics than it has bytes, has a byte after its body, ends before its client's id, or is
/// of a version that isn't served; and so is a key of no api.
#[test]
fn frames_that_are_no_requests(rt: HostRuntime) -> Result<(), Fail> {
    for (digits, fault) in [
        ("0003000100000001ffff7fffffff0000", Malformed::Short),
        ("0003000100000001ffffffffffff00", Malformed::Rest),
        ("0003000100000001", Malformed::Short),
        ("0063000100000001ffff", Malformed::Unknown),
        ("0003000200000001ffffffffffff", Malformed::Unknown),
    ] {
        assert!(rt;
            fault_of(rt.alloc(), digits)? == Some(ReadFault::Malformed(fault)),
            "{digits}"
        );
    }
    assert!(rt; fault_of(rt.alloc(), "0003000100000001ffffffffffff")?.is_none());
    Ok(())
}
