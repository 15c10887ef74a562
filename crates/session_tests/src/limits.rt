//! How many frames are served, and how long they may be.

ghost use Rattle.std.specs.Prelude.{◌≤◌};
ghost use Rattle.msg_admin.specs.declared.request.TheConstants.{FRAME_LIMIT as LIMIT};

use crate::clients::{End, METADATA, METADATA_TOLD, serve, serve_gated};
use session_pool::{EndReason, Limits};
use std::alloc::Global;
use std::sync::Wait;
use std::test::Fail;
use test_frames::{HANDSHAKE, HANDSHAKE_TOLD, LOGIN, LOGIN_TOLD, bytes_of};

/// How a session ends that sends these frames, under these limits.
fn end_of<R: Wait + Drop>(
    rt: R,
    alloc: Global,
    frames: &[&str],
    limits: Limits,
) -> Result<End, Fail>
    requires { limits.frame ≤ LIMIT }
{
    let input = bytes_of(alloc, frames)?;
    let mut written = Vec::new(alloc);
    serve(rt, alloc, input.as_slice(), &mut written, limits)
}

/// A session ends with `Limit` after as many frames as its limit says, and its input isn't looked at after them.
#[test]
fn as_many_frames_as_are_served(rt: HostRuntime) -> Result<(), Fail> {
    for frames in 0..5u64 {
        let limits = Limits {
            frame: 8_192,
            frames,
        };
        let end = end_of(rt, rt.alloc(), &[HANDSHAKE, LOGIN, METADATA], limits)?;
        let why = if frames < 4 {
            EndReason::Limit
        } else {
            EndReason::Closed
        };
        let asked = u64::from(frames > 2);
        assert!(rt; end.why == why, "{frames}");
        assert!(rt;
            end.receipts as u64 == asked && end.count == asked,
            "{frames}"
        );
    }
    Ok(())
}

/// The login and one request are answered at any host, and the receipt of the request is at place 0.
#[test]
fn the_first_receipt(rt: HostRuntime) -> Result<(), Fail> {
    let input = bytes_of(rt.alloc(), &[HANDSHAKE, LOGIN, METADATA])?;
    let told = bytes_of(rt.alloc(), &[HANDSHAKE_TOLD, LOGIN_TOLD, METADATA_TOLD])?;
    for host in ["10.0.0.5", "192.168.7.1", "::1"] {
        let mut written = Vec::new(rt.alloc());
        let limits = Limits::default();
        let end = serve_gated(
            rt,
            rt.alloc(),
            host,
            input.as_slice(),
            &mut written,
            limits,
            &(),
        )?;
        assert!(rt;
            end.why == EndReason::Closed && end.receipts == 1 && end.count == 1,
            "{host}"
        );
        assert_eq!(rt; end.place, Some(0), "{host}");
        assert!(rt; written.as_slice() == told.as_slice(), "{host}");
    }
    Ok(())
}

/// A frame as long as the limit is served; one that is longer is a `BadFrame`.
#[test]
fn the_longest_frame(rt: HostRuntime) -> Result<(), Fail> {
    for frame in 15..19u32 {
        let end = end_of(rt, rt.alloc(), &[HANDSHAKE], Limits { frame, frames: 1 })?;
        let why = if frame < 17 {
            EndReason::BadFrame
        } else {
            EndReason::Limit
        };
        assert!(rt; end.why == why, "{frame}");
    }
    Ok(())
}

/// A session may send 1,000,000 frames of up to 104,857,600 bytes each.
#[test]
fn what_is_served_by_default(rt: HostRuntime) -> Result<(), Fail> {
    let limits = Limits::default();
    assert!(rt; limits.frame == 104_857_600 && limits.frames == 1_000_000);
    Ok(())
}
