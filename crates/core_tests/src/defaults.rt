//! What settings are where their text leaves something out, and that `Core::open` checks settings itself.

use request_handlers::Core;
use settings::OpenFault;
use settings_text::{Document, document_of_text};
use std::alloc::Global;
use std::test::Fail;

/// The three keys that must be there.
const REQUIRED: &str = "node_id = 1\nhost = \"broker\"\nport = 9092\n";

/// Settings of three keys have no users, super users, topics or ACLs, and the usual limits.
#[test]
fn what_is_left_out(rt: HostRuntime) -> Result<(), Fail> {
    let Document { users, settings } = document_of_text(rt.alloc(), REQUIRED.as_bytes())
        .ok()
        .ok_or("settings")?;
    let settings = settings.settings();
    assert!(rt;
        settings.node_id == 1 && settings.host.as_str() == "broker" && settings.port == 9_092
    );
    let lists = [
        users.as_slice().len(),
        settings.supers.len(),
        settings.topics.len(),
        settings.acls.len(),
    ];
    assert!(rt; lists == [0; 4]);
    assert!(rt; settings.trail_limit == 1_048_576);
    assert!(rt; settings.max_batch == 1_048_588);
    assert!(rt; settings.max_txn_timeout == 900_000);
    Ok(())
}

/// Why `Core::open` opens no core with the settings of `REQUIRED` and this port; `None` where it opens one.
fn fault_of(alloc: Global, port: i64) -> Result<Option<OpenFault>, Fail> {
    let Document { settings, .. } = document_of_text(alloc, REQUIRED.as_bytes())
        .ok()
        .ok_or("settings")?;
    let mut settings = settings.into_settings();
    settings.port = port;
    Ok(Core::open(alloc, settings).err())
}

/// `Core::open` checks its settings: port 0 is out of range.
#[test]
fn plain_settings_are_checked(rt: HostRuntime) -> Result<(), Fail> {
    assert_eq!(rt; fault_of(rt.alloc(), 9_092)?, None);
    assert_eq!(rt; fault_of(rt.alloc(), 0)?, Some(OpenFault::Range));
    Ok(())
}
