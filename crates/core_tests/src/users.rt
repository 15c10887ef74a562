//! Which users settings may have.

use settings_text::{SettingsFault, User, Users};
use std::alloc::{AllocError, Global};
use std::test::Fail;
use wire_types::{Items, Text};

/// A list of users with these names and passwords, unchecked.
fn users_of(alloc: Global, users: &[(&str, &str)]) -> Result<Items<User>, AllocError> {
    let mut list = Items::new(alloc);
    for (name, password) in users {
        list.push(User {
            name: Text::of(alloc, name)?,
            password: Text::of(alloc, password)?,
        })?;
    }
    Ok(list)
}

/// The fault for which `Users::new` refuses these names and passwords; `None` where it takes them.
fn fault_of(alloc: Global, users: &[(&str, &str)]) -> Result<Option<SettingsFault>, AllocError> {
    Ok(Users::new(alloc, users_of(alloc, users)?).err())
}

/// No user's name may stand twice, whatever the passwords, and neither a name nor a password may be empty or hold a NUL.
#[test]
fn who_may_log_in(rt: HostRuntime) -> Result<(), Fail> {
    let fault = Some(SettingsFault::User);
    let two = [("ann", "pw"), ("bob", "pw")];
    assert_eq!(rt; fault_of(rt.alloc(), &two)?, None);
    assert_eq!(rt;
        fault_of(rt.alloc(), &[("ann", "pw"), ("ann", "pw")])?,
        fault
    );
    let apart = [("ann", "pw"), ("bob", "pw"), ("ann", "other")];
    assert_eq!(rt; fault_of(rt.alloc(), &apart)?, fault);
    for user in [("", "pw"), ("ann", ""), ("a\0", "pw"), ("ann", "p\0w")] {
        assert_eq!(rt; fault_of(rt.alloc(), &[user])?, fault, "{user:?}");
    }
    Ok(())
}
