//! Who may log in.

ghost use Rattle.std.specs.Prelude.{◌≡◌, ◌==◌, true, not, length, Ok, Err, if◌then◌else◌, IfOk};
ghost use Rattle.std.specs.List.{list_all};
ghost use Rattle.settings_text.specs.declared.fault.SettingsFault.TheVariants as faults;
ghost use Rattle.settings_text.specs.Users.{is_word, is_user, are_distinct, are_users, Admits};

use crate::document::User;
use crate::fault::SettingsFault;
use std::alloc::{AllocError, Global};
use std::collections::BTreeSet;
use std::marker::Model;
use wire_types::{Items, Text};

/// The users who may log in: no name or password is empty or holds a NUL, and no name stands twice.
#[derive(Debug)]
pub struct Users {
    users: Items<User>,
}

impl Model for Users {
    ghost use Rattle.std.specs.Prelude.{◌≡◌, true, List};
    ghost use Rattle.settings_text.specs.declared.document.User.{User};
    ghost use Rattle.settings_text.specs.Users.{are_users};

    ghost Value = { List User };

    ghost view = { λ u. u.users };

    ghost invariant = { λ u. are_users u.users ≡ true };
}

impl Drop for Users {
    fn drop(self) {
        let Users { users: _users } = self;
    }
}

impl Users {
    /// Checks the users. The fault is `User` if a name or password is empty or holds a NUL, or a name stands twice, and
    /// `NoMemory` on an allocation failure.
    pub fn new(alloc: Global, users: Items<User>) -> Result<Users, SettingsFault>
        ensures { Admits (if are_users users then Ok users else Err faults.User) result }
    {
        match are_users(alloc, users.as_slice()) {
            Ok(true) => Ok(Users { users }),
            Ok(false) => Err(SettingsFault::User),
            Err(_) => Err(SettingsFault::NoMemory),
        }
    }

    /// The users, in the order of the settings.
    pub fn as_slice(&self) -> &[User]
        ensures value { result.now ≡ self.now }
        ensures users { are_users result.now ≡ true }
    {
        self.users.as_slice()
    }

    /// How many users there are.
    pub fn len(&self) -> usize
        ensures { result ≡ length self.now }
    {
        self.users.len()
    }
}

/// Whether no byte is a NUL.
fn has_no_nul(bytes: &[u8]) -> bool
    ensures { result ≡ list_all (λ b. not (b == 0)) bytes.now }
{
    bytes.iter().all(|byte| *byte != 0)
}

/// Whether a text may be a name or a password: it isn't empty, and holds no NUL.
fn is_word(text: &Text) -> bool
    ensures { result ≡ is_word text.now }
{
    !text.is_empty() && has_no_nul(text.as_bytes())
}

/// Whether a user's name and password aren't empty and hold no NUL.
fn is_user(user: &User) -> bool
    ensures { result ≡ is_user user.now }
{
    is_word(&user.name) && is_word(&user.password)
}

/// Whether no user's name or password is empty or holds a NUL.
fn are_words(users: &[User]) -> bool
    ensures { result ≡ list_all is_user users.now }
{
    users.iter().all(|user| is_user(user))
}

/// Whether no name stands twice. An ordered set of the names so far finds it out, since there may be many users. An
/// `AllocError` is an allocation failure.
fn are_distinct(alloc: Global, users: &[User]) -> Result<bool, AllocError>
    ensures { IfOk result (λ b. b ≡ are_distinct users.now) }
{
    let mut names = BTreeSet::new(alloc);
    for user in users {
        if !names.insert(user.name.as_str())? {
            return Ok(false);
        }
    }
    Ok(true)
}

/// Whether names and passwords aren't empty and hold no NUL, and no name stands twice. An `AllocError` is an allocation
/// failure.
fn are_users(alloc: Global, users: &[User]) -> Result<bool, AllocError>
    ensures { IfOk result (λ b. b ≡ are_users users.now) }
{
    if !are_words(users) {
        return Ok(false);
    }
    are_distinct(alloc, users)
}
