//! The users who may log in, as a login looks for one.

ghost use Rattle.std.specs.Prelude.{◌≡◌, ◌-◌, ◌^◌, min, option_map};
ghost use Rattle.std.specs.List.{find};
ghost use Rattle.sasl_login.specs.LoginMessage.{is_user, length_of_login, longest_login};

use crate::compare::are_same;
use settings_text::{User, Users};

/// How many bytes the longest PLAIN message has that logs this user in: the name twice, the password and two NULs; at most
/// `usize::MAX`.
fn length_of_login(user: &User) -> usize
    ensures { result ≡ min (length_of_login user.now) (2 ^ 64 - 1) }
{
    let name = user.name.len();
    let names = name.saturating_add(name);
    names.saturating_add(user.password.len()).saturating_add(2)
}

/// Whether a user has this name and this password. Both are compared in full, so that the time doesn't tell which is wrong.
fn has(user: &User, name: &[u8], password: &[u8]) -> bool
    ensures { result ≡ is_user name.now password.now user.now }
{
    let is_named = are_same(name, user.name.as_bytes());
    let is_right = are_same(password, user.password.as_bytes());
    is_named && is_right
}

/// The user of this name and password; `None` without one. Each user is looked at, whether one was found or not.
pub(crate) fn find_user<'u>(users: &'u Users, name: &[u8], password: &[u8]) -> Option<&'u User>
    ensures { option_map (λ u. u.now) result ≡ find (is_user name.now password.now) users.now }
{
    let mut found = None;
    for user in users.as_slice() {
        if has(user, name, password) {
            found = found.or(Some(user));
        }
    }
    found
}

/// How many bytes the longest PLAIN message has that logs one of the users in; 0 without users, at most `usize::MAX`.
#[tactic(auto, using(crate::proofs::Longest::none_so_far, crate::proofs::Longest::one_more, crate::proofs::Longest::all_seen))]
pub fn longest_login(users: &Users) -> usize
    ensures { result ≡ min (longest_login users.now) (2 ^ 64 - 1) }
{
    let mut longest = 0;
    for user in users.as_slice() {
        longest = longest.max(length_of_login(user));
    }
    longest
}
