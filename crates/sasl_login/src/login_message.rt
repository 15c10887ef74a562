//! The message of a login (RFC 4616, section 2).

ghost use Rattle.std.specs.Prelude.{◌≡◌, IfOk, option_map};
ghost use Rattle.std.specs.List.{position};
ghost use Rattle.sasl_login.specs.LoginMessage.{is_nul, parts_at_nul, plain_of, user_of, principal_of};

use crate::users::{find_user, longest_login};
use settings_text::{User, Users};
use std::alloc::{AllocError, Global};
use wire_types::Text;

/// The place of the first NUL, counted from 0; `None` without one.
fn find_nul(bytes: &[u8]) -> Option<usize>
    ensures { result ≡ position is_nul bytes.now }
{
    bytes.iter().position(|byte| *byte == 0)
}

/// What stands before the first NUL, and after it; `None` without one.
fn cut_at_nul(bytes: &[u8]) -> Option<(&[u8], &[u8])>
    ensures { option_map (λ p. (p.0.now, p.1.now)) result ≡ parts_at_nul bytes.now }
{
    let at = find_nul(bytes)?;
    Some((&bytes[..at], &bytes[at + 1..]))
}

/// The parts of a PLAIN message: authzid, authcid and passwd.
#[derive(Drop)]
struct Plain<'a> {
    authorization: &'a [u8],
    authentication: &'a [u8],
    password: &'a [u8],
}

/// The three parts of a PLAIN message, which its two NULs separate (RFC 4616, section 2). `None` where it has more NULs or fewer.
/// Parts may be empty, and needn't be UTF-8.
fn split_plain(message: &[u8]) -> Option<Plain<'_>>
    ensures { option_map (λ p. (p.authorization.now, p.authentication.now, p.password.now)) result
        ≡ plain_of message.now }
{
    let (authorization, rest) = cut_at_nul(message)?;
    let (authentication, password) = cut_at_nul(rest)?;
    if find_nul(password).is_some() {
        return None;
    }
    Some(Plain {
        authorization,
        authentication,
        password,
    })
}

/// The user whom a PLAIN message logs in: it has that user's name and password, and an authorization identity that is empty or
/// the name. `None` where there is no such user. A message that is longer than each user's is looked at no further: else the work
/// would grow with what is sent.
pub(crate) fn user_of<'u>(users: &'u Users, message: &[u8]) -> Option<&'u User>
    ensures { option_map (λ u. u.now) result ≡ user_of users.now message.now }
{
    if longest_login(users) < message.len() {
        return None;
    }
    let plain = split_plain(message)?;
    if !plain.authorization.is_empty() && plain.authorization != plain.authentication {
        return None;
    }
    find_user(users, plain.authentication, plain.password)
}

/// The name that a PLAIN message tells, its authcid, whether a user has it or not. `None` where the message hasn't exactly two
/// NULs.
pub fn name_in(message: &[u8]) -> Option<&[u8]>
    ensures { option_map (λ name. name.now) result ≡ option_map (λ p. p.1) (plain_of message.now) }
{
    Some(split_plain(message)?.authentication)
}

/// The principal as which a user asks, `User:NAME`.
pub(crate) fn principal_of(alloc: Global, user: &User) -> Result<Text, AllocError>
    ensures { IfOk result (λ who. who ≡ principal_of user.now) }
{
    let name = user.name.as_str();
    Text::from_string(format!(in alloc; "User:{name}")?)
}
