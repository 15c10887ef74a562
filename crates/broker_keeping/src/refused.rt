//! What an operator reads of a frame that ends a session whose user isn't known.

use audit_trail::push_word;
use core_reports::{api_name, asked};
use msg_admin::{Request, read_request};
use session_pool::name_in;
use std::alloc::{AllocError, Global};
use std::str::from_utf8;
use wire_types::Bytes;

/// The api keys of SaslHandshake and SaslAuthenticate.
const LOGIN_KEYS: [i16; 2] = [17, 36];

/// Appends which api a frame asks that may not be asked before the login: `asks Metadata before its login`; or
/// `asks SaslAuthenticate out of its order`, if the api belongs to the login.
fn push_api_before_login(alloc: Global, words: &mut String, key: i16) -> Result<(), AllocError> {
    match api_name(alloc, key) {
        Some(name) => words.push_str(format!(in alloc; "asks {name}")?.as_str())?,
        None => words.push_str(format!(in alloc; "asks api {key}")?.as_str())?,
    }
    if LOGIN_KEYS.contains(&key) {
        words.push_str(" out of its order")
    } else {
        words.push_str(" before its login")
    }
}

/// How many bytes of a name are logged, if it has no more.
const MOST_OF_NAME: usize = 249;

/// Appends a blank and the name, percent-encoded; of a name of more than 249 bytes the first 64 characters, and `..`.
fn push_name(alloc: Global, words: &mut String, name: &str) -> Result<(), AllocError> {
    if name.len() <= MOST_OF_NAME {
        return push_word(words, name);
    }
    push_word(words, format!(in alloc; "{name:.64}..")?.as_str())
}

/// Appends why a SaslAuthenticate was refused: its message is no PLAIN message, its name is not UTF-8, or no user has its name
/// and password, which is also said where its authzid is another name. The name is percent-encoded, and the password isn't told.
fn push_login(alloc: Global, words: &mut String, message: &[u8]) -> Result<(), AllocError> {
    let Some(name) = name_in(message) else {
        return words.push_str("sends a login that is no PLAIN message");
    };
    let Ok(name) = from_utf8(name) else {
        return words.push_str("sends a login whose name is not UTF-8");
    };
    words.push_str("logs in as")?;
    push_name(alloc, words, name)?;
    words.push_str(": no user has this name and password")
}

/// Appends why a SaslHandshake or a SaslAuthenticate was refused, of which `kept` came; where that can't be read, that the login
/// is longer than each user's.
fn push_refused(alloc: Global, words: &mut String, kept: &Bytes) -> Result<(), AllocError> {
    let Ok((_header, request)) = read_request(alloc, kept) else {
        return words.push_str("sends a login that is longer than each user's");
    };
    match &request {
        Request::SaslHandshake(message) => {
            words.push_str("asks for the mechanism")?;
            push_name(alloc, words, message.value().mechanism.as_str())?;
            words.push_str(", which isn't offered: PLAIN is")
        }
        Request::SaslAuthenticate(message) => push_login(
            alloc,
            words,
            message.value().auth.as_slice(),
        ),
        _ => words.push_str("isn't logged in"),
    }
}

/// What a session asked before its login, or, where the frame was answered, why its login failed, in words; `None` after an
/// allocation failure, or where `kept` has fewer than four bytes.
pub(crate) fn refused_words(alloc: Global, kept: &Bytes, is_answered: bool) -> Option<String> {
    let (key, _version) = asked(kept.as_slice())?;
    let mut words = String::new(alloc);
    if is_answered {
        push_refused(alloc, &mut words, kept).ok()?;
    } else {
        push_api_before_login(alloc, &mut words, key).ok()?;
    }
    Some(words)
}
