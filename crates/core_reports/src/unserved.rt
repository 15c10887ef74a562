//! What an operator reads of a frame that is no request that is served.

use msg_admin::{ApiKey, ServedApi};
use std::alloc::Global;

/// The api key and the version that a frame asks: its first four bytes, after the size field. `None` where it has fewer.
pub fn asked(kept: &[u8]) -> Option<(i16, i16)> {
    match kept {
        [a, b, c, d, ..] => { Some((i16::from_be_bytes([*a, *b]), i16::from_be_bytes([*c, *d]))) }
        _ => None,
    }
}

/// The name that the protocol guide gives the api with this key; `None` where it isn't served, or after an allocation failure.
pub fn api_name(alloc: Global, number: i16) -> Option<String> {
    let key = ApiKey::of(number)?;
    format!(in alloc; "{key:?}").ok()
}

/// Which api a frame asks, in words, and that it isn't served, or which of its versions are, or, where this version is, that the
/// rest of the frame is no such request. `None` where the frame has fewer than four bytes, or after an allocation failure.
pub fn unserved_words(alloc: Global, kept: &[u8]) -> Option<String> {
    let (number, version) = asked(kept)?;
    let Some(key) = ApiKey::of(number) else {
        return format!(in alloc; "asks api {number}, which isn't served").ok();
    };
    let ServedApi { first, last, .. } = key.served();
    let words = if key.serves(version) {
        format!(in alloc;
            "asks {key:?} in version {version}, and the rest of its frame is no such request"
        )
    } else if first == last {
        format!(in alloc; "asks {key:?} in version {version}, which isn't served: {first} is")
    } else {
        format!(in alloc;
            "asks {key:?} in version {version}, which isn't served: {first} to {last} are"
        )
    };
    words.ok()
}
