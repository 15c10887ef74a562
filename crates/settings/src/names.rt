//! Names of topics.

ghost use Rattle.std.specs.Prelude.{◌≡◌};
ghost use Rattle.std.specs.List.{list_all};
ghost use Rattle.settings.specs.Names.{is_name_byte, is_topic_name};

/// Whether the byte may stand in a topic's name: an ASCII letter or digit, `.`, `_` or `-`.
fn is_name_byte(byte: u8) -> bool
    ensures { result ≡ is_name_byte byte }
{
    byte.is_ascii_alphanumeric() || byte == b'.' || byte == b'_' || byte == b'-'
}

/// Whether each byte may stand in a topic's name; so of no bytes too.
fn are_name_bytes(bytes: &[u8]) -> bool
    ensures { result ≡ list_all is_name_byte bytes.now }
{
    bytes.iter().all(|byte| is_name_byte(*byte))
}

/// Whether a topic may have the name: 1 to 249 ASCII letters, digits, `.`, `_` and `-`, and neither `.` nor `..`.
pub fn is_topic_name(name: &str) -> bool
    ensures { result ≡ is_topic_name name.now }
{
    if name.is_empty() || name.len() > 249 {
        return false;
    }
    if name == "." || name == ".." {
        return false;
    }
    are_name_bytes(name.as_bytes())
}
