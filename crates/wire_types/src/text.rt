//! A UTF-8 text, which contracts see as its bytes.

ghost use Rattle.std.specs.Prelude.{◌≡◌, ◌↔◌, [], IfOk, IsTrue, IsUtf8, MatchOption, length, string_bytes};

use crate::shared_bytes::Bytes;
use bytes::ByteStr;
use std::alloc::{AllocError, Global};
use std::marker::Model;

/// A UTF-8 text, which contracts see as its bytes. A clone isn't a copy, but one more owner of the same bytes.
#[derive(Debug, Clone)]
pub struct Text {
    shared: ByteStr,
}

impl Model for Text {
    ghost use Rattle.std.specs.Prelude.{List, ℕ};

    ghost Value = { List ℕ };

    ghost view = { λ t. t.shared };
}

impl Drop for Text {
    fn drop(self) {
        let Text { shared: _shared } = self;
    }
}

impl Text {
    /// Copies a text. An error is an allocation failure.
    pub fn of(alloc: Global, text: &str) -> Result<Text, AllocError>
        ensures { IfOk result (λ t. t ≡ text.now) }
    {
        Ok(Text {
            shared: ByteStr::copy_from_str(alloc, text)?,
        })
    }

    /// Takes over the text of a string, without copying it. An error is an allocation failure.
    pub fn from_string(string: String) -> Result<Text, AllocError>
        ensures { IfOk result (λ t. t ≡ string_bytes string) }
    {
        Ok(Text {
            shared: ByteStr::from_string(string)?,
        })
    }

    /// Shared bytes as a text, without copying them; None where they aren't UTF-8.
    pub fn from_shared(bytes: Bytes) -> Option<Text>
        ensures { MatchOption result (¬ (IsUtf8 bytes)) (λ t. (t ≡ bytes) × IsUtf8 bytes) }
    {
        match ByteStr::from_utf8(bytes.into_part()) {
            Ok(shared) => Some(Text { shared }),
            Err(_) => None,
        }
    }

    /// Copies the text into a string of its own. An error is an allocation failure.
    pub fn to_owned(&self, alloc: Global) -> Result<String, AllocError>
        ensures { IfOk result (λ string. string_bytes string ≡ self.now) }
    {
        String::from_str(alloc, self.as_str())
    }

    pub fn as_str(&self) -> &str
        ensures { result.now ≡ self.now }
    {
        self.shared.as_str()
    }

    pub fn as_bytes(&self) -> &[u8]
        ensures { result.now ≡ self.now }
    {
        self.shared.as_bytes().as_slice()
    }

    /// The length in bytes.
    pub fn len(&self) -> usize
        ensures { result ≡ length self.now }
    {
        self.shared.len()
    }

    pub fn is_empty(&self) -> bool
        ensures { IsTrue result ↔ (self.now ≡ []) }
    {
        self.shared.is_empty()
    }
}

impl PartialEq for Text {
    ghost use Rattle.std.specs.Prelude.{◌==◌};
    ghost use Rattle.std.specs.Cmp.{partial_equiv_from_equiv};
    ghost use Rattle.std.specs.Cmp.Lexicographic.{pointwise, nat_list_eq_equiv};

    ghost eq = { pointwise ◌==◌ };

    ghost laws = { partial_equiv_from_equiv nat_list_eq_equiv };

    fn eq(&self, other: &Text) -> bool {
        self.as_str() == other.as_str()
    }
}

impl Eq for Text {
    ghost use Rattle.std.specs.Cmp.Lexicographic.{nat_list_eq_equiv};

    ghost laws = { nat_list_eq_equiv };
}
