//! What can be wrong with a settings text.

ghost use Rattle.std.specs.Prelude.{◌≡◌};
ghost use Rattle.settings_text.specs.Document.{fault_name, text_fault};

use settings::OpenFault;
use thiserror::Error;

/// Why a settings text is refused: the first in this order that holds, over the whole document.
#[derive(Clone, Copy, Debug, PartialEq, Eq, Error)]
pub enum SettingsFault {
    /// The text is no TOML document.
    #[error("the settings are no TOML document")]
    Toml,
    /// A key is missing, unknown or of another kind, or a word of a binding is unknown.
    #[error("a key is missing, unknown or of another kind, or a word of a binding is unknown")]
    Key,
    /// A user's name or password is empty or holds a NUL, or a name stands twice.
    #[error("a user's name or password is empty or holds a NUL, or a name stands twice")]
    User,
    /// A number, a length or a count is out of range.
    #[error("{}", OpenFault::Range)]
    Range,
    /// A topic has a name that Kafka doesn't allow.
    #[error("{}", OpenFault::TopicName)]
    TopicName,
    /// A topic stands twice.
    #[error("{}", OpenFault::Twice)]
    Twice,
    /// An ACL binding is one that CreateAcls may not create.
    #[error("{}", OpenFault::Acl)]
    Acl,
    /// A super user that isn't `User:` and at least one character.
    #[error("{}", OpenFault::Super)]
    Super,
    /// Memory was refused, which may come in place of any.
    #[error("{}", OpenFault::NoMemory)]
    NoMemory,
}

impl SettingsFault {
    /// The fault's name, as `settings refused:` prints it.
    pub fn name(self) -> &'static str
        ensures { result.now ≡ fault_name self }
    {
        match self {
            SettingsFault::Toml => "Toml",
            SettingsFault::Key => "Key",
            SettingsFault::User => "User",
            SettingsFault::Range => "Range",
            SettingsFault::TopicName => "TopicName",
            SettingsFault::Twice => "Twice",
            SettingsFault::Acl => "Acl",
            SettingsFault::Super => "Super",
            SettingsFault::NoMemory => "NoMemory",
        }
    }
}

/// The fault of a settings text by the fault of its settings, which has the same name.
pub(crate) fn text_fault(fault: OpenFault) -> SettingsFault
    ensures { result ≡ text_fault fault }
{
    match fault {
        OpenFault::Range => SettingsFault::Range,
        OpenFault::TopicName => SettingsFault::TopicName,
        OpenFault::Twice => SettingsFault::Twice,
        OpenFault::Acl => SettingsFault::Acl,
        OpenFault::Super => SettingsFault::Super,
        OpenFault::NoMemory => SettingsFault::NoMemory,
    }
}
