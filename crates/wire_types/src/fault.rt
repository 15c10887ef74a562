//! Why bytes could not be read or a value could not be written.

ghost use Rattle.std.specs.Prelude.{◌≡◌};

use std::alloc::{AllocError, AllocFailed};
use thiserror::Error;

/// Why bytes don't spell a value: the first fault that is met from left to right.
#[derive(Clone, Copy, Debug, PartialEq, Eq, Error)]
pub enum Malformed {
    /// Too few bytes, or a count above the number of bytes left.
    #[error("there are too few bytes")]
    Short = 1,
    /// A length or a count below what its field allows, a number of variable length that is too large, or one that its field
    /// doesn't know (an error code, say).
    #[error("a length, a count or a number is out of its range")]
    Range = 2,
    /// A text that isn't UTF-8.
    #[error("a text is not UTF-8")]
    Utf8 = 3,
    /// An API key, or a version of it, that isn't served.
    #[error("the api or its version is not served")]
    Unknown = 4,
    /// Bytes after the end of what is read.
    #[error("there are bytes after the body")]
    Rest = 5,
}

/// Why a value could not be read: an allocation failure, or bytes that don't spell it.
#[derive(Clone, Copy, Debug, PartialEq, Eq, Error)]
pub enum ReadFault {
    #[error("there is not enough memory")]
    NoMemory,
    #[error(transparent)]
    Malformed(Malformed),
}

impl From<Malformed> for ReadFault {
    ghost use Rattle.wire_types.specs.declared.fault.ReadFault.TheVariants as faults;

    ghost from_gives = { λ m e. e ≡ faults.Malformed m };

    fn from(malformed: Malformed) -> ReadFault {
        ReadFault::Malformed(malformed)
    }
}

impl From<AllocError> for ReadFault {
    ghost use Rattle.wire_types.specs.declared.fault.ReadFault.TheVariants.{NoMemory};

    ghost from_gives = { λ _ e. e ≡ NoMemory };

    fn from(_error: AllocError) -> ReadFault {
        ReadFault::NoMemory
    }
}

impl<T: Drop> From<AllocFailed<T>> for ReadFault {
    ghost use Rattle.wire_types.specs.declared.fault.ReadFault.TheVariants.{NoMemory};

    ghost from_gives = { λ _ e. e ≡ NoMemory };

    fn from(_error: AllocFailed<T>) -> ReadFault {
        ReadFault::NoMemory
    }
}

/// Why a value could not be written: an allocation failure, or a value that its field can't hold.
#[derive(Clone, Copy, Debug, PartialEq, Eq, Error)]
pub enum WriteFault {
    #[error("there is not enough memory")]
    NoMemory = 1,
    /// A length or a count above what its field can hold.
    #[error("a text or a list is longer than its length field can tell")]
    TooLong = 2,
}

impl From<AllocError> for WriteFault {
    ghost use Rattle.wire_types.specs.declared.fault.WriteFault.TheVariants.{NoMemory};

    ghost from_gives = { λ _ e. e ≡ NoMemory };

    fn from(_error: AllocError) -> WriteFault {
        WriteFault::NoMemory
    }
}

impl<T: Drop> From<AllocFailed<T>> for WriteFault {
    ghost use Rattle.wire_types.specs.declared.fault.WriteFault.TheVariants.{NoMemory};

    ghost from_gives = { λ _ e. e ≡ NoMemory };

    fn from(_error: AllocFailed<T>) -> WriteFault {
        WriteFault::NoMemory
    }
}
