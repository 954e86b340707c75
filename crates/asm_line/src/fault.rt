//! The errors of scanning a line.

ghost use Rattle.std.specs.Prelude.{◌≡◌};
ghost use Rattle.asm_line.specs.declared.fault.ScanFault.TheVariants.{NoMemory};

use std::alloc::{AllocError, AllocFailed};
use thiserror::Error;

/// Why a line is not cut into tokens.
#[derive(Clone, Copy, Debug, PartialEq, Eq, Error)]
pub enum ScanFault {
    /// A byte that no token can contain: outside of strings and comments, one that begins no token; in a string, a control byte
    /// other than a tab.
    #[error("a byte that may not stand here")]
    BadByte,
    #[error("a string without an end")]
    OpenString,
    #[error("a line above 255 bytes")]
    LineTooLong,
    /// A digit that the number's base does not have, or a value above 65,535.
    #[error("a bad number")]
    BadNumber,
    #[error("out of memory")]
    NoMemory,
}

impl From<AllocError> for ScanFault {
    ghost from_gives = { λ _ e. e ≡ NoMemory };

    fn from(_e: AllocError) -> ScanFault {
        ScanFault::NoMemory
    }
}

impl<T: Drop> From<AllocFailed<T>> for ScanFault {
    ghost from_gives = { λ _ e. e ≡ NoMemory };

    fn from(_e: AllocFailed<T>) -> ScanFault {
        ScanFault::NoMemory
    }
}
