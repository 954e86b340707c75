//! The errors of a line that defines a name.

use std::alloc::{AllocError, AllocFailed};
use thiserror::Error;

/// Why a line has an error, given the lines before it.
#[derive(Clone, Copy, Debug, PartialEq, Eq, Error)]
pub enum NameFault {
    #[error("a name is defined twice")]
    Duplicate,
    /// The line has a statement, and 20,000 statements come before it. Each `DS` counts, whatever its number is.
    #[error("too many statements")]
    TooManyStatements,
    /// With this line there are more than 40,000 labels, externals and names that EQU defines.
    #[error("too many names")]
    TooManyNames,
    #[error("out of memory")]
    NoMemory,
}

impl From<AllocError> for NameFault {
    ghost use Rattle.std.specs.Prelude.{◌≡◌};
    ghost use Rattle.asm_names.specs.declared.fault.NameFault.TheVariants.{NoMemory};

    ghost from_gives = { λ _ e. e ≡ NoMemory };

    fn from(_e: AllocError) -> NameFault {
        NameFault::NoMemory
    }
}

impl<T: Drop> From<AllocFailed<T>> for NameFault {
    ghost use Rattle.std.specs.Prelude.{◌≡◌};
    ghost use Rattle.asm_names.specs.declared.fault.NameFault.TheVariants.{NoMemory};

    ghost from_gives = { λ _ e. e ≡ NoMemory };

    fn from(_e: AllocFailed<T>) -> NameFault {
        NameFault::NoMemory
    }
}
