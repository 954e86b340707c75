//! Why modules make no program.

ghost use Rattle.std.specs.Prelude.{◌≡◌};

use std::alloc::{AllocError, AllocFailed};
use thiserror::Error;

/// Why modules make no program. Modules, their labels and their externals are numbered from 0. If there are several reasons, the first of
/// these is reported.
#[derive(Clone, Copy, Debug, PartialEq, Eq, Error)]
pub enum JoinFault {
    /// There are more than 20,000 statements.
    #[error("too many statements")]
    TooManyStatements,
    /// This module says ORG 0100H, but is not the first.
    #[error("module {0} begins the program, and is not the first")]
    BeginsNotFirst(usize),
    /// This label of this module is public, and a module before it has a public label of the same name.
    #[error("label {1} of module {0} is public in a module before it too")]
    DefinedTwice(usize, u16),
    /// No module has a public label with the name of this external of this module.
    #[error("external {1} of module {0} is public in no module")]
    Unresolved(usize, usize),
    /// The entry of this module is not the first statement of the program.
    #[error("the entry of module {0} is not the first statement of the program")]
    EntryNotFirst(usize),
    #[error("out of memory")]
    NoMemory,
}

impl From<AllocError> for JoinFault {
    ghost use Rattle.std.specs.Prelude.{◌≡◌};
    ghost use Rattle.zlink.specs.declared.program.fault.JoinFault.TheVariants.{NoMemory};

    ghost from_gives = { λ _ e. e ≡ NoMemory };

    fn from(_: AllocError) -> JoinFault {
        JoinFault::NoMemory
    }
}

impl<T: Drop> From<AllocFailed<T>> for JoinFault {
    ghost use Rattle.std.specs.Prelude.{◌≡◌};
    ghost use Rattle.zlink.specs.declared.program.fault.JoinFault.TheVariants.{NoMemory};

    ghost from_gives = { λ _ e. e ≡ NoMemory };

    fn from(_: AllocFailed<T>) -> JoinFault {
        JoinFault::NoMemory
    }
}
