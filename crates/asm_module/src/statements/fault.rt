//! Why a line makes no statement.

use asm_spell::StmtFault;
use std::alloc::{AllocError, AllocFailed};
use thiserror::Error;

/// The error of a line that parses and is not an EQU.
#[derive(Clone, Copy, Debug, PartialEq, Eq, Error)]
pub enum StateFault {
    /// A name in it is defined nowhere.
    #[error("a name is not defined")]
    Undefined,
    #[error("{0}")]
    Stmt(StmtFault),
    /// `PUBLIC` or `END` lists a name that is not a label.
    #[error("a name is no label")]
    PublicNotLabel,
    #[error("out of memory")]
    NoMemory,
}

impl From<AllocError> for StateFault {
    ghost use Rattle.std.specs.Prelude.{◌≡◌};
    ghost use Rattle.asm_module.specs.declared.statements.fault.StateFault.TheVariants.{NoMemory};

    ghost from_gives = { λ _ e. e ≡ NoMemory };

    fn from(_e: AllocError) -> StateFault {
        StateFault::NoMemory
    }
}

impl<T: Drop> From<AllocFailed<T>> for StateFault {
    ghost use Rattle.std.specs.Prelude.{◌≡◌};
    ghost use Rattle.asm_module.specs.declared.statements.fault.StateFault.TheVariants.{NoMemory};

    ghost from_gives = { λ _ e. e ≡ NoMemory };

    fn from(_e: AllocFailed<T>) -> StateFault {
        StateFault::NoMemory
    }
}
