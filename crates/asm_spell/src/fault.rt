//! The errors of statements.

ghost use Rattle.std.specs.Prelude.{◌≡◌};
ghost use Rattle.asm_spell.specs.Faults.{of_expression};
ghost use Rattle.asm_spell.specs.declared.fault.StmtFault.TheVariants.{NoMemory};

use asm_parse::ExprFault;
use std::alloc::{AllocError, AllocFailed};
use thiserror::Error;

/// Why a line is no statement: its tokens make none, or its names and values do not fit.
#[derive(Clone, Copy, Debug, PartialEq, Eq, Error)]
pub enum StmtFault {
    #[error("no such word")]
    UnknownWord,
    #[error("a word with operands that it does not take")]
    BadOperands,
    #[error("a value that does not fit into its byte")]
    ByteRange,
    /// A byte whose value is not known before the program is laid out, without HIGH or LOW.
    #[error("a byte that needs HIGH or LOW")]
    NeedsLowOrHigh,
    #[error("a short jump to what is no label")]
    ShortNeedsLabel,
    #[error("a size that names a label")]
    SizeNamesLabel,
    /// Any ORG but 0100H before the first statement.
    #[error("an ORG that is not 0100H at the beginning")]
    BadOrg,
    #[error("a value that is no fixed number")]
    NeedsNumber,
    /// A register, condition or operator where a name is defined or passed on.
    #[error("a reserved name")]
    ReservedName,
    /// An operand that should be an expression is none, or the expression has no value.
    #[error("{0}")]
    Expr(ExprFault),
    #[error("out of memory")]
    NoMemory,
}

impl From<ExprFault> for StmtFault {
    ghost from_gives = { λ why e. e ≡ of_expression why };

    fn from(why: ExprFault) -> StmtFault {
        match why {
            ExprFault::NoMemory => StmtFault::NoMemory,
            _ => StmtFault::Expr(why),
        }
    }
}

impl From<AllocError> for StmtFault {
    ghost from_gives = { λ _ e. e ≡ NoMemory };

    fn from(_e: AllocError) -> StmtFault {
        StmtFault::NoMemory
    }
}

impl<T: Drop> From<AllocFailed<T>> for StmtFault {
    ghost from_gives = { λ _ e. e ≡ NoMemory };

    fn from(_e: AllocFailed<T>) -> StmtFault {
        StmtFault::NoMemory
    }
}
