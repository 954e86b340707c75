//! The errors of expressions.

ghost use Rattle.std.specs.Prelude.{◌≡◌};
ghost use Rattle.asm_parse.specs.declared.fault.ExprFault.TheVariants.{NoMemory};

use std::alloc::{AllocError, AllocFailed};
use thiserror::Error;

/// Why tokens are no expression, or an expression has no value.
#[derive(Clone, Copy, Debug, PartialEq, Eq, Error)]
pub enum ExprFault {
    /// The tokens make no expression.
    #[error("no expression of the language")]
    Syntax,
    #[error("a division by 0")]
    DivideByZero,
    /// A divisor that is not the same number in every choice of jumps.
    #[error("a divisor that is no fixed number")]
    LabelDivisor,
    /// More than 32 parentheses and prefix operators are open at one point.
    #[error("too many parentheses and prefix operators within one another")]
    TooDeep,
    /// More than 64 terms and operators.
    #[error("an expression of more than 64 terms and operators")]
    TooLarge,
    #[error("out of memory")]
    NoMemory,
}

impl From<AllocError> for ExprFault {
    ghost from_gives = { λ _ e. e ≡ NoMemory };

    fn from(_e: AllocError) -> ExprFault {
        ExprFault::NoMemory
    }
}

impl<T: Drop> From<AllocFailed<T>> for ExprFault {
    ghost from_gives = { λ _ e. e ≡ NoMemory };

    fn from(_e: AllocFailed<T>) -> ExprFault {
        ExprFault::NoMemory
    }
}
