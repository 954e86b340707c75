//! The errors of an EQU line.

use asm_expr::ExprFault;
use thiserror::Error;

/// Why a name that EQU defines has no value.
#[derive(Clone, Copy, Debug, PartialEq, Eq, Error)]
pub enum EquFault {
    /// A name in its expression is not defined anywhere.
    #[error("a name is not defined")]
    Undefined,
    /// Its expression uses the name itself, directly or through other EQU lines.
    #[error("a name is defined by itself")]
    EquCircle,
    #[error("{0}")]
    Expr(ExprFault),
}
