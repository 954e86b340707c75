//! Why a certificate is refused.

ghost use Rattle.std.specs.Prelude.{◌≡◌};
ghost use Rattle.cert_check.specs.declared.fault.CheckFault.TheVariants.{NoMemory};

use std::alloc::{AllocError, AllocFailed};
use thiserror::Error;

/// Why a certificate is refused. Lines are counted from 1, statements from 0.
#[derive(Clone, Copy, Debug, PartialEq, Eq, Error)]
pub enum CheckFault {
    /// The first line of the sizes file that breaks its grammar.
    #[error("line {0} of the sizes is bad")]
    BadSizes(usize),
    /// The first line of the certificate that breaks its grammar.
    #[error("line {0} of the certificate is bad")]
    BadCertificate(usize),
    /// This line of the certificate names a jump that reaches its target once those before it are long.
    #[error("line {0} of the certificate names a jump that need not be long")]
    NotForced(usize),
    /// This line of the certificate does not name a relaxable jump.
    #[error("line {0} of the certificate names no jump that may be long")]
    NotAJump(usize),
    /// This line of the certificate names a jump that an earlier line named.
    #[error("line {0} of the certificate names a jump twice")]
    Repeated(usize),
    /// This statement is the lowest jump that is short after the whole order and does not reach its target.
    #[error("statement {0} is still short and does not reach its target")]
    StillShort(u32),
    /// After the whole order, the program takes another number of bytes than the verdict says, or one on the other side
    /// of 64,512.
    #[error("the total is wrong")]
    WrongTotal,
    /// This statement is not a jump that is always short, or it reaches its target after the whole order.
    #[error("statement {0} is not out of range")]
    NotOutOfRange(u32),
    #[error("out of memory")]
    NoMemory,
}

impl From<AllocError> for CheckFault {
    ghost from_gives = { λ _ e. e ≡ NoMemory };

    fn from(_: AllocError) -> CheckFault {
        CheckFault::NoMemory
    }
}

impl<T: Drop> From<AllocFailed<T>> for CheckFault {
    ghost from_gives = { λ _ e. e ≡ NoMemory };

    fn from(_: AllocFailed<T>) -> CheckFault {
        CheckFault::NoMemory
    }
}
