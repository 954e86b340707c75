//! Why a program cannot be started.

use std::alloc::AllocError;
use thiserror::Error;

/// Why a program cannot be started.
#[derive(Clone, Copy, Debug, PartialEq, Eq, Error)]
pub enum StartFault {
    /// The program has more than 64,512 bytes.
    #[error("the program is too long")]
    ComTooLong,
    /// The command tail, the words with a space before each, has more than 127 bytes.
    #[error("the words are too long")]
    TailTooLong,
    /// Memory ran out.
    #[error("out of memory")]
    NoMemory,
}

impl From<AllocError> for StartFault {
    ghost use Rattle.std.specs.Prelude.{◌≡◌};
    ghost use Rattle.cpm_run.specs.declared.fault.StartFault.TheVariants as fault;

    ghost from_gives = { λ _ e. e ≡ fault.NoMemory };

    fn from(_: AllocError) -> Self {
        StartFault::NoMemory
    }
}
