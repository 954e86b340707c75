//! The bytes that arrive in a session at a keyboard, and why it ends.

use crate::ending::Why;
use cpm_console::StationFault;
use std::alloc::AllocError;

/// A byte that came, and the number of steps that were made before it.
#[derive(Clone, Copy, Debug, PartialEq, Eq)]
pub struct Arrival {
    pub turn: u64,
    pub byte: u8,
}

/// Why a session ended.
#[derive(Clone, Copy, Debug, PartialEq, Eq)]
pub enum PlayEnd {
    /// The run of the program ended.
    Run(Why),
    /// The person left.
    Left,
    /// The keyboard or the screen failed, or the session gave up.
    Failed,
    /// Memory ran out for what came, or for the echo of a line.
    NoMemory,
}

impl From<StationFault> for PlayEnd {
    ghost use Rattle.std.specs.Prelude.{◌≡◌};
    ghost use Rattle.cpm_run.specs.declared.arriving.PlayEnd.TheVariants as play;

    ghost from_gives = { λ _ e. e ≡ play.Failed };

    fn from(_: StationFault) -> Self {
        PlayEnd::Failed
    }
}

impl From<AllocError> for PlayEnd {
    ghost use Rattle.std.specs.Prelude.{◌≡◌};
    ghost use Rattle.cpm_run.specs.declared.arriving.PlayEnd.TheVariants as play;

    ghost from_gives = { λ _ e. e ≡ play.NoMemory };

    fn from(_: AllocError) -> Self {
        PlayEnd::NoMemory
    }
}
