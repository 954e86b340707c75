//! What one move of an expansion gives: no line, a line, or an error.

ghost use Rattle.std.specs.Prelude.{◌≡◌, Ok, ℕ};
ghost use Rattle.asm_text.specs.Lines.{Numbered};
ghost use Rattle.asm_text.specs.Prepared.{label_line};
ghost use Rattle.asm_macro.specs.declared.fault.MacroFault.{MacroFault};
ghost use Rattle.asm_macro.specs.Ahead.{Rest};
ghost use Rattle.asm_macro.specs.Private.Moves.{Fails, On, Takes};
ghost use Rattle.asm_macro.specs.declared.moves.Stop.TheVariants.{NoMemory};

use crate::fault::MacroFault;
use std::alloc::{AllocError, AllocFailed};

/// Why an expansion stops: an error at the line with this number, or memory ran out.
#[derive(Clone, Copy, Debug)]
pub(crate) enum Stop {
    At(u32, MacroFault),
    NoMemory,
}

impl From<AllocError> for Stop {
    ghost from_gives = { λ _ e. e ≡ NoMemory };

    fn from(_e: AllocError) -> Stop {
        Stop::NoMemory
    }
}

impl<T: Drop> From<AllocFailed<T>> for Stop {
    ghost from_gives = { λ _ e. e ≡ NoMemory };

    fn from(_e: AllocFailed<T>) -> Stop {
        Stop::NoMemory
    }
}

/// What a line that is read gives.
#[derive(Debug, Drop)]
pub(crate) enum Taken {
    Nothing,
    /// The line itself.
    Line,
    /// The line itself, which is the last of the expansion.
    Last,
    /// Only the label of the line.
    Label(Vec<u8>),
    /// The label of the line, after which expansion stops, since the body of the macro has a malformed LOCAL line.
    Refused(Vec<u8>),
}

/// What an expansion gives next, with the number of the line.
#[derive(Clone, Copy, Debug)]
pub(crate) enum Given {
    Line(u32),
    Last(u32),
    /// A line after which expansion stops, since the body of the called macro has a malformed LOCAL line.
    Refused(u32),
    /// Nothing: all lines are expanded.
    Over,
}

/// Answers what a call gives once its body begins: its label, if it has one.
pub(crate) fn begun(label: Option<Vec<u8>>) -> Taken
    ensures { (l : Numbered) (new : Rest) → Takes l (Ok result) new (On (label_line l.number label) new) }
{
    match label {
        None => Taken::Nothing,
        Some(text) => Taken::Label(text),
    }
}

/// Answers what a call gives whose body has a malformed LOCAL line: its label, if it has one, and the error.
pub(crate) fn refused(number: u32, label: Option<Vec<u8>>) -> Result<Taken, Stop>
    ensures { (l : Numbered) (new : Rest) → l.number ≡ number → Takes l result new (Fails (label_line number label) number MacroFault.Stray) }
{
    match label {
        None => Err(Stop::At(number, MacroFault::Stray)),
        Some(text) => Ok(Taken::Refused(text)),
    }
}
