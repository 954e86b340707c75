//! Why a source cannot be assembled.

ghost use Rattle.std.specs.Prelude.{◌≡◌, ℕ};
ghost use Rattle.asm_module.specs.Whys.{equ_why, line_why, macro_why, name_why, state_why};

use crate::StateFault;
use crate::line_fault::LineFault;
use asm_macro::MacroFault;
use asm_names::{EquFault, NameFault};
use asm_spell::StmtFault;
use std::alloc::AllocError;
use thiserror::Error;

/// Why a source cannot be assembled.
#[derive(Clone, Copy, Debug, PartialEq, Eq, Error)]
pub enum Why {
    /// Its expansion stops.
    #[error("{0}")]
    Macro(MacroFault),
    /// A line cannot be parsed, or a value in it has an error.
    #[error("{0}")]
    Stmt(StmtFault),
    #[error("a name is defined twice")]
    Duplicate,
    #[error("a name is not defined")]
    Undefined,
    /// `PUBLIC` or `END` lists a name that is not a label.
    #[error("a name is no label")]
    PublicNotLabel,
    #[error("a name is defined by itself")]
    EquCircle,
    #[error("too many statements")]
    TooManyStatements,
    #[error("too many names")]
    TooManyNames,
    #[error("out of memory")]
    NoMemory,
}

/// The first error of a source, and the number of its line.
#[derive(Clone, Copy, Debug, PartialEq, Eq, Error)]
#[error("line {line}: {why}")]
pub struct AsmFault {
    pub line: u32,
    pub why: Why,
}

impl From<MacroFault> for Why {
    ghost use Rattle.std.specs.Prelude.{◌≡◌};
    ghost use Rattle.asm_module.specs.Whys.{macro_why};

    ghost from_gives = { λ why e. e ≡ macro_why why };

    fn from(why: MacroFault) -> Why {
        match why {
            MacroFault::NoMemory => Why::NoMemory,
            _ => Why::Macro(why),
        }
    }
}

/// The error of a line that cannot be parsed. (Each line of an expansion can be tokenized.)
impl From<LineFault> for Why {
    ghost use Rattle.std.specs.Prelude.{◌≡◌};
    ghost use Rattle.asm_module.specs.Whys.{line_why};

    ghost from_gives = { λ why e. e ≡ line_why why };

    fn from(why: LineFault) -> Why {
        match why {
            LineFault::Scan(fault) => Why::Macro(MacroFault::Scan(fault)),
            LineFault::Stmt(fault) => Why::Stmt(fault),
        }
    }
}

/// The error of a line that may not define its name.
impl From<NameFault> for Why {
    ghost use Rattle.std.specs.Prelude.{◌≡◌};
    ghost use Rattle.asm_module.specs.Whys.{name_why};

    ghost from_gives = { λ why e. e ≡ name_why why };

    fn from(why: NameFault) -> Why {
        match why {
            NameFault::Duplicate => Why::Duplicate,
            NameFault::TooManyStatements => Why::TooManyStatements,
            NameFault::TooManyNames => Why::TooManyNames,
            NameFault::NoMemory => Why::NoMemory,
        }
    }
}

/// The error of an EQU line.
impl From<EquFault> for Why {
    ghost use Rattle.std.specs.Prelude.{◌≡◌};
    ghost use Rattle.asm_module.specs.Whys.{equ_why};

    ghost from_gives = { λ why e. e ≡ equ_why why };

    fn from(why: EquFault) -> Why {
        match why {
            EquFault::Undefined => Why::Undefined,
            EquFault::EquCircle => Why::EquCircle,
            EquFault::Expr(fault) => Why::Stmt(StmtFault::Expr(fault)),
        }
    }
}

/// The error of any other line.
impl From<StateFault> for Why {
    ghost use Rattle.std.specs.Prelude.{◌≡◌};
    ghost use Rattle.asm_module.specs.Whys.{state_why};

    ghost from_gives = { λ why e. e ≡ state_why why };

    fn from(why: StateFault) -> Why {
        match why {
            StateFault::Undefined => Why::Undefined,
            StateFault::Stmt(fault) => Why::Stmt(fault),
            StateFault::PublicNotLabel => Why::PublicNotLabel,
            StateFault::NoMemory => Why::NoMemory,
        }
    }
}

/// Converts an error of the expansion.
pub(crate) fn of_macro(line: u32, why: MacroFault) -> AsmFault
    ensures { result ≡ record { line = line; why = macro_why why } }
{
    AsmFault {
        line,
        why: Why::from(why),
    }
}

/// Converts the error of a line that cannot be parsed.
pub(crate) fn of_line(line: u32, why: LineFault) -> AsmFault
    ensures { result ≡ record { line = line; why = line_why why } }
{
    AsmFault {
        line,
        why: Why::from(why),
    }
}

/// Converts the error of a line that may not define its name.
pub(crate) fn of_name(line: u32, why: NameFault) -> AsmFault
    ensures { result ≡ record { line = line; why = name_why why } }
{
    AsmFault {
        line,
        why: Why::from(why),
    }
}

/// Converts the error of an EQU line.
pub(crate) fn of_equ(line: u32, why: EquFault) -> AsmFault
    ensures { result ≡ record { line = line; why = equ_why why } }
{
    AsmFault {
        line,
        why: Why::from(why),
    }
}

/// Converts the error of any other line.
pub(crate) fn of_state(line: u32, why: StateFault) -> AsmFault
    ensures { result ≡ record { line = line; why = state_why why } }
{
    AsmFault {
        line,
        why: Why::from(why),
    }
}

impl From<AllocError> for AsmFault {
    ghost use Rattle.std.specs.Prelude.{◌≡◌};
    ghost use Rattle.asm_module.specs.declared.fault.Why.TheVariants.{NoMemory};

    ghost from_gives = { λ _ e. e ≡ record { line = 0; why = NoMemory } };

    fn from(_e: AllocError) -> AsmFault {
        AsmFault {
            line: 0,
            why: Why::NoMemory,
        }
    }
}
