//! What a name of a source stands for.

use crate::answer::Settled;

/// What an EQU's expression is once settled, and how many terms and operators it stands for.
#[derive(Debug, Drop)]
pub struct Equated {
    pub settled: Settled,
    pub size: u16,
}

/// What a name stands for.
#[derive(Debug, Drop)]
pub enum Meaning {
    /// The address of the statement with this number.
    Label(u16),
    /// The address of the external with this ref, a number past the end of the statements.
    External(u16),
    /// A constant: the value of an EQU's expression that contains no address and no external.
    Constant(u16),
    /// An EQU's expression whose value is not known, because a name in it has an error. No other name in it stands for an address
    /// or an external.
    UnknownConstant,
    /// Any other EQU's expression.
    Equ(Equated),
    /// Anything, because the name's own line has an error.
    Faulty,
}
