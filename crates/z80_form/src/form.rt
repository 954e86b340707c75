//! The forms of operands.

use crate::name::Name;
use z80_instr::IndexRegister;

/// A register that may be in parentheses by itself. `(C)` is the port that C names.
#[derive(Clone, Copy, Debug, PartialEq, Eq)]
pub enum Pointed {
    Hl,
    Bc,
    De,
    Sp,
    C,
}

/// The form of an operand: how it is written, without its expression.
#[derive(Clone, Copy, Debug, PartialEq, Eq)]
pub enum Form {
    /// `A`, `HL`, `NZ`
    Name(Name),
    /// `(HL)`, `(BC)`, `(DE)`, `(SP)`, `(C)`
    At(Pointed),
    /// `(IX)`
    AtIndex(IndexRegister),
    /// `(IX+d)`
    Displaced(IndexRegister),
    /// `(n)`, `(nn)`: an expression in parentheses.
    AtNumber,
    /// `n`, `nn`, `e`, `b`, `p`: an expression.
    Number,
}
