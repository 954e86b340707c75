//! The pieces of a program.

use z80_instr::{Branch, ShortCond};
use zmo_object::Hole;

/// What one statement is in a program.
#[derive(Debug, Drop)]
pub enum Piece {
    /// Bytes, which are 0 where a fix-up is.
    Bytes {
        bytes: Vec<u8>,
        holes: Vec<Hole>,
    },
    /// A relaxable jump to a ref: a `JP` that may be written as `JR`.
    Jump {
        condition: Option<ShortCond>,
        target: u16,
    },
    /// A jump to a ref that is always short.
    Short {
        branch: Branch,
        target: u16,
    },
    /// `size` bytes, all of them `fill`.
    Space {
        size: u16,
        fill: u8,
    },
}

/// What a statement without an error makes.
#[derive(Debug, Drop)]
pub enum Made {
    /// It makes no bytes: `DS 0`, and each directive other than `DB`, `DW` and `DS`.
    Nothing,
    Piece(Piece),
    /// A value in it is not known, because another line has an error.
    Unknown,
}
