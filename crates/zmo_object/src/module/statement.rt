//! The statements of a module.

use crate::module::hole::Hole;
use z80_instr::{Branch, ShortCond};

/// A statement of a module. Its refs are numbers: first those of statements, then the count of statements for their end, and then those of
/// externals.
#[derive(Debug, Drop)]
pub enum Statement {
    /// Bytes, which are 0 where a fix-up is.
    Bytes {
        bytes: Vec<u8>,
        holes: Vec<Hole>,
    },
    /// A relaxable jump to a ref, which becomes a `JP` or a `JR`. It is marked if it was written as `JR`.
    Jump {
        marked: bool,
        condition: Option<ShortCond>,
        target: u16,
    },
    /// A jump to a ref that is always short.
    Short {
        branch: Branch,
        target: u16,
    },
    /// `size` bytes, all of them `fill`. `size` is at least 1.
    Space {
        size: u16,
        fill: u8,
    },
}
