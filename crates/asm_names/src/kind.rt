//! The parsed lines of a source, and what kind of name a name is.

use asm_spell::Line;

/// A parsed line, and the number of the source line from which it comes.
#[derive(Debug, Drop)]
pub struct SourceLine {
    pub number: u32,
    pub line: Line,
}

/// What a name is. Lines are counted from 0, and so a line's index is how many lines come before it.
#[derive(Clone, Copy, Debug, PartialEq, Eq)]
pub enum Kind {
    /// A label: the address of the first statement in the line with this index or after it.
    Label(usize),
    External,
    /// Defined by the EQU in the line with this index. Its `$` is the address of the next statement.
    Equ(usize),
}
