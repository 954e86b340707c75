//! The parts of a block, as spans of the lines of a source.

use crate::span::Span;

/// A line of the source by its index, and the number that it bears.
#[derive(Clone, Copy, Debug)]
pub struct Place {
    pub at: usize,
    pub number: u32,
}

/// Some lines, and the line after them that ends them.
#[derive(Clone, Copy, Debug)]
pub struct Stretch {
    pub lines: Span,
    pub end: Place,
}

/// A body up to its ENDM, and the lines after that.
#[derive(Clone, Copy, Debug)]
pub struct Block {
    pub stretch: Stretch,
    pub after: Span,
}

/// The branches of an IF, and the lines after its ENDIF.
#[derive(Debug, Drop)]
pub struct Choice {
    pub first: Stretch,
    pub others: Vec<Stretch>,
    pub after: Span,
}
