//! Spans of the lines of a source.

/// Consecutive lines of a source.
#[derive(Clone, Copy, Debug)]
pub struct Span {
    /// The index of the first line in the source, from 0.
    pub at: usize,
    /// The index after that of the last line.
    pub end: usize,
    /// The number that each line bears; None if each bears its own.
    pub number: Option<u32>,
}
