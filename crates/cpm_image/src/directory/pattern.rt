//! Patterns of names.

/// The entries to search for. A `?` (3FH) in any byte of the name, as the extent or as `high`, matches any byte. Other bytes of the name
/// match by their low seven bits.
#[derive(Clone, Copy, Debug, PartialEq, Eq)]
pub struct Pattern {
    pub name: [u8; 11],
    /// EX.
    pub extent: u8,
    /// The low six bits of S2.
    pub high: u8,
}
