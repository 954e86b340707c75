//! Operands of a difference.

/// Whether an operand of a difference is a single address.
#[derive(Clone, Copy, Debug)]
pub(crate) enum Single {
    /// The address of a statement or of an external, by its number.
    Place(u16),
    /// It may be a single address, and it may be any other expression.
    Anything,
    /// It is not a single address.
    Other,
}
