//! What is known of an expression that has a part without a value.

/// What is known of an expression that has a part without a value, because a line that the part depends on has an error: the line
/// of a name, or that of a statement whose size is not known.
#[derive(Clone, Copy, Debug, PartialEq, Eq)]
pub enum Unknown {
    /// The expression is only a name whose line has an error. It may be a single address, or any other expression.
    Anything,
    /// It is not a single address. It is the same number in every choice of jumps, as far as the parts with a value say.
    Number,
    /// It may be another number in another choice of jumps.
    Varies,
    /// It may be another number in another choice of jumps, and its outermost operator is HIGH or LOW.
    VariesInByte,
}
