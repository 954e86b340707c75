//! The leaves of an expression that is being settled.

use crate::unknown::Unknown;

/// A leaf of an expression that is being settled.
#[derive(Clone, Copy, Debug)]
pub(crate) enum Part {
    Number(u16),
    /// The address of a statement or of an external, by its number.
    Ref(u16),
    /// A part without a value, because a line that it depends on has an error.
    Unknown(Unknown),
}
