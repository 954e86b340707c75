//! What a statement is.

/// What a statement is: an instruction, `DB` or `DW`, or `DS`.
#[derive(Clone, Copy, Debug, PartialEq, Eq)]
pub enum Kind {
    Code,
    Data,
    Space,
}
