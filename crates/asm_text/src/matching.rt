//! The roles of lines: whether they open, divide or close a block.

/// What a line does to the blocks around it.
#[derive(Clone, Copy, Debug, PartialEq, Eq)]
pub enum Role {
    /// MACRO or REPT: a body begins after this line.
    OpensBody,
    OpensIf,
    Else,
    EndIf,
    /// ENDM.
    EndBody,
    /// Any other line.
    Other,
}
