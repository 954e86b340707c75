//! The operators.

ghost use Rattle.std.specs.Prelude.{◌≡◌};
ghost use Rattle.asm_parse.specs.Operators.{divides};

/// A prefix operator. (A prefix `+` is not among these, since it leaves its operand as it is.)
#[derive(Clone, Copy, Debug, PartialEq, Eq)]
pub enum Unary {
    /// `-`
    Negate,
    /// `NOT`, bit by bit.
    Not,
    /// `HIGH`: the number divided by 256.
    High,
    /// `LOW`: the remainder of that division.
    Low,
}

/// An infix operator.
#[derive(Clone, Copy, Debug, PartialEq, Eq)]
pub enum Binary {
    /// `+`
    Add,
    /// `-`
    Subtract,
    /// `*`
    Multiply,
    /// `/`
    Divide,
    /// `MOD`
    Modulo,
    /// `SHL`
    ShiftLeft,
    /// `SHR`
    ShiftRight,
    /// `AND`
    And,
    /// `OR`
    Or,
    /// `XOR`
    Xor,
    /// `EQ`
    Equal,
    /// `NE`
    NotEqual,
    /// `LT`
    Less,
    /// `LE`
    LessOrEqual,
    /// `GT`
    Greater,
    /// `GE`
    GreaterOrEqual,
}

impl Binary {
    /// Whether the operator divides, and so needs a right operand other than 0.
    pub fn divides(self) -> bool
        ensures { result ≡ divides self }
    {
        matches!(self, Binary::Divide | Binary::Modulo)
    }
}
