//! The operators and parentheses of expressions, as words and marks.

ghost use Rattle.std.specs.Prelude.{◌≡◌};
ghost use Rattle.asm_parse.specs.Words.{sign_of};

use crate::operator::{Binary, Unary};

/// A mark or word in an expression that is no term: a parenthesis or an operator.
#[derive(Clone, Copy, Debug)]
pub(crate) enum Sign {
    Open,
    Close,
    Plus,
    Minus,
    Star,
    Slash,
    High,
    Low,
    Not,
    Mod,
    Shl,
    Shr,
    And,
    Or,
    Xor,
    Eq,
    Ne,
    Lt,
    Le,
    Gt,
    Ge,
}

/// A prefix operator. A prefix `+` has no effect.
#[derive(Clone, Copy, Debug)]
pub(crate) enum Prefix {
    Plus,
    Operator(Unary),
}

impl Sign {
    ghost use Rattle.asm_parse.specs.Words.{infix_of, prefix_of};

    /// The prefix operator that a sign is before an operand, if it is one.
    pub(crate) fn prefix(self) -> Option<Prefix>
        ensures { result ≡ prefix_of self }
    {
        match self {
            Sign::Plus => Some(Prefix::Plus),
            Sign::Minus => Some(Prefix::Operator(Unary::Negate)),
            Sign::High => Some(Prefix::Operator(Unary::High)),
            Sign::Low => Some(Prefix::Operator(Unary::Low)),
            Sign::Not => Some(Prefix::Operator(Unary::Not)),
            _ => None,
        }
    }

    /// The infix operator that a sign is between operands, if it is one.
    pub(crate) fn infix(self) -> Option<Binary>
        ensures { result ≡ infix_of self }
    {
        match self {
            Sign::Plus => Some(Binary::Add),
            Sign::Minus => Some(Binary::Subtract),
            Sign::Star => Some(Binary::Multiply),
            Sign::Slash => Some(Binary::Divide),
            Sign::Mod => Some(Binary::Modulo),
            Sign::Shl => Some(Binary::ShiftLeft),
            Sign::Shr => Some(Binary::ShiftRight),
            Sign::And => Some(Binary::And),
            Sign::Or => Some(Binary::Or),
            Sign::Xor => Some(Binary::Xor),
            Sign::Eq => Some(Binary::Equal),
            Sign::Ne => Some(Binary::NotEqual),
            Sign::Lt => Some(Binary::Less),
            Sign::Le => Some(Binary::LessOrEqual),
            Sign::Gt => Some(Binary::Greater),
            Sign::Ge => Some(Binary::GreaterOrEqual),
            _ => None,
        }
    }
}

/// The operator that a word in upper case names, if it names one.
pub(crate) fn sign_of(word: &[u8]) -> Option<Sign>
    ensures { result ≡ sign_of word.now }
{
    match word {
        b"HIGH" => Some(Sign::High),
        b"LOW" => Some(Sign::Low),
        b"NOT" => Some(Sign::Not),
        b"MOD" => Some(Sign::Mod),
        b"SHL" => Some(Sign::Shl),
        b"SHR" => Some(Sign::Shr),
        b"AND" => Some(Sign::And),
        b"OR" => Some(Sign::Or),
        b"XOR" => Some(Sign::Xor),
        b"EQ" => Some(Sign::Eq),
        b"NE" => Some(Sign::Ne),
        b"LT" => Some(Sign::Lt),
        b"LE" => Some(Sign::Le),
        b"GT" => Some(Sign::Gt),
        b"GE" => Some(Sign::Ge),
        _ => None,
    }
}
