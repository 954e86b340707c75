//! The operators and their codes in an object file.

ghost use Rattle.std.specs.Prelude.{◌≡◌};
ghost use Rattle.zmo_object.specs.Fields.Texts.{binary_code, unary_code};
ghost use Rattle.zmo_object.specs.Fields.Postfix.{operator_of};

use asm_parse::{Atom, Binary, Item, Unary};

/// The operators with one operand, in the order of their codes, from 10H on.
pub const UNARIES: [Unary; 4] = [Unary::Negate, Unary::Not, Unary::High, Unary::Low];

/// The operators with two operands, in the order of their codes, from 20H on.
pub const BINARIES: [Binary; 16] = [
    Binary::Add,
    Binary::Subtract,
    Binary::Multiply,
    Binary::Divide,
    Binary::Modulo,
    Binary::ShiftLeft,
    Binary::ShiftRight,
    Binary::And,
    Binary::Or,
    Binary::Xor,
    Binary::Equal,
    Binary::NotEqual,
    Binary::Less,
    Binary::LessOrEqual,
    Binary::Greater,
    Binary::GreaterOrEqual,
];

pub(crate) fn unary_code(op: Unary) -> u8
    ensures { result ≡ unary_code op }
{
    match op {
        Unary::Negate => 0x10,
        Unary::Not => 0x11,
        Unary::High => 0x12,
        Unary::Low => 0x13,
    }
}

pub(crate) fn binary_code(op: Binary) -> u8
    ensures { result ≡ binary_code op }
{
    match op {
        Binary::Add => 0x20,
        Binary::Subtract => 0x21,
        Binary::Multiply => 0x22,
        Binary::Divide => 0x23,
        Binary::Modulo => 0x24,
        Binary::ShiftLeft => 0x25,
        Binary::ShiftRight => 0x26,
        Binary::And => 0x27,
        Binary::Or => 0x28,
        Binary::Xor => 0x29,
        Binary::Equal => 0x2A,
        Binary::NotEqual => 0x2B,
        Binary::Less => 0x2C,
        Binary::LessOrEqual => 0x2D,
        Binary::Greater => 0x2E,
        Binary::GreaterOrEqual => 0x2F,
    }
}

/// Answers the operator that has this code, if there is one.
pub(crate) fn operator_of(code: u8) -> Option<Item<Atom>>
    ensures { result ≡ operator_of code }
{
    if code < 0x10 {
        return None;
    }
    if code < 0x20 {
        let op = UNARIES.get(usize::from(code - 0x10))?;
        return Some(Item::Unary(*op));
    }
    let op = BINARIES.get(usize::from(code - 0x20))?;
    Some(Item::Binary(*op))
}
