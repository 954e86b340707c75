//! The operators on numbers of 16 bits.

ghost use Rattle.std.specs.Prelude.{◌≡◌};
ghost use Rattle.asm_parse.specs.Values.Arithmetic.{binary, truth, unary};

use crate::{Binary, Unary};

/// The result of a prefix operator, modulo 65,536.
pub fn apply_unary(op: Unary, number: u16) -> u16
    ensures { result ≡ unary op number }
{
    match op {
        Unary::Negate => 0u16.wrapping_sub(number),
        Unary::Not => u16::MAX - number,
        Unary::High => number / 256,
        Unary::Low => number % 256,
    }
}

/// The result of a comparison: FFFFH if it holds, 0 otherwise.
fn truth(holds: bool) -> u16
    ensures { result ≡ truth holds }
{
    if holds { u16::MAX } else { 0 }
}

/// The result of an infix operator on two numbers, unsigned and modulo 65,536. A division by 0 gives 0.
pub fn apply_binary(op: Binary, a: u16, b: u16) -> u16
    ensures { result ≡ binary op a b }
{
    match op {
        Binary::Add => a.wrapping_add(b),
        Binary::Subtract => a.wrapping_sub(b),
        Binary::Multiply => a.wrapping_mul(b),
        Binary::Divide => a.checked_div(b).unwrap_or(0),
        Binary::Modulo => a.checked_rem(b).unwrap_or(0),
        Binary::ShiftLeft => a.checked_shl(u32::from(b)).unwrap_or(0),
        Binary::ShiftRight => a.checked_shr(u32::from(b)).unwrap_or(0),
        Binary::And => a & b,
        Binary::Or => a | b,
        Binary::Xor => a ^ b,
        Binary::Equal => truth(a == b),
        Binary::NotEqual => truth(a != b),
        Binary::Less => truth(a < b),
        Binary::LessOrEqual => truth(a <= b),
        Binary::Greater => truth(a > b),
        Binary::GreaterOrEqual => truth(a >= b),
    }
}
