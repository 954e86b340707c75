//! What operands look like, for tables of operands that no instruction has.

use crate::operands::{Operand, form_written};
use asm_line::is_name;
use common::is_reserved;
use std::alloc::{AllocError, Global};
use z80_form::{Form, Name, Pointed};

/// Operands that look alike.
#[derive(Clone, Copy)]
pub enum Shape {
    /// There is no such operand.
    Absent,
    /// This register or condition.
    Is(Name),
    /// B, C, D, E, H or L.
    Byte,
    /// BC, DE or HL.
    Pair,
    /// IX or IY.
    Index,
    /// A register of 16 bits that PUSH takes.
    Pushed,
    /// This register in parentheses.
    At(Pointed),
    /// IX or IY in parentheses, with or without a displacement.
    AtIndex,
    /// Any other expression in parentheses.
    Memory,
    /// An expression.
    Number,
    /// An expression with a name in it.
    Named,
    /// Anything but A.
    Other,
    /// Anything.
    Any,
}

/// The two registers of a pair, the high one first.
pub fn halves(name: Name) -> Option<(&'static str, &'static str)> {
    match name {
        Name::Bc => Some(("B", "C")),
        Name::De => Some(("D", "E")),
        Name::Hl => Some(("H", "L")),
        _ => None,
    }
}

/// Whether a register has 16 bits and can be pushed.
pub fn is_pushed(name: Name) -> bool {
    matches!(
        name,
        Name::Bc | Name::De | Name::Hl | Name::Ix | Name::Iy | Name::Af
    )
}

/// Whether a register has 8 bits and is not A.
fn is_byte(name: Name) -> bool {
    matches!(
        name,
        Name::B | Name::C | Name::D | Name::E | Name::H | Name::L
    )
}

/// Whether an operand has a name that a program defines.
///
/// # Errors
///
/// `AllocError` if memory ran out.
pub fn has_name(alloc: Global, operand: &Operand<'_>) -> Result<bool, AllocError> {
    for token in operand.tokens {
        if is_name(token) && !is_reserved(&token.text.to_ascii_uppercase(alloc)?) {
            return Ok(true);
        }
    }
    Ok(false)
}

/// Whether an operand of this form looks like this.
fn fits_form(shape: Shape, form: Form) -> bool {
    match (shape, form) {
        (Shape::Any, _) => true,
        (Shape::Other, _) => form != Form::Name(Name::A),
        (Shape::Is(wanted), Form::Name(name)) => name == wanted,
        (Shape::Byte, Form::Name(name)) => is_byte(name),
        (Shape::Pair, Form::Name(name)) => halves(name).is_some(),
        (Shape::Index, Form::Name(name)) => matches!(name, Name::Ix | Name::Iy),
        (Shape::Pushed, Form::Name(name)) => is_pushed(name),
        (Shape::At(wanted), Form::At(pointed)) => pointed == wanted,
        (Shape::AtIndex, Form::AtIndex(_) | Form::Displaced(_)) => true,
        (Shape::Memory, Form::AtNumber) => true,
        (Shape::Number | Shape::Named, Form::Number) => true,
        _ => false,
    }
}

/// Whether an operand looks like this.
///
/// # Errors
///
/// `AllocError` if memory ran out.
pub fn fits(
    alloc: Global,
    shape: Shape,
    operand: Option<&Operand<'_>>,
) -> Result<bool, AllocError> {
    match (shape, operand) {
        (Shape::Absent, None) => Ok(true),
        (Shape::Absent, Some(_)) | (_, None) => Ok(false),
        (Shape::Named, Some(operand)) => {
            Ok(fits_form(shape, form_written(operand)) && has_name(alloc, operand)?)
        }
        (_, Some(operand)) => Ok(fits_form(shape, form_written(operand))),
    }
}
