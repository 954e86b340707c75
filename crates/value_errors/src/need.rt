//! What a name in a line has to be.

use crate::dividing::is_in_divisor;
use crate::values::expressions;
use asm_line::{Kind, Token};
use asm_parse::Tree;
use asm_spell::{Body, Line, StmtFault, statement};
use error_lines::Case;
use std::alloc::AllocError;
use z80_form::Field;

/// What a name in a line has to be.
#[derive(Clone, Copy, PartialEq, Eq)]
pub enum Need {
    /// The same number wherever the program is.
    Number,
    /// A byte: a number, or LOW or HIGH of an address.
    Byte,
    /// Anything: a number or an address.
    Address,
}

/// What a name in an expression that fills this field has to be.
fn need_of(field: Field) -> Need {
    match field {
        Field::Byte => Need::Byte,
        Field::Word | Field::Distance => Need::Address,
        Field::Displacement | Field::Bit | Field::Mode | Field::Restart => Need::Number,
    }
}

/// What a name in one of the expressions of an instruction has to be, given the number of the expression.
fn need_in_code(numbers: &[(Field, Tree)], number: usize) -> Need {
    match numbers.get(number) {
        Some(part) => need_of(part.0),
        None => Need::Address,
    }
}

/// The number of the line's expression that has this token; the number of expressions if none has it.
fn expression_with(case: &Case<'_>, at: usize) -> Result<usize, AllocError> {
    let found = expressions(case)?;
    for (number, part) in found.iter().enumerate() {
        if at >= part.at && at < part.at.saturating_add(part.tokens.len()) {
            return Ok(number);
        }
    }
    Ok(found.len())
}

/// The line with a number in place of a token.
fn with_number<'t>(case: &Case<'t>, at: usize) -> Result<Vec<Token<'t>>, AllocError> {
    let mut tokens = Vec::with_capacity(case.alloc, case.tokens.len())?;
    for (number, token) in case.tokens.iter().enumerate() {
        if number == at {
            let kind = Kind::Number(1);
            tokens.push(Token { kind, text: b"1" })?;
        } else {
            tokens.push(*token)?;
        }
    }
    Ok(tokens)
}

/// What the token of a line has to be, if it is a name.
///
/// # Errors
///
/// `AllocError` if memory ran out.
pub fn need_at(case: &Case<'_>, at: usize) -> Result<Need, AllocError> {
    if is_in_divisor(case, at) {
        return Ok(Need::Number);
    }
    let line = match statement(case.alloc, &with_number(case, at)?) {
        Ok(line) => line,
        Err(StmtFault::NoMemory) => return Err(AllocError),
        Err(_) => return Ok(Need::Address),
    };
    let Line::Statement {
        body: Some(body),
        ..
    } = &line
    else {
        return Ok(Need::Address);
    };
    match body {
        Body::Code { numbers, .. } => {
            Ok(need_in_code(numbers.as_slice(), expression_with(case, at)?))
        }
        Body::Bytes(_) => Ok(Need::Byte),
        Body::Space { .. } => Ok(Need::Number),
        _ => Ok(Need::Address),
    }
}
