//! What an expression of a line is worth, judged with the names of the whole source.

use crate::case::Case;
use asm_expr::{Names, Offset, Settled, constant, is_defined, offset_from_here, parse, settle};
use asm_line::Token;
use asm_parse::{ExprFault, Tree};
use std::alloc::AllocError;

/// What an expression is worth.
#[derive(Clone, Copy, PartialEq, Eq)]
pub enum Worth {
    /// The same number wherever the program is.
    Number(u16),
    /// It depends on addresses.
    Address,
    /// A name in it is not defined, or its own line has an error; or the names are not known.
    Unknown,
    /// It is no expression, or has no value.
    Fault(ExprFault),
}

/// What a parsed expression is worth by a table of names.
fn worth_by(case: &Case<'_>, tree: &Tree, names: &Names) -> Result<Worth, AllocError> {
    if !is_defined(tree, names) {
        return Ok(Worth::Unknown);
    }
    match settle(case.alloc, tree, names) {
        Ok(Settled::Known(expr)) => match constant(&expr) {
            Some(number) => Ok(Worth::Number(number)),
            None => Ok(Worth::Address),
        },
        Ok(Settled::Unknown(_)) => Ok(Worth::Unknown),
        Err(ExprFault::NoMemory) => Err(AllocError),
        Err(fault) => Ok(Worth::Fault(fault)),
    }
}

/// What a parsed expression is worth.
///
/// # Errors
///
/// `AllocError` if memory ran out.
pub fn worth_of(case: &Case<'_>, tree: &Tree) -> Result<Worth, AllocError> {
    match case.known {
        Some(known) => worth_by(case, tree, &known.values),
        None => worth_by(case, tree, &Names::new(case.alloc)),
    }
}

/// The bytes of `JR` and `DJNZ`, from whose end their distance counts.
const SHORT_JUMP: u16 = 2;

/// The distance of a jump to `$+n`, from the end of the jump; None if it is not known.
///
/// # Errors
///
/// `AllocError` if memory ran out.
pub fn distance_of(case: &Case<'_>, tree: &Tree) -> Result<Option<u16>, AllocError> {
    let Some(known) = case.known else {
        return Ok(None);
    };
    if !is_defined(tree, &known.values) {
        return Ok(None);
    }
    match offset_from_here(case.alloc, tree, &known.values) {
        Ok(Offset::Number(n)) => Ok(Some(n.wrapping_sub(SHORT_JUMP))),
        Err(ExprFault::NoMemory) => Err(AllocError),
        _ => Ok(None),
    }
}

/// What the expression that tokens make is worth.
///
/// # Errors
///
/// `AllocError` if memory ran out.
pub fn judge(case: &Case<'_>, tokens: &[Token<'_>]) -> Result<Worth, AllocError> {
    match parse(case.alloc, tokens) {
        Ok(tree) => worth_of(case, &tree),
        Err(ExprFault::NoMemory) => Err(AllocError),
        Err(fault) => Ok(Worth::Fault(fault)),
    }
}

/// Whether tokens make an expression, whatever its value.
///
/// # Errors
///
/// `AllocError` if memory ran out.
pub fn is_expression(case: &Case<'_>, tokens: &[Token<'_>]) -> Result<bool, AllocError> {
    match parse(case.alloc, tokens) {
        Ok(_) => Ok(true),
        Err(ExprFault::NoMemory) => Err(AllocError),
        Err(fault) => Ok(fault != ExprFault::Syntax),
    }
}
