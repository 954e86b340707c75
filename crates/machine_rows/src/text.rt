//! Reads a line as an instruction with its numbers.

use asm_line::tokens;
use asm_parse::{Binary, Item, Term, Tree, Unary};
use asm_spell::{Body, Line, StmtFault, statement};
use std::alloc::{AllocError, Global};
use z80_form::{Field, with_numbers};
use z80_instr::Instr;

/// The result of reading a line.
#[derive(Debug)]
pub(crate) enum Reading {
    Instr(Instr),
    /// The line is not an instruction.
    None,
    /// A number is not allowed where it is.
    Number,
}

/// The value of `n`, `-n`, `+n`, `$`, `$+n` and `$-n`, with `$` as 0; None for any other expression.
fn value_of(tree: &Tree) -> Option<u16> {
    match tree.items() {
        [Item::Leaf(Term::Number(n))] => Some(*n),
        [Item::Leaf(Term::Number(n)), Item::Unary(Unary::Negate)] => Some(0u16.wrapping_sub(*n)),
        [Item::Leaf(Term::Here)] => Some(0),
        [
            Item::Leaf(Term::Here),
            Item::Leaf(Term::Number(n)),
            Item::Binary(Binary::Add),
        ] => Some(*n),
        [
            Item::Leaf(Term::Here),
            Item::Leaf(Term::Number(n)),
            Item::Binary(Binary::Subtract),
        ] => Some(0u16.wrapping_sub(*n)),
        _ => None,
    }
}

/// The number that an expression puts into a field. The target of a relative jump counts from the jump, but its distance counts from the
/// next instruction.
fn number_of(field: Field, tree: &Tree) -> Option<u16> {
    let value = value_of(tree)?;
    match field {
        Field::Distance => Some(value.wrapping_sub(2)),
        _ => Some(value),
    }
}

fn filled(
    alloc: Global,
    instr: Instr,
    expressions: &[(Field, Tree)],
) -> Result<Reading, AllocError> {
    let mut numbers: Vec<(Field, u16)> = Vec::new(alloc);
    for (field, tree) in expressions {
        let Some(value) = number_of(*field, tree) else {
            return Ok(Reading::None);
        };
        numbers.push((*field, value))?;
    }
    if numbers.iter().all(|n| n.0.allows(n.1)) {
        Ok(Reading::Instr(with_numbers(instr, &numbers)))
    } else {
        Ok(Reading::Number)
    }
}

/// The instruction of a line, with the expressions of its numbers.
fn code_of(line: &Line) -> Option<(Instr, &[(Field, Tree)])> {
    let Line::Statement { label: _, body } = line else {
        return None;
    };
    match body.as_ref()? {
        Body::Code { instr, numbers } => Some((*instr, numbers.as_slice())),
        _ => None,
    }
}

/// The instruction of a line, with its numbers.
pub(crate) fn read(alloc: Global, line: &str) -> Result<Reading, anyhow::Error> {
    let tokens = tokens(alloc, line.as_bytes())?;
    let spelled = match statement(alloc, &tokens) {
        Ok(spelled) => spelled,
        Err(StmtFault::NoMemory) => return Err(StmtFault::NoMemory.into()),
        Err(_) => return Ok(Reading::None),
    };
    match code_of(&spelled) {
        Some((instr, numbers)) => Ok(filled(alloc, instr, numbers)?),
        None => Ok(Reading::None),
    }
}
