//! Says how many bytes a statement takes.

ghost use Rattle.std.specs.Prelude.{◌≡◌, ◌*◌, ◌%◌, IfOk, length, map};
ghost use Rattle.std.specs.List.{sum_by};
ghost use Rattle.asm_expr.specs.Names.{found};
ghost use Rattle.asm_spell.specs.Few.{IsFew, value_size};
ghost use Rattle.asm_spell.specs.Line.{body_of, value_of};
ghost use Rattle.asm_stmt.specs.Made.{ref_of, space_size};
ghost use Rattle.asm_stmt.specs.Sized.{jump_sized, size_in, sized, space_sized};

use crate::code::ref_of;
use crate::space::{number_in, space_size};
use asm_expr::{Names, Statement, Tree, is_defined, laws};
use asm_spell::{Body, StmtFault, Value};
use std::alloc::{AllocError, Global};
use z80_instr::size;

/// Answers the size of a JP to a name, which has a ref if it is a label or an external.
fn jump_sized(place: Option<u16>) -> Statement
    ensures { result ≡ jump_sized place }
{
    match place {
        Some(_) => Statement::Relaxable,
        None => Statement::Sized(3),
    }
}

fn value_size(value: &Value) -> u16
    ensures { result ≡ value_size (value_of value.now) % 65536 }
{
    match value {
        Value::Text(text) => (text.len() % 65_536) as u16,
        Value::Byte(_) => 1,
    }
}

fn bytes_size(values: &[Value]) -> u16
    ensures { result ≡ sum_by value_size (map value_of values.now) % 65536 }
{
    let mut size = 0_u16;
    for value in values {
        size = size.wrapping_add(value_size(value));
    }
    size
}

fn words_size(fields: &[Tree]) -> u16
    ensures { result ≡ 2 * length fields.now % 65536 }
{
    ((fields.len() % 32_768) * 2) as u16
}

/// Answers the size of a DS, given its number if it is known.
fn space_sized(size: Option<u16>) -> Option<Statement>
    ensures { result ≡ space_sized size }
{
    match size {
        Some(0) => None,
        Some(size) => Some(Statement::Sized(size)),
        None => Some(Statement::Unsized),
    }
}

/// Answers the number of a DS, if it is known.
fn size_in(alloc: Global, size: &Tree, names: &Names) -> Result<Option<u16>, AllocError>
    ensures { IfOk result (λ n. n ≡ size_in (space_size names.now size.now)) }
{
    laws::lacking();
    // The result is not used: the call's contract says that the items are those of an expression.
    size.items();
    if !is_defined(size, names) {
        return Ok(None);
    }
    match space_size(alloc, size, names) {
        Ok(settled) => Ok(number_in(&settled)),
        Err(StmtFault::NoMemory) => Err(AllocError),
        Err(_) => Ok(None),
    }
}

/// Answers the size of the statement that a line makes: None for `DS 0`, and for each directive other than `DB`, `DW` and `DS`. The size
/// does not depend on addresses, so addresses can be computed from it: a label or an external may stand for any ref.
///
/// A `DS` has the size [`Statement::Unsized`] if its number is not known: because it has an error, or because a name in it is undefined or
/// has no value. Nothing is claimed for data of no bytes or of more than 65,535, which no line has.
///
/// # Errors
///
/// `AllocError` if memory ran out.
pub fn size_of(alloc: Global, body: &Body, names: &Names) -> Result<Option<Statement>, AllocError>
    ensures { IsFew (body_of body.now) → IfOk result (λ size. size ≡ sized names.now (body_of body.now)) }
{
    match body {
        Body::Code { instr, numbers: _ } => Ok(Some(Statement::Sized(u16::from(size(instr))))),
        Body::Jump {
            condition: _,
            target,
        } => Ok(Some(jump_sized(ref_of(names.meaning(target))))),
        Body::Short { .. } => Ok(Some(Statement::Sized(2))),
        Body::Bytes(values) => Ok(Some(Statement::Sized(bytes_size(values)))),
        Body::Words(fields) => Ok(Some(Statement::Sized(words_size(fields)))),
        Body::Space { size, fill: _ } => Ok(space_sized(size_in(alloc, size, names)?)),
        Body::Public(_) | Body::External(_) | Body::Origin(_) | Body::End(_) | Body::Z80 => Ok(
            None,
        ),
    }
}
