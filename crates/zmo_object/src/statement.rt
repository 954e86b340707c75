//! Reads and writes statements.

ghost use Rattle.std.specs.Prelude.{◌≡◌, ◌++◌, OnOk};
ghost use Rattle.zmo_object.specs.Modules.{Bytes, Jump, Short, Space, statement_of};
ghost use Rattle.zmo_object.specs.Fields.Field.{FieldGives};
ghost use Rattle.zmo_object.specs.Texts.{statement_text};
ghost use Rattle.zmo_object.specs.Reading.{content_at, jump_at, short_at, space_at, statement_at};
ghost use Rattle.zmo_object.specs.Private.{FitsWords};

use crate::code::{branch, branch_code, condition, condition_code};
use crate::field::{byte, number, run, word};
use crate::field_fault::FieldFault;
use crate::hole::{holes, put_holes};
use crate::put::{put_byte, put_word};
use crate::{Branch, Hole, ShortCond, Statement};
use common::MOST_BYTES;
use std::alloc::{AllocError, Global};

fn put_content(text: &mut Vec<u8>, bytes: &[u8], holes: &[Hole]) -> Result<(), AllocError>
    requires { FitsWords (Bytes bytes.now holes.now) }
    ensures { OnOk result (text.new.items ≡ text.old.items ++ statement_text (Bytes bytes.now holes.now)) }
{
    put_byte(text, 1)?;
    put_word(text, bytes.len() as u16)?;
    text.extend_from_slice(bytes)?;
    put_word(text, holes.len() as u16)?;
    put_holes(text, holes)?;
    Ok(())
}

fn put_jump(
    text: &mut Vec<u8>,
    marked: bool,
    condition: Option<ShortCond>,
    target: u16,
) -> Result<(), AllocError>
    ensures { OnOk result (text.new.items ≡ text.old.items ++ statement_text (Jump marked condition target)) }
{
    put_byte(text, if marked { 5 } else { 2 })?;
    put_byte(text, condition_code(condition))?;
    put_word(text, target)
}

fn put_short(text: &mut Vec<u8>, branch: Branch, target: u16) -> Result<(), AllocError>
    ensures { OnOk result (text.new.items ≡ text.old.items ++ statement_text (Short branch target)) }
{
    put_byte(text, 3)?;
    put_byte(text, branch_code(branch))?;
    put_word(text, target)
}

fn put_space(text: &mut Vec<u8>, size: u16, fill: u8) -> Result<(), AllocError>
    ensures { OnOk result (text.new.items ≡ text.old.items ++ statement_text (Space size fill)) }
{
    put_byte(text, 4)?;
    put_word(text, size)?;
    put_byte(text, fill)
}

/// Appends a statement.
pub(crate) fn put_statement(text: &mut Vec<u8>, statement: &Statement) -> Result<(), AllocError>
    requires { FitsWords (statement_of statement.now) }
    ensures { OnOk result (text.new.items ≡ text.old.items ++ statement_text (statement_of statement.now)) }
{
    match statement {
        Statement::Bytes { bytes, holes } => put_content(text, bytes, holes),
        Statement::Jump {
            marked,
            condition,
            target,
        } => put_jump(text, *marked, *condition, *target),
        Statement::Short { branch, target } => put_short(text, *branch, *target),
        Statement::Space { size, fill } => put_space(text, *size, *fill),
    }
}

/// Reads a statement of bytes with fix-ups, whose refs are below `refs`.
fn content(alloc: Global, refs: usize, bytes: &[u8]) -> Result<(Statement, &[u8]), FieldFault>
    ensures { FieldGives (λ x. (statement_of x.0, x.1.now)) result (content_at refs bytes.now) }
{
    let (size, rest) = number(1, MOST_BYTES + 1, bytes)?;
    let (content, rest) = run(usize::from(size), rest)?;
    let (count, rest) = word(rest)?;
    let (holes, rest) = holes(alloc, refs, content, count, rest)?;
    let bytes = Vec::from_slice(alloc, content)?;
    Ok((Statement::Bytes { bytes, holes }, rest))
}

fn jump(marked: bool, refs: usize, bytes: &[u8]) -> Result<(Statement, &[u8]), FieldFault>
    ensures { FieldGives (λ x. (statement_of x.0, x.1.now)) result (jump_at marked refs bytes.now) }
{
    let (condition, rest) = condition(bytes)?;
    let (target, rest) = number(0, refs, rest)?;
    Ok((
        Statement::Jump {
            marked,
            condition,
            target,
        },
        rest,
    ))
}

fn short(grow: bool, refs: usize, bytes: &[u8]) -> Result<(Statement, &[u8]), FieldFault>
    ensures { FieldGives (λ x. (statement_of x.0, x.1.now)) result (short_at grow refs bytes.now) }
{
    let (branch, rest) = branch(grow, bytes)?;
    let (target, rest) = number(0, refs, rest)?;
    Ok((Statement::Short { branch, target }, rest))
}

fn space(bytes: &[u8]) -> Result<(Statement, &[u8]), FieldFault>
    ensures { FieldGives (λ x. (statement_of x.0, x.1.now)) result (space_at bytes.now) }
{
    let (size, rest) = number(1, MOST_BYTES + 1, bytes)?;
    let (fill, rest) = byte(rest)?;
    Ok((Statement::Space { size, fill }, rest))
}

/// Reads a statement whose refs are below `refs`; `grow` says whether a `JR` may grow.
pub(crate) fn statement(
    alloc: Global,
    grow: bool,
    refs: usize,
    bytes: &[u8],
) -> Result<(Statement, &[u8]), FieldFault>
    ensures { FieldGives (λ x. (statement_of x.0, x.1.now)) result (statement_at grow refs bytes.now) }
{
    let (tag, rest) = byte(bytes)?;
    if tag == 1 {
        content(alloc, refs, rest)
    } else if tag == 2 {
        jump(false, refs, rest)
    } else if tag == 3 {
        short(grow, refs, rest)
    } else if tag == 4 {
        space(rest)
    } else if tag == 5 && grow {
        jump(true, refs, rest)
    } else {
        Err(FieldFault::BadField(bytes.len()))
    }
}
