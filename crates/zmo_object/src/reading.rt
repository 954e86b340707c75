//! Reads the module of an object file.

ghost use Rattle.std.specs.Prelude.{◌≡◌, IfOk, map};
ghost use Rattle.zmo_object.specs.Modules as object;
ghost use Rattle.zmo_object.specs.Modules.{module_of, statement_of};
ghost use Rattle.zmo_object.specs.Rules.{IsModule};
ghost use Rattle.zmo_object.specs.Fields.Field.{FieldGives, each_field};
ghost use Rattle.zmo_object.specs.Codes.{grow_of};
ghost use Rattle.zmo_object.specs.Reading.{AnswersAsRead, answered_module, module_at, read_of, statement_at};
ghost use Rattle.zmo_object.specs.Texts.{module_text};

use crate::fault::{ObjectFault, fault_in};
use crate::field_fault::FieldFault;
use crate::header::read_header;
use crate::label::read_lists;
use crate::room::room;
use crate::statement::statement;
use crate::{Module, Statement};
use std::alloc::Global;

/// The fewest bytes that a statement takes: a jump or a DS line.
const LEAST_STATEMENT: usize = 4;

/// Reads `count` statements.
fn statements<'a>(
    alloc: Global,
    grow: bool,
    refs: usize,
    count: u16,
    bytes: &'a [u8],
) -> Result<(Vec<Statement>, &'a [u8]), FieldFault>
    ensures { FieldGives (λ x. (map statement_of x.0.items, x.1.now)) result (each_field (statement_at grow refs) count bytes.now) }
{
    let mut statements = Vec::with_capacity(alloc, room(count, LEAST_STATEMENT, bytes))?;
    let mut rest = bytes;
    for _ in 0..count {
        let (next, after) = statement(alloc, grow, refs, rest)?;
        statements.push(next)?;
        rest = after;
    }
    Ok((statements, rest))
}

/// Reads a module after the first four bytes of its object file.
fn module(alloc: Global, grow: bool, bytes: &[u8]) -> Result<(Module, &[u8]), FieldFault>
    ensures { FieldGives (λ x. (module_of x.0, x.1.now)) result (module_at grow bytes.now) }
{
    let (header, rest) = read_header(bytes)?;
    let counts = header.counts;
    let refs = usize::from(counts.statements) + 1 + usize::from(counts.externals);
    let (statements, rest) = statements(alloc, grow, refs, counts.statements, rest)?;
    let (lists, rest) = read_lists(alloc, counts, rest)?;
    let name = Vec::from_slice(alloc, header.name)?;
    let module = Module {
        name,
        begins: header.begins,
        entry: header.entry,
        grow,
        statements,
        labels: lists.labels,
        publics: lists.publics,
        externals: lists.externals,
    };
    Ok((module, rest))
}

/// Answers whether a `JR` may grow, from the first four bytes of an object file, or None if they are others.
fn grow_of(bytes: &[u8]) -> Option<bool>
    ensures { result ≡ grow_of bytes.now }
{
    if bytes == b"ZMO1".as_slice() {
        Some(false)
    } else if bytes == b"ZMO2".as_slice() {
        Some(true)
    } else {
        None
    }
}

/// Reads the module of an object file.
fn object(alloc: Global, bytes: &[u8]) -> Result<Module, ObjectFault>
    ensures { AnswersAsRead (answered_module result) (read_of bytes.now) }
{
    if bytes.len() < 4 {
        return Err(ObjectFault::Magic);
    }
    let (magic, behind) = bytes.split_at(4);
    let Some(grow) = grow_of(magic) else {
        return Err(ObjectFault::Magic);
    };
    match module(alloc, grow, behind) {
        Ok((module, rest)) if rest.is_empty() => Ok(module),
        Ok(_) => Err(ObjectFault::Trailing),
        Err(fault) => Err(fault_in(bytes.len(), fault)),
    }
}

/// Answers the module that an object file holds.
///
/// # Errors
///
/// The first error of the file, or `NoMemory` if memory ran out.
pub fn read(alloc: Global, bytes: &[u8]) -> Result<Module, ObjectFault>
    // Which module or which error it answers.
    ensures exact { AnswersAsRead (answered_module result) (read_of bytes.now) }
    // The module keeps the rules, and the bytes are its object file.
    ensures found { IfOk result (λ m. IsModule (module_of m) × (bytes.now ≡ module_text (module_of m))) }
    // The object file of a module that keeps the rules reads as this module, unless memory ran out.
    ensures only { (m : object.Module) → IsModule m → bytes.now ≡ module_text m → AnswersAsRead (answered_module result) (Ok m) }
{
    object(alloc, bytes)
}
