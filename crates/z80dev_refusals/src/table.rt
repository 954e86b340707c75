//! Calls that change a value and are made again after a refusal: of a table of names, and of a ruler.

ghost use Rattle.asm_expr.specs.Names.{IsCounted};

use asm_expr::{Meaning, Names, Worth};
use relax::Statement::{Fixed, Jump};
use relax::{Shape, Sums, grow};
use std::alloc::{AllocError, Global};
use std::io::Write;

/// Defines a name that is not there yet.
fn define(names: &mut Names, name: Vec<u8>, meaning: Meaning) -> Result<(), AllocError>
    requires { IsCounted meaning }
{
    match names.meaning(&name) {
        Some(_) => Ok(()),
        None => names.define(name, meaning),
    }
}

/// Defines a name by its bytes.
fn give(alloc: Global, names: &mut Names, name: &[u8], meaning: Meaning) -> Result<(), AllocError>
    requires { IsCounted meaning }
{
    define(names, Vec::from_slice(alloc, name)?, meaning)
}

fn pass_statements(names: &mut Names) -> Result<(), AllocError> {
    names.pass_fixed(3)?;
    names.pass_fixed(2)?;
    names.pass_jump()?;
    names.pass_fixed(1)
}

fn give_names(alloc: Global, names: &mut Names) -> Result<(), AllocError> {
    give(alloc, names, b"X", Meaning::Label(0))?;
    give(alloc, names, b"Y", Meaning::Label(1))?;
    give(alloc, names, b"W", Meaning::Label(3))?;
    give(alloc, names, b"AWAY", Meaning::External(5))?;
    give(alloc, names, b"K", Meaning::Constant(5))
}

/// A table with the labels X, Y and W, the last after a jump, the external AWAY, and K, which is 5. `$` is the address of Y.
pub(crate) fn table(alloc: Global) -> Result<Names, AllocError> {
    let mut names = Names::new(alloc);
    pass_statements(&mut names)?;
    names.set_here(1);
    give_names(alloc, &mut names)?;
    Ok(names)
}

/// Defines a name, and tries again if memory runs out. False if the refused call changed the table.
fn define_surely(alloc: Global, names: &mut Names, name: &[u8]) -> Result<bool, AllocError> {
    let first = Vec::from_slice(alloc, name)?;
    let again = Vec::from_slice(alloc, name)?;
    if define(names, first, Meaning::Constant(1)).is_ok() {
        return Ok(true);
    }
    if names.meaning(name).is_some() {
        return Ok(false);
    }
    define(names, again, Meaning::Constant(1))?;
    Ok(true)
}

/// Passes a statement, and tries again if memory runs out.
fn pass_surely(names: &mut Names, size: u16) -> Result<(), AllocError> {
    match names.pass_fixed(size) {
        Ok(()) => Ok(()),
        Err(_) => names.pass_fixed(size),
    }
}

/// Defines each name of a text and passes a statement for each, one byte longer than the one before it: a statement that a refused call
/// leaves in the table would move the others. None if a refused call changed the table.
fn names_of(alloc: Global, text: &[u8]) -> Result<Option<Names>, AllocError> {
    let mut names = Names::new(alloc);
    let mut size: u16 = 0;
    for name in text.split(|byte| *byte == b' ') {
        if !define_surely(alloc, &mut names, name)? {
            return Ok(None);
        }
        size = size.saturating_add(1);
        pass_surely(&mut names, size)?;
    }
    Ok(Some(names))
}

/// Writes how many names of a text are in their table, and how many bytes its statements have.
pub(crate) fn answer_names<W: Write>(
    alloc: Global,
    out: &mut W,
    text: &[u8],
) -> Result<(), anyhow::Error> {
    match names_of(alloc, text) {
        Ok(Some(names)) => {
            let mut count: u16 = 0;
            for name in text.split(|byte| *byte == b' ') {
                if names.meaning(name).is_some() {
                    count = count.saturating_add(1);
                }
            }
            match names.distance(count, 0) {
                Worth::Number(bytes) => write!(out, "{count} names, {bytes} bytes")?,
                _ => write!(out, "changed")?,
            }
        }
        Ok(None) => write!(out, "changed")?,
        Err(_) => write!(out, "NoMemory")?,
    }
    Ok(())
}

/// The jumps that become long, in their order: one of the two makes the other long. If memory runs out, the same ruler grows again.
fn grown(alloc: Global) -> Result<Vec<u32>, AllocError> {
    let statements = [Jump(3), Fixed(125), Jump(4), Fixed(128), Fixed(1)];
    if !Shape::is_shape(&statements) {
        return Ok(Vec::new(alloc));
    }
    let shape = Shape::new(statements.to_vec(alloc)?);
    let mut ruler = Sums::new(alloc, &shape)?;
    match grow(alloc, &mut ruler) {
        Ok(order) => Ok(order),
        Err(_) => grow(alloc, &mut ruler),
    }
}

/// Writes the jumps that become long.
pub(crate) fn answer_grow<W: Write>(alloc: Global, out: &mut W) -> Result<(), anyhow::Error> {
    match grown(alloc) {
        Ok(order) => {
            for statement in &order {
                write!(out, "{statement} ")?;
            }
            Ok(write!(out, "long")?)
        }
        Err(_) => Ok(write!(out, "NoMemory")?),
    }
}
