//! Makes calls that take a source.

ghost use Rattle.zmo_object.specs.Modules.{module_of};
ghost use Rattle.zmo_object.specs.Rules.{IsModule};

use asm_macro::{Expander, MacroFault, expand};
use asm_module::{Module, Why, assemble_with};
use std::alloc::Global;
use std::io::Write;
use zmo_object::{read, write};

/// Writes a line of an expansion, and the number of the line that it comes from.
fn show_line<W: Write>(out: &mut W, number: u32, text: &[u8]) -> Result<(), anyhow::Error> {
    write!(out, "{number} ")?;
    out.write_all(text)?;
    Ok(write!(out, "\\")?)
}

/// Writes the line at which an expansion stops, and why.
fn show_stop<W: Write>(out: &mut W, number: u32, why: MacroFault) -> Result<(), anyhow::Error> {
    match why {
        MacroFault::NoMemory => Ok(write!(out, "NoMemory")?),
        _ => Ok(write!(out, "{why:?} in line {number}")?),
    }
}

/// Writes the lines of an expansion.
pub(crate) fn answer_expand<W: Write>(
    alloc: Global,
    out: &mut W,
    text: &[u8],
) -> Result<(), anyhow::Error> {
    match expand(alloc, text) {
        Ok(expanded) => {
            for line in &expanded.lines {
                show_line(out, line.number, &line.text)?;
            }
            Ok(())
        }
        Err((number, why)) => show_stop(out, number, why),
    }
}

/// Whether an expander that stopped answers the same again.
fn stays_stopped(expander: &mut Expander<'_>, number: u32, why: MacroFault) -> bool {
    match expander.next_line() {
        Ok(_) => false,
        Err(again) => again.0 == number && again.1 == why,
    }
}

/// What a call of an expander did.
enum Step {
    Line,
    Over,
    Stopped(u32, MacroFault),
}

/// Writes the next line of an expansion.
fn show_next<W: Write>(out: &mut W, expander: &mut Expander<'_>) -> Result<Step, anyhow::Error> {
    match expander.next_line() {
        Ok(Some(line)) => {
            show_line(out, line.number, line.text)?;
            Ok(Step::Line)
        }
        Ok(None) => Ok(Step::Over),
        Err((number, why)) => Ok(Step::Stopped(number, why)),
    }
}

/// Writes the next line of an expansion, or why it stops, provided that a second call says the same. False if there was no line.
fn advance<W: Write>(out: &mut W, expander: &mut Expander<'_>) -> Result<bool, anyhow::Error> {
    match show_next(out, expander)? {
        Step::Line => return Ok(true),
        Step::Over => {}
        Step::Stopped(number, why) => {
            if stays_stopped(expander, number, why) {
                show_stop(out, number, why)?;
            } else {
                write!(out, "changed")?;
            }
        }
    }
    Ok(false)
}

/// Writes the lines that an expander gives, one after the other, at most a hundred.
fn show_lines<W: Write>(out: &mut W, expander: &mut Expander<'_>) -> Result<(), anyhow::Error> {
    for _ in 0..100 {
        if !advance(out, expander)? {
            break;
        }
    }
    Ok(())
}

/// Writes the lines of an expansion, each when it is given.
pub(crate) fn answer_next<W: Write>(
    alloc: Global,
    out: &mut W,
    text: &[u8],
) -> Result<(), anyhow::Error> {
    let mut expander = Expander::new(alloc, text);
    show_lines(out, &mut expander)
}

/// Writes the number of statements in a module and of bytes in its object file. The object file is read and written again.
fn show_module<W: Write>(alloc: Global, out: &mut W, module: &Module) -> Result<(), anyhow::Error>
    requires { IsModule (module_of «module».now) }
{
    let Ok(object) = write(alloc, module) else {
        return Ok(write!(out, "NoMemory")?);
    };
    let same = match read(alloc, &object) {
        Ok(module) => write(alloc, &module).map(|again| again == object),
        Err(fault) => return Ok(write!(out, "{fault:?}")?),
    };
    let count = module.statements.len();
    match same {
        Ok(true) => Ok(write!(out, "{count} statements, {} bytes", object.len())?),
        Ok(false) => Ok(write!(out, "changed")?),
        Err(_) => Ok(write!(out, "NoMemory")?),
    }
}

/// Writes what a source assembles to, if a written `JR` may become a `JP`.
pub(crate) fn answer_assemble<W: Write>(
    alloc: Global,
    out: &mut W,
    text: &[u8],
) -> Result<(), anyhow::Error> {
    match assemble_with(alloc, b"MAIN", text, true) {
        Ok((module, _)) => show_module(alloc, out, &module),
        Err(fault) => match fault.why {
            Why::Macro(why) => Ok(write!(out, "{why:?} in line {}", fault.line)?),
            Why::Stmt(why) => Ok(write!(out, "{why:?} in line {}", fault.line)?),
            why => Ok(write!(out, "{why:?} in line {}", fault.line)?),
        },
    }
}
