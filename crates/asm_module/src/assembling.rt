//! Assembles a source to a module.

ghost use Rattle.std.specs.Prelude.{IfOk, false};
ghost use Rattle.zmo_object.specs.Modules.{module_of};
ghost use Rattle.zmo_object.specs.Rules.{IsModule};
ghost use Rattle.asm_module.specs.Assembled.{IsAssembled, IsAssembledModule};
ghost use Rattle.asm_module.specs.Program.Described.{AreOfSource};

use crate::fault::{AsmFault, of_macro};
use crate::first_pass::first_pass;
use crate::lines::assemble_lines;
use crate::source::read_source;
use std::alloc::Global;
use zmo_object::Module;

/// Which lines of a source its statements come from.
#[derive(Debug, Drop)]
pub struct Lines {
    /// For each statement the number of its line.
    pub each: Vec<u32>,
    /// The number of the last line that the listing shows, or 0 if the source has no lines.
    pub last: u32,
}

/// Answers the module of a source. Its name is the first 255 bytes of `name`. If `grow` is true, a written `JR` may become a `JP`.
///
/// # Errors
///
/// The first error of the source: of its expansion, whichever line that is on; then of the first line that may not define its name, or
/// cannot be parsed; then of the first EQU line; then of the first other line. [`Why::NoMemory`](crate::Why::NoMemory) is the only error
/// that has no cause in the source.
pub fn assemble_with(
    alloc: Global,
    name: &[u8],
    text: &[u8],
    grow: bool,
) -> Result<(Module, Lines), AsmFault>
    ensures answer { IsAssembled name.now text.now grow result }
    ensures kept { IfOk result (λ r. IsModule (module_of r.0)) }
    ensures placed { IfOk result (λ r. AreOfSource text.now grow (module_of r.0).statements) }
{
    asm_macro::laws::few_lines();
    let source = match read_source(alloc, text) {
        Ok(source) => source,
        Err((line, why)) => return Err(of_macro(line, why)),
    };
    let table = first_pass(alloc, &source)?;
    let last = source.last;
    let (module, each) = assemble_lines(alloc, name, source.lines, &table, grow)?;
    Ok((module, Lines { each, last }))
}

/// Answers the module of a source, and which lines its statements come from. Each written `JR` is always short.
///
/// # Errors
///
/// Those of [`assemble_with`].
pub fn assemble_listed(alloc: Global, name: &[u8], text: &[u8]) -> Result<(Module, Lines), AsmFault>
    ensures answer { IsAssembled name.now text.now false result }
    ensures kept { IfOk result (λ r. IsModule (module_of r.0)) }
    ensures placed { IfOk result (λ r. AreOfSource text.now false (module_of r.0).statements) }
{
    assemble_with(alloc, name, text, false)
}

/// Answers the module of a source. Each written `JR` is always short.
///
/// # Errors
///
/// Those of [`assemble_with`].
pub fn assemble(alloc: Global, name: &[u8], text: &[u8]) -> Result<Module, AsmFault>
    ensures answer { IsAssembledModule name.now text.now result }
    ensures kept { IfOk result (λ m. IsModule (module_of m)) }
    ensures placed { IfOk result (λ m. AreOfSource text.now false (module_of m).statements) }
{
    let (module, lines) = assemble_listed(alloc, name, text)?;
    drop(lines);
    Ok(module)
}
