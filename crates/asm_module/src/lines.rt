//! Assembles the lines of a source to a module.

ghost use Rattle.std.specs.Prelude.{◌≡◌, ◌≤◌, ◌<◌, ◌^◌, [], All, None, IfOk, length, take};
ghost use Rattle.common.specs.declared.limits.TheConstants.{MOST_NAMES};
ghost use Rattle.zmo_object.specs.declared.module.TheConstants.{LONGEST_NAME};
ghost use Rattle.asm_names.specs.Layout.{layout_of};
ghost use Rattle.asm_names.specs.Faults.{first_name_fault};
ghost use Rattle.asm_names.specs.Lines.{lines_of};
ghost use Rattle.asm_names.specs.Names.{names};
ghost use Rattle.asm_module.specs.Program.Spelled.{IsLineOfText};
ghost use Rattle.zmo_object.specs.Modules.{module_of};
ghost use Rattle.zmo_object.specs.Rules.{IsModule};
ghost use Rattle.asm_module.specs.Program.Described.{AreOfLines};
ghost use Rattle.asm_module.specs.Private.Steps.{AnswersLines, held};

use crate::fault::{AsmFault, of_equ, of_state};
use crate::module_names::{begins, entry_of, externals_of, labels_of, publics_of};
use crate::{emit, outline_of};
use asm_names::{Layout, NameTable, SourceLine};
use std::alloc::{AllocError, Global};
use zmo_object::{LONGEST_NAME, Module};

/// Answers the first 255 bytes of a name.
fn short_name(alloc: Global, name: &[u8]) -> Result<Vec<u8>, AllocError>
    ensures { IfOk result (λ short. short.items ≡ take LONGEST_NAME name.now) }
{
    let mut short = name.to_vec(alloc)?;
    short.truncate(LONGEST_NAME);
    Ok(short)
}

/// Answers the module of lines without its statements.
fn hold(
    alloc: Global,
    name: &[u8],
    lines: &[SourceLine],
    table: &NameTable,
    layout: &Layout,
    grow: bool,
) -> Result<Module, AllocError>
    requires names { table.now ≡ names (lines_of lines.now) }
    requires few { length table.now ≤ MOST_NAMES }
    ensures { IfOk result (λ m. module_of m ≡ held name.now grow (lines_of lines.now) (layout_of layout.now) []) }
{
    let labels = labels_of(alloc, table, layout)?;
    let publics = publics_of(alloc, &labels, lines)?;
    Ok(Module {
        name: short_name(alloc, name)?,
        begins: begins(lines),
        entry: entry_of(&labels, lines),
        grow,
        statements: Vec::new(alloc),
        labels,
        publics,
        externals: externals_of(alloc, table)?,
    })
}

/// Answers the module of lines that passed the first pass, and the line of each statement.
pub(crate) fn assemble_lines(
    alloc: Global,
    name: &[u8],
    lines: Vec<SourceLine>,
    table: &NameTable,
    grow: bool,
) -> Result<(Module, Vec<u32>), AsmFault>
    requires sound { first_name_fault (lines_of lines.items) ≡ None }
    requires names { table.now ≡ names (lines_of lines.items) }
    requires few { length lines.items < 2 ^ 32 }
    requires parsed { All (λ l. IsLineOfText l.line) (lines_of lines.items) }
    ensures answer { AnswersLines name.now grow (lines_of lines.items) result }
    ensures kept { IfOk result (λ r. IsModule (module_of r.0)) }
    ensures placed { IfOk result (λ r. AreOfLines grow (lines_of lines.items) (module_of r.0).statements) }
{
    let outline = outline_of(alloc, &lines, table, grow)?;
    if let Some((line, why)) = outline.settled.fault {
        return Err(of_equ(line, why));
    }
    let mut module = hold(alloc, name, &lines, table, &outline.layout, grow)?;
    let stated = match emit(alloc, lines, table, outline, grow) {
        Ok(stated) => stated,
        Err((line, why)) => return Err(of_state(line, why)),
    };
    module.statements = stated.statements;
    Ok((module, stated.lines))
}
