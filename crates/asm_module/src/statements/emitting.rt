//! Makes the statements of a source from its lines and its outline.

ghost use Rattle.std.specs.Prelude.{◌≡◌, All, IfOk, None, length, map};
ghost use Rattle.asm_names.specs.Faults.{first_name_fault};
ghost use Rattle.asm_names.specs.Layout.{layout_of};
ghost use Rattle.asm_names.specs.Lines.{lines_of};
ghost use Rattle.asm_names.specs.Meanings.{externals};
ghost use Rattle.asm_names.specs.Names.{names};
ghost use Rattle.zmo_object.specs.Modules.{statement_of};
ghost use Rattle.asm_module.specs.Layouts.Sizes.{sizes};
ghost use Rattle.asm_module.specs.Module.Stated.{AreStated};
ghost use Rattle.asm_module.specs.Outlines.{IsOutline, outline_table};
ghost use Rattle.asm_module.specs.Program.Lines.{AreAt, program_of_lines};
ghost use Rattle.asm_module.specs.Program.Spelled.{IsLineOfText};
ghost use Rattle.asm_module.specs.Rules.Object.{AreObjectStatements};

use crate::laws;
use crate::statements::fault::StateFault;
use crate::statements::fitting::fit_words;
use crate::statements::outlining::Outline;
use crate::statements::stating::{Stated, state_lines};
use asm_names::{NameTable, SourceLine};
use std::alloc::Global;

/// Answers the statements of a source, given its outline. They have the sizes that were laid out and keep the rules of an object file, and
/// at all addresses they are the program that the lines describe.
///
/// # Errors
///
/// Those of [`state_lines`].
pub fn emit(
    alloc: Global,
    lines: Vec<SourceLine>,
    table: &NameTable,
    outline: Outline,
    grow: bool,
) -> Result<Stated, (u32, StateFault)>
    requires sound { first_name_fault (lines_of lines.items) ≡ None }
    requires names { table.now ≡ names (lines_of lines.items) }
    requires parsed { All (λ l. IsLineOfText l.line) (lines_of lines.items) }
    requires outlined { IsOutline grow (lines_of lines.items) outline }
    requires equs { outline.settled.fault ≡ None }
    ensures answer { AreStated grow table.now (outline_table (lines_of lines.items) outline) (layout_of outline.layout) (lines_of lines.items) result }
    ensures laid { IfOk result (λ s. outline.layout.statements.items ≡ sizes (map statement_of s.statements.items)) }
    ensures rules { IfOk result (λ s. AreObjectStatements grow (length (externals table.now)) (map statement_of s.statements.items)) }
    ensures program { IfOk result (λ s. AreAt (map statement_of s.statements.items)
        (program_of_lines grow (outline_table (lines_of lines.items) outline) (layout_of outline.layout) (lines_of lines.items))) }
{
    laws::emitted();
    let Outline {
        turns: _,
        settled,
        layout,
    } = outline;
    settled.names.counted();
    let stated = state_lines(alloc, lines, table, settled.names, &layout, grow)?;
    fit_words(&stated.statements);
    Ok(stated)
}
