//! Finds the outline of a source: what its names stand for, and where its statements are.

ghost use Rattle.std.specs.Prelude.{◌≡◌, ◌≤◌, ◌<◌, ◌^◌, ℕ, [], All, IfOk, None, length};
ghost use Rattle.asm_names.specs.Faults.{first_name_fault};
ghost use Rattle.asm_names.specs.Layout.{layout_of, next_at};
ghost use Rattle.asm_names.specs.Lines.{lines_of};
ghost use Rattle.asm_names.specs.Names.{names};
ghost use Rattle.asm_module.specs.Outlines.{IsOutline, no_layout};
ghost use Rattle.asm_module.specs.Program.Spelled.{IsLineOfText};
ghost use Rattle.asm_module.specs.Rules.Object.{AreObjectNames};

use crate::laws;
use crate::statements::laying::lay;
use asm_names::{Layout, NameTable, SettledNames, SourceLine, Turn, settle_names, turns_of};
use std::alloc::{AllocError, Global};

/// What the names of a source stand for, and where its statements are.
#[derive(Debug, Drop)]
pub struct Outline {
    /// All lines, in the order in which their names were settled. No code reads it after that, but the contract of
    /// [`emit`](crate::emit) is about this order.
    pub turns: Vec<Turn>,
    pub settled: SettledNames,
    pub layout: Layout,
}

/// Answers the layout before any statement is laid out.
fn no_layout(alloc: Global) -> Layout
    ensures { layout_of result ≡ no_layout }
{
    Layout {
        next: Vec::new(alloc),
        statements: Vec::new(alloc),
    }
}

/// Answers what the names of a source stand for, and the layout of its statements. The sizes of statements depend only on constants, so the
/// statements are laid out before any name has its address. Then the names are settled again, with their addresses. If `grow` is true, a
/// written `JR` to a label or an external counts as relaxable.
pub fn outline_of(
    alloc: Global,
    lines: &[SourceLine],
    table: &NameTable,
    grow: bool,
) -> Result<Outline, AllocError>
    requires few { length lines.now < 2 ^ 32 }
    requires sound { first_name_fault (lines_of lines.now) ≡ None }
    requires names { table.now ≡ names (lines_of lines.now) }
    requires parsed { All (λ l. IsLineOfText l.line) (lines_of lines.now) }
    ensures outlined { IfOk result (IsOutline grow (lines_of lines.now)) }
    ensures within { IfOk result (λ o. (at : ℕ) → next_at (layout_of o.layout) at ≤ length o.layout.statements.items) }
    ensures names { IfOk result (λ o. AreObjectNames table.now) }
{
    laws::outlined();
    let turns = turns_of(alloc, lines, table)?;
    let unplaced = settle_names(alloc, lines, table, &turns, &no_layout(alloc))?;
    let layout = lay(alloc, lines, &unplaced.names, grow)?;
    let settled = settle_names(alloc, lines, table, &turns, &layout)?;
    Ok(Outline {
        turns,
        settled,
        layout,
    })
}
