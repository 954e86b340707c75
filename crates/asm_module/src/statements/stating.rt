//! Makes the statements of all lines.

ghost use Rattle.std.specs.Prelude.{◌≡◌, ℕ, List, None};
ghost use Rattle.asm_expr.specs.Names.{found};
ghost use Rattle.asm_names.specs.Lines.{lines_of};
ghost use Rattle.asm_names.specs.Names.{kind_of_name};
ghost use Rattle.asm_names.specs.Layout.{layout_of};
ghost use Rattle.asm_module.specs.Module.Stated.{AreStated};

use crate::statements::fault::StateFault;
use crate::statements::judging::judge;
use asm_expr::Names;
use asm_names::{Layout, NameTable, SourceLine};
use std::alloc::Global;
use zmo_object::Statement;

/// The statements of the lines of a module.
#[derive(Debug, Drop)]
pub struct Stated {
    pub statements: Vec<Statement>,
    /// For each statement the number of its line.
    pub lines: Vec<u32>,
}

impl Stated {
    ghost use Rattle.std.specs.Prelude.{◌≡◌, ℕ, [], List, None};
    ghost use Rattle.asm_expr.specs.Names.{found};
    ghost use Rattle.asm_names.specs.Lines.{taken_of};
    ghost use Rattle.asm_names.specs.Names.{kind_of_name};
    ghost use Rattle.asm_module.specs.Private.Statements.{Takes};

    /// Answers empty lists, with room for `count` statements if memory allows it. If not, the lists grow as they are filled.
    fn nothing(alloc: Global, count: usize) -> Stated
        ensures statements { result.statements.items ≡ [] }
        ensures lines { result.lines.items ≡ [] }
    {
        let mut stated = Stated {
            statements: Vec::new(alloc),
            lines: Vec::new(alloc),
        };
        let _ = stated.statements.reserve(count);
        let _ = stated.lines.reserve(count);
        stated
    }

    /// Appends the statement of a line, if it has one.
    fn take(
        &mut self,
        alloc: Global,
        line: &SourceLine,
        table: &NameTable,
        names: &Names,
        grow: bool,
    ) -> Result<(), StateFault>
        requires { (name : List ℕ) → found names.now name ≡ None → kind_of_name table.now name ≡ None }
        ensures { Takes grow table.now names.now (taken_of line.now) self.old result self.new }
    {
        if let Some(statement) = judge(alloc, &line.line, table, names, grow)? {
            self.statements.push(statement)?;
            self.lines.push(line.number)?;
        }
        Ok(())
    }
}

/// Answers the statements of lines, given what names stand for. If `grow` is true, a written `JR` is a relaxable jump that is marked. The
/// memory of each line is freed as soon as its statement is made.
///
/// # Errors
///
/// The number of the first line other than an EQU that has an error, and its first error: a name that is defined nowhere; then the errors
/// of its values, from left to right; then a name in PUBLIC or END that is not a label.
pub fn state_lines(
    alloc: Global,
    lines: Vec<SourceLine>,
    table: &NameTable,
    names: Names,
    layout: &Layout,
    grow: bool,
) -> Result<Stated, (u32, StateFault)>
    requires { (name : List ℕ) → found names name ≡ None → kind_of_name table.now name ≡ None }
    ensures { AreStated grow table.now names (layout_of layout.now) (lines_of lines.items) result }
{
    let mut names = names;
    let mut stated = Stated::nothing(alloc, layout.statements.len());
    let mut at = 0;
    for line in lines {
        names.set_here(layout.next_at(at));
        let number = line.number;
        let taken = stated.take(alloc, &line, table, &names, grow);
        // The line is dropped here, and not at the end of the loop body, where each form of line would need code of its own.
        drop(line);
        if let Err(why) = taken {
            return Err((number, why));
        }
        at += 1;
    }
    Ok(stated)
}
