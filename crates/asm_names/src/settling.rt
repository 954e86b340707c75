//! Settles all names of a source: finds what each stands for.

ghost use Rattle.std.specs.Prelude.{◌≡◌, ◌≤◌, IfOk, OnOk, None, length, replicate};
ghost use Rattle.common.specs.declared.limits.TheConstants.{MOST_STATEMENTS};
ghost use Rattle.asm_spell.specs.Line.{line_of};
ghost use Rattle.asm_names.specs.Orders.Order.{IsOrder};
ghost use Rattle.asm_names.specs.Faults.{first, first_name_fault};
ghost use Rattle.asm_names.specs.Lines.{lines_of};
ghost use Rattle.asm_names.specs.Names as defined;
ghost use Rattle.asm_names.specs.Circles.{lines_named};
ghost use Rattle.asm_names.specs.Layout.{layout_of};
ghost use Rattle.asm_names.specs.Settles.{Settles, is_marked_circular};
ghost use Rattle.asm_names.specs.Private.Turned.{CanTake, Takes, numbered};

use crate::equ_fault::EquFault;
use crate::judging::judge;
use crate::kind::SourceLine;
use crate::laws;
use crate::layout::Layout;
use crate::places::places_of;
use crate::table::NameTable;
use crate::walk::Turn;
use asm_expr::Names;
use asm_spell::Line;
use std::alloc::{AllocError, Global};

/// What the names of a source stand for.
#[derive(Debug, Drop)]
pub struct SettledNames {
    pub names: Names,
    /// For each line its first error, if it is an EQU line that has one.
    pub faults: Vec<Option<EquFault>>,
    /// The number of the first EQU line that has an error, and its first error.
    pub fault: Option<(u32, EquFault)>,
}

/// The names that are settled so far, and the error of each line, if it has one.
#[derive(Debug, Drop)]
pub(crate) struct Settling {
    names: Names,
    faults: Vec<Option<EquFault>>,
}

impl Settling {
    /// Settles the name that a line defines, if the line is an EQU.
    fn take(
        &mut self,
        alloc: Global,
        turn: Turn,
        line: &Line,
        table: &NameTable,
        layout: &Layout,
    ) -> Result<(), AllocError>
        requires { CanTake table.now turn (line_of line.now) self.old }
        ensures { OnOk result (Takes table.now (layout_of layout.now) turn (line_of line.now) self.old self.new) }
    {
        let Line::Equ { name, value } = line else {
            return Ok(());
        };
        let at = turn.definition as usize;
        self.names.set_here(layout.next_at(at));
        let judged = judge(alloc, value, table, turn.on_circle, &self.names)?;
        self.faults[at] = judged.fault;
        self.names.define(name.to_vec(alloc)?, judged.meaning)?;
        Ok(())
    }
}

/// The errors of `count` lines when no line has one yet.
fn no_faults(alloc: Global, count: usize) -> Result<Vec<Option<EquFault>>, AllocError>
    ensures { IfOk result (λ faults. faults.items ≡ replicate count None) }
{
    let mut faults = Vec::with_capacity(alloc, count)?;
    for _ in 0..count {
        faults.push(None)?;
    }
    Ok(faults)
}

/// The first error, with the number of its line.
fn first_of(lines: &[SourceLine], faults: &[Option<EquFault>]) -> Option<(u32, EquFault)>
    requires { length faults.now ≡ length lines.now }
    ensures { result ≡ first (numbered (lines_of lines.now) faults.now) }
{
    for (at, line) in lines.iter().enumerate() {
        if let Some(why) = faults[at] {
            return Some((line.number, why));
        }
    }
    None
}

/// Finds what each name of a source stands for, whatever the order of its lines, and the errors of its EQU lines. An EQU line
/// has an error if a name in its expression is not defined anywhere, if it leads back to itself, or if its expression has an error.
/// A name whose own line has an error may stand for anything.
///
/// `turns` is what [`turns_of`](crate::turns_of) answers for these lines.
pub fn settle_names(
    alloc: Global,
    lines: &[SourceLine],
    table: &NameTable,
    turns: &[Turn],
    layout: &Layout,
) -> Result<SettledNames, AllocError>
    requires sound { first_name_fault (lines_of lines.now) ≡ None }
    requires names { table.now ≡ defined.names (lines_of lines.now) }
    requires turns { IsOrder (length lines.now) (lines_named table.now (lines_of lines.now)) turns.now }
    requires few { length layout.now.statements.items ≤ MOST_STATEMENTS }
    ensures { IfOk result (Settles table.now (lines_of lines.now) (is_marked_circular turns.now) (layout_of layout.now)) }
{
    laws::few();
    laws::distinct();
    laws::given();
    let mut settling = Settling {
        names: places_of(alloc, table, layout)?,
        faults: no_faults(alloc, lines.len())?,
    };
    for turn in turns {
        let line = &lines[turn.definition as usize].line;
        settling.take(alloc, *turn, line, table, layout)?;
    }
    let fault = first_of(lines, &settling.faults);
    Ok(SettledNames {
        names: settling.names,
        faults: settling.faults,
        fault,
    })
}
