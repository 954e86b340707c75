//! Orders the lines of a source so that each EQU line comes after those whose names it uses.

ghost use Rattle.std.specs.Prelude.{◌≡◌, ◌<◌, ◌^◌, IfOk, length, map, All};
ghost use Rattle.std.specs.List.{filter_map};
ghost use Rattle.asm_parse.specs.Source.{source_item};
ghost use Rattle.asm_names.specs.Orders.Order.{IsOrder};
ghost use Rattle.asm_spell.specs.Line.{line_of};
ghost use Rattle.asm_names.specs.Lines.{lines_of};
ghost use Rattle.asm_names.specs.Names as defined;
ghost use Rattle.asm_names.specs.Private.Bounds.{AreBelow};
ghost use Rattle.asm_names.specs.Circles.{equ_items, line_named, lines_named};

use crate::kind::{Kind, SourceLine};
use crate::ordering::order;
use crate::table::NameTable;
use crate::walk::Turn;
use asm_expr::{Item, Term, TermView, Tree};
use asm_spell::Line;
use std::alloc::{AllocError, Global};

/// The EQU line that defines the name in an item of an expression; None if the item is no name, or if no EQU defines it.
fn line_named(names: &NameTable, item: &Item<Term>) -> Option<usize>
    ensures { result ≡ line_named names.now (source_item item.now) }
{
    let Item::Leaf(TermView::Name(name)) = item.view() else {
        return None;
    };
    match names.kind(name) {
        Some(Kind::Equ(at)) => Some(at),
        _ => None,
    }
}

/// The EQU lines that define the names in an expression, from left to right.
fn lines_in(alloc: Global, names: &NameTable, value: &Tree) -> Result<Vec<u32>, AllocError>
    requires { AreBelow (2 ^ 32) names.now }
    ensures { IfOk result (λ uses. uses.items ≡ filter_map (line_named names.now) value.now) }
{
    let mut uses = Vec::new(alloc);
    for item in value.items() {
        if let Some(at) = line_named(names, item) {
            uses.push(at as u32)?;
        }
    }
    Ok(uses)
}

/// The EQU lines that define the names in a line's expression. A line that is no EQU uses none.
fn uses_of(alloc: Global, names: &NameTable, line: &Line) -> Result<Vec<u32>, AllocError>
    requires { AreBelow (2 ^ 32) names.now }
    ensures { IfOk result (λ uses. uses.items ≡ filter_map (line_named names.now) (equ_items (line_of line.now))) }
{
    match line {
        Line::Equ { value, .. } => lines_in(alloc, names, value),
        Line::Statement { .. } => Ok(Vec::new(alloc)),
    }
}

/// Orders all lines of a source. Each line that does not lead back to itself comes after the EQU lines whose names it uses, and the
/// lines that do lead back to themselves are marked. A line that is no EQU uses no other.
pub fn turns_of(
    alloc: Global,
    lines: &[SourceLine],
    names: &NameTable,
) -> Result<Vec<Turn>, AllocError>
    requires few { length lines.now < 2 ^ 32 }
    requires names { names.now ≡ defined.names (lines_of lines.now) }
    ensures { IfOk result (λ turns. IsOrder (length lines.now) (lines_named names.now (lines_of lines.now)) turns.items) }
{
    let mut uses = Vec::new(alloc);
    for line in lines {
        uses.push(uses_of(alloc, names, &line.line)?)?;
    }
    let turns = order(alloc, &uses)?;
    Ok(turns)
}
