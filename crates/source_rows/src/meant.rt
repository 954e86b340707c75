//! Rows about what names stand for.

use crate::lines::{layout_of, lines_of};
use asm_expr::Meaning;
use asm_names::{Layout, SettledNames, names_of, settle_names, turns_of};
use common::MOST_STATEMENTS;
use row_text::Row;
use std::alloc::Global;

/// What the names of a row stand for, given a layout of its statements. None if there are too many lines, or one has an error.
fn settled(alloc: Global, text: &[u8], layout: &Layout) -> Option<SettledNames> {
    let lines = lines_of(alloc, text)?;
    if lines.len() >= 100_000 || layout.statements.len() > MOST_STATEMENTS {
        return None;
    }
    let names = names_of(alloc, &lines).ok()?;
    let turns = turns_of(alloc, &lines, &names).ok()?;
    settle_names(alloc, &lines, &names, &turns, layout).ok()
}

/// Prints what a name stands for.
fn show_meaning(row: &mut Row, meaning: Option<&Meaning>) {
    match meaning {
        Some(Meaning::Label(statement)) => write!(row, "label {statement}"),
        Some(Meaning::External(number)) => write!(row, "external {number}"),
        Some(Meaning::Constant(n)) => write!(row, "constant {n}"),
        Some(Meaning::UnknownConstant | Meaning::Equ(_)) => write!(row, "other"),
        Some(Meaning::Faulty) => write!(row, "faulty"),
        None => write!(row, "nothing"),
    }
}

/// Prints what a name stands for, and the first error of the EQU lines.
fn show_settled(row: &mut Row, name: &str, settled: &SettledNames) {
    write!(row, "{name} ");
    show_meaning(row, settled.names.meaning(name.as_bytes()));
    match &settled.fault {
        Some((line, why)) => writeln!(row, ", line {line}: {why:?}"),
        None => writeln!(row),
    }
}

/// Prints what a name of a row stands for, and the first error of the row's EQU lines.
pub(crate) fn answer_meaning(row: &mut Row, text: &[u8]) {
    let name = row.until(' ');
    let Some(layout) = layout_of(row) else {
        return row.refuse("no layout");
    };
    match settled(row.alloc(), text, &layout) {
        Some(settled) => show_settled(row, name, &settled),
        None => row.refuse("a line has an error"),
    }
}
