//! Rows about the statements of a source.

use crate::lines::{layout_of, lines_of};
use asm_module::{StateFault, Stated, Statement, laws, state_lines};
use asm_names::{Layout, names_of, settle_names, turns_of};
use common::MOST_STATEMENTS;
use row_text::Row;
use std::alloc::Global;

fn show_bytes(row: &mut Row, bytes: &[u8]) {
    write!(row, "bytes");
    for byte in bytes {
        write!(row, " {byte:02X}");
    }
}

/// Prints a statement.
fn show_statement(row: &mut Row, statement: &Statement) {
    match statement {
        Statement::Bytes { bytes, holes } => {
            show_bytes(row, bytes);
            writeln!(row, ", {} holes", holes.len())
        }
        Statement::Jump {
            marked,
            condition,
            target,
        } => {
            let mark = if *marked { "marked jump" } else { "jump" };
            writeln!(row, "{mark} {condition:?} to {target}")
        }
        Statement::Short { branch, target } => writeln!(row, "short {branch:?} to {target}"),
        Statement::Space { size, fill } => writeln!(row, "space {size} of {fill:02X}"),
    }
}

/// The statements of a row's lines, given their layout. None if there are too many lines, or one has an error.
fn stated(
    alloc: Global,
    text: &[u8],
    layout: &Layout,
    grow: bool,
) -> Option<Result<Stated, (u32, StateFault)>> {
    let lines = lines_of(alloc, text)?;
    if lines.len() >= 100_000 || layout.statements.len() > MOST_STATEMENTS {
        return None;
    }
    let table = names_of(alloc, &lines).ok()?;
    let turns = turns_of(alloc, &lines, &table).ok()?;
    let settled = settle_names(alloc, &lines, &table, &turns, layout).ok()?;
    laws::all_found();
    Some(state_lines(alloc, lines, &table, settled.names, layout, grow))
}

/// Prints statements, each with its line.
fn show_stated(row: &mut Row, stated: &Stated) {
    for (statement, line) in stated.statements.iter().zip(&stated.lines) {
        write!(row, "{line} ");
        show_statement(row, statement);
    }
    let (statements, lines) = (stated.statements.len(), stated.lines.len());
    writeln!(row, "{statements} statements, {lines} lines")
}

/// Prints the statements of a row, each with its line; or the first line that has an error.
pub(crate) fn answer_stated(row: &mut Row, text: &[u8]) {
    let grow = row.until(' ') == "grow";
    let Some(layout) = layout_of(row) else {
        return row.refuse("no layout");
    };
    match stated(row.alloc(), text, &layout, grow) {
        Some(Ok(stated)) => show_stated(row, &stated),
        Some(Err((line, why))) => writeln!(row, "line {line}: {why:?}"),
        None => row.refuse("a line has an error"),
    }
}
