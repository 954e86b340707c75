//! Rows about the names that lines define, and about the order in which EQU lines are settled.

use crate::lines::lines_of;
use asm_names::{NameTable, Turn, names_of, turns_of};
use row_text::Row;
use std::alloc::Global;

/// Prints what these names are, and how many names there are.
fn show_names(row: &mut Row, asked: &str, names: &NameTable) {
    for name in asked.split(',') {
        match names.kind(name.as_bytes()) {
            Some(kind) => writeln!(row, "{name} {kind:?}"),
            None => writeln!(row, "{name} is no name"),
        }
    }
    writeln!(row, "{} names", names.len())
}

/// Prints what the names in the first column are, and how many names the row's lines define; or the first line that has an error.
pub(crate) fn answer_names(row: &mut Row, text: &[u8]) {
    let asked = row.until(' ');
    let Some(lines) = lines_of(row.alloc(), text) else {
        return row.refuse("a line has an error");
    };
    match names_of(row.alloc(), &lines) {
        Ok(names) => show_names(row, asked, &names),
        Err((line, why)) => writeln!(row, "line {line}: {why:?}"),
    }
}

/// The order in which the lines of a text can be settled. None if there are too many lines, or one has an error.
fn turns(alloc: Global, text: &[u8]) -> Option<Vec<Turn>> {
    let lines = lines_of(alloc, text)?;
    let names = names_of(alloc, &lines).ok()?;
    if lines.len() >= 100_000 {
        return None;
    }
    turns_of(alloc, &lines, &names).ok()
}

fn show_turns(row: &mut Row, turns: &[Turn]) {
    for turn in turns {
        let mark = if turn.on_circle { "*" } else { "" };
        writeln!(row, "{}{mark}", turn.definition);
    }
}

/// Prints the lines of a row, counted from 0, in an order in which they can be settled, with a star after each that is on a circle.
pub(crate) fn answer_turns(row: &mut Row, text: &[u8]) {
    match turns(row.alloc(), text) {
        Some(turns) => show_turns(row, &turns),
        None => row.refuse("a line has an error"),
    }
}
