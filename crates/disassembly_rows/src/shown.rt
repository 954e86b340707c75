//! Answers the calls.

use crate::input::{Input, input_of};
use bstr::ByteSlice;
use disassembler::{DisassemblyFault, disassemble, fault_text};
use row_text::Row;

/// How many lines a text begins with that are comments on the whole.
const HEAD: usize = 2;

/// Answers what `disassemble` does.
fn answer_of<'a>(row: &Row, input: &Input<'a>) -> Result<Vec<u8>, DisassemblyFault<'a>> {
    let labels = match &input.labels {
        Some(text) => Some(text.as_slice()),
        None => None,
    };
    disassemble(
        row.alloc(),
        &input.program,
        labels,
        &input.entries,
        &input.data_starts,
    )
}

/// Prints the name of a fault.
fn show_fault(row: &mut Row, fault: DisassemblyFault<'_>) {
    match fault_text(row.alloc(), fault) {
        Ok(text) => write!(row, " error {text}"),
        Err(_) => row.refuse("no memory"),
    }
}

/// Disassembles what the row says. Prints the fault if there is no text.
fn text_of(row: &mut Row) -> Option<Vec<u8>> {
    let input = input_of(row)?;
    match answer_of(row, &input) {
        Ok(text) => Some(text),
        Err(fault) => {
            show_fault(row, fault);
            None
        }
    }
}

/// Prints a line and `|` after it.
fn show_line(row: &mut Row, line: &[u8]) {
    row.write_text(line);
    row.write_bytes(b"|");
}

/// Prints each line after the head.
pub(crate) fn answer_text(row: &mut Row) {
    let Some(text) = text_of(row) else {
        return;
    };
    row.write_bytes(b" ");
    for line in text.as_slice().lines().skip(HEAD) {
        show_line(row, line);
    }
}

/// Prints the head.
pub(crate) fn answer_head(row: &mut Row) {
    let Some(text) = text_of(row) else {
        return;
    };
    row.write_bytes(b" ");
    for line in text.as_slice().lines().take(HEAD) {
        show_line(row, line);
    }
}

/// Prints each line that is only a comment.
pub(crate) fn answer_remarks(row: &mut Row) {
    let Some(text) = text_of(row) else {
        return;
    };
    row.write_bytes(b" ");
    for line in text.as_slice().lines() {
        if line.starts_with(b";") {
            show_line(row, line);
        }
    }
}

/// Prints the first line after the head without its comment, and one blank for each of its runs of blanks.
pub(crate) fn answer_line(row: &mut Row) {
    let Some(text) = text_of(row) else {
        return;
    };
    let Some(line) = text.as_slice().lines().nth(HEAD) else {
        return;
    };
    let statement = line.split_once_str(b";").map_or(line, |parts| parts.0);
    for word in statement.fields() {
        row.write_bytes(b" ");
        row.write_text(word);
    }
}

/// Prints how many lines the text has, and how many of those after the head are not `DB`.
pub(crate) fn answer_count(row: &mut Row) {
    let Some(text) = text_of(row) else {
        return;
    };
    let all = text.as_slice().lines().count();
    let others = text
        .as_slice()
        .lines()
        .skip(HEAD)
        .filter(|line| !line.contains_str(b" DB "))
        .count();
    write!(row, " {all} lines, {others} not DB");
}

/// Prints the sentence about a fault.
pub(crate) fn answer_sentence(row: &mut Row) {
    let Some(input) = input_of(row) else {
        return;
    };
    match answer_of(row, &input) {
        Ok(_) => write!(row, " no fault"),
        Err(fault) => write!(row, " {fault}"),
    }
}
