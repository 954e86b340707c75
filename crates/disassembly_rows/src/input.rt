//! Reads what a row disassembles.

use row_text::Row;
use std::alloc::Global;

/// A program, its entries, where data begins, and a labels file if there is one.
#[derive(Drop)]
pub(crate) struct Input<'a> {
    pub(crate) program: Vec<u8>,
    pub(crate) entries: Vec<&'a str>,
    pub(crate) data_starts: Vec<&'a str>,
    pub(crate) labels: Option<Vec<u8>>,
}

/// Appends the bytes of a part of a program: hexadecimal digits, or a count, `*` and the digits of what is repeated.
fn put_part(alloc: Global, program: &mut Vec<u8>, part: &str) -> Option<()> {
    let (count, digits) = part.split_once('*').unwrap_or(("1", part));
    let bytes = hex::decode(alloc, digits).ok()?;
    for _ in 0..u32::from_str_radix(count, 10).ok()? {
        program.extend_from_slice(&bytes).ok()?;
    }
    Some(())
}

/// Answers the bytes of a program: parts with `+` between them, or `-` for none.
fn program_of(alloc: Global, column: &str) -> Option<Vec<u8>> {
    let mut program = Vec::new(alloc);
    if column == "-" {
        return Some(program);
    }
    for part in column.split('+') {
        put_part(alloc, &mut program, part)?;
    }
    Some(program)
}

/// Answers the words of a column with commas between them that are entries; none for `-` and for a column that is not there.
fn entries_of(alloc: Global, column: &str) -> Option<Vec<&str>> {
    let mut entries = Vec::new(alloc);
    if matches!(column, "" | "-") {
        return Some(entries);
    }
    for word in column.split(',') {
        if !word.starts_with('=') {
            entries.push(word).ok()?;
        }
    }
    Some(entries)
}

/// Answers the words of the same column that come after `=`.
fn data_starts_of(alloc: Global, column: &str) -> Option<Vec<&str>> {
    let mut starts = Vec::new(alloc);
    for word in column.split(',') {
        if let Some(start) = word.strip_prefix('=') {
            starts.push(start).ok()?;
        }
    }
    Some(starts)
}

/// Answers the labels file of the columns that are left; none if there are none.
fn labels_of(row: &mut Row) -> Option<Vec<u8>> {
    let text = row.rest();
    if text.is_empty() {
        return None;
    }
    Some(row.lines_of(text))
}

/// Takes the columns of a program, its entries and its labels. The last two may be left out.
pub(crate) fn input_of<'a>(row: &mut Row<'a>) -> Option<Input<'a>> {
    let alloc = row.alloc();
    let program = program_of(alloc, row.word());
    let column = row.word();
    let entries = entries_of(alloc, column);
    let data_starts = data_starts_of(alloc, column);
    let labels = labels_of(row);
    match (program, entries, data_starts) {
        (Some(program), Some(entries), Some(data_starts)) => Some(Input {
            program,
            entries,
            data_starts,
            labels,
        }),
        _ => {
            row.refuse("columns");
            None
        }
    }
}
