//! Rows of words that are names or patterns of files.

use row_text::Row;
use z80dev_disk::{Name, file_name, is_wild, own_name, pattern_of};

/// Takes the rest of a row as a text.
fn text(row: &mut Row) -> String {
    match String::from_utf8(row.bytes()) {
        Ok(text) => text,
        Err(_) => {
            row.refuse("no UTF-8");
            String::new(row.alloc())
        }
    }
}

/// Prints a name with its blanks.
fn show_name(row: &mut Row, name: Option<Name>) {
    match name {
        Some(name) => row.write_runs(&name.bytes()),
        None => write!(row, " none"),
    }
}

/// Prints the name that a word gives.
pub(crate) fn answer_name(row: &mut Row) {
    let word = text(row);
    show_name(row, file_name(word.as_str()))
}

/// Prints the name that the last part of a path gives.
pub(crate) fn answer_own_name(row: &mut Row) {
    let path = text(row);
    show_name(row, own_name(path.as_str()))
}

/// Prints a pattern with its blanks, and whether it has a `?`.
fn show_pattern(row: &mut Row, pattern: &[u8; 11]) {
    row.write_runs(pattern);
    if is_wild(pattern) {
        write!(row, " wild");
    }
}

/// Prints the pattern that a word gives, with its blanks, and whether it has a `?`.
pub(crate) fn answer_pattern(row: &mut Row) {
    let word = text(row);
    match pattern_of(word.as_str()) {
        Some(pattern) => show_pattern(row, &pattern),
        None => write!(row, " none"),
    }
}
