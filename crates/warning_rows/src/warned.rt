//! Prints the warnings about sources.

use row_text::Row;
use source_warnings::{Kind, SourceWarning, find_call_warnings, find_warnings};

/// Answers the warnings about a row's source.
fn found_in(row: &mut Row) -> Vec<SourceWarning> {
    let text = row.rest();
    let source = row.lines_of(text);
    match find_warnings(row.alloc(), &source) {
        Ok(found) => found,
        Err(_) => {
            row.refuse("no memory");
            Vec::new(row.alloc())
        }
    }
}

/// Prints what kind a warning is of.
fn show_kind(row: &mut Row, kind: Kind) {
    match kind {
        Kind::UnusedLabel => write!(row, "label"),
        Kind::UnusedExternal => write!(row, "external"),
        Kind::PublicAgain(first) => write!(row, "public {first}"),
        Kind::ExternalAgain(first) => write!(row, "extrn {first}"),
        Kind::Arguments(parameters, arguments) => write!(row, "{parameters} {arguments}"),
    }
}

/// Answers the warnings about the calls of a row's source.
fn calls_in(row: &mut Row) -> Vec<SourceWarning> {
    let text = row.rest();
    let source = row.lines_of(text);
    match find_call_warnings(row.alloc(), &source) {
        Ok(found) => found,
        Err(_) => {
            row.refuse("no memory");
            Vec::new(row.alloc())
        }
    }
}

/// Prints warnings: the line, the name and the kind of each.
fn show_all(row: &mut Row, found: &[SourceWarning]) {
    for warning in found {
        write!(row, " {}:", warning.number);
        row.write_text(&warning.name);
        write!(row, " ");
        show_kind(row, warning.kind);
        write!(row, ",");
    }
}

/// Prints the warnings about a row's source.
pub(crate) fn answer_warnings(row: &mut Row) {
    let found = found_in(row);
    show_all(row, &found);
}

/// Prints the warnings about the calls of a row's source.
pub(crate) fn answer_calls(row: &mut Row) {
    let found = calls_in(row);
    show_all(row, &found);
}

/// Prints the messages of warnings, and what to do.
fn show_messages(row: &mut Row, found: &[SourceWarning]) {
    for warning in found {
        match (warning.message(row.alloc()), warning.help(row.alloc())) {
            (Ok(message), Ok(help)) => {
                write!(row, " {}: {message}; {help} |", warning.number);
                row.write_text(&warning.text);
                write!(row, "|");
            }
            _ => row.refuse("no memory"),
        }
    }
}

/// Prints the messages of the warnings about a row's source, and what to do.
pub(crate) fn answer_messages(row: &mut Row) {
    let found = found_in(row);
    show_messages(row, &found);
}

/// Prints the messages of the warnings about the calls of a row's source.
pub(crate) fn answer_call_messages(row: &mut Row) {
    let found = calls_in(row);
    show_messages(row, &found);
}
