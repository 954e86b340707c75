//! Rows about the tokens of a line, and about how a line begins.

use asm_line::{Head, ScanFault, Token, form_of, names, tokens};
use row_text::Row;

/// Prints a text in `<` and `>`.
pub(crate) fn show_text(row: &mut Row, text: &[u8]) {
    write!(row, " <");
    row.write_text(text);
    write!(row, ">")
}

/// Prints the kind of each token, and its text.
fn show_tokens(row: &mut Row, found: &[Token]) {
    for token in found {
        write!(row, " {:?}", token.kind);
        show_text(row, token.text);
    }
}

/// Prints the tokens of a line, or its error.
pub(crate) fn answer_tokens(row: &mut Row, line: &[u8]) {
    match tokens(row.alloc(), line) {
        Ok(found) => show_tokens(row, &found),
        Err(fault) => write!(row, " {fault:?}"),
    }
}

/// The tokens of a line that has to have some.
pub(crate) fn tokens_of<'a>(row: &mut Row, line: &'a [u8]) -> Vec<Token<'a>> {
    match tokens(row.alloc(), line) {
        Ok(found) => found,
        Err(_) => {
            row.refuse("no tokens");
            Vec::new(row.alloc())
        }
    }
}

/// Prints how many tokens a line has.
pub(crate) fn answer_count(row: &mut Row, line: &[u8]) {
    let found = tokens_of(row, line);
    write!(row, " {} tokens", found.len())
}

/// Prints the names of all scan errors.
pub(crate) fn answer_faults(row: &mut Row) {
    for fault in [
        ScanFault::BadByte,
        ScanFault::OpenString,
        ScanFault::LineTooLong,
        ScanFault::BadNumber,
        ScanFault::NoMemory,
    ] {
        write!(row, " {fault:?}");
    }
}

/// Prints what a text is, and then the text.
fn show_named(row: &mut Row, what: &str, text: &[u8]) {
    write!(row, " {what}");
    show_text(row, text)
}

fn show_head(row: &mut Row, head: &Head) {
    match head {
        Head::Equ(name) => show_named(row, "EQU", name),
        Head::Macro(name) => show_named(row, "MACRO", name),
        Head::Block(word) => write!(row, " block {word:?}"),
        Head::Word(name) => show_named(row, "word", name),
        Head::Nothing => write!(row, " no word"),
    }
}

/// Prints the label of a line, its head, and how many tokens come after these.
pub(crate) fn answer_form(row: &mut Row, line: &[u8]) {
    let found = tokens_of(row, line);
    let form = form_of(&found);
    if let Some(label) = form.label {
        show_named(row, "label", label);
    }
    show_head(row, &form.head);
    write!(row, ", then {}", form.rest.len())
}

fn show_names(row: &mut Row, list: &[Vec<u8>]) {
    for name in list {
        show_named(row, "name", name);
    }
}

/// Prints the names in a list.
pub(crate) fn answer_names(row: &mut Row, line: &[u8]) {
    let found = tokens_of(row, line);
    match names(row.alloc(), &found) {
        Ok(Some(list)) => show_names(row, &list),
        Ok(None) => write!(row, " no list of names"),
        Err(_) => row.refuse("no memory"),
    }
}
