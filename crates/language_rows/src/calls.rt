//! Rows about replacing names, and about the arguments of a call.

use crate::scanning::{show_text, tokens_of};
use asm_line::{Names, Replacements, arguments, replace, tokens};
use row_text::Row;
use std::alloc::{AllocError, Global};
use std::rc::Rc;

/// The texts of a column, with a slash after each.
fn texts_of(alloc: Global, column: &str) -> Result<Vec<Vec<u8>>, AllocError> {
    let mut texts = Vec::new(alloc);
    for text in column.split_terminator('/') {
        texts.push(text.as_bytes().to_vec(alloc)?)?;
    }
    Ok(texts)
}

/// The parameters of a macro, the arguments of a call, and its LOCAL names.
#[derive(Clone, Copy)]
struct Texts<'a> {
    parameters: &'a str,
    arguments: &'a str,
    locals: &'a str,
}

/// What a call replaces names by, with the number of the first of its LOCAL names.
fn table_of(alloc: Global, texts: Texts, counter: u64) -> Result<Replacements, AllocError> {
    let names = Names::new(
        alloc,
        &texts_of(alloc, texts.parameters)?,
        &texts_of(alloc, texts.locals)?,
    )?;
    Ok(Replacements {
        names: Rc::new(alloc, names)?,
        arguments: texts_of(alloc, texts.arguments)?,
        counter,
    })
}

/// A line as a call shows it.
fn replaced(alloc: Global, table: &Replacements, line: &[u8]) -> Option<Vec<u8>> {
    let mut out = Vec::new(alloc);
    match replace(table, line, &tokens(alloc, line).ok()?, &mut out) {
        Ok(()) => Some(out),
        Err(_) => None,
    }
}

fn show_replaced(row: &mut Row, table: &Replacements) {
    let line = row.bytes();
    match replaced(row.alloc(), table, &line) {
        Some(text) => show_text(row, &text),
        None => row.refuse("no tokens"),
    }
}

/// Prints a line as a call shows it. The row has the columns of the call and then the line, with bars between them.
pub(crate) fn answer_replaced(row: &mut Row) {
    let texts = Texts {
        parameters: row.until('|'),
        arguments: row.until('|'),
        locals: row.until('|'),
    };
    let Ok(counter) = u64::from_str_radix(row.until('|'), 10) else {
        return row.refuse("no number");
    };
    match table_of(row.alloc(), texts, counter) {
        Ok(table) => show_replaced(row, &table),
        Err(_) => row.refuse("no memory"),
    }
}

fn show_texts(row: &mut Row, texts: &[Vec<u8>]) {
    for text in texts {
        show_text(row, text);
    }
}

/// Prints the arguments of a call. The row has what follows the macro's name.
pub(crate) fn answer_arguments(row: &mut Row, line: &[u8]) {
    let found = tokens_of(row, line);
    match arguments(row.alloc(), line, &found) {
        Ok(texts) => show_texts(row, &texts),
        Err(_) => row.refuse("no memory"),
    }
}
