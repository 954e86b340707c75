//! Reads the lines of a row, and the layout in its columns.

use asm_expr::Statement;
use asm_line::tokens;
use asm_names::{Layout, SourceLine};
use asm_spell::{Line, statement};
use row_text::Row;
use std::alloc::Global;

/// Parses one line. None if it has an error.
fn line_of(alloc: Global, text: &str) -> Option<Line> {
    statement(alloc, &tokens(alloc, text.as_bytes()).ok()?).ok()
}

/// Parses the lines of a text, numbered from 1. None if one has an error.
fn parsed(alloc: Global, text: &str) -> Option<Vec<SourceLine>> {
    let mut lines = Vec::new(alloc);
    let mut number = 0u32;
    for line in text.lines() {
        number = number.saturating_add(1);
        let line = line_of(alloc, line)?;
        lines.push(SourceLine { number, line }).ok()?;
    }
    Some(lines)
}

/// The lines of a text. None if one has an error.
pub(crate) fn lines_of(alloc: Global, text: &[u8]) -> Option<Vec<SourceLine>> {
    parsed(alloc, std::str::from_utf8(text).ok()?)
}

/// The size of a statement: a number of bytes, or `jump` for a relaxable jump.
fn size_of(word: &str) -> Option<Statement> {
    if word == "jump" {
        return Some(Statement::Relaxable);
    }
    match u16::from_str_radix(word, 10) {
        Ok(size) => Some(Statement::Sized(size)),
        Err(_) => None,
    }
}

/// The words of a column, separated by commas. `-` is an empty list.
fn words_in(column: &str) -> &str {
    column.strip_prefix('-').unwrap_or(column)
}

/// The numbers in a column.
fn numbers_of(alloc: Global, column: &str) -> Option<Vec<u16>> {
    let mut numbers = Vec::new(alloc);
    for number in words_in(column).split_terminator(',') {
        numbers.push(u16::from_str_radix(number, 10).ok()?).ok()?;
    }
    Some(numbers)
}

/// The sizes in a column.
fn sizes_of(alloc: Global, column: &str) -> Option<Vec<Statement>> {
    let mut sizes = Vec::new(alloc);
    for size in words_in(column).split_terminator(',') {
        sizes.push(size_of(size)?).ok()?;
    }
    Some(sizes)
}

/// The layout that two columns say.
fn layout_in(alloc: Global, numbers: &str, sizes: &str) -> Option<Layout> {
    Some(Layout {
        next: numbers_of(alloc, numbers)?,
        statements: sizes_of(alloc, sizes)?,
    })
}

/// Takes a layout: the number of the next statement at each line, and the size of each statement.
pub(crate) fn layout_of(row: &mut Row) -> Option<Layout> {
    let numbers = row.until(' ');
    let sizes = row.until(' ');
    layout_in(row.alloc(), numbers, sizes)
}
