//! Prints listings and symbols of programs that no build answers: the row says what they have.

use crate::shown::show_lines;
use program_map::{listing, symbols};
use row_text::Row;
use std::alloc::Global;
use zlink::{Built, Origin, Source, Symbol};

/// Answers a program with these bytes and nothing else.
fn made(alloc: Global, com: Vec<u8>) -> Built {
    Built {
        com,
        sizes: Vec::new(alloc),
        cert: Vec::new(alloc),
        symbols: Vec::new(alloc),
        statements: Vec::new(alloc),
        last: Vec::new(alloc),
        grown: Vec::new(alloc),
        modules: Vec::new(alloc),
        lines: Vec::new(alloc),
    }
}

/// Parses a statement: its address in hexadecimal, its source and its line, with dots between them.
fn origin_of(text: &str) -> Option<Origin> {
    let (place, rest) = text.split_once('.')?;
    let (source, line) = rest.split_once('.')?;
    Some(Origin {
        place: u32::from_str_radix(place, 16).ok()?,
        source: usize::from_str_radix(source, 10).ok()?,
        line: u32::from_str_radix(line, 10).ok()?,
    })
}

fn statements_of(alloc: Global, column: &str) -> Option<Vec<Origin>> {
    let mut statements = Vec::new(alloc);
    for text in column.split('/') {
        statements.push(origin_of(text)?).ok()?;
    }
    Some(statements)
}

fn numbers_of(alloc: Global, column: &str) -> Option<Vec<u32>> {
    let mut numbers = Vec::new(alloc);
    for text in column.split('/') {
        numbers.push(u32::from_str_radix(text, 10).ok()?).ok()?;
    }
    Some(numbers)
}

/// Answers a program with these bytes, statements and last lines.
fn program_of(alloc: Global, com: &str, statements: &str, last: &str) -> Option<Built> {
    let mut built = made(alloc, hex::decode(alloc, com).ok()?);
    built.statements = statements_of(alloc, statements)?;
    built.last = numbers_of(alloc, last)?;
    Some(built)
}

/// Prints the listing of two sources.
fn show_listing(row: &mut Row, built: &Built) {
    let sources = [
        Source {
            name: b"A",
            text: b"one\ntwo\nthree\n",
        },
        Source {
            name: b"B",
            text: b"four",
        },
    ];
    match listing(row.alloc(), built, &sources) {
        Ok(text) => show_lines(row, &text),
        Err(_) => row.refuse("no memory"),
    }
}

/// Prints the listing of two sources, for a file with these statements and last lines.
pub(crate) fn answer_listing(row: &mut Row) {
    let com = row.until(' ');
    let statements = row.until(' ');
    let last = row.rest();
    match program_of(row.alloc(), com, statements, last) {
        Some(built) => show_listing(row, &built),
        None => row.refuse("no program"),
    }
}

/// Parses a label: its module, its name and its address in hexadecimal, with dots between them.
fn symbol_of(alloc: Global, text: &str) -> Option<Symbol> {
    let (module, rest) = text.split_once('.')?;
    let (name, place) = rest.split_once('.')?;
    Some(Symbol {
        place: u32::from_str_radix(place, 16).ok()?,
        name: name.as_bytes().to_vec(alloc).ok()?,
        module: module.as_bytes().to_vec(alloc).ok()?,
    })
}

/// Answers a program with these labels and no bytes.
fn labelled(alloc: Global, columns: &str) -> Option<Built> {
    let mut built = made(alloc, Vec::new(alloc));
    for text in columns.split('/') {
        built.symbols.push(symbol_of(alloc, text)?).ok()?;
    }
    Some(built)
}

fn show_symbols(row: &mut Row, built: &Built) {
    match symbols(row.alloc(), built) {
        Ok(text) => show_lines(row, &text),
        Err(_) => row.refuse("no memory"),
    }
}

/// Prints the symbols file of these labels.
pub(crate) fn answer_symbols(row: &mut Row) {
    let columns = row.rest();
    match labelled(row.alloc(), columns) {
        Some(built) => show_symbols(row, &built),
        None => row.refuse("no labels"),
    }
}
