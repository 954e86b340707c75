//! Prints files of symbols.

use crate::input::{grow_of, sources_of, texts_of};
use crate::shown::show_lines;
use program_map::{SymbolForm, symbol_file};
use row_text::Row;
use std::alloc::Global;
use zlink::{Symbol, build_with};

/// Prints the file of these labels.
fn show_file(row: &mut Row, form: SymbolForm, symbols: &[Symbol]) {
    match symbol_file(row.alloc(), form, symbols) {
        Ok(text) => show_lines(row, &text),
        Err(_) => row.refuse("no memory"),
    }
}

/// Prints the file of the labels of the program of sources.
pub(crate) fn answer_built(row: &mut Row, form: SymbolForm) {
    let alloc = row.alloc();
    let grow = grow_of(row);
    let texts = texts_of(row);
    let sources = sources_of(row, &texts);
    match build_with(alloc, &sources, grow) {
        Ok(built) => show_file(row, form, &built.symbols),
        Err(fault) => write!(row, " {fault}"),
    }
}

/// Parses a label: its module, its name and its address in hexadecimal, with dots between them.
fn symbol_of(alloc: Global, text: &str) -> Option<Symbol> {
    let (module, rest) = text.split_once('.')?;
    let (name, place) = rest.split_once('.')?;
    Some(Symbol {
        place: u32::from_str_radix(place, 16).ok()?,
        name: name.as_bytes().to_vec(alloc).ok()?,
        module: module.as_bytes().to_vec(alloc).ok()?,
    })
}

/// Parses labels.
fn symbols_of(alloc: Global, columns: &str) -> Option<Vec<Symbol>> {
    let mut symbols = Vec::new(alloc);
    for text in columns.split('/') {
        symbols.push(symbol_of(alloc, text)?).ok()?;
    }
    Some(symbols)
}

/// Prints the file of these labels.
pub(crate) fn answer_made(row: &mut Row, form: SymbolForm) {
    let columns = row.rest();
    match symbols_of(row.alloc(), columns) {
        Some(symbols) => show_file(row, form, &symbols),
        None => row.refuse("no labels"),
    }
}
