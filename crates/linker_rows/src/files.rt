//! Builds programs whose sources are files in the folder `data`.

use crate::shown::{show_checked, show_digits};
use program_map::{listing, symbols};
use row_text::Row;
use std::fs;
use zlink::{Built, Source, build};

/// The address at which a file is loaded.
const BASE: usize = 0x0100;

/// A program that is built from files.
#[derive(Drop)]
pub(crate) struct Program {
    paths: String,
    built: Built,
}

/// Answers the contents of a source file, which is given as `PATH` or `NAME=PATH`.
fn text_of(rt: &HostRuntime, row: &mut Row, word: &str) -> Vec<u8> {
    let (_, path) = word.split_once('=').unwrap_or(("", word));
    match fs::read(rt, path) {
        Ok(text) => text,
        Err(_) => {
            row.refuse("no such file");
            Vec::new(row.alloc())
        }
    }
}

/// Answers the contents of source files.
fn texts_of(rt: &HostRuntime, row: &mut Row, words: &str) -> Vec<Vec<u8>> {
    let mut texts = Vec::new(row.alloc());
    for word in words.split(' ') {
        let text = text_of(rt, row, word);
        if texts.push(text).is_err() {
            row.refuse("no memory");
        }
    }
    texts
}

/// Answers sources, given their contents. A path without a name is the name too.
fn sources_of<'t>(row: &mut Row, words: &'t str, texts: &'t [Vec<u8>]) -> Vec<Source<'t>> {
    let mut sources = Vec::new(row.alloc());
    for (word, text) in words.split(' ').zip(texts) {
        let (name, _) = word.split_once('=').unwrap_or((word, ""));
        let name = name.as_bytes();
        if sources.push(Source { name, text }).is_err() {
            row.refuse("no memory");
        }
    }
    sources
}

/// Prints how large a program is, and the checker's answer for it.
fn show_program(row: &mut Row, built: &Built) {
    let (bytes, statements) = (built.com.len(), built.statements.len());
    write!(row, " {bytes} bytes, {statements} statements; check");
    show_checked(row, &built.sizes, &built.cert)
}

/// Builds the program of these files.
pub(crate) fn answer_program(rt: &HostRuntime, row: &mut Row) -> Option<Program> {
    let words = row.rest();
    let texts = texts_of(rt, row, words);
    let sources = sources_of(row, words, &texts);
    let Ok(built) = build(row.alloc(), &sources) else {
        row.refuse("no file");
        return None;
    };
    show_program(row, &built);
    match words.to_string(row.alloc()) {
        Ok(paths) => Some(Program { paths, built }),
        Err(_) => {
            row.refuse("no memory");
            None
        }
    }
}

/// Prints the source and line that the statement at an address comes from.
fn show_origin(row: &mut Row, program: &Program, address: u32) {
    for origin in &program.built.statements {
        if origin.place == address {
            match program.paths.split(' ').nth(origin.source) {
                Some(path) => write!(row, " {path}({})", origin.line),
                None => row.refuse("no such source"),
            }
        }
    }
}

/// Prints the bytes that a row asks for: the address and how many; a note follows.
pub(crate) fn answer_bytes(row: &mut Row, program: Option<&Program>) {
    let Some(program) = program else {
        return row.refuse("no program");
    };
    let address = row.hexadecimal();
    let count = row.decimal();
    if row.rest().is_empty() {
        row.refuse("no note");
    }
    show_origin(row, program, u32::from(address));
    let from = usize::from(address).saturating_sub(BASE);
    let end = from.saturating_add(count as usize);
    match program.built.com.get(from..end) {
        Some(bytes) => show_digits(row, bytes),
        None => row.refuse("after the file"),
    }
}

/// Prints the listing of a program, and its symbols.
fn show_listing(row: &mut Row, built: &Built, sources: &[Source<'_>]) {
    let lines = listing(row.alloc(), built, sources);
    let labels = symbols(row.alloc(), built);
    match (&lines, &labels) {
        (Ok(lines), Ok(labels)) => {
            writeln!(row);
            row.write_bytes(lines);
            writeln!(row, "symbols");
            row.write_bytes(labels)
        }
        _ => row.refuse("no memory"),
    }
}

/// Prints the listing of the program of these files, and its symbols.
pub(crate) fn answer_listing(rt: &HostRuntime, row: &mut Row) {
    let words = row.rest();
    let texts = texts_of(rt, row, words);
    let sources = sources_of(row, words, &texts);
    match build(row.alloc(), &sources) {
        Ok(built) => show_listing(row, &built, &sources),
        Err(_) => row.refuse("no file"),
    }
}
