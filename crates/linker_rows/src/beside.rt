//! Prints what comes with a file: the address and the line of each statement, the last lines of its sources, its labels, and the jumps that
//! grew.

use crate::call::OnBuilt;
use crate::sources::{build_sources, grow_of, lines_in, sources_of, texts_of};
use row_text::Row;
use zlink::{Origin, Source, Symbol, build};

/// Prints the address, the source and the line of each statement.
fn show_statements(row: &mut Row, statements: &[Origin]) {
    for origin in statements {
        let place = origin.place;
        write!(row, " {place:04X} {}.{}", origin.source, origin.line);
    }
}

/// Prints the address, the module and the name of each label.
fn show_symbols(row: &mut Row, symbols: &[Symbol]) {
    for symbol in symbols {
        write!(row, " {:04X} ", symbol.place);
        row.write_text(&symbol.module);
        write!(row, " ");
        row.write_text(&symbol.name);
    }
}

/// Prints numbers: for each source the last line that a listing shows, or the jumps that grew.
fn show_numbers(row: &mut Row, numbers: &[u32]) {
    for number in numbers {
        write!(row, " {number}");
    }
}

/// Makes calls that print what comes with the file of a row's sources. Only for `Grown` the row says if a written `JR` may grow.
pub(crate) fn answer_built(row: &mut Row, call: OnBuilt) {
    let grow = match call {
        OnBuilt::Grown => grow_of(row),
        _ => false,
    };
    let texts = texts_of(row);
    let sources = sources_of(row, &texts);
    let Ok(built) = build_sources(row.alloc(), &sources, grow) else {
        return row.refuse("no file");
    };
    match call {
        OnBuilt::Statements => show_statements(row, &built.statements),
        OnBuilt::Symbols => show_symbols(row, &built.symbols),
        OnBuilt::Last => show_numbers(row, &built.last),
        OnBuilt::Grown => show_numbers(row, &built.grown),
    }
}

/// Prints the module of each label.
fn show_modules(row: &mut Row, symbols: &[Symbol]) {
    for symbol in symbols {
        write!(row, " ");
        row.write_text(&symbol.module);
    }
}

/// Prints the module of each label, for a source that has this name and one label.
pub(crate) fn answer_module_name(row: &mut Row) {
    let name = lines_in(row);
    let source = Source {
        name: &name,
        text: b"X:",
    };
    match build(row.alloc(), &[source]) {
        Ok(built) => show_modules(row, &built.symbols),
        Err(_) => row.refuse("no file"),
    }
}
