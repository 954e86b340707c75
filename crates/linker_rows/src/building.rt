//! Builds sources, and prints the file or why there is none.

use crate::linking::{show_difference, show_linked};
use crate::shown::{show_bytes, show_checked, show_fault, show_lines};
use crate::sources::{build_sources, grow_of, lines_of, sources_of, texts_of};
use row_text::Row;
use zlink::{BuildFault, Built, LinkFault, Source, build};

/// Prints a file, the checker's answer for its sizes file and certificate, and whether linking its modules gives another program.
fn show_built(row: &mut Row, sources: &[Source<'_>], grow: bool, built: &Built) {
    write!(row, " ");
    show_bytes(row, &built.com);
    write!(row, "; check");
    show_checked(row, &built.sizes, &built.cert);
    show_difference(row, sources, grow, false, built);
    show_difference(row, sources, grow, true, built)
}

/// Prints why no file is built, and whether linking the modules is refused for another reason.
fn show_refused(row: &mut Row, sources: &[Source<'_>], grow: bool, fault: &BuildFault) {
    show_fault(row, fault);
    match fault {
        BuildFault::Link(fault) => show_linked(row, sources, grow, fault),
        BuildFault::Asm {
            source: _,
            fault: _,
        } => (),
    }
}

/// Prints the file of sources, or why there is none.
pub(crate) fn answer_build(row: &mut Row) {
    let grow = grow_of(row);
    let texts = texts_of(row);
    let sources = sources_of(row, &texts);
    match build_sources(row.alloc(), &sources, grow) {
        Ok(built) => show_built(row, &sources, grow, &built),
        Err(fault) => show_refused(row, &sources, grow, &fault),
    }
}

/// A sizes file and a certificate.
#[derive(Drop)]
struct Texts {
    sizes: Vec<u8>,
    cert: Vec<u8>,
}

/// Answers the sizes file and the certificate of sources, also if no choice fits. None if a source has an error.
fn two_texts(row: &mut Row) -> Option<Texts> {
    let grow = grow_of(row);
    let texts = texts_of(row);
    let sources = sources_of(row, &texts);
    match build_sources(row.alloc(), &sources, grow) {
        Ok(Built { sizes, cert, .. }) => Some(Texts { sizes, cert }),
        Err(BuildFault::Link(LinkFault::NoFit { sizes, cert, .. })) => Some(Texts { sizes, cert }),
        Err(_) => None,
    }
}

/// Prints the sizes file and the certificate of sources.
pub(crate) fn answer_texts(row: &mut Row) {
    match two_texts(row) {
        Some(texts) => {
            show_lines(row, &texts.sizes);
            show_lines(row, &texts.cert)
        }
        None => row.refuse("no texts"),
    }
}

/// Prints the checker's answer for the sizes file of sources and another certificate.
pub(crate) fn answer_judged(row: &mut Row) {
    let cert = row.until('~');
    let cert = lines_of(row, cert);
    match two_texts(row) {
        Some(texts) => show_checked(row, &texts.sizes, &cert),
        None => row.refuse("no texts"),
    }
}

/// Answers any number of sources with `~` between them, all of them named N.
fn many_sources<'t>(row: &mut Row, text: &'t str) -> Vec<Source<'t>> {
    let mut sources = Vec::new(row.alloc());
    let name = b"N";
    for part in text.split('~') {
        let text = part.as_bytes();
        if sources.push(Source { name, text }).is_err() {
            row.refuse("no memory");
        }
    }
    sources
}

/// The text that these bytes are.
fn text_in<'t>(row: &mut Row, bytes: &'t [u8]) -> &'t str {
    match std::str::from_utf8(bytes) {
        Ok(text) => text,
        Err(_) => {
            row.refuse("no text");
            ""
        }
    }
}

/// Builds any number of sources. Braces may contain the `~` between them.
fn built_of_many(row: &mut Row, columns: &str) -> Result<Built, BuildFault> {
    let lines = lines_of(row, columns);
    let text = text_in(row, &lines);
    let sources = many_sources(row, text);
    build(row.alloc(), &sources)
}

/// Prints how many bytes two programs have if their files are the same, and the checker's answer for the first one.
fn show_same(row: &mut Row, first: &Built, second: &Built) {
    if first.com != second.com {
        return write!(row, " another file");
    }
    write!(row, " {} bytes; check", first.com.len());
    show_checked(row, &first.sizes, &first.cert)
}

/// Compares two programs of any number of sources.
pub(crate) fn answer_same(row: &mut Row) {
    let Some((first, second)) = row.rest().split_once(" = ") else {
        return row.refuse("no second program");
    };
    let first = built_of_many(row, first);
    let second = built_of_many(row, second);
    match (&first, &second) {
        (Ok(first), Ok(second)) => show_same(row, first, second),
        _ => row.refuse("no file"),
    }
}

/// Prints why no file is built from any number of sources.
pub(crate) fn answer_fault(row: &mut Row) {
    let columns = row.rest();
    match built_of_many(row, columns) {
        Ok(_) => write!(row, " a file"),
        Err(fault) => show_fault(row, &fault),
    }
}

/// Prints the sentence about an error.
pub(crate) fn answer_sentence(row: &mut Row) {
    let columns = row.rest();
    match built_of_many(row, columns) {
        Ok(_) => row.refuse("a file"),
        Err(fault) => write!(row, " {fault}"),
    }
}

/// Prints the sentence about memory that ran out.
pub(crate) fn answer_no_memory(row: &mut Row) {
    let fault = BuildFault::Link(LinkFault::NoMemory);
    write!(row, " {fault}")
}
