//! Reads the sources that a row has.

use row_text::Row;
use zlink::Source;

/// The names of the sources of a row, which has eight at most.
const NAMES: &[u8] = b"ABCDEFGH";

/// Replaces each `|` by a line end.
fn put_line_ends(text: &mut [u8]) {
    for byte in text.iter_mut() {
        if *byte == b'|' {
            *byte = b'\n';
        }
    }
}

/// Takes whether a written `JR` may grow.
pub(crate) fn grow_of(row: &mut Row) -> bool {
    row.word() == "grow"
}

/// Takes the columns that are left as sources, with `~` between them.
pub(crate) fn texts_of(row: &mut Row) -> Vec<Vec<u8>> {
    let mut texts = Vec::new(row.alloc());
    for text in row.rest().split('~') {
        let mut lines = row.bytes_of(text);
        put_line_ends(&mut lines);
        if texts.push(lines).is_err() {
            row.refuse("no memory");
        }
    }
    texts
}

/// Answers sources with these texts, named A, B and so on.
pub(crate) fn sources_of<'t>(row: &mut Row, texts: &'t [Vec<u8>]) -> Vec<Source<'t>> {
    let mut sources = Vec::new(row.alloc());
    for (text, name) in texts.iter().zip(NAMES.chunks(1)) {
        if sources.push(Source { name, text }).is_err() {
            row.refuse("no memory");
        }
    }
    sources
}
