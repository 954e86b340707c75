//! Prints the warnings about the jumps of sources.

use crate::sources::{grow_of, texts_of};
use row_text::Row;
use z80dev_make::{Front, Products, SharedFile, SourceFile, Wanted, asm, build};

/// Nothing but the program, its sizes file and its certificate.
const NOTHING_MORE: Products = Products {
    list: false,
    map: false,
    symbols: None,
};

/// The paths of the sources of a row, which has eight at most.
const PATHS: [&str; 8] = ["A", "B", "C", "D", "E", "F", "G", "H"];

/// Prints lines, each with `|` as its end.
fn show_lines(row: &mut Row, lines: &[u8]) {
    if lines.is_empty() {
        return write!(row, " none");
    }
    write!(row, " ");
    for byte in lines {
        let shown = if *byte == b'\n' { b'|' } else { *byte };
        row.write_text(&[shown]);
    }
}

/// Answers files with these texts, whose paths are A, B and so on.
fn files_of<'t>(row: &mut Row, texts: &'t [Vec<u8>]) -> Vec<SourceFile<'t>> {
    let mut files = Vec::new(row.alloc());
    for (text, path) in texts.iter().zip(&PATHS) {
        if files.push(SourceFile { path: *path, text }).is_err() {
            row.refuse("no memory");
        }
    }
    files
}

/// Prints the warnings of the program of a row's sources.
pub(crate) fn answer_build(row: &mut Row) {
    let grow = grow_of(row);
    let texts = texts_of(row);
    let files = files_of(row, &texts);
    let front = Front {
        defines: &[],
        files: &[],
    };
    let wanted = Wanted {
        grow,
        products: NOTHING_MORE,
        warn: true,
    };
    let made = build(row.alloc(), front, &files, wanted);
    show_lines(row, &made.warnings);
}

/// Prints the warnings of a row's source by itself; the first of its texts is a shared file.
pub(crate) fn answer_asm(row: &mut Row) {
    let grow = grow_of(row);
    let texts = texts_of(row);
    let files = files_of(row, &texts);
    let [shared, file, ..] = files.as_slice() else {
        return row.refuse("no source");
    };
    let before = [SharedFile::new(*shared)];
    let front = Front {
        defines: &["SIZE=2"],
        files: &before,
    };
    let object = asm(row.alloc(), front, *file, grow, true);
    show_lines(row, &object.warnings);
}
