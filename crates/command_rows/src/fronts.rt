//! Rows of words that are definitions, and of sources after a front.

use crate::making::{Sources, lent, show_made, sources_of};
use row_text::Row;
use std::alloc::{AllocError, Global};
use z80dev::{Front, Products, SharedFile, SourceFile, Wanted, build, shared_files};
use z80dev_make::bad_define;

/// Takes a part of a row as words with commas between them; `-` is no word.
fn words_of<'a>(alloc: Global, part: &'a str) -> Result<Vec<&'a str>, AllocError> {
    let mut words = Vec::new(alloc);
    if part != "-" {
        for word in part.split(',') {
            words.push(word)?;
        }
    }
    Ok(words)
}

/// Prints the first of the words that is no definition.
pub(crate) fn answer_define(row: &mut Row) {
    let part = row.rest();
    let Ok(words) = words_of(row.alloc(), part) else {
        return row.refuse("no memory");
    };
    match bad_define(row.alloc(), &words) {
        Ok(Some(word)) => write!(row, " bad {word}"),
        Ok(None) => write!(row, " good"),
        Err(_) => row.refuse("no memory"),
    }
}

/// Takes a part of a row as shared files; `-` is no file.
fn shared_of<'a>(row: &mut Row<'a>, part: &'a str) -> Result<Sources<'a>, AllocError> {
    if part == "-" {
        return Ok(Sources {
            paths: Vec::new(row.alloc()),
            texts: Vec::new(row.alloc()),
        });
    }
    sources_of(row, part)
}

/// Prints what `build` makes of sources after a front.
fn show_behind<'a>(
    row: &mut Row,
    list: bool,
    defines: &'a [&'a str],
    files: &'a [SharedFile<'a>],
    sources: &'a [SourceFile<'a>],
) {
    let front = Front { defines, files };
    let wanted = Wanted {
        grow: true,
        products: Products {
            list,
            map: false,
            symbols: None,
        },
        warn: false,
    };
    let made = build(row.alloc(), front, sources, wanted);
    show_made(row, made, 9)
}

/// Prints what `build` makes of sources after a front.
fn lend_behind<'a>(
    row: &mut Row,
    list: bool,
    words: &'a [&'a str],
    shared: &'a Sources<'a>,
    sources: &'a Sources<'a>,
) -> Result<(), AllocError> {
    let before = lent(row.alloc(), shared)?;
    let before = shared_files(row.alloc(), &before)?;
    let source_files = lent(row.alloc(), sources)?;
    show_behind(row, list, words, &before, &source_files);
    Ok(())
}

/// Prints what `build` makes of sources after a front, given as words, shared files and sources.
fn answer_behind<'a>(
    row: &mut Row<'a>,
    list: bool,
    words: &'a str,
    shared: &'a str,
    sources: &'a str,
) -> Result<(), AllocError> {
    let words = words_of(row.alloc(), words)?;
    let shared = shared_of(row, shared)?;
    let sources = sources_of(row, sources)?;
    lend_behind(row, list, &words, &shared, &sources)
}

/// Prints what `build` makes of sources after a front.
pub(crate) fn answer_front(row: &mut Row) {
    let list = row.word() == "list";
    let words = row.word();
    let Some((shared, sources)) = row.rest().split_once(" ++ ") else {
        return row.refuse("no sources");
    };
    if answer_behind(row, list, words, shared, sources).is_err() {
        row.refuse("no memory");
    }
}
