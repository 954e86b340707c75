//! Compares what `explain` prints with what it has to print.

use bstr::ByteSlice;
use row_text::Row;
use std::alloc::AllocError;
use z80dev_explain::{Asked, Explanation, Form, explain_sources};
use z80dev_make::{Front, SharedFile, SourceFile};

/// The paths of the sources.
const PATHS: [&str; 4] = ["A", "B", "C", "E"];

/// What is asked, given the letters for it.
fn asked_by(options: &str) -> Asked {
    let form = if options.contains('n') {
        Form::Json
    } else if options.contains('c') {
        Form::Colored
    } else {
        Form::Plain
    };
    Asked {
        grow: options.contains('g'),
        jumps: options.contains('j'),
        form,
    }
}

/// The lines of a file, with ` / ` between them.
fn lines_of(row: &Row<'_>, text: &[u8]) -> Result<Vec<u8>, AllocError> {
    let mut lines = Vec::new(row.alloc());
    for line in text.split_str(b" / ") {
        lines.extend_from_slice(line)?;
        lines.push(b'\n')?;
    }
    Ok(lines)
}

/// The files of a row, with ` || ` between them.
fn files_of(row: &mut Row<'_>) -> Result<Vec<Vec<u8>>, AllocError> {
    let text = row.bytes();
    let mut files = Vec::new(row.alloc());
    for file in text.as_slice().split_str(b" || ") {
        files.push(lines_of(row, file)?)?;
    }
    Ok(files)
}

/// What `explain` says of files. The first one is a shared file, if the options have the letter for that.
fn explained(row: &Row<'_>, options: &str, texts: &[Vec<u8>]) -> Result<Explanation, AllocError> {
    let shared = usize::from(options.contains('s')).min(texts.len());
    let (front, behind) = texts.split_at(shared);
    let mut before = Vec::new(row.alloc());
    for text in front {
        before.push(SharedFile::new(SourceFile { path: "D", text }))?;
    }
    let mut files = Vec::new(row.alloc());
    for (path, text) in PATHS.iter().zip(behind) {
        files.push(SourceFile { path, text })?;
    }
    let front = Front {
        defines: &[],
        files: &before,
    };
    explain_sources(row.alloc(), front, &files, asked_by(options))
}

/// What is printed, and how it is summed up, as one line: with ` / ` in place of each line feed, and `:` in place of `|`.
fn in_one_line(row: &Row<'_>, said: &Explanation) -> Result<Vec<u8>, AllocError> {
    let mut all = Vec::new(row.alloc());
    for byte in &said.text {
        match *byte {
            b'\n' => all.extend_from_slice(b" / ")?,
            b'|' => all.push(b':')?,
            other => all.push(other)?,
        }
    }
    match &said.summary {
        Some(summary) => {
            all.extend_from_slice(b"in all ")?;
            all.extend_from_slice(summary.as_bytes())?;
        }
        None => all.extend_from_slice(b"nothing")?,
    }
    all.push(b'.')?;
    Ok(all)
}

/// Whether a text has each of these words, and none that comes after `!`.
pub(crate) fn has_all(text: &[u8], words: &[u8]) -> bool {
    let mut has = true;
    for word in words.split_str(b" & ") {
        let is_there = match word {
            [b'!', none @ ..] => !text.contains_str(none),
            _ => text.contains_str(word),
        };
        has = has && is_there;
    }
    has
}

/// What `explain` prints of the files of a row.
fn printed(row: &mut Row<'_>, options: &str) -> Result<Vec<u8>, AllocError> {
    let texts = files_of(row)?;
    let said = explained(row, options, &texts)?;
    in_one_line(row, &said)
}

/// Says whether what `explain` prints has the words of a row; prints it if not.
pub(crate) fn answer_printed(row: &mut Row<'_>) {
    let options = row.word();
    let words = row.until('|').trim();
    let words = row.bytes_of(words);
    match printed(row, options) {
        Ok(text) if has_all(&text, &words) => write!(row, " yes"),
        Ok(text) => {
            write!(row, " ");
            row.write_bytes(&text);
        }
        Err(_) => row.refuse("memory"),
    }
}
