//! Rows of command lines: which job the words ask for, or which error of usage they have.

use row_text::Row;
use std::alloc::{AllocError, Global};
use z80dev::commands;

/// The words of a line, separated by blanks.
fn words_of(alloc: Global, line: &str) -> Result<Vec<String>, AllocError> {
    let mut words = Vec::new(alloc);
    for word in line.split(' ') {
        words.push(String::from_str(alloc, word)?)?;
    }
    Ok(words)
}

/// Prints the job of a line, or the kind of its error.
pub(crate) fn answer_job(row: &mut Row) {
    let Ok(words) = words_of(row.alloc(), row.rest()) else {
        return row.refuse("no memory");
    };
    match commands(row.alloc(), &words) {
        Ok(job) => write!(row, " {job:?}"),
        Err(error) => write!(row, " error {:?}", error.kind()),
    }
}

/// Prints whether a part is in what was said.
fn show_part(row: &mut Row, said: Result<String, AllocError>, part: Vec<u8>) {
    match (said, String::from_utf8(part)) {
        (Ok(said), Ok(part)) => write!(row, " {}", said.as_str().contains(part.as_str())),
        _ => row.refuse("no UTF-8, or no memory"),
    }
}

/// Prints whether the text of a line's error or help has a part.
pub(crate) fn answer_part(row: &mut Row) {
    let Some((line, part)) = row.rest().split_once(" & ") else {
        return row.refuse("no part");
    };
    let Ok(words) = words_of(row.alloc(), line) else {
        return row.refuse("no memory");
    };
    let part = row.lines_of(part);
    match commands(row.alloc(), &words) {
        Ok(_) => write!(row, " a job"),
        Err(error) => {
            let said = format!(in row.alloc(); "{error}");
            show_part(row, said, part)
        }
    }
}
