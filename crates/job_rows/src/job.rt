//! What the command works on.

use crate::room::Room;
use row_text::Row;
use std::alloc::{AllocError, Global};
use z80dev::Files;
use z80dev_jobs::{Failure, MemoryFiles};

/// What a row says.
#[derive(Drop)]
pub(crate) struct Job<'a> {
    pub(crate) words: Vec<Vec<u8>>,
    pub(crate) files: MemoryFiles,
    pub(crate) typed: Vec<u8>,
    pub(crate) failure: Failure,
    pub(crate) room: Room,
    pub(crate) in_output: Option<&'a str>,
    pub(crate) in_errors: Option<&'a str>,
}

/// The words of a command, cut at its blanks.
fn words_of(alloc: Global, line: &[u8]) -> Result<Vec<Vec<u8>>, AllocError> {
    let mut words = Vec::new(alloc);
    let mut word = Vec::new(alloc);
    for byte in line {
        if *byte == b' ' {
            words.push(word)?;
            word = Vec::new(alloc);
        } else {
            word.push(*byte)?;
        }
    }
    words.push(word)?;
    Ok(words)
}

/// Which calls of the files fail.
fn failure_in(column: &str) -> Option<Failure> {
    if column == "good" {
        return Some(Failure {
            call: 0,
            lasting: false,
            leaves_new: false,
        });
    }
    let lasting = column.contains('+');
    let (call, left) = column.split_once(if lasting { '+' } else { '-' })?;
    Some(Failure {
        call: u64::from_str_radix(call, 10).ok()?,
        lasting,
        leaves_new: left == "new",
    })
}

/// How many bytes standard output takes.
fn room_in(column: &str) -> Option<usize> {
    if column == "all" {
        return Some(usize::MAX);
    }
    usize::from_str_radix(column, 10).ok()
}

/// Puts a file of a row among the others.
fn add_file(row: &mut Row, part: &str, files: &mut MemoryFiles) {
    let Some((path, text)) = part.split_once('=') else {
        return row.refuse("no text");
    };
    let text = row.lines_of(text);
    if files.write(path, &text).is_err() {
        row.refuse("no memory");
    }
}

/// Takes what files and standard output do, and the words of the command. None: a column is wrong, or there is no memory.
fn job_with<'a>(row: &mut Row<'a>, failure: &str, room: &str, words: &str) -> Option<Job<'a>> {
    let words = words_of(row.alloc(), &row.bytes_of(words)).ok()?;
    let failure = failure_in(failure)?;
    let room = room_in(room)?;
    Some(Job {
        words,
        files: MemoryFiles::new(row.alloc()),
        typed: Vec::new(row.alloc()),
        failure,
        room: Room {
            taken: Vec::new(row.alloc()),
            room,
        },
        in_output: None,
        in_errors: None,
    })
}

/// Takes what a row says. None: a column is wrong, or there is no memory.
pub(crate) fn job_of<'a>(row: &mut Row<'a>) -> Option<Job<'a>> {
    let failure = row.word();
    let room = row.word();
    let mut parts = row.rest().split(" & ");
    let mut job = job_with(row, failure, room, parts.next()?)?;
    for part in parts {
        match part.split_at_checked(1) {
            Some(("<", text)) => job.typed = row.lines_of(text),
            Some(("~", text)) => job.in_output = Some(text),
            Some(("!", text)) => job.in_errors = Some(text),
            _ => add_file(row, part, &mut job.files),
        }
    }
    Some(job)
}
