//! Rows of `asm`, `link` and `build`, with the files that `finish` writes.

use row_text::Row;
use std::alloc::{AllocError, Global};
use z80dev::{
    Answer, Front, Made, MemorySink, Products, SourceFile, Told, Wanted, asm, build, finish, link,
    report,
};
use z80dev_jobs::{FailingFiles, Failure, MemoryFiles};

/// Nothing before a source.
fn no_front() -> Front<'static> {
    Front {
        defines: &[],
        files: &[],
    }
}

/// Nothing but the program, its sizes file and its certificate.
const NOTHING_MORE: Products = Products {
    list: false,
    map: false,
    symbols: None,
};

/// How `finish` ended: the status, what it printed and reported, and the files.
#[derive(Drop)]
struct Outcome {
    status: u8,
    output: Vec<u8>,
    errors: Vec<u8>,
    files: MemoryFiles,
}

/// Calls `finish` for an answer, if at most `room` files can be written.
fn finished(alloc: Global, answer: &Answer<Told<'_>>, room: u64) -> Outcome {
    let failure = Failure {
        call: room.saturating_add(1),
        lasting: true,
        leaves_new: false,
    };
    let mut files = FailingFiles::new(MemoryFiles::new(alloc), failure);
    let mut output = MemorySink::new(alloc);
    let mut errors = MemorySink::new(alloc);
    let end = finish(alloc, "P", answer, &mut files, &mut output);
    let status = report(&end, &mut errors);
    Outcome {
        status,
        output: output.into_bytes(),
        errors: errors.into_bytes(),
        files: files.into_files(),
    }
}

/// Prints how `finish` ended.
fn show_finished(row: &mut Row, finished: &Outcome) {
    write!(row, " {}", finished.status);
    row.write_runs(&finished.output);
    row.write_runs(&finished.errors);
    for file in finished.files.written() {
        row.write_bytes(b" ");
        row.write_bytes(&file.path);
        row.write_runs(&file.bytes);
    }
}

/// What `asm` makes of a source.
fn assembled<'a>(alloc: Global, path: &'a str, text: &'a [u8]) -> Answer<Told<'a>> {
    let source = SourceFile { path, text };
    asm(alloc, no_front(), source, false, false).answer
}

/// Prints what `asm` makes of a source.
pub(crate) fn answer_asm(row: &mut Row) {
    let path = row.until('=');
    let text = row.rest();
    let text = row.lines_of(text);
    let answer = assembled(row.alloc(), path, &text);
    let ended = finished(row.alloc(), &answer, 9);
    show_finished(row, &ended)
}

/// The object file of a source, or the bytes after `=`.
fn object_of(row: &mut Row, part: &str) -> Vec<u8> {
    if let Some(bytes) = part.strip_prefix('=') {
        return row.bytes_of(bytes);
    }
    let text = row.lines_of(part);
    let source = SourceFile {
        path: "A",
        text: &text,
    };
    let mut answer = asm(row.alloc(), no_front(), source, false, false).answer;
    match answer.files.pop() {
        Some(file) => file.bytes,
        None => {
            row.refuse("no object");
            Vec::new(row.alloc())
        }
    }
}

/// Takes the rest of a row as object files.
fn objects_of(row: &mut Row) -> Result<Vec<Vec<u8>>, AllocError> {
    let mut objects = Vec::new(row.alloc());
    for part in row.rest().split(" & ") {
        objects.push(object_of(row, part))?;
    }
    Ok(objects)
}

/// Prints what `link` makes of object files.
pub(crate) fn answer_link(row: &mut Row) {
    let Ok(objects) = objects_of(row) else {
        return row.refuse("no memory");
    };
    let answer = link(row.alloc(), &objects, NOTHING_MORE);
    let ended = finished(row.alloc(), &answer, 9);
    show_finished(row, &ended)
}

/// Sources: their paths, and their texts in the same order.
#[derive(Drop)]
pub(crate) struct Sources<'a> {
    pub(crate) paths: Vec<&'a str>,
    pub(crate) texts: Vec<Vec<u8>>,
}

/// Takes a part of a row as sources, with ` & ` between them.
pub(crate) fn sources_of<'a>(row: &mut Row<'a>, part: &'a str) -> Result<Sources<'a>, AllocError> {
    let (mut paths, mut texts) = (Vec::new(row.alloc()), Vec::new(row.alloc()));
    for part in part.split(" & ") {
        match part.split_once('=') {
            Some((path, text)) => {
                paths.push(path)?;
                texts.push(row.lines_of(text))?;
            }
            None => row.refuse("no text"),
        }
    }
    Ok(Sources { paths, texts })
}

/// The sources as `build` takes them.
pub(crate) fn lent<'a>(
    alloc: Global,
    sources: &'a Sources<'a>,
) -> Result<Vec<SourceFile<'a>>, AllocError> {
    let mut files = Vec::with_capacity(alloc, sources.paths.len())?;
    for (path, text) in sources.paths.iter().zip(&sources.texts) {
        files.push(SourceFile { path: *path, text })?;
    }
    Ok(files)
}

/// Prints what `build` makes, and what it reports about jumps.
pub(crate) fn show_made(row: &mut Row, made: Made, room: u64) {
    let ended = finished(row.alloc(), &made.answer, room);
    show_finished(row, &ended);
    if let Some(jumps) = made.jumps {
        write!(row, ", {jumps}");
    }
}

/// Prints what `build` makes of sources, and what it reports about their jumps.
fn show_built(row: &mut Row, sources: &[SourceFile], grow: bool, room: u64) {
    let wanted = Wanted {
        grow,
        products: NOTHING_MORE,
        warn: false,
    };
    let made = build(row.alloc(), no_front(), sources, wanted);
    show_made(row, made, room)
}

/// Prints what `build` makes of sources.
pub(crate) fn answer_build(row: &mut Row) {
    let grow = row.word() == "grow";
    let room = u64::from(row.decimal());
    let part = row.rest();
    let Ok(sources) = sources_of(row, part) else {
        return row.refuse("no memory");
    };
    match lent(row.alloc(), &sources) {
        Ok(files) => show_built(row, &files, grow, room),
        Err(_) => row.refuse("no memory"),
    }
}
