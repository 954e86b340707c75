//! Rows of `pipe` with a source, and of `check_texts` with a sizes file and its certificate.

use crate::scripted::{Ending, Reader, Writer};
use row_text::Row;
use std::alloc::Global;
use z80dev::{Bytes, MemorySink, Watched, WatchedSink, check_texts, pipe, report};

/// How a call ended: its status, what it printed and reported, and how often each writer failed.
#[derive(Drop)]
struct Ended {
    status: u8,
    output: Vec<u8>,
    errors: Vec<u8>,
    output_failures: u64,
    errors_failures: u64,
}

/// Prints how a call ended.
fn show_ended(row: &mut Row, ended: &Ended) {
    write!(row, " {}", ended.status);
    row.write_runs(&ended.output);
    row.write_runs(&ended.errors);
    if ended.output_failures != 0 {
        write!(row, ", output failed");
    }
    if ended.errors_failures != 0 {
        write!(row, ", errors failed");
    }
}

/// Calls `pipe` with a source in memory.
fn piped_text(alloc: Global, text: &[u8]) -> Ended {
    let mut input = Bytes::new(text);
    let mut output = MemorySink::new(alloc);
    let mut errors = MemorySink::new(alloc);
    let status = pipe(alloc, &mut input, &mut output, &mut errors);
    let (output_failures, errors_failures) = (output.failures(), errors.failures());
    Ended {
        status,
        output: output.into_bytes(),
        errors: errors.into_bytes(),
        output_failures,
        errors_failures,
    }
}

/// Prints what `pipe` makes of a source in memory.
pub(crate) fn answer_pipe(row: &mut Row) {
    let text = row.rest();
    let text = row.lines_of(text);
    let ended = piped_text(row.alloc(), &text);
    show_ended(row, &ended)
}

/// How the reads of this name end. Some do at the read of this number.
fn ending_named(name: &str, number: u64) -> Option<Ending> {
    for (word, ending) in &[
        ("whole", Ending::Whole),
        ("fails", Ending::Fails(number)),
        ("interrupted", Ending::Interrupted(number)),
        ("endless", Ending::Endless),
        ("always-interrupted", Ending::AlwaysInterrupted),
    ] {
        if *word == name {
            return Some(*ending);
        }
    }
    None
}

/// How reads end, from a column.
fn ending_in(column: &str) -> Option<Ending> {
    let (name, number) = column.split_once(':').unwrap_or((column, "0"));
    ending_named(name, u64::from_str_radix(number, 10).ok()?)
}

/// Makes a reader.
fn reader_of(text: Vec<u8>, ending: Ending) -> Reader {
    Reader {
        text,
        given: 0,
        reads: 0,
        ending,
    }
}

/// How many bytes a writer takes.
fn room_in(kind: &str) -> Option<usize> {
    match kind {
        "all" => Some(usize::MAX),
        "full" => Some(0),
        _ => usize::from_str_radix(kind, 10).ok(),
    }
}

/// Makes the writer that a column describes.
fn writer_of(row: &mut Row) -> Writer {
    let column = row.word();
    let (number, kind) = column.split_once('~').unwrap_or(("0", column));
    let (room, interruptions) = match (room_in(kind), u64::from_str_radix(number, 10)) {
        (Some(room), Ok(number)) => (room, number),
        _ => {
            row.refuse("no such writer");
            (0, 0)
        }
    };
    Writer {
        taken: Vec::new(row.alloc()),
        room,
        is_full: kind == "full",
        interruptions,
        waits: 0,
    }
}

/// How a call with two writers ended.
fn ended_over(status: u8, output: WatchedSink<Writer>, errors: WatchedSink<Writer>) -> Ended {
    let (output_failures, errors_failures) = (output.failures(), errors.failures());
    Ended {
        status,
        output: output.into_stream().taken,
        errors: errors.into_stream().taken,
        output_failures,
        errors_failures,
    }
}

/// Calls `pipe` with a reader and two writers. Answers how it ended, how often the reader was read, and whether it failed.
fn piped(alloc: Global, reader: Reader, writer: Writer, teller: Writer) -> (Ended, u64, bool) {
    let mut input = Watched::new(reader);
    let mut output = WatchedSink::new(writer);
    let mut errors = WatchedSink::new(teller);
    let status = pipe(alloc, &mut input, &mut output, &mut errors);
    let ended = ended_over(status, output, errors);
    (ended, input.reads(), input.has_failed())
}

/// Prints how `pipe` ends with streams that fail.
pub(crate) fn answer_streams(row: &mut Row) {
    let Some(ending) = ending_in(row.word()) else {
        return row.refuse("no such reader");
    };
    let (writer, teller) = (writer_of(row), writer_of(row));
    let text = row.rest();
    let reader = reader_of(row.lines_of(text), ending);
    let (ended, reads, has_failed) = piped(row.alloc(), reader, writer, teller);
    show_ended(row, &ended);
    write!(row, ", {reads} reads");
    if has_failed {
        write!(row, ", input failed");
    }
}

/// Calls `check_texts` and `report` with two writers.
fn checked(alloc: Global, sizes: &[u8], cert: &[u8], writer: Writer, teller: Writer) -> Ended {
    let mut output = WatchedSink::new(writer);
    let mut errors = WatchedSink::new(teller);
    let end = check_texts(alloc, sizes, cert, &mut output);
    let status = report(&end, &mut errors);
    ended_over(status, output, errors)
}

/// Prints how `check_texts` ends with two writers.
pub(crate) fn answer_check(row: &mut Row) {
    let (writer, teller) = (writer_of(row), writer_of(row));
    let Some((sizes, cert)) = row.rest().split_once(" & ") else {
        return row.refuse("no certificate");
    };
    let (sizes, cert) = (row.lines_of(sizes), row.lines_of(cert));
    let ended = checked(row.alloc(), &sizes, &cert, writer, teller);
    show_ended(row, &ended)
}
