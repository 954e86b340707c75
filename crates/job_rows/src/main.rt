//! Reads rows, a line of standard input each, and prints each with what the command `z80dev` does: its words, the files that there are,
//! and how files and standard output fail.
//!
//! The head of `stdin` says what a row may have; a line of `;` is a remark.
#![tactic(auto)]

mod job;
mod room;

use host::{Bytes, MemorySink, WatchedSink};
use job::{Job, job_of};
use row_text::Row;
use std::io::Write;
use z80dev_jobs::{Ended, FailingFiles, Host, MemoryFiles, command};

/// Prints what went to a stream, or whether the text that the row asks for is in it.
fn show_stream(row: &mut Row, bytes: Vec<u8>, part: Option<&str>) {
    let Some(part) = part else {
        return row.write_runs(&bytes);
    };
    match String::from_utf8(bytes) {
        Ok(text) => write!(row, " {}", text.as_str().contains(part)),
        Err(_) => row.refuse("no UTF-8"),
    }
}

/// Prints the files that were written after this many.
fn show_files(row: &mut Row, files: &MemoryFiles, given: usize) {
    for file in files.written().iter().skip(given) {
        write!(row, " ");
        row.write_text(&file.path);
        row.write_runs(&file.bytes);
    }
}

/// Runs the command of a row, and prints its status, both streams, and the files that it wrote.
fn run(row: &mut Row, job: Job) {
    let Job {
        words,
        files,
        typed,
        failure,
        room,
        in_output,
        in_errors,
    } = job;
    let given = files.written().len();
    let host = Host {
        files: FailingFiles::new(files, failure),
        input: Bytes::new(&typed),
        output: WatchedSink::new(room),
        errors: MemorySink::new(row.alloc()),
        is_terminal: false,
    };
    let Ended { status, host } = command(row.alloc(), &words, host);
    let Host {
        files,
        output,
        errors,
        ..
    } = host;
    write!(row, " {status}");
    show_stream(row, output.into_stream().taken, in_output);
    show_stream(row, errors.into_bytes(), in_errors);
    show_files(row, &files.into_files(), given)
}

fn main(rt: HostRuntime) -> Result<(), anyhow::Error> {
    let alloc = rt.alloc();
    let mut out = rt.stdout();
    for line in rt.lines(alloc) {
        let line = line?;
        write!(out, "{line}")?;
        if !line.as_str().starts_with(';') {
            write!(out, " =>")?;
            let mut row = Row::new(alloc, &line);
            match job_of(&mut row) {
                Some(job) => run(&mut row, job),
                None => row.refuse("no such row"),
            }
            row.print(&mut out)?;
        }
        writeln!(out)?;
    }
    Ok(())
}
