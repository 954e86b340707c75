//! Reads rows, one on each line of standard input, and prints each with the answer of the call that it names.
//!
//! The head of `stdin` lists the calls and what follows the name of each; a line that begins with `;` is a remark.
#![tactic(auto)]

mod call;
mod disks;
mod fronts;
mod making;
mod names;
mod pipes;
mod scripted;
mod step;
mod words;

use call::{Call, Made, OnStreams, OnWords};
use row_text::Row;
use std::io::Write;

/// Makes calls that read and write streams.
fn answer_streams(row: &mut Row, call: OnStreams) {
    match call {
        OnStreams::Pipe => pipes::answer_pipe(row),
        OnStreams::Streams => pipes::answer_streams(row),
        OnStreams::Check => pipes::answer_check(row),
    }
}

/// Makes calls that make files.
fn answer_made(row: &mut Row, call: Made) {
    match call {
        Made::Asm => making::answer_asm(row),
        Made::Link => making::answer_link(row),
        Made::Build => making::answer_build(row),
        Made::Define => fronts::answer_define(row),
        Made::Front => fronts::answer_front(row),
    }
}

/// Makes calls about the words of a command.
fn answer_words(row: &mut Row, call: OnWords) {
    match call {
        OnWords::Name => names::answer_name(row),
        OnWords::OwnName => names::answer_own_name(row),
        OnWords::Pattern => names::answer_pattern(row),
        OnWords::Words => words::answer_job(row),
        OnWords::Says => words::answer_part(row),
    }
}

/// Makes any call.
fn answer(row: &mut Row, call: Call) {
    match call {
        Call::Stream(call) => answer_streams(row, call),
        Call::Make(call) => answer_made(row, call),
        Call::Word(call) => answer_words(row, call),
        Call::Disk => disks::answer_disk(row),
    }
}

fn main(rt: HostRuntime) -> Result<(), anyhow::Error> {
    let alloc = rt.alloc();
    let mut out = rt.stdout();
    for line in rt.lines(alloc) {
        let line = line?;
        write!(out, "{line}")?;
        if !line.as_str().starts_with(';') {
            write!(out, " =>")?;
            let mut row = Row::new(alloc, &line);
            match call::call_named(row.word()) {
                Some(call) => answer(&mut row, call),
                None => row.refuse("no such call"),
            }
            row.print(&mut out)?;
        }
        writeln!(out)?;
    }
    Ok(())
}
