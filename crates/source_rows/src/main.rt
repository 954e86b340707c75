//! Reads rows from standard input, several lines each, and prints each with the answer of the call that it names.
//!
//! A line `==== CALL COLUMNS TITLE` begins a row, and its text ends before the next such line. The head of `stdin` explains the
//! calls and their columns.
#![tactic(auto)]

mod assembled;
mod call;
mod expanded;
mod lines;
mod meant;
mod names;
mod stated;

use call::Call;
use row_text::{Row, written_out};
use std::alloc::Global;
use std::io::Write;

/// A row as it is read: the words after its mark, and its text.
#[derive(Drop)]
struct Marked {
    head: String,
    text: Vec<u8>,
}

/// A row with no text yet.
fn begun(alloc: Global, head: &str) -> Result<Marked, anyhow::Error> {
    Ok(Marked {
        head: head.to_string(alloc)?,
        text: Vec::new(alloc),
    })
}

/// Adds a line to a text, with a line end, unless the line ends in `\`.
fn add_line(alloc: Global, text: &mut Vec<u8>, line: &str) -> Result<(), anyhow::Error> {
    let front = line.strip_suffix('\\').unwrap_or(line);
    text.extend_from_slice(&written_out(alloc, front)?)?;
    if front.len() == line.len() {
        text.push(b'\n')?;
    }
    Ok(())
}

/// Makes a call on a text.
fn make(row: &mut Row, call: Call, text: &[u8]) {
    match call {
        Call::Assemble => assembled::answer_assembled(row, text),
        Call::Count => assembled::answer_count(row, text),
        Call::Expand => expanded::answer_expanded(row, text),
        Call::Lines => expanded::answer_lines(row, text),
        Call::Kept => expanded::answer_kept(row, text),
        Call::Names => names::answer_names(row, text),
        Call::Turns => names::answer_turns(row, text),
        Call::Meaning => meant::answer_meaning(row, text),
        Call::States => stated::answer_stated(row, text),
    }
}

/// Makes the call that a row names; a note has none. A title has to be left of the columns.
fn answer(row: &mut Row, text: &[u8]) {
    let name = row.word();
    if name != "note" {
        writeln!(row, "----");
        match call::call_named(name) {
            Some(call) => make(row, call, text),
            None => row.refuse("no such call"),
        }
    }
    if row.rest().is_empty() {
        row.refuse("no title");
    }
}

/// Prints the answer of a row.
fn print_answer<W: Write>(
    alloc: Global,
    out: &mut W,
    marked: &Marked,
) -> Result<(), anyhow::Error> {
    let mut row = Row::new(alloc, &marked.head);
    answer(&mut row, &marked.text);
    row.print(out)
}

fn main(rt: HostRuntime) -> Result<(), anyhow::Error> {
    let alloc = rt.alloc();
    let mut out = rt.stdout();
    let mut marked = begun(alloc, "note of nothing")?;
    for line in rt.lines(alloc) {
        let line = line?;
        match line.strip_prefix("==== ") {
            Some(head) => {
                print_answer(alloc, &mut out, &marked)?;
                marked = begun(alloc, head)?;
            }
            None => add_line(alloc, &mut marked.text, &line)?,
        }
        writeln!(out, "{line}")?;
    }
    print_answer(alloc, &mut out, &marked)
}
