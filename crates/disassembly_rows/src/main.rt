//! Reads rows, one from each line of standard input, and prints each with the answer of the call that it names.
//!
//! The head of `stdin` says which calls there are and what their columns mean; a line of `;` is a remark.
#![tactic(auto)]

mod input;
mod shown;

use row_text::Row;
use std::io::Write;

/// A call.
#[derive(Clone, Copy)]
enum Call {
    Line,
    Text,
    Head,
    Remarks,
    Count,
    Sentence,
}

/// The names of all calls.
const CALLS: [(&str, Call); 6] = [
    ("line", Call::Line),
    ("text", Call::Text),
    ("head", Call::Head),
    ("remarks", Call::Remarks),
    ("count", Call::Count),
    ("sentence", Call::Sentence),
];

fn call_named(name: &str) -> Option<Call> {
    for (own, call) in &CALLS {
        if *own == name {
            return Some(*call);
        }
    }
    None
}

/// Makes a call.
fn answer(row: &mut Row, call: Call) {
    match call {
        Call::Line => shown::answer_line(row),
        Call::Text => shown::answer_text(row),
        Call::Head => shown::answer_head(row),
        Call::Remarks => shown::answer_remarks(row),
        Call::Count => shown::answer_count(row),
        Call::Sentence => shown::answer_sentence(row),
    }
}

fn main(rt: HostRuntime) -> Result<(), anyhow::Error> {
    let alloc = rt.alloc();
    let mut out = rt.stdout();
    for line in rt.lines(alloc) {
        let line = line?;
        write!(out, "{line}")?;
        if !line.as_str().starts_with(';') {
            write!(out, " =>")?;
            let mut row = Row::new(alloc, &line);
            match call_named(row.word()) {
                Some(call) => answer(&mut row, call),
                None => row.refuse("no such call"),
            }
            row.print(&mut out)?;
        }
        writeln!(out)?;
    }
    Ok(())
}
