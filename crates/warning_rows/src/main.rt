//! Reads rows, one from each line of standard input, and prints each with the answer of the call that it names.
//!
//! The head of `stdin` says which calls there are and what their columns mean; a line of `;` is a remark.
#![tactic(auto)]

mod long;
mod warned;

use row_text::Row;
use std::io::Write;

fn main(rt: HostRuntime) -> Result<(), anyhow::Error> {
    let alloc = rt.alloc();
    let mut out = rt.stdout();
    for line in rt.lines(alloc) {
        let line = line?;
        write!(out, "{line}")?;
        if !line.as_str().starts_with(';') {
            write!(out, " =>")?;
            let mut row = Row::new(alloc, &line);
            match row.word() {
                "long" => long::answer_long(&mut row),
                "longest" => long::answer_longest(&mut row),
                "text" => long::answer_text(&mut row),
                "warns" => warned::answer_warnings(&mut row),
                "says" => warned::answer_messages(&mut row),
                "calls" => warned::answer_calls(&mut row),
                "says-calls" => warned::answer_call_messages(&mut row),
                _ => row.refuse("no such call"),
            }
            row.print(&mut out)?;
        }
        writeln!(out)?;
    }
    Ok(())
}
