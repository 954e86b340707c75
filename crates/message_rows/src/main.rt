//! Reads rows, one from each line of standard input, and prints each with the answer of the call that it names.
//!
//! The head of `stdin` says which calls there are and what their columns mean; a line of `;` is a remark.
#![tactic(auto)]

mod printed;
mod telling;

use row_text::Row;
use std::io::Write;

fn main(rt: HostRuntime) -> Result<(), anyhow::Error> {
    let alloc = rt.alloc();
    let mut out = rt.stdout();
    for line in rt.lines(alloc) {
        let line = line?;
        write!(out, "{line}")?;
        if !line.as_str().starts_with(';') {
            write!(out, " =>")?;
            let mut row = Row::new(alloc, &line);
            match row.word() {
                "says" => telling::answer_first(&mut row),
                "after" => telling::answer_after(&mut row),
                "all" => telling::answer_all(&mut row),
                "prints" => printed::answer_printed(&mut row),
                _ => row.refuse("no such call"),
            }
            row.print(&mut out)?;
        }
        writeln!(out)?;
    }
    Ok(())
}
