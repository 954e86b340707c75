//! Debugs small programs by the commands of standard input, and prints each command with its answer.
//!
//! The head of `stdin` says what its lines mean.
#![tactic(auto)]

mod input;
mod session;
mod walk;

use row_text::Row;
use std::alloc::Global;
use std::io::Write;

/// The lines of a program and of its commands, each with its answer.
fn answered(alloc: Global, lines: &[String]) -> Row<'static> {
    let mut row = Row::new(alloc, "");
    session::answer(&mut row, lines);
    row
}

fn main(rt: HostRuntime) -> Result<(), anyhow::Error> {
    let alloc = rt.alloc();
    let mut out = rt.stdout();
    let mut lines = Vec::new(alloc);
    for line in rt.lines(alloc) {
        let line = line?;
        if line.as_str().starts_with(';') {
            writeln!(out, "{line}")?;
        } else if line.is_empty() {
            writeln!(out)?;
            answered(alloc, &lines).print(&mut out)?;
            lines.clear();
        } else {
            lines.push(line)?;
        }
    }
    answered(alloc, &lines).print(&mut out)
}
