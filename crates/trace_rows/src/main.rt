//! Reads rows, one from each line of standard input, and prints each with the answer of the call that it names.
//!
//! The head of `stdin` says which calls there are and what their columns mean; a line of `;` is a remark.
#![tactic(auto)]

mod input;
mod shown;

use row_text::Row;
use std::io::Write;

/// A call.
#[derive(Clone, Copy)]
enum Call {
    Trace,
    Last,
    Regs,
    Profile,
    Coverage,
    Labels,
}

/// The names of all calls.
const CALLS: [(&str, Call); 6] = [
    ("trace", Call::Trace),
    ("last", Call::Last),
    ("regs", Call::Regs),
    ("profile", Call::Profile),
    ("coverage", Call::Coverage),
    ("labels", Call::Labels),
];

fn call_named(name: &str) -> Option<Call> {
    for (own, call) in &CALLS {
        if *own == name {
            return Some(*call);
        }
    }
    None
}

/// Makes a call.
fn answer(row: &mut Row, call: Call) {
    match call {
        Call::Trace => shown::answer_trace(row),
        Call::Last => shown::answer_last(row),
        Call::Regs => shown::answer_regs(row),
        Call::Profile => shown::answer_profile(row),
        Call::Coverage => shown::answer_coverage(row),
        Call::Labels => shown::answer_labels(row),
    }
}

fn main(rt: HostRuntime) -> Result<(), anyhow::Error> {
    let alloc = rt.alloc();
    let mut out = rt.stdout();
    for line in rt.lines(alloc) {
        let line = line?;
        write!(out, "{line}")?;
        if !line.as_str().starts_with(';') {
            write!(out, " =>")?;
            let mut row = Row::new(alloc, &line);
            match call_named(row.word()) {
                Some(call) => answer(&mut row, call),
                None => row.refuse("no such call"),
            }
            row.print(&mut out)?;
        }
        writeln!(out)?;
    }
    Ok(())
}
