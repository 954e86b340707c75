//! Reads rows, one from each line of standard input, and prints each with the answer of the call that it names.
//!
//! The head of `stdin` says which calls there are and what their columns mean; a line of `;` is a remark.
#![tactic(auto)]

mod input;
mod labels;
mod maps;
mod shown;

use program_map::SymbolForm;
use row_text::Row;
use std::io::Write;

/// A call.
#[derive(Clone, Copy)]
enum Call {
    Built,
    Linked,
    Sid,
    Ucsim,
    MadeSid,
    MadeUcsim,
}

/// The names of all calls.
const CALLS: [(&str, Call); 6] = [
    ("built", Call::Built),
    ("linked", Call::Linked),
    ("sid", Call::Sid),
    ("ucsim", Call::Ucsim),
    ("made-sid", Call::MadeSid),
    ("made-ucsim", Call::MadeUcsim),
];

fn call_named(name: &str) -> Option<Call> {
    for (own, call) in &CALLS {
        if *own == name {
            return Some(*call);
        }
    }
    None
}

/// Makes a call.
fn answer(row: &mut Row, call: Call) {
    match call {
        Call::Built => maps::answer_built(row),
        Call::Linked => maps::answer_linked(row),
        Call::Sid => labels::answer_built(row, SymbolForm::Sid),
        Call::Ucsim => labels::answer_built(row, SymbolForm::Ucsim),
        Call::MadeSid => labels::answer_made(row, SymbolForm::Sid),
        Call::MadeUcsim => labels::answer_made(row, SymbolForm::Ucsim),
    }
}

fn main(rt: HostRuntime) -> Result<(), anyhow::Error> {
    let alloc = rt.alloc();
    let mut out = rt.stdout();
    for line in rt.lines(alloc) {
        let line = line?;
        write!(out, "{line}")?;
        if !line.as_str().starts_with(';') {
            write!(out, " =>")?;
            let mut row = Row::new(alloc, &line);
            match call_named(row.word()) {
                Some(call) => answer(&mut row, call),
                None => row.refuse("no such call"),
            }
            row.print(&mut out)?;
        }
        writeln!(out)?;
    }
    Ok(())
}
