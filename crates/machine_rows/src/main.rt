//! Reads rows, one on each line of standard input, and prints each with the answer of the call that it names.
//!
//! The head of `stdin` lists the calls and what follows the name of each; a line that begins with `;` is a remark.
#![tactic(auto)]

mod call;
mod counted;
mod machine;
mod opcodes;
mod registers;
mod spelling;
mod text;

use call::{Call, Count, OnProgram, OnTable};
use row_text::Row;
use std::io::Write;

/// Makes calls about the bytes and texts of instructions.
fn answer_table(row: &mut Row, call: OnTable) {
    match call {
        OnTable::Opcode => opcodes::answer_opcode(row),
        OnTable::Page => opcodes::answer_page(row),
        OnTable::Decode => spelling::answer_decoded(row),
        OnTable::Law => spelling::answer_law(row),
        OnTable::Bytes => spelling::answer_bytes(row),
    }
}

/// Makes calls that set registers and memory.
fn answer_program(row: &mut Row, call: OnProgram) {
    match call {
        OnProgram::Halt => machine::answer_halt(row),
        OnProgram::Turns => machine::answer_turns(row),
        OnProgram::Run => machine::answer_run(row),
        OnProgram::Line => machine::answer_line(row),
    }
}

/// Makes any call.
fn answer(row: &mut Row, call: Call) {
    match call {
        Call::Table(call) => answer_table(row, call),
        Call::Count(Count::Flags) => counted::answer_flags(row),
        Call::Count(Count::Every) => counted::answer_every(row),
        Call::Program(call) => answer_program(row, call),
    }
}

fn main(rt: HostRuntime) -> Result<(), anyhow::Error> {
    let alloc = rt.alloc();
    let mut out = rt.stdout();
    for line in rt.lines(alloc) {
        let line = line?;
        write!(out, "{line}")?;
        if !line.as_str().starts_with(';') {
            write!(out, " =>")?;
            let mut row = Row::new(alloc, &line);
            match call::call_named(row.word()) {
                Some(call) => answer(&mut row, call),
                None => row.refuse("no such call"),
            }
            row.print(&mut out)?;
        }
        writeln!(out)?;
    }
    Ok(())
}
