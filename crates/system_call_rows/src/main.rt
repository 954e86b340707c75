//! Reads rows, one on each line of standard input, and prints each with the answer of the call that it names.
//!
//! The head of `stdin` lists the calls and the columns of each; a line that begins with `;` is a remark.
#![tactic(auto)]

mod call;
mod calls;
mod consoles;
mod machine;
mod memory;
mod runs;
mod writers;

use call::{Call, NewMachine, OnConsole, OnMachine};
use machine::Machine;
use row_text::Row;
use std::io::Write;

/// Makes calls of a console that is not in a machine.
fn answer_console(row: &mut Row, call: OnConsole) {
    match call {
        OnConsole::Terminal => consoles::answer_put(row),
        OnConsole::Line => consoles::answer_line(row),
        OnConsole::Text => consoles::answer_dollar(row),
        OnConsole::Stream => consoles::answer_stream(row),
        OnConsole::Writer => consoles::answer_writer(row),
    }
}

/// Makes a machine, from the one before if the call uses that. None: there is no memory, or no such disk.
fn next_machine(row: &mut Row, call: NewMachine, machine: Machine) -> Option<Machine> {
    match call {
        NewMachine::Machine => machine::new_machine(row),
        NewMachine::Device => machine::with_device(row, machine),
        NewMachine::Entry => machine::with_entry(row),
        NewMachine::Run => runs::answer_run(row),
        NewMachine::Output => {
            machine::answer_output(row, machine);
            machine::blank_machine(row.alloc())
        }
    }
}

/// Makes calls after which there is another machine.
fn answer_new(row: &mut Row, call: NewMachine, machine: &mut Option<Machine>) {
    match machine.take() {
        Some(before) => *machine = next_machine(row, call, before),
        None => row.refuse("no machine"),
    }
    if machine.is_none() {
        row.refuse("no machine can be made");
    }
}

/// Makes calls that use a machine.
fn answer_machine(row: &mut Row, call: OnMachine, machine: &mut Machine) {
    match call {
        OnMachine::Call => calls::answer_call(row, machine),
        OnMachine::Calls => calls::answer_calls(row, machine),
        OnMachine::Bios => calls::answer_bios(row, machine),
        OnMachine::Put => memory::put_row(row, machine),
        OnMachine::Fcb => memory::put_fcb(row, machine),
        OnMachine::Bytes => memory::answer_bytes(row, &machine.memory),
        OnMachine::Place => memory::answer_place(row, &machine.memory),
        OnMachine::Start => runs::answer_start(row, machine),
    }
}

/// Makes any call.
fn answer(row: &mut Row, call: Call, machine: &mut Option<Machine>) {
    match call {
        Call::Console(call) => answer_console(row, call),
        Call::New(call) => answer_new(row, call, machine),
        Call::Machine(call) => match machine.as_mut() {
            Some(machine) => answer_machine(row, call, machine),
            None => row.refuse("no machine"),
        },
    }
}

fn main(rt: HostRuntime) -> Result<(), anyhow::Error> {
    let alloc = rt.alloc();
    let mut out = rt.stdout();
    let mut machine = machine::blank_machine(alloc);
    for line in rt.lines(alloc) {
        let line = line?;
        write!(out, "{line}")?;
        if !line.is_empty() && !line.as_str().starts_with(';') {
            write!(out, " =>")?;
            let mut row = Row::new(alloc, &line);
            match call::call_named(row.word()) {
                Some(call) => answer(&mut row, call, &mut machine),
                None => row.refuse("no such call"),
            }
            row.print(&mut out)?;
        }
        writeln!(out)?;
    }
    Ok(())
}
