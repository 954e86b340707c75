//! Rows of system calls, and of entries of the BIOS.

use crate::machine::Machine;
use cpm_bdos::{After, Stop};
use row_text::Row;
use std::alloc::Global;
use z80_cpu::Cpu;

/// Whether the registers are those before a call, except HL, A and B if the call has a value; A has to be L, and B has to be H.
fn others_stay(answer: Result<After, Stop>, before: Cpu, after: Cpu) -> bool {
    let mut wanted = before;
    if answer == Ok(After::Return) {
        wanted.main.set_hl(after.main.hl());
        wanted.main.a = after.main.l;
        wanted.main.b = after.main.h;
    }
    after == wanted
}

/// Prints what a call answers.
fn show_answer(row: &mut Row, answer: Result<After, Stop>, value: u16) {
    match answer {
        Ok(After::Return) => write!(row, " {value:04X}"),
        Ok(After::WarmBoot) => write!(row, " warm boot"),
        Err(stop) => write!(row, " {stop:?}"),
    }
}

/// A row with one call: the function and the argument.
pub(crate) fn answer_call(row: &mut Row, machine: &mut Machine) {
    machine.cpu.main.c = row.byte();
    machine.cpu.main.set_de(row.hexadecimal());
    let before = machine.cpu;
    let answer = machine.bdos.call(&mut machine.cpu, &mut machine.memory);
    show_answer(row, answer, machine.cpu.main.hl());
    if !others_stay(answer, before, machine.cpu) {
        write!(row, ", and other registers");
    }
}

/// Adds to the number in R0 and R1 of a file control block.
fn add_number(machine: &mut Machine, fcb: u16, step: u16) {
    let address = fcb.wrapping_add(33);
    let number = machine.memory.word(address).wrapping_add(step);
    machine.memory.set_word(address, number);
}

/// Many equal calls: how many, what is added to the record number in the file control block before each, the function and the argument.
#[derive(Clone, Copy)]
struct Calls {
    count: u32,
    step: u16,
    function: u8,
    argument: u16,
}

/// Makes calls, and collects the answers. None: a call stops the program, or there is no memory.
fn answers_of(alloc: Global, calls: Calls, machine: &mut Machine) -> Option<Vec<u16>> {
    let mut answers = Vec::new(alloc);
    for _ in 0..calls.count {
        add_number(machine, calls.argument, calls.step);
        machine.cpu.main.c = calls.function;
        machine.cpu.main.set_de(calls.argument);
        if machine
            .bdos
            .call(&mut machine.cpu, &mut machine.memory)
            .is_err()
        {
            return None;
        }
        answers.push(machine.cpu.main.hl()).ok()?;
    }
    Some(answers)
}

/// Prints the answers of many calls, or only one if they are all equal.
fn show_answers(row: &mut Row, answers: &[u16]) {
    let Some(first) = answers.first() else {
        return row.refuse("no call");
    };
    if answers.iter().all(|answer| answer == first) {
        return write!(row, " each {first:04X}");
    }
    for answer in answers {
        write!(row, " {answer:02X}");
    }
}

/// A row with many calls.
pub(crate) fn answer_calls(row: &mut Row, machine: &mut Machine) {
    let calls = Calls {
        count: row.decimal(),
        step: row.short(),
        function: row.byte(),
        argument: row.hexadecimal(),
    };
    match answers_of(row.alloc(), calls, machine) {
        Some(answers) => show_answers(row, &answers),
        None => row.refuse("a call without an answer"),
    }
}

/// A row with an entry of the BIOS and C. Prints what the entry leaves in A.
pub(crate) fn answer_bios(row: &mut Row, machine: &mut Machine) {
    let entry = row.byte();
    machine.cpu.main.c = row.hexadecimal_byte();
    let mut wanted = machine.cpu;
    match machine.bdos.bios(entry, &mut machine.cpu) {
        Ok(After::Return) => {
            wanted.main.a = machine.cpu.main.a;
            write!(row, " {:02X}", machine.cpu.main.a);
        }
        Ok(After::WarmBoot) => write!(row, " warm boot"),
        Err(stop) => write!(row, " {stop:?}"),
    }
    if machine.cpu != wanted {
        row.refuse("other registers changed");
    }
}
