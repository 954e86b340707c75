//! Rows of programs, and of single steps of the machine.

use crate::registers::{job_of, show_changes, store_digits};
use row_text::Row;
use z80_machine::outcome::Step;
use z80_machine::{Cpu, Flags, Memory, run, step};

/// More steps than any program of `halt` makes.
const LIMIT: u32 = 10_000;

/// Prints the registers as a trace shows them.
pub(crate) fn answer_line(row: &mut Row) {
    match job_of(row) {
        Some(job) => write!(row, " {}", job.cpu),
        None => row.refuse("no memory"),
    }
}

/// Prints what each of some steps answers, and what it changes.
pub(crate) fn answer_turns(row: &mut Row) {
    let count = row.decimal();
    let Some(mut job) = job_of(row) else {
        return row.refuse("no memory");
    };
    for number in 0..count {
        if number != 0 {
            write!(row, ";");
        }
        let before = job.cpu;
        write!(row, " {:?}", step(&mut job.cpu, &mut job.memory));
        show_changes(row, &before, &job.cpu);
    }
}

/// Prints how many steps `run` makes, why it stops, and what has changed.
pub(crate) fn answer_run(row: &mut Row) {
    let limit = u64::from(row.decimal());
    let Some(mut job) = job_of(row) else {
        return row.refuse("no memory");
    };
    let before = job.cpu;
    let (turns, stop) = run(&mut job.cpu, &mut job.memory, job.watch, limit);
    write!(row, " {turns} turns, {stop:?}");
    show_changes(row, &before, &job.cpu)
}

/// Makes steps until HALT, and answers whether the machine reached it.
fn is_halted(cpu: &mut Cpu, memory: &mut Memory) -> bool {
    for _ in 0..LIMIT {
        match step(cpu, memory) {
            Step::Done => {}
            Step::Halted => return true,
            Step::Undocumented => return false,
        }
    }
    false
}

/// Prints AF, BC, DE, HL, IX, IY, and the word at an address.
fn show_end(row: &mut Row, cpu: &Cpu, memory: &Memory, address: u16) {
    let main = &cpu.main;
    write!(row, " {:04X} {:04X}", main.af(), main.bc());
    write!(row, " {:04X} {:04X}", main.de(), main.hl());
    write!(row, " {:04X} {:04X}", cpu.ix, cpu.iy);
    let (low, high) = (memory.get(address), memory.get(address.wrapping_add(1)));
    write!(row, " {high:02X}{low:02X}")
}

/// The registers before a program: PC 0100H, SP 8000H, and these flags.
fn cpu_with(flags: u8) -> Cpu {
    let mut cpu = Cpu::new();
    cpu.pc = 0x0100;
    cpu.sp = 0x8000;
    cpu.main.flags = Flags::from_byte(flags);
    cpu
}

/// Prints what a program leaves at HALT.
pub(crate) fn answer_halt(row: &mut Row) {
    let program = row.word();
    let mut cpu = cpu_with(row.hexadecimal_byte());
    let address = row.hexadecimal();
    if row.rest().is_empty() {
        return row.refuse("no name");
    }
    let Ok(mut memory) = Memory::new(row.alloc()) else {
        return row.refuse("no memory");
    };
    store_digits(row, &mut memory, 0x0100, program);
    if !is_halted(&mut cpu, &mut memory) {
        return row.refuse("no HALT");
    }
    show_end(row, &cpu, &memory, address)
}
