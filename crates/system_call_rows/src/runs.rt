//! Rows of programs that run, and of the state in which they begin.

use crate::machine::{Keyboard, Machine, blank_disk, good_console, kind_of, machine_over};
use cpm_disk::DiskKind;
use cpm_image::Failing;
use cpm_run::{RunEnd, run, start};
use row_text::Row;
use std::alloc::{AllocError, Global};
use z80_cpu::{Cpu, Memory};

/// The words of a column, each with a slash after it.
fn words_of(row: &mut Row, column: &str) -> Result<Vec<Vec<u8>>, AllocError> {
    let mut words = Vec::new(row.alloc());
    for word in column.split_terminator('/') {
        words.push(row.bytes_of(word))?;
    }
    Ok(words)
}

/// The words as slices.
fn lent<'a>(alloc: Global, words: &'a [Vec<u8>]) -> Result<Vec<&'a [u8]>, AllocError> {
    let mut lent = Vec::new(alloc);
    for word in words {
        lent.push(word.as_slice())?;
    }
    Ok(lent)
}

/// A program to run: the format of the disk, the limit, the words of its command, and its bytes.
#[derive(Drop)]
struct Program {
    kind: DiskKind,
    limit: u64,
    words: Vec<Vec<u8>>,
    bytes: Vec<u8>,
}

fn program_of(row: &mut Row) -> Result<Program, AllocError> {
    let kind = kind_of(row);
    let limit = u64::from(row.decimal());
    let words = row.until('|');
    let words = words_of(row, words)?;
    Ok(Program {
        kind,
        limit,
        words,
        bytes: row.bytes(),
    })
}

/// Runs a program on an empty disk, without input.
fn ended(alloc: Global, program: &Program) -> Option<RunEnd<Failing, Keyboard>> {
    let words = lent(alloc, &program.words).ok()?;
    let disk = blank_disk(alloc, program.kind)?;
    Some(run(
        alloc,
        &program.bytes,
        &words,
        disk,
        good_console(alloc),
        program.limit,
    ))
}

/// Runs a program, and prints why it ends, after how many steps, where, and what it put. The machine that it answers has the disk of the
/// run.
pub(crate) fn answer_run(row: &mut Row) -> Option<Machine> {
    let program = program_of(row).ok()?;
    let RunEnd {
        why,
        turns,
        pc,
        disk,
        console,
    } = ended(row.alloc(), &program)?;
    write!(row, " {why:?}, {turns} turns, PC {pc:04X}, put");
    row.write_runs(console.into_console().output());
    machine_over(row.alloc(), disk, good_console(row.alloc()))
}

/// The state in which a program begins: the columns are the words and the program.
fn started(row: &mut Row) -> Option<(Cpu, Memory)> {
    let words = row.until('|');
    let words = words_of(row, words).ok()?;
    let words = lent(row.alloc(), &words).ok()?;
    start(row.alloc(), &row.bytes(), &words).ok()
}

/// Prints the state in which a program begins. The machine has that memory and those registers then.
pub(crate) fn answer_start(row: &mut Row, machine: &mut Machine) {
    let Some((cpu, memory)) = started(row) else {
        return row.refuse("no such start");
    };
    let (sp, pc, hl) = (cpu.sp, cpu.pc, cpu.main.hl());
    write!(row, " SP {sp:04X} PC {pc:04X} HL {hl:04X}");
    machine.cpu = cpu;
    machine.memory = memory;
}
