//! Compares the machine with a walk over the statements.

use crate::layout::{Layout, target_of};
use crate::missed::Missed;
use crate::reading::instruction_at;
use std::alloc::{AllocError, Global};
use z80_machine::outcome::Step;
use z80_machine::{Cpu, Memory, step};
use z80_table::{Instr, ShortCond, size};
use z80dev_cases::{Case, Kind};

/// For each byte of a file, the statement that begins there, if any.
#[derive(Drop)]
struct Begins {
    at: Vec<Option<usize>>,
}

fn begins_of(
    alloc: Global,
    case: &Case,
    layout: &Layout,
    com: &[u8],
) -> Result<Begins, AllocError> {
    let mut at: Vec<Option<usize>> = vec![in alloc; None; com.len()]?;
    for statement in 0..case.statements.len() {
        let place = layout.place(statement).saturating_sub(0x100) as usize;
        if let Some(slot) = at.get_mut(place) {
            *slot = Some(statement);
        }
    }
    Ok(Begins { at })
}

impl Begins {
    fn statement_at(&self, pc: u16) -> Option<usize> {
        let byte = usize::from(pc).checked_sub(0x100)?;
        match self.at.get(byte) {
            Some(found) => *found,
            None => None,
        }
    }
}

/// Whether the bytes of a statement in memory are still those of the file.
fn is_untouched(memory: &Memory, com: &[u8], pc: u16, size: u8) -> bool {
    for ahead in 0..u16::from(size) {
        let address = pc.wrapping_add(ahead);
        let byte = usize::from(address).saturating_sub(0x100);
        if com.get(byte) != Some(&memory.get(address)) {
            return false;
        }
    }
    true
}

fn holds(cpu: &Cpu, condition: Option<ShortCond>) -> bool {
    let flags = cpu.main.flags;
    match condition {
        None => true,
        Some(ShortCond::NotZero) => !flags.zero,
        Some(ShortCond::Zero) => flags.zero,
        Some(ShortCond::NotCarry) => !flags.carry,
        Some(ShortCond::Carry) => flags.carry,
    }
}

/// A processor and its memory.
#[derive(Drop)]
struct Walker {
    cpu: Cpu,
    memory: Memory,
}

/// A machine with a file at 0100H and the stack above it.
fn started(alloc: Global, com: &[u8]) -> Result<Walker, AllocError> {
    let mut memory = Memory::new(alloc)?;
    let mut address: u16 = 0x100;
    for byte in com {
        memory.set(address, *byte);
        address = address.wrapping_add(1);
    }
    let mut cpu = Cpu::new();
    cpu.pc = 0x100;
    cpu.sp = 0xFDFE;
    Ok(Walker { cpu, memory })
}

impl Walker {
    /// Makes the step of a statement. A jump to a label goes there or to the next statement, whether it is short or long; any other
    /// instruction is carried out.
    fn take(&mut self, case: &Case, layout: &Layout, statement: usize, instr: Instr) {
        let next = (layout.place(statement.saturating_add(1)) % 65_536) as u16;
        self.cpu.pc = next;
        match case.statements.get(statement) {
            Some(stated) if let Kind::Jump(condition, label) = stated.kind => {
                if holds(&self.cpu, condition) {
                    self.cpu.pc = (layout.place(target_of(case, label)) % 65_536) as u16;
                }
            }
            _ => self.cpu.execute(&mut self.memory, instr),
        }
    }
}

/// The result of a step: the walk continues, it ends, or the machine differs.
enum Turn {
    GoesOn,
    Ends,
    Differs,
}

/// Makes a step on both sides, if the statement is an instruction and the program has not written into it.
fn turn_of(
    case: &Case,
    layout: &Layout,
    machine: &mut Walker,
    walker: &mut Walker,
    at: (usize, Instr),
) -> Turn {
    let (statement, instr) = at;
    let outcome = step(&mut machine.cpu, &mut machine.memory);
    if instr == Instr::Halt {
        return if outcome == Step::Halted {
            Turn::Ends
        } else {
            Turn::Differs
        };
    }
    walker.take(case, layout, statement, instr);
    if outcome == Step::Done && machine.cpu == walker.cpu {
        Turn::GoesOn
    } else {
        Turn::Differs
    }
}

/// The first address at which two memories differ.
fn first_difference(one: &Memory, other: &Memory) -> Option<u16> {
    (0..=0xFFFF).find(|address| one.get(*address) != other.get(*address))
}

/// Walks with the machine and with the statements, for a thousand steps, or until PC is not at a statement that is an instruction, or is
/// at one that the program has written into. Answers the number of steps.
///
/// # Errors The address at which the machine differs from the statements.
pub(crate) fn walk(alloc: Global, case: &Case, layout: &Layout, com: &[u8]) -> Result<u64, Missed> {
    let begins = begins_of(alloc, case, layout, com)?;
    let mut machine = started(alloc, com)?;
    let mut walker = started(alloc, com)?;
    let mut turns: u64 = 0;
    for _ in 0..1000 {
        let pc = machine.cpu.pc;
        let Some(statement) = begins.statement_at(pc) else {
            break;
        };
        let Some(instr) = instruction_at(case, layout, statement) else {
            break;
        };
        if !is_untouched(&machine.memory, com, pc, size(&instr)) {
            break;
        }
        match turn_of(case, layout, &mut machine, &mut walker, (statement, instr)) {
            Turn::GoesOn => turns = turns.saturating_add(1),
            Turn::Ends => break,
            Turn::Differs => return Err(Missed::Turn(pc)),
        }
    }
    match first_difference(&machine.memory, &walker.memory) {
        Some(address) => Err(Missed::Memory(address)),
        None => Ok(turns),
    }
}
