//! Finds the code of a program: the instructions that can be reached.

use crate::place::{address_of, offset_of};
use crate::reference::{Reference, goes_on, reference_of};
use std::alloc::{AllocError, Global};
use z80_instr::Instr;
use z80_table::decode;

/// What is known of a byte of the program.
#[derive(Clone, Copy, PartialEq, Eq)]
pub(crate) enum Kind {
    /// It belongs to no instruction that was found.
    Data,
    /// Data begins with it, as the caller says. No instruction may have it.
    DataStart,
    /// An instruction begins with it.
    First,
    /// It belongs to an instruction that begins before it.
    Inside,
}

/// An instruction of the program.
#[derive(Clone, Copy)]
pub(crate) struct Found {
    pub(crate) instr: Instr,
    /// The offset of the next instruction.
    pub(crate) next: usize,
}

impl Found {
    /// Answers the operand that a label can stand for.
    pub(crate) fn reference(self) -> Option<Reference> {
        reference_of(self.instr, address_of(self.next))
    }
}

/// Answers the instruction whose bytes begin at an offset, if they are all in the program.
pub(crate) fn instr_at(program: &[u8], at: usize) -> Option<Found> {
    match decode(program.get(at..)?) {
        Ok((instr, len)) => Some(Found {
            instr,
            next: at.saturating_add(len as usize),
        }),
        Err(_) => None,
    }
}

/// Notes that an instruction has these bytes, unless one of them belongs to another. Answers whether it does.
fn mark(kinds: &mut [Kind], at: usize, next: usize) -> bool {
    let Some(own) = kinds.get_mut(at..next) else {
        return false;
    };
    if own.iter().any(|kind| *kind != Kind::Data) {
        return false;
    }
    for kind in own.iter_mut() {
        *kind = Kind::Inside;
    }
    if let Some(first) = own.first_mut() {
        *first = Kind::First;
    }
    true
}

/// Takes the instruction at an offset as code, if it can be.
fn take(program: &[u8], kinds: &mut [Kind], at: usize) -> Option<Found> {
    let found = instr_at(program, at)?;
    if mark(kinds, at, found.next) {
        Some(found)
    } else {
        None
    }
}

/// Answers the offset in the program to which an instruction leads besides the next one, if there is one.
pub(crate) fn target_of(found: Found, count: usize) -> Option<usize> {
    let address = found.reference()?.target()?;
    offset_of(address).filter(|offset| *offset <= count)
}

/// Answers what is known of the bytes before code is found: only where data begins.
fn first_kinds(
    alloc: Global,
    count: usize,
    data_starts: &[usize],
) -> Result<Vec<Kind>, AllocError> {
    let mut kinds = vec![in alloc; Kind::Data; count]?;
    for start in data_starts {
        if let Some(kind) = kinds.get_mut(*start) {
            *kind = Kind::DataStart;
        }
    }
    Ok(kinds)
}

/// Finds the code that the program can reach from each of the entries, in their order, and then what it can reach from its first byte. It
/// does not reach into data that begins at one of `data_starts`.
pub(crate) fn find_code(
    alloc: Global,
    program: &[u8],
    entries: &[usize],
    data_starts: &[usize],
) -> Result<Vec<Kind>, AllocError> {
    let count = program.len();
    let mut kinds = first_kinds(alloc, count, data_starts)?;
    let mut waiting = Vec::from_slice(alloc, entries)?;
    waiting.push(0)?;
    // The last one is taken first: the entries in their order, since they are known, and then 0100H, since what comes after a call is a guess.
    waiting.reverse();
    // At most one instruction is found at each byte, and each leads to two others at most.
    let most = count.saturating_mul(2).saturating_add(waiting.len());
    for _ in 0..most {
        let Some(at) = waiting.pop() else {
            return Ok(kinds);
        };
        let Some(found) = take(program, &mut kinds, at) else {
            continue;
        };
        if let Some(target) = target_of(found, count) {
            waiting.push(target)?;
        }
        if goes_on(found.instr) {
            waiting.push(found.next)?;
        }
    }
    Ok(kinds)
}
