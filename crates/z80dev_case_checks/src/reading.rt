//! Reads the bytes of each statement back.

use crate::layout::{Layout, target_of};
use z80_form::{Field, with_number};
use z80_instr::Branch;
use z80_table::{Cond, Instr, ShortCond, decode};
use z80dev_cases::{Case, Kind};

/// The address of a label plus an addend.
fn sum_of(case: &Case, layout: &Layout, label: usize, add: u16) -> u16 {
    let place = layout.place(target_of(case, label));
    ((place % 65_536) as u16).wrapping_add(add)
}

/// The distance from the end of a short jump to its target.
fn distance(from: u16, to: u16) -> i8 {
    let far = to.wrapping_sub(from).wrapping_sub(2);
    i8::from_le_bytes([(far % 256) as u8])
}

fn wide(condition: ShortCond) -> Cond {
    match condition {
        ShortCond::NotZero => Cond::NotZero,
        ShortCond::Zero => Cond::Zero,
        ShortCond::NotCarry => Cond::NotCarry,
        ShortCond::Carry => Cond::Carry,
    }
}

fn long_jump(condition: Option<ShortCond>, to: u16) -> Instr {
    match condition {
        None => Instr::Jump(to),
        Some(condition) => Instr::JumpIf(wide(condition), to),
    }
}

fn short_jump(branch: Branch, from: u16, to: u16) -> Instr {
    let e = distance(from, to);
    match branch {
        Branch::Relative(None) => Instr::JumpRelative(e),
        Branch::Relative(Some(condition)) => Instr::JumpRelativeIf(condition, e),
        Branch::CountDown => Instr::Djnz(e),
    }
}

/// The instruction of a statement, with its numbers; None for data.
pub(crate) fn instruction_at(case: &Case, layout: &Layout, statement: usize) -> Option<Instr> {
    let stated = case.statements.get(statement)?;
    let from = (layout.place(statement) % 65_536) as u16;
    match stated.kind {
        Kind::Code(instr) => Some(instr),
        Kind::Labelled(instr, label, add) => {
            let word = sum_of(case, layout, label, add);
            Some(with_number(instr, Field::Word, word))
        }
        Kind::Jump(condition, label) => {
            let to = sum_of(case, layout, label, 0);
            Some(if layout.is_long(statement) {
                long_jump(condition, to)
            } else {
                short_jump(Branch::Relative(condition), from, to)
            })
        }
        Kind::Short(branch, label) => {
            let to = sum_of(case, layout, label, 0);
            Some(short_jump(branch, from, to))
        }
        _ => None,
    }
}

/// Whether these bytes are the data of a statement.
fn is_data(case: &Case, layout: &Layout, kind: Kind, bytes: &[u8]) -> bool {
    match kind {
        Kind::Data(from, count) => {
            let wanted = case.data.iter().skip(from).take(count);
            wanted.eq(bytes.iter())
        }
        Kind::Place(label, add) => {
            bytes == sum_of(case, layout, label, add).to_le_bytes().as_slice()
        }
        Kind::Half(high, label, add) => {
            let [low_byte, high_byte] = sum_of(case, layout, label, add).to_le_bytes();
            bytes == [if high { high_byte } else { low_byte }].as_slice()
        }
        Kind::Space(_, fill) => bytes.iter().all(|byte| *byte == fill),
        _ => false,
    }
}

/// The number of the first statement that does not have its bytes.
pub(crate) fn first_other(case: &Case, layout: &Layout, com: &[u8]) -> Option<usize> {
    for (statement, stated) in case.statements.iter().enumerate() {
        let from = layout.place(statement).saturating_sub(0x100) as usize;
        let to = layout
            .place(statement.saturating_add(1))
            .saturating_sub(0x100) as usize;
        let Some(bytes) = com.get(from..to) else {
            return Some(statement);
        };
        let is_right = match instruction_at(case, layout, statement) {
            Some(instr) => {
                matches!(decode(bytes), Ok((found, size)) if found == instr && usize::from(size) == bytes.len())
            }
            None => is_data(case, layout, stated.kind, bytes),
        };
        if !is_right {
            return Some(statement);
        }
    }
    None
}
