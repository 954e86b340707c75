//! Reads the opcodes after ED.
ghost use Rattle.std.specs.Prelude.{◌≡◌, ℕ, List};
ghost use Rattle.z80_table.specs.Reading.{with_operand_bytes, interrupt_entry, special_entry, leave_entry, extended_middle, extended_quarter, extended_entry, read_page};

use crate::field::{
    block_operation_of, is_odd, pair_of, register_of, step_of, word_of, y_of, z_of,
};
use crate::{DecodeFault, Decoded};
use z80_instr::{Instr, InterruptMode, Octal, WordRegister};

/// Reads the instruction after ED. Only opcodes from 40H to 7FH and block instructions are documented.
pub(crate) fn extended(bytes: &[u8]) -> Decoded
    ensures { result ≡ read_page extended_entry bytes.now }
{
    let Some((opcode, rest)) = bytes.split_first() else {
        return Err(DecodeFault::Short);
    };
    let y = y_of(*opcode);
    let z = z_of(*opcode);
    match *opcode / 64 {
        1 => extended_low(y, z, rest),
        2 => block(y, z),
        0 | 3 => Err(DecodeFault::Undocumented),
        _ => unreachable!(),
    }
}

/// Opcodes from 40H to 7FH; each z is a column of the table.
fn extended_low(y: Octal, z: Octal, rest: &[u8]) -> Decoded
    ensures { result ≡ with_operand_bytes 2 (extended_middle y z) rest.now }
{
    match z {
        Octal::Zero => match register_of(y) {
            Some(register) => Ok((Instr::InC(register), 2)),
            None => Err(DecodeFault::Undocumented),
        },
        Octal::One => match register_of(y) {
            Some(register) => Ok((Instr::OutC(register), 2)),
            None => Err(DecodeFault::Undocumented),
        },
        Octal::Two => {
            if is_odd(y) {
                Ok((Instr::AdcHl(pair_of(y)), 2))
            } else {
                Ok((Instr::SbcHl(pair_of(y)), 2))
            }
        }
        Octal::Three => {
            let nn = word_of(rest);
            if is_odd(y) {
                Ok((Instr::LoadWordFrom(WordRegister::Pair(pair_of(y)), nn?), 4))
            } else {
                Ok((Instr::StoreWord(WordRegister::Pair(pair_of(y)), nn?), 4))
            }
        }
        Octal::Four => match y {
            Octal::Zero => Ok((Instr::Neg, 2)),
            _ => Err(DecodeFault::Undocumented),
        },
        Octal::Five => leave(y),
        Octal::Six => interrupt(y),
        Octal::Seven => special(y),
    }
}

/// LD of I and R, RRD and RLD.
fn special(y: Octal) -> Decoded
    ensures { (rest : List ℕ) → result ≡ with_operand_bytes 2 (special_entry y) rest }
{
    match y {
        Octal::Zero => Ok((Instr::LoadIFromA, 2)),
        Octal::One => Ok((Instr::LoadRFromA, 2)),
        Octal::Two => Ok((Instr::LoadAFromI, 2)),
        Octal::Three => Ok((Instr::LoadAFromR, 2)),
        Octal::Four => Ok((Instr::Rrd, 2)),
        Octal::Five => Ok((Instr::Rld, 2)),
        _ => Err(DecodeFault::Undocumented),
    }
}

/// RETN and RETI.
fn leave(y: Octal) -> Decoded
    ensures { (rest : List ℕ) → result ≡ with_operand_bytes 2 (leave_entry y) rest }
{
    match y {
        Octal::Zero => Ok((Instr::Retn, 2)),
        Octal::One => Ok((Instr::Reti, 2)),
        _ => Err(DecodeFault::Undocumented),
    }
}

/// IM.
fn interrupt(y: Octal) -> Decoded
    ensures { (rest : List ℕ) → result ≡ with_operand_bytes 2 (interrupt_entry y) rest }
{
    match y {
        Octal::Zero => Ok((Instr::Im(InterruptMode::Zero), 2)),
        Octal::Two => Ok((Instr::Im(InterruptMode::One), 2)),
        Octal::Three => Ok((Instr::Im(InterruptMode::Two), 2)),
        _ => Err(DecodeFault::Undocumented),
    }
}

/// The block instructions, LDI to OTDR.
fn block(y: Octal, z: Octal) -> Decoded
    ensures { (rest : List ℕ) → result ≡ with_operand_bytes 2 (extended_quarter 2 y z) rest }
{
    match (step_of(y), block_operation_of(z)) {
        (Some(step), Some(operation)) => Ok((Instr::Block(operation, step), 2)),
        _ => Err(DecodeFault::Undocumented),
    }
}
