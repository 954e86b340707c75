//! Reads the opcodes after CB.
ghost use Rattle.std.specs.Prelude.{◌≡◌, ◌/◌, ◌%◌, ℕ, List};
ghost use Rattle.z80_instr.specs.Table.{octal_of};
ghost use Rattle.z80_table.specs.Reading.{with_operand_bytes, bit_entry, bits_entry, read_page};

use crate::field::{byte_of, operand_of, rotation_of, y_of, z_of};
use crate::{DecodeFault, Decoded};
use z80_instr::{Instr, Operand};

/// Reads the instruction after CB.
pub(crate) fn bits(bytes: &[u8]) -> Decoded
    ensures { result ≡ read_page bits_entry bytes.now }
{
    let opcode = byte_of(bytes)?;
    bit(opcode, operand_of(z_of(opcode)), 2)
}

/// The rotation, BIT, RES or SET of the operand that this opcode after CB stands for, in an encoding of `size` bytes.
pub(crate) fn bit(opcode: u8, operand: Operand, size: u8) -> Decoded
    ensures { (rest : List ℕ) →
        result ≡ with_operand_bytes size (bit_entry (opcode / 64) (octal_of (opcode / 8 % 8)) operand) rest }
{
    let y = y_of(opcode);
    match opcode / 64 {
        0 => match rotation_of(y) {
            Some(rotation) => Ok((Instr::Rotate(rotation, operand), size)),
            None => Err(DecodeFault::Undocumented),
        },
        1 => Ok((Instr::Bit(y, operand), size)),
        2 => Ok((Instr::Res(y, operand), size)),
        3 => Ok((Instr::Set(y, operand), size)),
        _ => unreachable!(),
    }
}
