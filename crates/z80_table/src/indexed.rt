//! Reads the opcodes after DD and FD.
ghost use Rattle.std.specs.Prelude.{◌≡◌, ℕ, List};
ghost use Rattle.z80_instr.specs.declared.Memory.{Memory};
ghost use Rattle.z80_instr.specs.declared.Operand.{Operand};
ghost use Rattle.z80_table.specs.Reading.{with_operand_bytes, index_low, index_load, index_high, index_entry, read_index_bits, read_index};

use crate::bits::bit;
use crate::field::{addend_of, both_of, operand_of, operation_of, signed_of, word_of, y_of, z_of};
use crate::{DecodeFault, Decoded};
use z80_instr::{
    HlOrIndex, IndexRegister, Instr, Memory, Octal, Operand, Register, StackOperand, WordRegister,
};

/// Reads the instruction after DD or FD: one of HL or (HL), with the index register in its place.
pub(crate) fn indexed(index: IndexRegister, bytes: &[u8]) -> Decoded
    ensures { result ≡ read_index index bytes.now }
{
    match bytes {
        [] => Err(DecodeFault::Short),
        [0xCB, rest @ ..] => index_bits(index, rest),
        [opcode, rest @ ..] => index_page(index, *opcode, rest),
    }
}

/// Reads an instruction whose opcode is right after the prefix.
fn index_page(index: IndexRegister, opcode: u8, rest: &[u8]) -> Decoded
    ensures { result ≡ with_operand_bytes 2 (index_entry index opcode) rest.now }
{
    let y = y_of(opcode);
    let z = z_of(opcode);
    match opcode / 64 {
        0 => index_words(index, y, z, rest),
        1 => index_loads(index, operand_of(y), operand_of(z), rest),
        2 => match z {
            Octal::Six => Ok((
                Instr::Alu(operation_of(y), at_index(index, signed_of(rest)?)),
                3,
            )),
            _ => Err(DecodeFault::Undocumented),
        },
        3 => index_rest(index, y, z),
        _ => unreachable!(),
    }
}

/// Opcodes below 40H, by z and y.
fn index_words(index: IndexRegister, y: Octal, z: Octal, rest: &[u8]) -> Decoded
    ensures { result ≡ with_operand_bytes 2 (index_low index y z) rest.now }
{
    let word = WordRegister::Index(index);
    match (z, y) {
        (Octal::One, Octal::Four) => Ok((Instr::LoadWord(word, word_of(rest)?), 4)),
        (Octal::One, Octal::One | Octal::Three | Octal::Five | Octal::Seven) => Ok((
            Instr::AddIndex(index, addend_of(y)),
            2,
        )),
        (Octal::Two, Octal::Four) => Ok((Instr::StoreWord(word, word_of(rest)?), 4)),
        (Octal::Two, Octal::Five) => Ok((Instr::LoadWordFrom(word, word_of(rest)?), 4)),
        (Octal::Three, Octal::Four) => Ok((Instr::IncWord(word), 2)),
        (Octal::Three, Octal::Five) => Ok((Instr::DecWord(word), 2)),
        (Octal::Four, Octal::Six) => Ok((Instr::Inc(at_index(index, signed_of(rest)?)), 3)),
        (Octal::Five, Octal::Six) => Ok((Instr::Dec(at_index(index, signed_of(rest)?)), 3)),
        (Octal::Six, Octal::Six) => {
            let (d, n) = both_of(rest)?;
            Ok((Instr::LoadByte(at_index(index, d), n), 4))
        }
        _ => Err(DecodeFault::Undocumented),
    }
}

/// LD between a register and the byte at the index register plus a displacement, which takes the place of (HL).
fn index_loads(index: IndexRegister, to: Operand, from: Operand, rest: &[u8]) -> Decoded
    ensures { result ≡ with_operand_bytes 2 (index_load index to from) rest.now }
{
    match (to, from) {
        (Operand::Register(to), Operand::Memory(_)) => Ok((
            Instr::Load(to, at_index(index, signed_of(rest)?)),
            3,
        )),
        (Operand::Memory(_), Operand::Register(from)) => Ok((
            Instr::Store(Memory::Indexed(index, signed_of(rest)?), from),
            3,
        )),
        _ => Err(DecodeFault::Undocumented),
    }
}

/// Opcodes from C0H, by z and y.
fn index_rest(index: IndexRegister, y: Octal, z: Octal) -> Decoded
    ensures { (rest : List ℕ) → result ≡ with_operand_bytes 2 (index_high index y z) rest }
{
    match (z, y) {
        (Octal::One, Octal::Four) => Ok((Instr::Pop(StackOperand::Index(index)), 2)),
        (Octal::One, Octal::Five) => Ok((Instr::JumpIndirect(HlOrIndex::Index(index)), 2)),
        (Octal::One, Octal::Seven) => Ok((Instr::LoadSp(HlOrIndex::Index(index)), 2)),
        (Octal::Three, Octal::Four) => Ok((Instr::ExSp(HlOrIndex::Index(index)), 2)),
        (Octal::Five, Octal::Four) => Ok((Instr::Push(StackOperand::Index(index)), 2)),
        _ => Err(DecodeFault::Undocumented),
    }
}

/// Reads the displacement and the opcode after DD CB or FD CB. Only opcodes of (HL), with z 6, are documented.
fn index_bits(index: IndexRegister, bytes: &[u8]) -> Decoded
    ensures { result ≡ read_index_bits index bytes.now }
{
    match bytes {
        [d, opcode, ..] => match z_of(*opcode) {
            Octal::Six => bit(*opcode, at_index(index, d.cast_signed()), 4),
            _ => Err(DecodeFault::Undocumented),
        },
        _ => Err(DecodeFault::Short),
    }
}

/// The byte at an index register plus a displacement, as an operand.
fn at_index(index: IndexRegister, d: i8) -> Operand
    ensures { result ≡ Operand.Memory (Memory.Indexed index d) }
{
    Operand::Memory(Memory::Indexed(index, d))
}
