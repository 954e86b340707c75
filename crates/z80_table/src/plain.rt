//! Reads the opcodes without a prefix.
ghost use Rattle.std.specs.Prelude.{◌≡◌, ℕ, List};
ghost use Rattle.z80_table.specs.Reading.{with_operand_bytes, relative_entry, indirect_entry, accumulator_at, low_entry, load_of, pop_entry, exchange_entry, push_entry, high_entry, plain_entry};

use crate::field::{
    byte_of, condition_of, is_odd, operand_of, operation_of, pair_of, signed_of, word_of, y_of,
    z_of,
};
use crate::{DecodeFault, Decoded};
use z80_instr::{
    HlOrIndex, Instr, Memory, Octal, Operand, Pointer, Register, RegisterPair, ShortCond,
    StackOperand, WordRegister,
};

/// Reads the instruction of an opcode without a prefix, with its numbers from the bytes that follow.
#[inline(always)]
pub(crate) fn plain(opcode: u8, rest: &[u8]) -> Decoded
    ensures { result ≡ with_operand_bytes 1 (plain_entry opcode) rest.now }
{
    let y = y_of(opcode);
    let z = z_of(opcode);
    match opcode / 64 {
        0 => low(y, z, rest),
        1 => Ok((load(operand_of(y), operand_of(z)), 1)),
        2 => Ok((Instr::Alu(operation_of(y), operand_of(z)), 1)),
        3 => high(y, z, rest),
        _ => unreachable!(),
    }
}

/// Opcodes below 40H; each z is a column of the table.
#[inline(always)]
fn low(y: Octal, z: Octal, rest: &[u8]) -> Decoded
    ensures { result ≡ with_operand_bytes 1 (low_entry y z) rest.now }
{
    match z {
        Octal::Zero => relative(y, rest),
        Octal::One => {
            if is_odd(y) {
                Ok((Instr::AddHl(pair_of(y)), 1))
            } else {
                Ok((
                    Instr::LoadWord(WordRegister::Pair(pair_of(y)), word_of(rest)?),
                    3,
                ))
            }
        }
        Octal::Two => indirect(y, rest),
        Octal::Three => {
            if is_odd(y) {
                Ok((Instr::DecWord(WordRegister::Pair(pair_of(y))), 1))
            } else {
                Ok((Instr::IncWord(WordRegister::Pair(pair_of(y))), 1))
            }
        }
        Octal::Four => Ok((Instr::Inc(operand_of(y)), 1)),
        Octal::Five => Ok((Instr::Dec(operand_of(y)), 1)),
        Octal::Six => Ok((Instr::LoadByte(operand_of(y), byte_of(rest)?), 2)),
        Octal::Seven => Ok((accumulator_of(y), 1)),
    }
}

/// NOP, EX AF,AF', DJNZ and JR.
#[inline(always)]
fn relative(y: Octal, rest: &[u8]) -> Decoded
    ensures { result ≡ with_operand_bytes 1 (relative_entry y) rest.now }
{
    match y {
        Octal::Zero => Ok((Instr::Nop, 1)),
        Octal::One => Ok((Instr::ExAf, 1)),
        Octal::Two => Ok((Instr::Djnz(signed_of(rest)?), 2)),
        Octal::Three => Ok((Instr::JumpRelative(signed_of(rest)?), 2)),
        Octal::Four => Ok((
            Instr::JumpRelativeIf(ShortCond::NotZero, signed_of(rest)?),
            2,
        )),
        Octal::Five => Ok((Instr::JumpRelativeIf(ShortCond::Zero, signed_of(rest)?), 2)),
        Octal::Six => Ok((
            Instr::JumpRelativeIf(ShortCond::NotCarry, signed_of(rest)?),
            2,
        )),
        Octal::Seven => Ok((Instr::JumpRelativeIf(ShortCond::Carry, signed_of(rest)?), 2)),
    }
}

/// LD between A or HL and the byte or word at an address.
fn indirect(y: Octal, rest: &[u8]) -> Decoded
    ensures { result ≡ with_operand_bytes 1 (indirect_entry y) rest.now }
{
    match y {
        Octal::Zero => Ok((Instr::StoreA(Pointer::Bc), 1)),
        Octal::One => Ok((Instr::LoadA(Pointer::Bc), 1)),
        Octal::Two => Ok((Instr::StoreA(Pointer::De), 1)),
        Octal::Three => Ok((Instr::LoadA(Pointer::De), 1)),
        Octal::Four => Ok((
            Instr::StoreWord(WordRegister::Pair(RegisterPair::Hl), word_of(rest)?),
            3,
        )),
        Octal::Five => Ok((
            Instr::LoadWordFrom(WordRegister::Pair(RegisterPair::Hl), word_of(rest)?),
            3,
        )),
        Octal::Six => Ok((Instr::StoreA(Pointer::Address(word_of(rest)?)), 3)),
        Octal::Seven => Ok((Instr::LoadA(Pointer::Address(word_of(rest)?)), 3)),
    }
}

/// LD of an operand to an operand. HALT has the opcode that LD (HL),(HL) would have.
#[inline(always)]
fn load(to: Operand, from: Operand) -> Instr
    ensures { result ≡ load_of to from }
{
    match (to, from) {
        (Operand::Register(to), from) => Instr::Load(to, from),
        (Operand::Memory(to), Operand::Register(from)) => Instr::Store(to, from),
        (Operand::Memory(_), Operand::Memory(_)) => Instr::Halt,
    }
}

/// The instructions that change only A or its flags.
fn accumulator_of(y: Octal) -> Instr
    ensures { result ≡ accumulator_at y }
{
    match y {
        Octal::Zero => Instr::Rlca,
        Octal::One => Instr::Rrca,
        Octal::Two => Instr::Rla,
        Octal::Three => Instr::Rra,
        Octal::Four => Instr::Daa,
        Octal::Five => Instr::Cpl,
        Octal::Six => Instr::Scf,
        Octal::Seven => Instr::Ccf,
    }
}

/// Opcodes from C0H on; each z is a column of the table.
#[inline(always)]
fn high(y: Octal, z: Octal, rest: &[u8]) -> Decoded
    ensures { result ≡ with_operand_bytes 1 (high_entry y z) rest.now }
{
    match z {
        Octal::Zero => Ok((Instr::RetIf(condition_of(y)), 1)),
        Octal::One => pops(y),
        Octal::Two => Ok((Instr::JumpIf(condition_of(y), word_of(rest)?), 3)),
        Octal::Three => exchange(y, rest),
        Octal::Four => Ok((Instr::CallIf(condition_of(y), word_of(rest)?), 3)),
        Octal::Five => push(y, rest),
        Octal::Six => Ok((Instr::AluByte(operation_of(y), byte_of(rest)?), 2)),
        Octal::Seven => Ok((Instr::Restart(y), 1)),
    }
}

/// POP, RET, EXX, JP (HL) and LD SP,HL.
fn pops(y: Octal) -> Decoded
    ensures { (rest : List ℕ) → result ≡ with_operand_bytes 1 (pop_entry y) rest }
{
    let instr = match y {
        Octal::Zero => Instr::Pop(StackOperand::Bc),
        Octal::One => Instr::Ret,
        Octal::Two => Instr::Pop(StackOperand::De),
        Octal::Three => Instr::Exx,
        Octal::Four => Instr::Pop(StackOperand::Hl),
        Octal::Five => Instr::JumpIndirect(HlOrIndex::Hl),
        Octal::Six => Instr::Pop(StackOperand::Af),
        Octal::Seven => Instr::LoadSp(HlOrIndex::Hl),
    };
    Ok((instr, 1))
}

/// JP nn, the ports, the exchanges, DI and EI. CB is a prefix.
fn exchange(y: Octal, rest: &[u8]) -> Decoded
    ensures { result ≡ with_operand_bytes 1 (exchange_entry y) rest.now }
{
    match y {
        Octal::Zero => Ok((Instr::Jump(word_of(rest)?), 3)),
        Octal::One => Err(DecodeFault::Undocumented),
        Octal::Two => Ok((Instr::OutA(byte_of(rest)?), 2)),
        Octal::Three => Ok((Instr::InA(byte_of(rest)?), 2)),
        Octal::Four => Ok((Instr::ExSp(HlOrIndex::Hl), 1)),
        Octal::Five => Ok((Instr::ExDeHl, 1)),
        Octal::Six => Ok((Instr::Di, 1)),
        Octal::Seven => Ok((Instr::Ei, 1)),
    }
}

/// PUSH and CALL nn. DD, ED and FD are prefixes.
fn push(y: Octal, rest: &[u8]) -> Decoded
    ensures { result ≡ with_operand_bytes 1 (push_entry y) rest.now }
{
    match y {
        Octal::Zero => Ok((Instr::Push(StackOperand::Bc), 1)),
        Octal::One => Ok((Instr::Call(word_of(rest)?), 3)),
        Octal::Two => Ok((Instr::Push(StackOperand::De), 1)),
        Octal::Four => Ok((Instr::Push(StackOperand::Hl), 1)),
        Octal::Six => Ok((Instr::Push(StackOperand::Af), 1)),
        Octal::Three | Octal::Five | Octal::Seven => Err(DecodeFault::Undocumented),
    }
}
