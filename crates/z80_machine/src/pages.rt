//! The opcode table after the prefixes CB, ED, DD and FD once more, only for speed: each opcode has a row with the function that makes
//! its step. An opcode without a row is decoded by `z80_table`.
ghost use Rattle.std.specs.Prelude.{◌≡◌};
ghost use Rattle.z80_cpu.specs.State.{machine, byte_at, up_by};
ghost use Rattle.z80_table.specs.Reading.{read, bits_entry, extended_entry};
ghost use Rattle.z80_machine.specs.Types.{IndexRegister};
ghost use Rattle.z80_machine.specs.Turn.{bytes_at_pc};
ghost use Rattle.z80_machine.specs.Private.Opcodes.{read_second, read_index_second, IsTurnBy, IsTurnOrNone};

use crate::rows::{operand_rows, pair_rows, single_rows};
use crate::turn::turn_decoded;
use z80_cpu::{Cpu, Memory};
use z80_instr::{
    Addend, AluOperation, BlockOperation, BlockStep, IndexRegister, Instr, InterruptMode, Octal,
    Register, RegisterPair, Rotation,
};
use z80_turns::outcome::Step;
use z80_turns::{
    fourth_byte, next_byte, turn_add_index, turn_add_pair_with_carry, turn_behind_prefix, turn_bit,
    turn_bit_at_hl, turn_bit_indexed, turn_block, turn_decrement_index, turn_decrement_indexed,
    turn_exchange_index, turn_increment_index, turn_increment_indexed, turn_jump_index,
    turn_load_byte_indexed, turn_load_index, turn_load_index_from, turn_load_indexed,
    turn_load_pair_from, turn_load_sp, turn_negate, turn_operate_indexed, turn_pop_index,
    turn_push_index, turn_reset, turn_reset_at_hl, turn_reset_indexed, turn_rotate,
    turn_rotate_at_hl, turn_rotate_digits_left, turn_rotate_digits_right, turn_rotate_indexed,
    turn_set, turn_set_at_hl, turn_set_indexed, turn_store_index, turn_store_indexed,
    turn_store_pair, turn_subtract_pair_with_carry,
};

/// The step of an instruction after CB, as a call: [`turn_bits`] is not inlined into a single step.
#[inline(never)]
pub(crate) fn call_bits(cpu: &mut Cpu, memory: &mut Memory) -> Step
    requires { read (bytes_at_pc (machine cpu.old memory.old)) ≡
        read_second bits_entry (byte_at (up_by 1 cpu.old.pc) memory.old) (machine cpu.old memory.old) }
    ensures { IsTurnBy (read_second bits_entry (byte_at (up_by 1 cpu.old.pc) memory.old) (machine cpu.old memory.old)) result
        (machine cpu.old memory.old) (machine cpu.new memory.new) }
{
    turn_bits::<false>(cpu, memory)
}

/// Makes the step of an instruction after CB.
pub(crate) fn turn_bits<const IN_RUN: bool>(cpu: &mut Cpu, memory: &mut Memory) -> Step
    requires { read (bytes_at_pc (machine cpu.old memory.old)) ≡
        read_second bits_entry (byte_at (up_by 1 cpu.old.pc) memory.old) (machine cpu.old memory.old) }
    ensures { IsTurnBy (read_second bits_entry (byte_at (up_by 1 cpu.old.pc) memory.old) (machine cpu.old memory.old)) result
        (machine cpu.old memory.old) (machine cpu.new memory.new) }
{
    let second = next_byte(cpu, memory);
    if let Some(step) = try_bits::<IN_RUN>(cpu, memory, second) {
        return step;
    }
    turn_decoded(cpu, memory)
}

/// Chooses by the upper bit of the opcode after CB.
#[inline(always)]
fn try_bits<const IN_RUN: bool>(cpu: &mut Cpu, memory: &mut Memory, second: u8) -> Option<Step>
    ensures { IsTurnOrNone (read_second bits_entry second (machine cpu.old memory.old)) result
        (machine cpu.old memory.old) (machine cpu.new memory.new) }
{
    if second < 0x80 {
        try_bits_lower::<IN_RUN>(cpu, memory, second)
    } else {
        try_bits_upper(cpu, memory, second)
    }
}

/// Opcodes below 80H after CB: rotations, shifts and BIT.
fn try_bits_lower<const IN_RUN: bool>(
    cpu: &mut Cpu,
    memory: &mut Memory,
    second: u8,
) -> Option<Step>
    ensures { IsTurnOrNone (read_second bits_entry second (machine cpu.old memory.old)) result
        (machine cpu.old memory.old) (machine cpu.new memory.new) }
{
    if let Some(step) = try_shifts::<IN_RUN>(cpu, memory, second) {
        return Some(step);
    }
    if let Some(step) = try_bits_low(cpu, memory, second) {
        return Some(step);
    }
    if let Some(step) = try_bits_high(cpu, memory, second) {
        return Some(step);
    }
    try_rotations_left::<IN_RUN>(cpu, memory, second)
}

/// Opcodes from 80H on after CB: RES and SET. This is a call even in a run: inlined into its loop, they would leave the other
/// instructions too few of the host's registers.
#[inline(never)]
fn try_bits_upper(cpu: &mut Cpu, memory: &mut Memory, second: u8) -> Option<Step>
    ensures { IsTurnOrNone (read_second bits_entry second (machine cpu.old memory.old)) result
        (machine cpu.old memory.old) (machine cpu.new memory.new) }
{
    if let Some(step) = try_resets_low(cpu, memory, second) {
        return Some(step);
    }
    if let Some(step) = try_resets_high(cpu, memory, second) {
        return Some(step);
    }
    if let Some(step) = try_sets_low(cpu, memory, second) {
        return Some(step);
    }
    try_sets_high(cpu, memory, second)
}

/// RLC, RRC, RL and RR.
fn try_rotations_left<const IN_RUN: bool>(
    cpu: &mut Cpu,
    memory: &mut Memory,
    second: u8,
) -> Option<Step>
    ensures { IsTurnOrNone (read_second bits_entry second (machine cpu.old memory.old)) result
        (machine cpu.old memory.old) (machine cpu.new memory.new) }
{
    operand_rows!(cpu, memory, second;
        0x00 0x01 0x02 0x03 0x04 0x05 0x06 0x07 => turn_rotate(Rotation::Rlc) / turn_rotate_at_hl(Rotation::Rlc);
        0x08 0x09 0x0A 0x0B 0x0C 0x0D 0x0E 0x0F => turn_rotate(Rotation::Rrc) / turn_rotate_at_hl(Rotation::Rrc);
        0x10 0x11 0x12 0x13 0x14 0x15 0x16 0x17 => turn_rotate(Rotation::Rl) / turn_rotate_at_hl(Rotation::Rl);
        0x18 0x19 0x1A 0x1B 0x1C 0x1D 0x1E 0x1F => turn_rotate(Rotation::Rr) / turn_rotate_at_hl(Rotation::Rr);
    )
}

/// SLA, SRA and SRL.
fn try_shifts<const IN_RUN: bool>(cpu: &mut Cpu, memory: &mut Memory, second: u8) -> Option<Step>
    ensures { IsTurnOrNone (read_second bits_entry second (machine cpu.old memory.old)) result
        (machine cpu.old memory.old) (machine cpu.new memory.new) }
{
    operand_rows!(cpu, memory, second;
        0x20 0x21 0x22 0x23 0x24 0x25 0x26 0x27 => turn_rotate(Rotation::Sla) / turn_rotate_at_hl(Rotation::Sla);
        0x28 0x29 0x2A 0x2B 0x2C 0x2D 0x2E 0x2F => turn_rotate(Rotation::Sra) / turn_rotate_at_hl(Rotation::Sra);
        0x38 0x39 0x3A 0x3B 0x3C 0x3D 0x3E 0x3F => turn_rotate(Rotation::Srl) / turn_rotate_at_hl(Rotation::Srl);
    )
}

/// BIT of bits 0 to 3.
#[inline(always)]
fn try_bits_low(cpu: &mut Cpu, memory: &mut Memory, second: u8) -> Option<Step>
    ensures { IsTurnOrNone (read_second bits_entry second (machine cpu.old memory.old)) result
        (machine cpu.old memory.old) (machine cpu.new memory.new) }
{
    operand_rows!(cpu, memory, second;
        0x40 0x41 0x42 0x43 0x44 0x45 0x46 0x47 => turn_bit(Octal::Zero) / turn_bit_at_hl(Octal::Zero);
        0x48 0x49 0x4A 0x4B 0x4C 0x4D 0x4E 0x4F => turn_bit(Octal::One) / turn_bit_at_hl(Octal::One);
        0x50 0x51 0x52 0x53 0x54 0x55 0x56 0x57 => turn_bit(Octal::Two) / turn_bit_at_hl(Octal::Two);
        0x58 0x59 0x5A 0x5B 0x5C 0x5D 0x5E 0x5F => turn_bit(Octal::Three) / turn_bit_at_hl(Octal::Three);
    )
}

/// BIT of bits 4 to 7.
#[inline(always)]
fn try_bits_high(cpu: &mut Cpu, memory: &mut Memory, second: u8) -> Option<Step>
    ensures { IsTurnOrNone (read_second bits_entry second (machine cpu.old memory.old)) result
        (machine cpu.old memory.old) (machine cpu.new memory.new) }
{
    operand_rows!(cpu, memory, second;
        0x60 0x61 0x62 0x63 0x64 0x65 0x66 0x67 => turn_bit(Octal::Four) / turn_bit_at_hl(Octal::Four);
        0x68 0x69 0x6A 0x6B 0x6C 0x6D 0x6E 0x6F => turn_bit(Octal::Five) / turn_bit_at_hl(Octal::Five);
        0x70 0x71 0x72 0x73 0x74 0x75 0x76 0x77 => turn_bit(Octal::Six) / turn_bit_at_hl(Octal::Six);
        0x78 0x79 0x7A 0x7B 0x7C 0x7D 0x7E 0x7F => turn_bit(Octal::Seven) / turn_bit_at_hl(Octal::Seven);
    )
}

/// RES of bits 0 to 3.
#[inline(always)]
fn try_resets_low(cpu: &mut Cpu, memory: &mut Memory, second: u8) -> Option<Step>
    ensures { IsTurnOrNone (read_second bits_entry second (machine cpu.old memory.old)) result
        (machine cpu.old memory.old) (machine cpu.new memory.new) }
{
    operand_rows!(cpu, memory, second;
        0x80 0x81 0x82 0x83 0x84 0x85 0x86 0x87 => turn_reset(Octal::Zero) / turn_reset_at_hl(Octal::Zero);
        0x88 0x89 0x8A 0x8B 0x8C 0x8D 0x8E 0x8F => turn_reset(Octal::One) / turn_reset_at_hl(Octal::One);
        0x90 0x91 0x92 0x93 0x94 0x95 0x96 0x97 => turn_reset(Octal::Two) / turn_reset_at_hl(Octal::Two);
        0x98 0x99 0x9A 0x9B 0x9C 0x9D 0x9E 0x9F => turn_reset(Octal::Three) / turn_reset_at_hl(Octal::Three);
    )
}

/// RES of bits 4 to 7.
#[inline(always)]
fn try_resets_high(cpu: &mut Cpu, memory: &mut Memory, second: u8) -> Option<Step>
    ensures { IsTurnOrNone (read_second bits_entry second (machine cpu.old memory.old)) result
        (machine cpu.old memory.old) (machine cpu.new memory.new) }
{
    operand_rows!(cpu, memory, second;
        0xA0 0xA1 0xA2 0xA3 0xA4 0xA5 0xA6 0xA7 => turn_reset(Octal::Four) / turn_reset_at_hl(Octal::Four);
        0xA8 0xA9 0xAA 0xAB 0xAC 0xAD 0xAE 0xAF => turn_reset(Octal::Five) / turn_reset_at_hl(Octal::Five);
        0xB0 0xB1 0xB2 0xB3 0xB4 0xB5 0xB6 0xB7 => turn_reset(Octal::Six) / turn_reset_at_hl(Octal::Six);
        0xB8 0xB9 0xBA 0xBB 0xBC 0xBD 0xBE 0xBF => turn_reset(Octal::Seven) / turn_reset_at_hl(Octal::Seven);
    )
}

/// SET of bits 0 to 3.
#[inline(always)]
fn try_sets_low(cpu: &mut Cpu, memory: &mut Memory, second: u8) -> Option<Step>
    ensures { IsTurnOrNone (read_second bits_entry second (machine cpu.old memory.old)) result
        (machine cpu.old memory.old) (machine cpu.new memory.new) }
{
    operand_rows!(cpu, memory, second;
        0xC0 0xC1 0xC2 0xC3 0xC4 0xC5 0xC6 0xC7 => turn_set(Octal::Zero) / turn_set_at_hl(Octal::Zero);
        0xC8 0xC9 0xCA 0xCB 0xCC 0xCD 0xCE 0xCF => turn_set(Octal::One) / turn_set_at_hl(Octal::One);
        0xD0 0xD1 0xD2 0xD3 0xD4 0xD5 0xD6 0xD7 => turn_set(Octal::Two) / turn_set_at_hl(Octal::Two);
        0xD8 0xD9 0xDA 0xDB 0xDC 0xDD 0xDE 0xDF => turn_set(Octal::Three) / turn_set_at_hl(Octal::Three);
    )
}

/// SET of bits 4 to 7.
#[inline(always)]
#[inline(always)]
fn try_sets_high(cpu: &mut Cpu, memory: &mut Memory, second: u8) -> Option<Step>
    ensures { IsTurnOrNone (read_second bits_entry second (machine cpu.old memory.old)) result
        (machine cpu.old memory.old) (machine cpu.new memory.new) }
{
    operand_rows!(cpu, memory, second;
        0xE0 0xE1 0xE2 0xE3 0xE4 0xE5 0xE6 0xE7 => turn_set(Octal::Four) / turn_set_at_hl(Octal::Four);
        0xE8 0xE9 0xEA 0xEB 0xEC 0xED 0xEE 0xEF => turn_set(Octal::Five) / turn_set_at_hl(Octal::Five);
        0xF0 0xF1 0xF2 0xF3 0xF4 0xF5 0xF6 0xF7 => turn_set(Octal::Six) / turn_set_at_hl(Octal::Six);
        0xF8 0xF9 0xFA 0xFB 0xFC 0xFD 0xFE 0xFF => turn_set(Octal::Seven) / turn_set_at_hl(Octal::Seven);
    )
}

/// The step of an instruction after ED, as a call: [`turn_extended`] is not inlined into a single step.
#[inline(never)]
pub(crate) fn call_extended(cpu: &mut Cpu, memory: &mut Memory) -> Step
    requires { read (bytes_at_pc (machine cpu.old memory.old)) ≡
        read_second extended_entry (byte_at (up_by 1 cpu.old.pc) memory.old) (machine cpu.old memory.old) }
    ensures { IsTurnBy (read_second extended_entry (byte_at (up_by 1 cpu.old.pc) memory.old) (machine cpu.old memory.old)) result
        (machine cpu.old memory.old) (machine cpu.new memory.new) }
{
    turn_extended::<false>(cpu, memory)
}

/// Makes the step of an instruction after ED.
pub(crate) fn turn_extended<const IN_RUN: bool>(cpu: &mut Cpu, memory: &mut Memory) -> Step
    requires { read (bytes_at_pc (machine cpu.old memory.old)) ≡
        read_second extended_entry (byte_at (up_by 1 cpu.old.pc) memory.old) (machine cpu.old memory.old) }
    ensures { IsTurnBy (read_second extended_entry (byte_at (up_by 1 cpu.old.pc) memory.old) (machine cpu.old memory.old)) result
        (machine cpu.old memory.old) (machine cpu.new memory.new) }
{
    let second = next_byte(cpu, memory);
    if let Some(step) = try_blocks::<IN_RUN>(cpu, memory, second) {
        return step;
    }
    if let Some(step) = try_pairs(cpu, memory, second) {
        return step;
    }
    if let Some(step) = try_rest(cpu, memory, second) {
        return step;
    }
    turn_decoded(cpu, memory)
}

/// Block transfer, search, input and output (LDI to OTDR).
fn try_blocks<const IN_RUN: bool>(cpu: &mut Cpu, memory: &mut Memory, second: u8) -> Option<Step>
    ensures { IsTurnOrNone (read_second extended_entry second (machine cpu.old memory.old)) result
        (machine cpu.old memory.old) (machine cpu.new memory.new) }
{
    single_rows!(cpu, memory, second;
        0xA0 => turn_block(BlockOperation::Load, BlockStep::Increment);
        0xA8 => turn_block(BlockOperation::Load, BlockStep::Decrement);
        0xB0 => turn_block(BlockOperation::Load, BlockStep::IncrementRepeat);
        0xB8 => turn_block(BlockOperation::Load, BlockStep::DecrementRepeat);
        0xA1 => turn_block(BlockOperation::Compare, BlockStep::Increment);
        0xA9 => turn_block(BlockOperation::Compare, BlockStep::Decrement);
        0xB1 => turn_block(BlockOperation::Compare, BlockStep::IncrementRepeat);
        0xB9 => turn_block(BlockOperation::Compare, BlockStep::DecrementRepeat);
        0xA2 => turn_block(BlockOperation::Input, BlockStep::Increment);
        0xAA => turn_block(BlockOperation::Input, BlockStep::Decrement);
        0xB2 => turn_block(BlockOperation::Input, BlockStep::IncrementRepeat);
        0xBA => turn_block(BlockOperation::Input, BlockStep::DecrementRepeat);
        0xA3 => turn_block(BlockOperation::Output, BlockStep::Increment);
        0xAB => turn_block(BlockOperation::Output, BlockStep::Decrement);
        0xB3 => turn_block(BlockOperation::Output, BlockStep::IncrementRepeat);
        0xBB => turn_block(BlockOperation::Output, BlockStep::DecrementRepeat);
    )
}

/// SBC and ADC of HL, and LD between a register pair and an address.
#[inline(always)]
fn try_pairs(cpu: &mut Cpu, memory: &mut Memory, second: u8) -> Option<Step>
    ensures { IsTurnOrNone (read_second extended_entry second (machine cpu.old memory.old)) result
        (machine cpu.old memory.old) (machine cpu.new memory.new) }
{
    pair_rows!(cpu, memory, second;
        0x42 0x52 0x62 0x72 => turn_subtract_pair_with_carry;
        0x4A 0x5A 0x6A 0x7A => turn_add_pair_with_carry;
        0x43 0x53 0x63 0x73 => turn_store_pair;
        0x4B 0x5B 0x6B 0x7B => turn_load_pair_from;
    )
}

/// NEG, RETN and RETI, IM, LD of I and R, RRD and RLD, and IN and OUT with the port in C.
#[inline(always)]
fn try_rest(cpu: &mut Cpu, memory: &mut Memory, second: u8) -> Option<Step>
    ensures { IsTurnOrNone (read_second extended_entry second (machine cpu.old memory.old)) result
        (machine cpu.old memory.old) (machine cpu.new memory.new) }
{
    single_rows!(cpu, memory, second;
        0x44 => turn_negate();
        0x45 => turn_behind_prefix(Instr::Retn);
        0x4D => turn_behind_prefix(Instr::Reti);
        0x46 => turn_behind_prefix(Instr::Im(InterruptMode::Zero));
        0x56 => turn_behind_prefix(Instr::Im(InterruptMode::One));
        0x5E => turn_behind_prefix(Instr::Im(InterruptMode::Two));
        0x47 => turn_behind_prefix(Instr::LoadIFromA);
        0x4F => turn_behind_prefix(Instr::LoadRFromA);
        0x57 => turn_behind_prefix(Instr::LoadAFromI);
        0x5F => turn_behind_prefix(Instr::LoadAFromR);
        0x67 => turn_rotate_digits_right();
        0x6F => turn_rotate_digits_left();
        0x40 => turn_behind_prefix(Instr::InC(Register::B));
        0x41 => turn_behind_prefix(Instr::OutC(Register::B));
        0x48 => turn_behind_prefix(Instr::InC(Register::C));
        0x49 => turn_behind_prefix(Instr::OutC(Register::C));
        0x50 => turn_behind_prefix(Instr::InC(Register::D));
        0x51 => turn_behind_prefix(Instr::OutC(Register::D));
        0x58 => turn_behind_prefix(Instr::InC(Register::E));
        0x59 => turn_behind_prefix(Instr::OutC(Register::E));
        0x60 => turn_behind_prefix(Instr::InC(Register::H));
        0x61 => turn_behind_prefix(Instr::OutC(Register::H));
        0x68 => turn_behind_prefix(Instr::InC(Register::L));
        0x69 => turn_behind_prefix(Instr::OutC(Register::L));
        0x78 => turn_behind_prefix(Instr::InC(Register::A));
        0x79 => turn_behind_prefix(Instr::OutC(Register::A));
    )
}

/// The step of an instruction after DD or FD, as a call: [`turn_index`] is not inlined into a single step.
#[inline(never)]
pub(crate) fn call_index<const IS_IY: bool>(
    cpu: &mut Cpu,
    memory: &mut Memory,
    index: IndexRegister,
) -> Step
    requires { read (bytes_at_pc (machine cpu.old memory.old)) ≡
        read_index_second index (byte_at (up_by 1 cpu.old.pc) memory.old) (machine cpu.old memory.old) }
    ensures { IsTurnBy (read_index_second index (byte_at (up_by 1 cpu.old.pc) memory.old) (machine cpu.old memory.old)) result
        (machine cpu.old memory.old) (machine cpu.new memory.new) }
{
    turn_index::<false, IS_IY>(cpu, memory, index)
}

/// Makes the step of an instruction after DD or FD. It is compiled once for IX and once for IY, so the register is a constant in each
/// copy.
pub(crate) fn turn_index<const IN_RUN: bool, const IS_IY: bool>(
    cpu: &mut Cpu,
    memory: &mut Memory,
    index: IndexRegister,
) -> Step
    requires { read (bytes_at_pc (machine cpu.old memory.old)) ≡
        read_index_second index (byte_at (up_by 1 cpu.old.pc) memory.old) (machine cpu.old memory.old) }
    ensures { IsTurnBy (read_index_second index (byte_at (up_by 1 cpu.old.pc) memory.old) (machine cpu.old memory.old)) result
        (machine cpu.old memory.old) (machine cpu.new memory.new) }
{
    let second = next_byte(cpu, memory);
    if let Some(step) = try_index_words(cpu, memory, index, second) {
        return step;
    }
    if let Some(step) = try_index_bytes::<IN_RUN, IS_IY>(cpu, memory, index, second) {
        return step;
    }
    if let Some(step) = try_index_bits::<IN_RUN, IS_IY>(cpu, memory, index, second) {
        return step;
    }
    turn_decoded(cpu, memory)
}

/// LD, operations on A, INC and DEC with the byte at IX or IY plus a displacement.
fn try_index_bytes<const IN_RUN: bool, const IS_IY: bool>(
    cpu: &mut Cpu,
    memory: &mut Memory,
    index: IndexRegister,
    second: u8,
) -> Option<Step>
    ensures { IsTurnOrNone (read_index_second index second (machine cpu.old memory.old)) result
        (machine cpu.old memory.old) (machine cpu.new memory.new) }
{
    single_rows!(cpu, memory, second;
        0x46 => turn_load_indexed(index, Register::B);
        0x4E => turn_load_indexed(index, Register::C);
        0x56 => turn_load_indexed(index, Register::D);
        0x5E => turn_load_indexed(index, Register::E);
        0x66 => turn_load_indexed(index, Register::H);
        0x6E => turn_load_indexed(index, Register::L);
        0x7E => turn_load_indexed(index, Register::A);
        0x70 => turn_store_indexed(index, Register::B);
        0x71 => turn_store_indexed(index, Register::C);
        0x72 => turn_store_indexed(index, Register::D);
        0x73 => turn_store_indexed(index, Register::E);
        0x74 => turn_store_indexed(index, Register::H);
        0x75 => turn_store_indexed(index, Register::L);
        0x77 => turn_store_indexed(index, Register::A);
        0x86 => turn_operate_indexed(index, AluOperation::Add);
        0x8E => turn_operate_indexed(index, AluOperation::Adc);
        0x96 => turn_operate_indexed(index, AluOperation::Sub);
        0x9E => turn_operate_indexed(index, AluOperation::Sbc);
        0xA6 => turn_operate_indexed(index, AluOperation::And);
        0xAE => turn_operate_indexed(index, AluOperation::Xor);
        0xB6 => turn_operate_indexed(index, AluOperation::Or);
        0xBE => turn_operate_indexed(index, AluOperation::Cp);
        0x34 => turn_increment_indexed(index);
        0x35 => turn_decrement_indexed(index);
        0x36 => turn_load_byte_indexed(index);
    )
}

/// The instructions on IX or IY as a word: LD, INC, DEC, ADD, the stack, EX (SP), and JP.
#[inline(always)]
fn try_index_words(
    cpu: &mut Cpu,
    memory: &mut Memory,
    index: IndexRegister,
    second: u8,
) -> Option<Step>
    ensures { IsTurnOrNone (read_index_second index second (machine cpu.old memory.old)) result
        (machine cpu.old memory.old) (machine cpu.new memory.new) }
{
    single_rows!(cpu, memory, second;
        0x21 => turn_load_index(index);
        0x22 => turn_store_index(index);
        0x2A => turn_load_index_from(index);
        0x23 => turn_increment_index(index);
        0x2B => turn_decrement_index(index);
        0xE1 => turn_pop_index(index);
        0xE3 => turn_exchange_index(index);
        0xE5 => turn_push_index(index);
        0xE9 => turn_jump_index(index);
        0xF9 => turn_load_sp(index);
        0x09 => turn_add_index(index, Addend::Bc);
        0x19 => turn_add_index(index, Addend::De);
        0x29 => turn_add_index(index, Addend::Itself);
        0x39 => turn_add_index(index, Addend::Sp);
    )
}

/// The second byte is CB: a displacement and an opcode follow.
#[inline(always)]
fn try_index_bits<const IN_RUN: bool, const IS_IY: bool>(
    cpu: &mut Cpu,
    memory: &mut Memory,
    index: IndexRegister,
    second: u8,
) -> Option<Step>
    ensures { IsTurnOrNone (read_index_second index second (machine cpu.old memory.old)) result
        (machine cpu.old memory.old) (machine cpu.new memory.new) }
{
    match second {
        0xCB => try_bits_at_index::<IN_RUN, IS_IY>(cpu, memory, index),
        _ => None,
    }
}

/// Rotations, shifts, BIT, RES and SET of the byte at IX or IY plus a displacement.
fn try_bits_at_index<const IN_RUN: bool, const IS_IY: bool>(
    cpu: &mut Cpu,
    memory: &mut Memory,
    index: IndexRegister,
) -> Option<Step>
    ensures { IsTurnOrNone (read_index_second index 0xCB (machine cpu.old memory.old)) result
        (machine cpu.old memory.old) (machine cpu.new memory.new) }
{
    let fourth = fourth_byte(cpu, memory);
    single_rows!(cpu, memory, fourth;
        0x06 => turn_rotate_indexed(index, Rotation::Rlc);
        0x0E => turn_rotate_indexed(index, Rotation::Rrc);
        0x16 => turn_rotate_indexed(index, Rotation::Rl);
        0x1E => turn_rotate_indexed(index, Rotation::Rr);
        0x26 => turn_rotate_indexed(index, Rotation::Sla);
        0x2E => turn_rotate_indexed(index, Rotation::Sra);
        0x3E => turn_rotate_indexed(index, Rotation::Srl);
        0x46 => turn_bit_indexed(index, Octal::Zero);
        0x4E => turn_bit_indexed(index, Octal::One);
        0x56 => turn_bit_indexed(index, Octal::Two);
        0x5E => turn_bit_indexed(index, Octal::Three);
        0x66 => turn_bit_indexed(index, Octal::Four);
        0x6E => turn_bit_indexed(index, Octal::Five);
        0x76 => turn_bit_indexed(index, Octal::Six);
        0x7E => turn_bit_indexed(index, Octal::Seven);
        0x86 => turn_reset_indexed(index, Octal::Zero);
        0x8E => turn_reset_indexed(index, Octal::One);
        0x96 => turn_reset_indexed(index, Octal::Two);
        0x9E => turn_reset_indexed(index, Octal::Three);
        0xA6 => turn_reset_indexed(index, Octal::Four);
        0xAE => turn_reset_indexed(index, Octal::Five);
        0xB6 => turn_reset_indexed(index, Octal::Six);
        0xBE => turn_reset_indexed(index, Octal::Seven);
        0xC6 => turn_set_indexed(index, Octal::Zero);
        0xCE => turn_set_indexed(index, Octal::One);
        0xD6 => turn_set_indexed(index, Octal::Two);
        0xDE => turn_set_indexed(index, Octal::Three);
        0xE6 => turn_set_indexed(index, Octal::Four);
        0xEE => turn_set_indexed(index, Octal::Five);
        0xF6 => turn_set_indexed(index, Octal::Six);
        0xFE => turn_set_indexed(index, Octal::Seven);
    )
}
