//! The opcode table once more, only for speed: each opcode without a prefix has a row with the function that makes its step. A `try_`
//! function has some of the rows; it answers `None`, and changes nothing, if the opcode is not among them.
//!
//! Each `try_` function has a range of 32 opcodes. The host's compiler makes one jump of four such functions, to code in which the
//! registers are constants. A prefix is a row of that jump too; in a run, the jump of the opcode after the prefix follows at once.
ghost use Rattle.std.specs.Prelude.{◌≡◌};
ghost use Rattle.z80_cpu.specs.State.{machine, byte_at};
ghost use Rattle.z80_machine.specs.Private.Opcodes.{read_from, IsTurnBy, IsTurnOrNone, IsRow};

use crate::pages::{call_bits, call_extended, call_index, turn_bits, turn_extended, turn_index};
use crate::rows::{operand_rows, single_rows, stored_rows};
use crate::turn::turn_decoded;
use z80_cpu::{Cpu, Memory};
use z80_instr::{
    AluOperation, Cond, IndexRegister, Octal, Pointer, Register, RegisterPair, ShortCond,
    StackOperand,
};
use z80_turns::outcome::Step;
use z80_turns::{
    turn_add_hl, turn_adjust, turn_call, turn_call_if, turn_complement, turn_complement_carry,
    turn_decrement, turn_decrement_at_hl, turn_decrement_word, turn_disable, turn_djnz,
    turn_enable, turn_exchange_af, turn_exchange_de_hl, turn_exchange_others, turn_exchange_top,
    turn_halt, turn_increment, turn_increment_at_hl, turn_increment_word, turn_input, turn_jump,
    turn_jump_hl, turn_jump_if, turn_jump_relative, turn_jump_relative_if, turn_load, turn_load_a,
    turn_load_a_at, turn_load_at_hl, turn_load_byte, turn_load_byte_at_hl, turn_load_hl,
    turn_load_sp_hl, turn_load_word, turn_nop, turn_operate, turn_operate_at_hl, turn_operate_byte,
    turn_output, turn_pop, turn_push, turn_restart, turn_ret, turn_ret_if, turn_rla, turn_rlca,
    turn_rra, turn_rrca, turn_set_carry, turn_store, turn_store_a, turn_store_a_at, turn_store_hl,
};

/// What the table has for an opcode: an instruction, whose step is made, or a prefix, and then nothing has changed yet.
#[derive(Clone, Copy)]
pub(crate) enum Row {
    Turned(Step),
    /// CB.
    Bits,
    /// ED.
    Extended,
    /// DD.
    Ix,
    /// FD.
    Iy,
}

/// Makes the step of the instruction at PC, whose first byte is `opcode`.
///
/// The table is compiled twice, for the loop of a run and for a single step. So each of its functions is called from only one place, and
/// the compiler inlines it there.
#[inline(always)]
pub(crate) fn turn_of<const IN_RUN: bool>(cpu: &mut Cpu, memory: &mut Memory, opcode: u8) -> Step
    requires { opcode ≡ byte_at cpu.old.pc memory.old }
    ensures { IsTurnBy (read_from opcode (machine cpu.old memory.old)) result
        (machine cpu.old memory.old) (machine cpu.new memory.new) }
{
    if opcode < 0x80 {
        return turn_lower::<IN_RUN>(cpu, memory, opcode);
    }
    if IN_RUN {
        return turn_upper_in_run(cpu, memory, opcode);
    }
    match turn_upper::<false>(cpu, memory, opcode) {
        Row::Turned(step) => step,
        Row::Bits => call_bits(cpu, memory),
        Row::Extended => call_extended(cpu, memory),
        Row::Ix => call_index::<false>(cpu, memory, IndexRegister::Ix),
        Row::Iy => call_index::<true>(cpu, memory, IndexRegister::Iy),
    }
}

/// Makes the step of an opcode from 80H on, in a run. The tables after the prefixes are inlined here; in a single step they would be too
/// much code, so there they are called.
#[inline(always)]
fn turn_upper_in_run(cpu: &mut Cpu, memory: &mut Memory, opcode: u8) -> Step
    requires { opcode ≡ byte_at cpu.old.pc memory.old }
    ensures { IsTurnBy (read_from opcode (machine cpu.old memory.old)) result
        (machine cpu.old memory.old) (machine cpu.new memory.new) }
{
    match turn_upper::<true>(cpu, memory, opcode) {
        Row::Turned(step) => step,
        Row::Bits => turn_bits::<true>(cpu, memory),
        Row::Extended => turn_extended::<true>(cpu, memory),
        Row::Ix => turn_index::<true, false>(cpu, memory, IndexRegister::Ix),
        Row::Iy => turn_index::<true, true>(cpu, memory, IndexRegister::Iy),
    }
}

/// Makes the step of an opcode below 80H. The compiler makes one jump of these four functions before it inlines them.
fn turn_lower<const IN_RUN: bool>(cpu: &mut Cpu, memory: &mut Memory, opcode: u8) -> Step
    requires { opcode ≡ byte_at cpu.old.pc memory.old }
    ensures { IsTurnBy (read_from opcode (machine cpu.old memory.old)) result
        (machine cpu.old memory.old) (machine cpu.new memory.new) }
{
    if let Some(step) = try_loads_low(cpu, memory, opcode) {
        return step;
    }
    if let Some(step) = try_loads_high(cpu, memory, opcode) {
        return step;
    }
    if let Some(step) = try_first::<IN_RUN>(cpu, memory, opcode) {
        return step;
    }
    if let Some(step) = try_second::<IN_RUN>(cpu, memory, opcode) {
        return step;
    }
    turn_decoded(cpu, memory)
}

/// Opcodes 00H to 1FH: INC and DEC, LD of a number, ADD HL, LD between A and (BC) or (DE), rotations of A, NOP, EX AF,AF', DJNZ and JR.
fn try_first<const IN_RUN: bool>(cpu: &mut Cpu, memory: &mut Memory, opcode: u8) -> Option<Step>
    ensures { IsTurnOrNone (read_from opcode (machine cpu.old memory.old)) result
        (machine cpu.old memory.old) (machine cpu.new memory.new) }
{
    single_rows!(cpu, memory, opcode;
        0x00 => turn_nop();
        0x01 => turn_load_word(RegisterPair::Bc);
        0x02 => turn_store_a(Pointer::Bc);
        0x03 => turn_increment_word(RegisterPair::Bc);
        0x04 => turn_increment(Register::B);
        0x05 => turn_decrement(Register::B);
        0x06 => turn_load_byte(Register::B);
        0x07 => turn_rlca();
        0x08 => turn_exchange_af();
        0x09 => turn_add_hl(RegisterPair::Bc);
        0x0A => turn_load_a(Pointer::Bc);
        0x0B => turn_decrement_word(RegisterPair::Bc);
        0x0C => turn_increment(Register::C);
        0x0D => turn_decrement(Register::C);
        0x0E => turn_load_byte(Register::C);
        0x0F => turn_rrca();
        0x10 => turn_djnz();
        0x11 => turn_load_word(RegisterPair::De);
        0x12 => turn_store_a(Pointer::De);
        0x13 => turn_increment_word(RegisterPair::De);
        0x14 => turn_increment(Register::D);
        0x15 => turn_decrement(Register::D);
        0x16 => turn_load_byte(Register::D);
        0x17 => turn_rla();
        0x18 => turn_jump_relative();
        0x19 => turn_add_hl(RegisterPair::De);
        0x1A => turn_load_a(Pointer::De);
        0x1B => turn_decrement_word(RegisterPair::De);
        0x1C => turn_increment(Register::E);
        0x1D => turn_decrement(Register::E);
        0x1E => turn_load_byte(Register::E);
        0x1F => turn_rra();
    )
}

/// Opcodes 20H to 3FH: INC and DEC, LD of a number, ADD HL, LD between A or HL and an address, JR on a condition, DAA, CPL, SCF and CCF.
fn try_second<const IN_RUN: bool>(cpu: &mut Cpu, memory: &mut Memory, opcode: u8) -> Option<Step>
    ensures { IsTurnOrNone (read_from opcode (machine cpu.old memory.old)) result
        (machine cpu.old memory.old) (machine cpu.new memory.new) }
{
    single_rows!(cpu, memory, opcode;
        0x20 => turn_jump_relative_if(ShortCond::NotZero);
        0x21 => turn_load_word(RegisterPair::Hl);
        0x22 => turn_store_hl();
        0x23 => turn_increment_word(RegisterPair::Hl);
        0x24 => turn_increment(Register::H);
        0x25 => turn_decrement(Register::H);
        0x26 => turn_load_byte(Register::H);
        0x27 => turn_adjust();
        0x28 => turn_jump_relative_if(ShortCond::Zero);
        0x29 => turn_add_hl(RegisterPair::Hl);
        0x2A => turn_load_hl();
        0x2B => turn_decrement_word(RegisterPair::Hl);
        0x2C => turn_increment(Register::L);
        0x2D => turn_decrement(Register::L);
        0x2E => turn_load_byte(Register::L);
        0x2F => turn_complement();
        0x30 => turn_jump_relative_if(ShortCond::NotCarry);
        0x31 => turn_load_word(RegisterPair::Sp);
        0x32 => turn_store_a_at();
        0x33 => turn_increment_word(RegisterPair::Sp);
        0x34 => turn_increment_at_hl();
        0x35 => turn_decrement_at_hl();
        0x36 => turn_load_byte_at_hl();
        0x37 => turn_set_carry();
        0x38 => turn_jump_relative_if(ShortCond::Carry);
        0x39 => turn_add_hl(RegisterPair::Sp);
        0x3A => turn_load_a_at();
        0x3B => turn_decrement_word(RegisterPair::Sp);
        0x3C => turn_increment(Register::A);
        0x3D => turn_decrement(Register::A);
        0x3E => turn_load_byte(Register::A);
        0x3F => turn_complement_carry();
    )
}

/// LD to B, C, D and E, from a register or (HL).
#[inline(always)]
fn try_loads_low(cpu: &mut Cpu, memory: &mut Memory, opcode: u8) -> Option<Step>
    ensures { IsTurnOrNone (read_from opcode (machine cpu.old memory.old)) result
        (machine cpu.old memory.old) (machine cpu.new memory.new) }
{
    operand_rows!(cpu, memory, opcode;
        0x40 0x41 0x42 0x43 0x44 0x45 0x46 0x47 => turn_load(Register::B) / turn_load_at_hl(Register::B);
        0x48 0x49 0x4A 0x4B 0x4C 0x4D 0x4E 0x4F => turn_load(Register::C) / turn_load_at_hl(Register::C);
        0x50 0x51 0x52 0x53 0x54 0x55 0x56 0x57 => turn_load(Register::D) / turn_load_at_hl(Register::D);
        0x58 0x59 0x5A 0x5B 0x5C 0x5D 0x5E 0x5F => turn_load(Register::E) / turn_load_at_hl(Register::E);
    )
}

/// LD to H, L and A, from a register or (HL); LD of a register to (HL); and HALT.
#[inline(always)]
fn try_loads_high(cpu: &mut Cpu, memory: &mut Memory, opcode: u8) -> Option<Step>
    ensures { IsTurnOrNone (read_from opcode (machine cpu.old memory.old)) result
        (machine cpu.old memory.old) (machine cpu.new memory.new) }
{
    stored_rows!(cpu, memory, opcode;
        0x70 0x71 0x72 0x73 0x74 0x75 0x76 0x77 => turn_store / turn_halt;
        0x60 0x61 0x62 0x63 0x64 0x65 0x66 0x67 => turn_load(Register::H) / turn_load_at_hl(Register::H);
        0x68 0x69 0x6A 0x6B 0x6C 0x6D 0x6E 0x6F => turn_load(Register::L) / turn_load_at_hl(Register::L);
        0x78 0x79 0x7A 0x7B 0x7C 0x7D 0x7E 0x7F => turn_load(Register::A) / turn_load_at_hl(Register::A);
    )
}

/// Makes the step of an opcode from 80H on, or finds that it is a prefix.
fn turn_upper<const IN_RUN: bool>(cpu: &mut Cpu, memory: &mut Memory, opcode: u8) -> Row
    requires { opcode ≡ byte_at cpu.old.pc memory.old }
    ensures { IsRow opcode result (machine cpu.old memory.old) (machine cpu.new memory.new) }
{
    match opcode {
        0xCB => return Row::Bits,
        0xED => return Row::Extended,
        0xDD => return Row::Ix,
        0xFD => return Row::Iy,
        _ => {}
    }
    if let Some(step) = try_third::<IN_RUN>(cpu, memory, opcode) {
        return Row::Turned(step);
    }
    if let Some(step) = try_fourth::<IN_RUN>(cpu, memory, opcode) {
        return Row::Turned(step);
    }
    if let Some(step) = try_sums::<IN_RUN>(cpu, memory, opcode) {
        return Row::Turned(step);
    }
    if let Some(step) = try_logic::<IN_RUN>(cpu, memory, opcode) {
        return Row::Turned(step);
    }
    Row::Turned(turn_decoded(cpu, memory))
}

/// ADD, ADC, SUB and SBC with a register or (HL).
fn try_sums<const IN_RUN: bool>(cpu: &mut Cpu, memory: &mut Memory, opcode: u8) -> Option<Step>
    ensures { IsTurnOrNone (read_from opcode (machine cpu.old memory.old)) result
        (machine cpu.old memory.old) (machine cpu.new memory.new) }
{
    operand_rows!(cpu, memory, opcode;
        0x80 0x81 0x82 0x83 0x84 0x85 0x86 0x87 => turn_operate(AluOperation::Add) / turn_operate_at_hl(AluOperation::Add);
        0x88 0x89 0x8A 0x8B 0x8C 0x8D 0x8E 0x8F => turn_operate(AluOperation::Adc) / turn_operate_at_hl(AluOperation::Adc);
        0x90 0x91 0x92 0x93 0x94 0x95 0x96 0x97 => turn_operate(AluOperation::Sub) / turn_operate_at_hl(AluOperation::Sub);
        0x98 0x99 0x9A 0x9B 0x9C 0x9D 0x9E 0x9F => turn_operate(AluOperation::Sbc) / turn_operate_at_hl(AluOperation::Sbc);
    )
}

/// AND, XOR, OR and CP with a register or (HL).
fn try_logic<const IN_RUN: bool>(cpu: &mut Cpu, memory: &mut Memory, opcode: u8) -> Option<Step>
    ensures { IsTurnOrNone (read_from opcode (machine cpu.old memory.old)) result
        (machine cpu.old memory.old) (machine cpu.new memory.new) }
{
    operand_rows!(cpu, memory, opcode;
        0xA0 0xA1 0xA2 0xA3 0xA4 0xA5 0xA6 0xA7 => turn_operate(AluOperation::And) / turn_operate_at_hl(AluOperation::And);
        0xA8 0xA9 0xAA 0xAB 0xAC 0xAD 0xAE 0xAF => turn_operate(AluOperation::Xor) / turn_operate_at_hl(AluOperation::Xor);
        0xB0 0xB1 0xB2 0xB3 0xB4 0xB5 0xB6 0xB7 => turn_operate(AluOperation::Or) / turn_operate_at_hl(AluOperation::Or);
        0xB8 0xB9 0xBA 0xBB 0xBC 0xBD 0xBE 0xBF => turn_operate(AluOperation::Cp) / turn_operate_at_hl(AluOperation::Cp);
    )
}

/// Opcodes C0H to DFH: jumps, calls, returns, the stack, operations on A and a number, ports, and EXX.
fn try_third<const IN_RUN: bool>(cpu: &mut Cpu, memory: &mut Memory, opcode: u8) -> Option<Step>
    ensures { IsTurnOrNone (read_from opcode (machine cpu.old memory.old)) result
        (machine cpu.old memory.old) (machine cpu.new memory.new) }
{
    single_rows!(cpu, memory, opcode;
        0xC0 => turn_ret_if(Cond::NotZero);
        0xC1 => turn_pop(StackOperand::Bc);
        0xC2 => turn_jump_if(Cond::NotZero);
        0xC3 => turn_jump();
        0xC4 => turn_call_if(Cond::NotZero);
        0xC5 => turn_push(StackOperand::Bc);
        0xC6 => turn_operate_byte(AluOperation::Add);
        0xC7 => turn_restart(Octal::Zero);
        0xC8 => turn_ret_if(Cond::Zero);
        0xC9 => turn_ret();
        0xCA => turn_jump_if(Cond::Zero);
        0xCC => turn_call_if(Cond::Zero);
        0xCD => turn_call();
        0xCE => turn_operate_byte(AluOperation::Adc);
        0xCF => turn_restart(Octal::One);
        0xD0 => turn_ret_if(Cond::NotCarry);
        0xD1 => turn_pop(StackOperand::De);
        0xD2 => turn_jump_if(Cond::NotCarry);
        0xD3 => turn_output();
        0xD4 => turn_call_if(Cond::NotCarry);
        0xD5 => turn_push(StackOperand::De);
        0xD6 => turn_operate_byte(AluOperation::Sub);
        0xD7 => turn_restart(Octal::Two);
        0xD8 => turn_ret_if(Cond::Carry);
        0xD9 => turn_exchange_others();
        0xDA => turn_jump_if(Cond::Carry);
        0xDB => turn_input();
        0xDC => turn_call_if(Cond::Carry);
        0xDE => turn_operate_byte(AluOperation::Sbc);
        0xDF => turn_restart(Octal::Three);
    )
}

/// Opcodes E0H to FFH: jumps, calls, returns, the stack, operations on A and a number, exchanges, LD SP,HL, DI and EI.
fn try_fourth<const IN_RUN: bool>(cpu: &mut Cpu, memory: &mut Memory, opcode: u8) -> Option<Step>
    ensures { IsTurnOrNone (read_from opcode (machine cpu.old memory.old)) result
        (machine cpu.old memory.old) (machine cpu.new memory.new) }
{
    single_rows!(cpu, memory, opcode;
        0xE0 => turn_ret_if(Cond::ParityOdd);
        0xE1 => turn_pop(StackOperand::Hl);
        0xE2 => turn_jump_if(Cond::ParityOdd);
        0xE3 => turn_exchange_top();
        0xE4 => turn_call_if(Cond::ParityOdd);
        0xE5 => turn_push(StackOperand::Hl);
        0xE6 => turn_operate_byte(AluOperation::And);
        0xE7 => turn_restart(Octal::Four);
        0xE8 => turn_ret_if(Cond::ParityEven);
        0xE9 => turn_jump_hl();
        0xEA => turn_jump_if(Cond::ParityEven);
        0xEB => turn_exchange_de_hl();
        0xEC => turn_call_if(Cond::ParityEven);
        0xEE => turn_operate_byte(AluOperation::Xor);
        0xEF => turn_restart(Octal::Five);
        0xF0 => turn_ret_if(Cond::Plus);
        0xF1 => turn_pop(StackOperand::Af);
        0xF2 => turn_jump_if(Cond::Plus);
        0xF3 => turn_disable();
        0xF4 => turn_call_if(Cond::Plus);
        0xF5 => turn_push(StackOperand::Af);
        0xF6 => turn_operate_byte(AluOperation::Or);
        0xF7 => turn_restart(Octal::Six);
        0xF8 => turn_ret_if(Cond::Minus);
        0xF9 => turn_load_sp_hl();
        0xFA => turn_jump_if(Cond::Minus);
        0xFB => turn_enable();
        0xFC => turn_call_if(Cond::Minus);
        0xFE => turn_operate_byte(AluOperation::Cp);
        0xFF => turn_restart(Octal::Seven);
    )
}
