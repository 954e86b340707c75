//! The codes of registers, conditions and operations in an opcode.
ghost use Rattle.std.specs.Prelude.{◌≡◌, ◌<◌};
ghost use Rattle.z80_instr.specs.Table;
ghost use Rattle.z80_instr.specs.Private.Writes.{operand_code};

use crate::{
    Addend, AluOperation, BlockOperation, BlockStep, Cond, IndexRegister, Operand, Register,
    RegisterPair, Rotation, ShortCond,
};

pub(crate) fn register_code(register: Register) -> u8
    ensures code { result ≡ Table.register_code register }
    ensures small { result < 8 }
{
    match register {
        Register::B => 0,
        Register::C => 1,
        Register::D => 2,
        Register::E => 3,
        Register::H => 4,
        Register::L => 5,
        Register::A => 7,
    }
}

/// The code of a register, or 6 for a byte in memory.
pub(crate) fn operand_code(operand: Operand) -> u8
    ensures code { result ≡ operand_code operand }
    ensures small { result < 8 }
{
    match operand {
        Operand::Register(register) => register_code(register),
        Operand::Memory(_) => 6,
    }
}

pub(crate) fn pair_code(pair: RegisterPair) -> u8
    ensures code { result ≡ Table.pair_code pair }
    ensures small { result < 4 }
{
    match pair {
        RegisterPair::Bc => 0,
        RegisterPair::De => 1,
        RegisterPair::Hl => 2,
        RegisterPair::Sp => 3,
    }
}

pub(crate) fn addend_code(addend: Addend) -> u8
    ensures code { result ≡ Table.addend_code addend }
    ensures small { result < 4 }
{
    match addend {
        Addend::Bc => 0,
        Addend::De => 1,
        Addend::Itself => 2,
        Addend::Sp => 3,
    }
}

pub(crate) fn condition_code(condition: Cond) -> u8
    ensures code { result ≡ Table.condition_code condition }
    ensures small { result < 8 }
{
    match condition {
        Cond::NotZero => 0,
        Cond::Zero => 1,
        Cond::NotCarry => 2,
        Cond::Carry => 3,
        Cond::ParityOdd => 4,
        Cond::ParityEven => 5,
        Cond::Plus => 6,
        Cond::Minus => 7,
    }
}

pub(crate) fn short_condition_code(condition: ShortCond) -> u8
    ensures code { result ≡ Table.short_condition_code condition }
    ensures small { result < 4 }
{
    match condition {
        ShortCond::NotZero => 0,
        ShortCond::Zero => 1,
        ShortCond::NotCarry => 2,
        ShortCond::Carry => 3,
    }
}

pub(crate) fn operation_code(operation: AluOperation) -> u8
    ensures code { result ≡ Table.operation_code operation }
    ensures small { result < 8 }
{
    match operation {
        AluOperation::Add => 0,
        AluOperation::Adc => 1,
        AluOperation::Sub => 2,
        AluOperation::Sbc => 3,
        AluOperation::And => 4,
        AluOperation::Xor => 5,
        AluOperation::Or => 6,
        AluOperation::Cp => 7,
    }
}

pub(crate) fn rotation_code(rotation: Rotation) -> u8
    ensures code { result ≡ Table.rotation_code rotation }
    ensures small { result < 8 }
{
    match rotation {
        Rotation::Rlc => 0,
        Rotation::Rrc => 1,
        Rotation::Rl => 2,
        Rotation::Rr => 3,
        Rotation::Sla => 4,
        Rotation::Sra => 5,
        Rotation::Srl => 7,
    }
}

pub(crate) fn block_operation_code(operation: BlockOperation) -> u8
    ensures code { result ≡ Table.block_operation_code operation }
    ensures small { result < 4 }
{
    match operation {
        BlockOperation::Load => 0,
        BlockOperation::Compare => 1,
        BlockOperation::Input => 2,
        BlockOperation::Output => 3,
    }
}

pub(crate) fn block_step_code(step: BlockStep) -> u8
    ensures code { result ≡ Table.block_step_code step }
    ensures small { result < 4 }
{
    match step {
        BlockStep::Increment => 0,
        BlockStep::Decrement => 1,
        BlockStep::IncrementRepeat => 2,
        BlockStep::DecrementRepeat => 3,
    }
}

/// The first byte of an instruction that has an index register.
pub(crate) fn prefix(index: IndexRegister) -> u8
    ensures { result ≡ Table.prefix index }
{
    match index {
        IndexRegister::Ix => 0xDD,
        IndexRegister::Iy => 0xFD,
    }
}
