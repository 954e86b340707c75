//! The fields of an opcode, and the numbers after it.
//!
//! An opcode has three fields: x is bits 7 and 6, y is bits 5 to 3, and z is bits 2 to 0.
ghost use Rattle.std.specs.Prelude.{◌≡◌, ◌/◌, ◌%◌};
ghost use Rattle.z80_instr.specs.Table.{octal_of};
ghost use Rattle.z80_table.specs.Reading.{byte_in_front, word_in_front, signed_at, both_at, is_odd, pair_at, octal_operand, condition_at, operation_at, rotation_at, register_at, step_at, block_operation_at, addend_at};

use crate::DecodeFault;
use z80_instr::{
    Addend, AluOperation, BlockOperation, BlockStep, Cond, Memory, Octal, Operand, Register,
    RegisterPair, Rotation,
};

pub(crate) fn y_of(opcode: u8) -> Octal
    ensures { result ≡ octal_of (opcode / 8 % 8) }
{
    Octal::from_number(opcode / 8 % 8)
}

pub(crate) fn z_of(opcode: u8) -> Octal
    ensures { result ≡ octal_of (opcode % 8) }
{
    Octal::from_number(opcode % 8)
}

/// The register pair that the upper two bits of y stand for.
pub(crate) fn pair_of(y: Octal) -> RegisterPair
    ensures { result ≡ pair_at y }
{
    match y {
        Octal::Zero | Octal::One => RegisterPair::Bc,
        Octal::Two | Octal::Three => RegisterPair::De,
        Octal::Four | Octal::Five => RegisterPair::Hl,
        Octal::Six | Octal::Seven => RegisterPair::Sp,
    }
}

/// The register or (HL) that y or z stands for.
#[inline(always)]
pub(crate) fn operand_of(y: Octal) -> Operand
    ensures { result ≡ octal_operand y }
{
    match y {
        Octal::Zero => Operand::Register(Register::B),
        Octal::One => Operand::Register(Register::C),
        Octal::Two => Operand::Register(Register::D),
        Octal::Three => Operand::Register(Register::E),
        Octal::Four => Operand::Register(Register::H),
        Octal::Five => Operand::Register(Register::L),
        Octal::Six => Operand::Memory(Memory::Hl),
        Octal::Seven => Operand::Register(Register::A),
    }
}

/// The condition that y stands for.
pub(crate) fn condition_of(y: Octal) -> Cond
    ensures { result ≡ condition_at y }
{
    match y {
        Octal::Zero => Cond::NotZero,
        Octal::One => Cond::Zero,
        Octal::Two => Cond::NotCarry,
        Octal::Three => Cond::Carry,
        Octal::Four => Cond::ParityOdd,
        Octal::Five => Cond::ParityEven,
        Octal::Six => Cond::Plus,
        Octal::Seven => Cond::Minus,
    }
}

/// The operation on A that y stands for.
#[inline(always)]
pub(crate) fn operation_of(y: Octal) -> AluOperation
    ensures { result ≡ operation_at y }
{
    match y {
        Octal::Zero => AluOperation::Add,
        Octal::One => AluOperation::Adc,
        Octal::Two => AluOperation::Sub,
        Octal::Three => AluOperation::Sbc,
        Octal::Four => AluOperation::And,
        Octal::Five => AluOperation::Xor,
        Octal::Six => AluOperation::Or,
        Octal::Seven => AluOperation::Cp,
    }
}

/// The register that y stands for; 6 stands for none.
pub(crate) fn register_of(y: Octal) -> Option<Register>
    ensures { result ≡ register_at y }
{
    match y {
        Octal::Zero => Some(Register::B),
        Octal::One => Some(Register::C),
        Octal::Two => Some(Register::D),
        Octal::Three => Some(Register::E),
        Octal::Four => Some(Register::H),
        Octal::Five => Some(Register::L),
        Octal::Six => None,
        Octal::Seven => Some(Register::A),
    }
}

/// The rotation or shift that y stands for; 6 stands for none that is documented.
pub(crate) fn rotation_of(y: Octal) -> Option<Rotation>
    ensures { result ≡ rotation_at y }
{
    match y {
        Octal::Zero => Some(Rotation::Rlc),
        Octal::One => Some(Rotation::Rrc),
        Octal::Two => Some(Rotation::Rl),
        Octal::Three => Some(Rotation::Rr),
        Octal::Four => Some(Rotation::Sla),
        Octal::Five => Some(Rotation::Sra),
        Octal::Six => None,
        Octal::Seven => Some(Rotation::Srl),
    }
}

/// What ADD IX or ADD IY adds, by the upper two bits of y.
pub(crate) fn addend_of(y: Octal) -> Addend
    ensures { result ≡ addend_at y }
{
    match y {
        Octal::Zero | Octal::One => Addend::Bc,
        Octal::Two | Octal::Three => Addend::De,
        Octal::Four | Octal::Five => Addend::Itself,
        Octal::Six | Octal::Seven => Addend::Sp,
    }
}

/// Whether a block instruction counts up or down and whether it repeats, by y; `None` below 4.
pub(crate) fn step_of(y: Octal) -> Option<BlockStep>
    ensures { result ≡ step_at y }
{
    match y {
        Octal::Four => Some(BlockStep::Increment),
        Octal::Five => Some(BlockStep::Decrement),
        Octal::Six => Some(BlockStep::IncrementRepeat),
        Octal::Seven => Some(BlockStep::DecrementRepeat),
        _ => None,
    }
}

/// What a block instruction does, by z; `None` from 4 on.
pub(crate) fn block_operation_of(z: Octal) -> Option<BlockOperation>
    ensures { result ≡ block_operation_at z }
{
    match z {
        Octal::Zero => Some(BlockOperation::Load),
        Octal::One => Some(BlockOperation::Compare),
        Octal::Two => Some(BlockOperation::Input),
        Octal::Three => Some(BlockOperation::Output),
        _ => None,
    }
}

/// Whether y is odd. Its lowest bit picks one of two instructions on a register pair.
pub(crate) fn is_odd(y: Octal) -> bool
    ensures { result ≡ is_odd y }
{
    matches!(y, Octal::One | Octal::Three | Octal::Five | Octal::Seven)
}

/// The number n, or Short if there is no byte.
pub(crate) fn byte_of(rest: &[u8]) -> Result<u8, DecodeFault>
    ensures { result ≡ byte_in_front rest.now }
{
    match rest {
        [n, ..] => Ok(*n),
        [] => Err(DecodeFault::Short),
    }
}

/// The word nn, low byte first, or Short if a byte is missing.
pub(crate) fn word_of(rest: &[u8]) -> Result<u16, DecodeFault>
    ensures { result ≡ word_in_front rest.now }
{
    match rest {
        [low, high, ..] => Ok(*low as u16 + 256 * (*high as u16)),
        _ => Err(DecodeFault::Short),
    }
}

/// The displacement d or the distance e, or Short if there is no byte.
pub(crate) fn signed_of(rest: &[u8]) -> Result<i8, DecodeFault>
    ensures { result ≡ signed_at rest.now }
{
    match rest {
        [n, ..] => Ok(n.cast_signed()),
        [] => Err(DecodeFault::Short),
    }
}

/// The displacement d and then the number n, or Short if a byte is missing.
pub(crate) fn both_of(rest: &[u8]) -> Result<(i8, u8), DecodeFault>
    ensures { result ≡ both_at rest.now }
{
    match rest {
        [d, n, ..] => Ok((d.cast_signed(), *n)),
        _ => Err(DecodeFault::Short),
    }
}
