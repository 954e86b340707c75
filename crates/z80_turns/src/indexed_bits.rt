//! Steps of the rotate, shift and bit groups at IX or IY plus a displacement, after DD CB and FD CB.
ghost use Rattle.std.specs.Prelude.{◌≡◌};
ghost use Rattle.z80_cpu.specs.State.{machine};
ghost use Rattle.z80_turns.specs.Turning.{IsTurnOf};
ghost use Rattle.z80_turns.specs.Types.{Instr, MemoryOperand, Operand};
ghost use Rattle.z80_turns.specs.Numbers.{third_signed};

use crate::numbers::{pass, third_signed};
use crate::outcome::Step;
use z80_cpu::{Cpu, Memory, displaced, reset_bit, set_bit};
use z80_instr::{IndexRegister, Octal, Rotation};

#[inline(always)]
pub fn turn_rotate_indexed(
    cpu: &mut Cpu,
    memory: &mut Memory,
    index: IndexRegister,
    rotation: Rotation,
) -> Step
    ensures { IsTurnOf (Instr.Rotate rotation (Operand.Memory (MemoryOperand.Indexed index (third_signed (machine cpu.old memory.old))))) 4 result
        (machine cpu.old memory.old) (machine cpu.new memory.new) }
{
    let address = displaced(cpu.index(index), third_signed(cpu, memory));
    pass(cpu, 4);
    let outcome = cpu.main.flags.rotate(rotation, memory.get(address));
    memory.set(address, outcome);
    Step::Done
}

#[inline(always)]
pub fn turn_bit_indexed(
    cpu: &mut Cpu,
    memory: &mut Memory,
    index: IndexRegister,
    bit: Octal,
) -> Step
    ensures { IsTurnOf (Instr.Bit bit (Operand.Memory (MemoryOperand.Indexed index (third_signed (machine cpu.old memory.old))))) 4 result
        (machine cpu.old memory.old) (machine cpu.new memory.new) }
{
    let address = displaced(cpu.index(index), third_signed(cpu, memory));
    pass(cpu, 4);
    cpu.main.flags.test_bit(bit, memory.get(address));
    Step::Done
}

#[inline(always)]
pub fn turn_reset_indexed(
    cpu: &mut Cpu,
    memory: &mut Memory,
    index: IndexRegister,
    bit: Octal,
) -> Step
    ensures { IsTurnOf (Instr.Res bit (Operand.Memory (MemoryOperand.Indexed index (third_signed (machine cpu.old memory.old))))) 4 result
        (machine cpu.old memory.old) (machine cpu.new memory.new) }
{
    let address = displaced(cpu.index(index), third_signed(cpu, memory));
    pass(cpu, 4);
    memory.set(address, reset_bit(bit, memory.get(address)));
    Step::Done
}

#[inline(always)]
pub fn turn_set_indexed(
    cpu: &mut Cpu,
    memory: &mut Memory,
    index: IndexRegister,
    bit: Octal,
) -> Step
    ensures { IsTurnOf (Instr.Set bit (Operand.Memory (MemoryOperand.Indexed index (third_signed (machine cpu.old memory.old))))) 4 result
        (machine cpu.old memory.old) (machine cpu.new memory.new) }
{
    let address = displaced(cpu.index(index), third_signed(cpu, memory));
    pass(cpu, 4);
    memory.set(address, set_bit(bit, memory.get(address)));
    Step::Done
}
