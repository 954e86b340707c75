//! Steps of the rotate, shift and bit groups, after CB.
ghost use Rattle.std.specs.Prelude.{◌≡◌};
ghost use Rattle.z80_cpu.specs.State.{machine};
ghost use Rattle.z80_turns.specs.Turning.{IsTurnOf};
ghost use Rattle.z80_turns.specs.Types.{Instr, Operand, MemoryOperand};

use crate::numbers::pass;
use crate::outcome::Step;
use z80_cpu::{Cpu, Memory, reset_bit, set_bit};
use z80_instr::{Octal, Register, Rotation};

#[inline(always)]
pub fn turn_rotate(
    cpu: &mut Cpu,
    memory: &mut Memory,
    rotation: Rotation,
    register: Register,
) -> Step
    ensures { IsTurnOf (Instr.Rotate rotation (Operand.Register register)) 2 result
        (machine cpu.old memory.old) (machine cpu.new memory.new) }
{
    pass(cpu, 2);
    let value = cpu.main.get(register);
    let outcome = cpu.main.flags.rotate(rotation, value);
    cpu.main.set(register, outcome);
    Step::Done
}

#[inline(always)]
pub fn turn_rotate_at_hl(cpu: &mut Cpu, memory: &mut Memory, rotation: Rotation) -> Step
    ensures { IsTurnOf (Instr.Rotate rotation (Operand.Memory MemoryOperand.Hl)) 2 result
        (machine cpu.old memory.old) (machine cpu.new memory.new) }
{
    pass(cpu, 2);
    let address = cpu.main.hl();
    let outcome = cpu.main.flags.rotate(rotation, memory.get(address));
    memory.set(address, outcome);
    Step::Done
}

#[inline(always)]
pub fn turn_bit(cpu: &mut Cpu, memory: &mut Memory, bit: Octal, register: Register) -> Step
    ensures { IsTurnOf (Instr.Bit bit (Operand.Register register)) 2 result
        (machine cpu.old memory.old) (machine cpu.new memory.new) }
{
    pass(cpu, 2);
    let value = cpu.main.get(register);
    cpu.main.flags.test_bit(bit, value);
    Step::Done
}

#[inline(always)]
pub fn turn_bit_at_hl(cpu: &mut Cpu, memory: &mut Memory, bit: Octal) -> Step
    ensures { IsTurnOf (Instr.Bit bit (Operand.Memory MemoryOperand.Hl)) 2 result
        (machine cpu.old memory.old) (machine cpu.new memory.new) }
{
    pass(cpu, 2);
    let value = memory.get(cpu.main.hl());
    cpu.main.flags.test_bit(bit, value);
    Step::Done
}

#[inline(always)]
pub fn turn_reset(cpu: &mut Cpu, memory: &mut Memory, bit: Octal, register: Register) -> Step
    ensures { IsTurnOf (Instr.Res bit (Operand.Register register)) 2 result
        (machine cpu.old memory.old) (machine cpu.new memory.new) }
{
    pass(cpu, 2);
    let value = cpu.main.get(register);
    cpu.main.set(register, reset_bit(bit, value));
    Step::Done
}

#[inline(always)]
pub fn turn_reset_at_hl(cpu: &mut Cpu, memory: &mut Memory, bit: Octal) -> Step
    ensures { IsTurnOf (Instr.Res bit (Operand.Memory MemoryOperand.Hl)) 2 result
        (machine cpu.old memory.old) (machine cpu.new memory.new) }
{
    pass(cpu, 2);
    let address = cpu.main.hl();
    memory.set(address, reset_bit(bit, memory.get(address)));
    Step::Done
}

#[inline(always)]
pub fn turn_set(cpu: &mut Cpu, memory: &mut Memory, bit: Octal, register: Register) -> Step
    ensures { IsTurnOf (Instr.Set bit (Operand.Register register)) 2 result
        (machine cpu.old memory.old) (machine cpu.new memory.new) }
{
    pass(cpu, 2);
    let value = cpu.main.get(register);
    cpu.main.set(register, set_bit(bit, value));
    Step::Done
}

#[inline(always)]
pub fn turn_set_at_hl(cpu: &mut Cpu, memory: &mut Memory, bit: Octal) -> Step
    ensures { IsTurnOf (Instr.Set bit (Operand.Memory MemoryOperand.Hl)) 2 result
        (machine cpu.old memory.old) (machine cpu.new memory.new) }
{
    pass(cpu, 2);
    let address = cpu.main.hl();
    memory.set(address, set_bit(bit, memory.get(address)));
    Step::Done
}
