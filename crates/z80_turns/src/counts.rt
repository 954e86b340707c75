//! Steps of INC and DEC of a byte.
ghost use Rattle.std.specs.Prelude.{◌≡◌};
ghost use Rattle.z80_cpu.specs.State.{machine};
ghost use Rattle.z80_turns.specs.Turning.{IsTurnOf};
ghost use Rattle.z80_turns.specs.Types.{Instr, Operand, MemoryOperand};

use crate::numbers::pass;
use crate::outcome::Step;
use z80_cpu::{Cpu, Memory};
use z80_instr::Register;

#[inline(always)]
pub fn turn_increment(cpu: &mut Cpu, memory: &mut Memory, register: Register) -> Step
    ensures { IsTurnOf (Instr.Inc (Operand.Register register)) 1 result
        (machine cpu.old memory.old) (machine cpu.new memory.new) }
{
    pass(cpu, 1);
    let value = cpu.main.get(register);
    let sum = cpu.main.flags.increment(value);
    cpu.main.set(register, sum);
    Step::Done
}

#[inline(always)]
pub fn turn_increment_at_hl(cpu: &mut Cpu, memory: &mut Memory) -> Step
    ensures { IsTurnOf (Instr.Inc (Operand.Memory MemoryOperand.Hl)) 1 result
        (machine cpu.old memory.old) (machine cpu.new memory.new) }
{
    pass(cpu, 1);
    let address = cpu.main.hl();
    let sum = cpu.main.flags.increment(memory.get(address));
    memory.set(address, sum);
    Step::Done
}

#[inline(always)]
pub fn turn_decrement(cpu: &mut Cpu, memory: &mut Memory, register: Register) -> Step
    ensures { IsTurnOf (Instr.Dec (Operand.Register register)) 1 result
        (machine cpu.old memory.old) (machine cpu.new memory.new) }
{
    pass(cpu, 1);
    let value = cpu.main.get(register);
    let difference = cpu.main.flags.decrement(value);
    cpu.main.set(register, difference);
    Step::Done
}

#[inline(always)]
pub fn turn_decrement_at_hl(cpu: &mut Cpu, memory: &mut Memory) -> Step
    ensures { IsTurnOf (Instr.Dec (Operand.Memory MemoryOperand.Hl)) 1 result
        (machine cpu.old memory.old) (machine cpu.new memory.new) }
{
    pass(cpu, 1);
    let address = cpu.main.hl();
    let difference = cpu.main.flags.decrement(memory.get(address));
    memory.set(address, difference);
    Step::Done
}
