//! Steps of the 8-bit load group.
ghost use Rattle.std.specs.Prelude.{◌≡◌};
ghost use Rattle.z80_cpu.specs.State.{machine};
ghost use Rattle.z80_turns.specs.Turning.{IsTurnOf};
ghost use Rattle.z80_turns.specs.Types.{Instr, Operand, MemoryOperand, Pointer};
ghost use Rattle.z80_turns.specs.Numbers.{next_byte, next_word};

use crate::numbers::{next_byte, next_word, pass};
use crate::outcome::Step;
use z80_cpu::{Cpu, Memory};
use z80_instr::{Pointer, Register};

#[inline(always)]
pub fn turn_load(cpu: &mut Cpu, memory: &mut Memory, to: Register, from: Register) -> Step
    ensures { IsTurnOf (Instr.Load to (Operand.Register from)) 1 result
        (machine cpu.old memory.old) (machine cpu.new memory.new) }
{
    pass(cpu, 1);
    cpu.main.set(to, cpu.main.get(from));
    Step::Done
}

#[inline(always)]
pub fn turn_load_at_hl(cpu: &mut Cpu, memory: &mut Memory, to: Register) -> Step
    ensures { IsTurnOf (Instr.Load to (Operand.Memory MemoryOperand.Hl)) 1 result
        (machine cpu.old memory.old) (machine cpu.new memory.new) }
{
    pass(cpu, 1);
    cpu.main.set(to, memory.get(cpu.main.hl()));
    Step::Done
}

#[inline(always)]
pub fn turn_store(cpu: &mut Cpu, memory: &mut Memory, from: Register) -> Step
    ensures { IsTurnOf (Instr.Store MemoryOperand.Hl from) 1 result
        (machine cpu.old memory.old) (machine cpu.new memory.new) }
{
    pass(cpu, 1);
    memory.set(cpu.main.hl(), cpu.main.get(from));
    Step::Done
}

#[inline(always)]
pub fn turn_load_byte(cpu: &mut Cpu, memory: &mut Memory, to: Register) -> Step
    ensures { IsTurnOf (Instr.LoadByte (Operand.Register to) (next_byte (machine cpu.old memory.old))) 2 result
        (machine cpu.old memory.old) (machine cpu.new memory.new) }
{
    let n = next_byte(cpu, memory);
    pass(cpu, 2);
    cpu.main.set(to, n);
    Step::Done
}

#[inline(always)]
pub fn turn_load_byte_at_hl(cpu: &mut Cpu, memory: &mut Memory) -> Step
    ensures { IsTurnOf (Instr.LoadByte (Operand.Memory MemoryOperand.Hl) (next_byte (machine cpu.old memory.old))) 2 result
        (machine cpu.old memory.old) (machine cpu.new memory.new) }
{
    let n = next_byte(cpu, memory);
    pass(cpu, 2);
    memory.set(cpu.main.hl(), n);
    Step::Done
}

#[inline(always)]
pub fn turn_load_a(cpu: &mut Cpu, memory: &mut Memory, pointer: Pointer) -> Step
    ensures { IsTurnOf (Instr.LoadA pointer) 1 result
        (machine cpu.old memory.old) (machine cpu.new memory.new) }
{
    pass(cpu, 1);
    cpu.main.a = memory.get(cpu.pointer(pointer));
    Step::Done
}

#[inline(always)]
pub fn turn_store_a(cpu: &mut Cpu, memory: &mut Memory, pointer: Pointer) -> Step
    ensures { IsTurnOf (Instr.StoreA pointer) 1 result
        (machine cpu.old memory.old) (machine cpu.new memory.new) }
{
    pass(cpu, 1);
    memory.set(cpu.pointer(pointer), cpu.main.a);
    Step::Done
}

#[inline(always)]
pub fn turn_load_a_at(cpu: &mut Cpu, memory: &mut Memory) -> Step
    ensures { IsTurnOf (Instr.LoadA (Pointer.Address (next_word (machine cpu.old memory.old)))) 3 result
        (machine cpu.old memory.old) (machine cpu.new memory.new) }
{
    let nn = next_word(cpu, memory);
    pass(cpu, 3);
    cpu.main.a = memory.get(nn);
    Step::Done
}

#[inline(always)]
pub fn turn_store_a_at(cpu: &mut Cpu, memory: &mut Memory) -> Step
    ensures { IsTurnOf (Instr.StoreA (Pointer.Address (next_word (machine cpu.old memory.old)))) 3 result
        (machine cpu.old memory.old) (machine cpu.new memory.new) }
{
    let nn = next_word(cpu, memory);
    pass(cpu, 3);
    memory.set(nn, cpu.main.a);
    Step::Done
}
