//! Steps of exchanges, of CPU control, and of IN and OUT with the port as a number.
ghost use Rattle.std.specs.Prelude.{◌≡◌};
ghost use Rattle.z80_cpu.specs.State.{machine};
ghost use Rattle.z80_turns.specs.Turning.{IsTurnOf};
ghost use Rattle.z80_turns.specs.Types.{HlOrIndex, Instr};
ghost use Rattle.z80_turns.specs.Numbers.{next_byte};

use crate::numbers::pass;
use crate::outcome::Step;
use z80_cpu::{Cpu, Memory, PORT_VALUE};
use z80_instr::HlOrIndex;

#[inline(always)]
pub fn turn_nop(cpu: &mut Cpu, memory: &mut Memory) -> Step
    ensures { IsTurnOf Instr.Nop 1 result
        (machine cpu.old memory.old) (machine cpu.new memory.new) }
{
    pass(cpu, 1);
    Step::Done
}

/// HALT. PC does not move.
#[inline(always)]
pub fn turn_halt(cpu: &mut Cpu, memory: &mut Memory) -> Step
    ensures { IsTurnOf Instr.Halt 1 result
        (machine cpu.old memory.old) (machine cpu.new memory.new) }
{
    Step::Halted
}

/// DI.
#[inline(always)]
pub fn turn_disable(cpu: &mut Cpu, memory: &mut Memory) -> Step
    ensures { IsTurnOf Instr.Di 1 result
        (machine cpu.old memory.old) (machine cpu.new memory.new) }
{
    pass(cpu, 1);
    cpu.set_interrupts(false);
    Step::Done
}

/// EI.
#[inline(always)]
pub fn turn_enable(cpu: &mut Cpu, memory: &mut Memory) -> Step
    ensures { IsTurnOf Instr.Ei 1 result
        (machine cpu.old memory.old) (machine cpu.new memory.new) }
{
    pass(cpu, 1);
    cpu.set_interrupts(true);
    Step::Done
}

/// EX AF,AF'.
#[inline(always)]
pub fn turn_exchange_af(cpu: &mut Cpu, memory: &mut Memory) -> Step
    ensures { IsTurnOf Instr.ExAf 1 result
        (machine cpu.old memory.old) (machine cpu.new memory.new) }
{
    pass(cpu, 1);
    cpu.ex_af();
    Step::Done
}

/// EX DE,HL.
#[inline(always)]
pub fn turn_exchange_de_hl(cpu: &mut Cpu, memory: &mut Memory) -> Step
    ensures { IsTurnOf Instr.ExDeHl 1 result
        (machine cpu.old memory.old) (machine cpu.new memory.new) }
{
    pass(cpu, 1);
    cpu.ex_de_hl();
    Step::Done
}

/// EXX.
#[inline(always)]
pub fn turn_exchange_others(cpu: &mut Cpu, memory: &mut Memory) -> Step
    ensures { IsTurnOf Instr.Exx 1 result
        (machine cpu.old memory.old) (machine cpu.new memory.new) }
{
    pass(cpu, 1);
    cpu.exx();
    Step::Done
}

/// EX (SP),HL.
#[inline(always)]
pub fn turn_exchange_top(cpu: &mut Cpu, memory: &mut Memory) -> Step
    ensures { IsTurnOf (Instr.ExSp HlOrIndex.Hl) 1 result
        (machine cpu.old memory.old) (machine cpu.new memory.new) }
{
    pass(cpu, 1);
    cpu.ex_sp(memory, HlOrIndex::Hl);
    Step::Done
}

/// IN A,(n).
#[inline(always)]
pub fn turn_input(cpu: &mut Cpu, memory: &mut Memory) -> Step
    ensures { IsTurnOf (Instr.InA (next_byte (machine cpu.old memory.old))) 2 result
        (machine cpu.old memory.old) (machine cpu.new memory.new) }
{
    pass(cpu, 2);
    cpu.main.a = PORT_VALUE;
    Step::Done
}

/// OUT (n),A.
#[inline(always)]
pub fn turn_output(cpu: &mut Cpu, memory: &mut Memory) -> Step
    ensures { IsTurnOf (Instr.OutA (next_byte (machine cpu.old memory.old))) 2 result
        (machine cpu.old memory.old) (machine cpu.new memory.new) }
{
    pass(cpu, 2);
    Step::Done
}
