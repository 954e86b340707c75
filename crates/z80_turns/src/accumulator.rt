//! Steps of the instructions that change only A or its flags.
ghost use Rattle.std.specs.Prelude.{◌≡◌};
ghost use Rattle.z80_cpu.specs.State.{machine};
ghost use Rattle.z80_turns.specs.Turning.{IsTurnOf};
ghost use Rattle.z80_turns.specs.Types.{Instr};

use crate::numbers::pass;
use crate::outcome::Step;
use z80_cpu::{Cpu, Memory};
use z80_instr::Rotation;

#[inline(always)]
pub fn turn_rlca(cpu: &mut Cpu, memory: &mut Memory) -> Step
    ensures { IsTurnOf Instr.Rlca 1 result
        (machine cpu.old memory.old) (machine cpu.new memory.new) }
{
    pass(cpu, 1);
    cpu.rotate_accumulator(Rotation::Rlc);
    Step::Done
}

#[inline(always)]
pub fn turn_rrca(cpu: &mut Cpu, memory: &mut Memory) -> Step
    ensures { IsTurnOf Instr.Rrca 1 result
        (machine cpu.old memory.old) (machine cpu.new memory.new) }
{
    pass(cpu, 1);
    cpu.rotate_accumulator(Rotation::Rrc);
    Step::Done
}

#[inline(always)]
pub fn turn_rla(cpu: &mut Cpu, memory: &mut Memory) -> Step
    ensures { IsTurnOf Instr.Rla 1 result
        (machine cpu.old memory.old) (machine cpu.new memory.new) }
{
    pass(cpu, 1);
    cpu.rotate_accumulator(Rotation::Rl);
    Step::Done
}

#[inline(always)]
pub fn turn_rra(cpu: &mut Cpu, memory: &mut Memory) -> Step
    ensures { IsTurnOf Instr.Rra 1 result
        (machine cpu.old memory.old) (machine cpu.new memory.new) }
{
    pass(cpu, 1);
    cpu.rotate_accumulator(Rotation::Rr);
    Step::Done
}

/// DAA.
#[inline(always)]
pub fn turn_adjust(cpu: &mut Cpu, memory: &mut Memory) -> Step
    ensures { IsTurnOf Instr.Daa 1 result
        (machine cpu.old memory.old) (machine cpu.new memory.new) }
{
    pass(cpu, 1);
    cpu.adjust();
    Step::Done
}

/// CPL.
#[inline(always)]
pub fn turn_complement(cpu: &mut Cpu, memory: &mut Memory) -> Step
    ensures { IsTurnOf Instr.Cpl 1 result
        (machine cpu.old memory.old) (machine cpu.new memory.new) }
{
    pass(cpu, 1);
    cpu.complement();
    Step::Done
}

/// SCF.
#[inline(always)]
pub fn turn_set_carry(cpu: &mut Cpu, memory: &mut Memory) -> Step
    ensures { IsTurnOf Instr.Scf 1 result
        (machine cpu.old memory.old) (machine cpu.new memory.new) }
{
    pass(cpu, 1);
    cpu.main.flags.set_carry();
    Step::Done
}

/// CCF.
#[inline(always)]
pub fn turn_complement_carry(cpu: &mut Cpu, memory: &mut Memory) -> Step
    ensures { IsTurnOf Instr.Ccf 1 result
        (machine cpu.old memory.old) (machine cpu.new memory.new) }
{
    pass(cpu, 1);
    cpu.main.flags.complement_carry();
    Step::Done
}
