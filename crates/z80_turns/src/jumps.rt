//! Steps of jumps, calls and returns.
ghost use Rattle.std.specs.Prelude.{◌≡◌};
ghost use Rattle.z80_cpu.specs.State.{machine};
ghost use Rattle.z80_turns.specs.Turning.{IsTurnOf};
ghost use Rattle.z80_turns.specs.Types.{Instr, HlOrIndex};
ghost use Rattle.z80_turns.specs.Numbers.{next_signed, next_word};

use crate::numbers::{next_signed, next_word, pass};
use crate::outcome::Step;
use z80_cpu::{Cpu, Memory, displaced};
use z80_instr::{Cond, Octal, ShortCond};

#[inline(always)]
pub fn turn_jump(cpu: &mut Cpu, memory: &mut Memory) -> Step
    ensures { IsTurnOf (Instr.Jump (next_word (machine cpu.old memory.old))) 3 result
        (machine cpu.old memory.old) (machine cpu.new memory.new) }
{
    let nn = next_word(cpu, memory);
    pass(cpu, 3);
    cpu.pc = nn;
    Step::Done
}

#[inline(always)]
pub fn turn_jump_if(cpu: &mut Cpu, memory: &mut Memory, condition: Cond) -> Step
    ensures { IsTurnOf (Instr.JumpIf condition (next_word (machine cpu.old memory.old))) 3 result
        (machine cpu.old memory.old) (machine cpu.new memory.new) }
{
    let nn = next_word(cpu, memory);
    pass(cpu, 3);
    cpu.jump_if(condition, nn);
    Step::Done
}

#[inline(always)]
pub fn turn_jump_relative(cpu: &mut Cpu, memory: &mut Memory) -> Step
    ensures { IsTurnOf (Instr.JumpRelative (next_signed (machine cpu.old memory.old))) 2 result
        (machine cpu.old memory.old) (machine cpu.new memory.new) }
{
    let e = next_signed(cpu, memory);
    pass(cpu, 2);
    cpu.pc = displaced(cpu.pc, e);
    Step::Done
}

#[inline(always)]
pub fn turn_jump_relative_if(cpu: &mut Cpu, memory: &mut Memory, condition: ShortCond) -> Step
    ensures { IsTurnOf (Instr.JumpRelativeIf condition (next_signed (machine cpu.old memory.old))) 2 result
        (machine cpu.old memory.old) (machine cpu.new memory.new) }
{
    let e = next_signed(cpu, memory);
    pass(cpu, 2);
    cpu.jump_relative_if(condition, e);
    Step::Done
}

#[inline(always)]
pub fn turn_djnz(cpu: &mut Cpu, memory: &mut Memory) -> Step
    ensures { IsTurnOf (Instr.Djnz (next_signed (machine cpu.old memory.old))) 2 result
        (machine cpu.old memory.old) (machine cpu.new memory.new) }
{
    let e = next_signed(cpu, memory);
    pass(cpu, 2);
    cpu.decrement_and_jump(e);
    Step::Done
}

#[inline(always)]
pub fn turn_jump_hl(cpu: &mut Cpu, memory: &mut Memory) -> Step
    ensures { IsTurnOf (Instr.JumpIndirect HlOrIndex.Hl) 1 result
        (machine cpu.old memory.old) (machine cpu.new memory.new) }
{
    pass(cpu, 1);
    cpu.pc = cpu.main.hl();
    Step::Done
}

#[inline(always)]
pub fn turn_call(cpu: &mut Cpu, memory: &mut Memory) -> Step
    ensures { IsTurnOf (Instr.Call (next_word (machine cpu.old memory.old))) 3 result
        (machine cpu.old memory.old) (machine cpu.new memory.new) }
{
    let nn = next_word(cpu, memory);
    pass(cpu, 3);
    cpu.call(memory, nn);
    Step::Done
}

#[inline(always)]
pub fn turn_call_if(cpu: &mut Cpu, memory: &mut Memory, condition: Cond) -> Step
    ensures { IsTurnOf (Instr.CallIf condition (next_word (machine cpu.old memory.old))) 3 result
        (machine cpu.old memory.old) (machine cpu.new memory.new) }
{
    let nn = next_word(cpu, memory);
    pass(cpu, 3);
    cpu.call_if(memory, condition, nn);
    Step::Done
}

#[inline(always)]
pub fn turn_ret(cpu: &mut Cpu, memory: &mut Memory) -> Step
    ensures { IsTurnOf (Instr.Ret) 1 result
        (machine cpu.old memory.old) (machine cpu.new memory.new) }
{
    pass(cpu, 1);
    cpu.ret(memory);
    Step::Done
}

#[inline(always)]
pub fn turn_ret_if(cpu: &mut Cpu, memory: &mut Memory, condition: Cond) -> Step
    ensures { IsTurnOf (Instr.RetIf condition) 1 result
        (machine cpu.old memory.old) (machine cpu.new memory.new) }
{
    pass(cpu, 1);
    cpu.ret_if(memory, condition);
    Step::Done
}

/// RST.
#[inline(always)]
pub fn turn_restart(cpu: &mut Cpu, memory: &mut Memory, place: Octal) -> Step
    ensures { IsTurnOf (Instr.Restart place) 1 result
        (machine cpu.old memory.old) (machine cpu.new memory.new) }
{
    pass(cpu, 1);
    cpu.call(memory, 8 * place.number() as u16);
    Step::Done
}
