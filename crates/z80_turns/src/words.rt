//! Steps of the 16-bit load and arithmetic groups.
ghost use Rattle.std.specs.Prelude.{◌≡◌};
ghost use Rattle.z80_cpu.specs.State.{machine};
ghost use Rattle.z80_turns.specs.Turning.{IsTurnOf};
ghost use Rattle.z80_turns.specs.Types.{HlOrIndex, Instr, WordRegister, RegisterPair};
ghost use Rattle.z80_turns.specs.Numbers.{next_word};

use crate::numbers::{next_word, pass};
use crate::outcome::Step;
use z80_cpu::{Cpu, Memory};
use z80_instr::{RegisterPair, StackOperand, WordRegister};

#[inline(always)]
pub fn turn_load_word(cpu: &mut Cpu, memory: &mut Memory, pair: RegisterPair) -> Step
    ensures { IsTurnOf (Instr.LoadWord (WordRegister.Pair pair) (next_word (machine cpu.old memory.old))) 3 result
        (machine cpu.old memory.old) (machine cpu.new memory.new) }
{
    let nn = next_word(cpu, memory);
    pass(cpu, 3);
    cpu.set_pair(pair, nn);
    Step::Done
}

#[inline(always)]
pub fn turn_load_hl(cpu: &mut Cpu, memory: &mut Memory) -> Step
    ensures { IsTurnOf (Instr.LoadWordFrom (WordRegister.Pair RegisterPair.Hl) (next_word (machine cpu.old memory.old))) 3 result
        (machine cpu.old memory.old) (machine cpu.new memory.new) }
{
    let nn = next_word(cpu, memory);
    pass(cpu, 3);
    cpu.main.set_hl(memory.word(nn));
    Step::Done
}

#[inline(always)]
pub fn turn_store_hl(cpu: &mut Cpu, memory: &mut Memory) -> Step
    ensures { IsTurnOf (Instr.StoreWord (WordRegister.Pair RegisterPair.Hl) (next_word (machine cpu.old memory.old))) 3 result
        (machine cpu.old memory.old) (machine cpu.new memory.new) }
{
    let nn = next_word(cpu, memory);
    pass(cpu, 3);
    memory.set_word(nn, cpu.main.hl());
    Step::Done
}

#[inline(always)]
pub fn turn_increment_word(cpu: &mut Cpu, memory: &mut Memory, pair: RegisterPair) -> Step
    ensures { IsTurnOf (Instr.IncWord (WordRegister.Pair pair)) 1 result
        (machine cpu.old memory.old) (machine cpu.new memory.new) }
{
    pass(cpu, 1);
    cpu.increment_word(WordRegister::Pair(pair));
    Step::Done
}

#[inline(always)]
pub fn turn_decrement_word(cpu: &mut Cpu, memory: &mut Memory, pair: RegisterPair) -> Step
    ensures { IsTurnOf (Instr.DecWord (WordRegister.Pair pair)) 1 result
        (machine cpu.old memory.old) (machine cpu.new memory.new) }
{
    pass(cpu, 1);
    cpu.decrement_word(WordRegister::Pair(pair));
    Step::Done
}

#[inline(always)]
pub fn turn_add_hl(cpu: &mut Cpu, memory: &mut Memory, pair: RegisterPair) -> Step
    ensures { IsTurnOf (Instr.AddHl pair) 1 result
        (machine cpu.old memory.old) (machine cpu.new memory.new) }
{
    pass(cpu, 1);
    cpu.add_hl(pair);
    Step::Done
}

#[inline(always)]
pub fn turn_push(cpu: &mut Cpu, memory: &mut Memory, operand: StackOperand) -> Step
    ensures { IsTurnOf (Instr.Push operand) 1 result
        (machine cpu.old memory.old) (machine cpu.new memory.new) }
{
    pass(cpu, 1);
    cpu.push(memory, cpu.stack_operand(operand));
    Step::Done
}

#[inline(always)]
pub fn turn_pop(cpu: &mut Cpu, memory: &mut Memory, operand: StackOperand) -> Step
    ensures { IsTurnOf (Instr.Pop operand) 1 result
        (machine cpu.old memory.old) (machine cpu.new memory.new) }
{
    pass(cpu, 1);
    let word = cpu.pop(memory);
    cpu.set_stack_operand(operand, word);
    Step::Done
}

/// LD SP,HL.
#[inline(always)]
pub fn turn_load_sp_hl(cpu: &mut Cpu, memory: &mut Memory) -> Step
    ensures { IsTurnOf (Instr.LoadSp HlOrIndex.Hl) 1 result
        (machine cpu.old memory.old) (machine cpu.new memory.new) }
{
    pass(cpu, 1);
    cpu.sp = cpu.main.hl();
    Step::Done
}
