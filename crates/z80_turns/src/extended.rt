//! Steps of the instructions after ED.
ghost use Rattle.std.specs.Prelude.{◌≡◌};
ghost use Rattle.z80_cpu.specs.State.{machine};
ghost use Rattle.z80_turns.specs.Turning.{IsTurnOf};
ghost use Rattle.z80_turns.specs.Types.{Instr, WordRegister};
ghost use Rattle.z80_turns.specs.Turning.{carried_out};
ghost use Rattle.z80_turns.specs.Types.{Step};
ghost use Rattle.z80_turns.specs.Numbers.{third_word};

use crate::numbers::{pass, third_word};
use crate::outcome::Step;
use z80_cpu::{Cpu, Memory};
use z80_instr::{BlockOperation, BlockStep, Instr, RegisterPair, WordRegister};

#[inline(always)]
pub fn turn_add_pair_with_carry(cpu: &mut Cpu, memory: &mut Memory, pair: RegisterPair) -> Step
    ensures { IsTurnOf (Instr.AdcHl pair) 2 result
        (machine cpu.old memory.old) (machine cpu.new memory.new) }
{
    pass(cpu, 2);
    cpu.adc_hl(pair);
    Step::Done
}

#[inline(always)]
pub fn turn_subtract_pair_with_carry(cpu: &mut Cpu, memory: &mut Memory, pair: RegisterPair) -> Step
    ensures { IsTurnOf (Instr.SbcHl pair) 2 result
        (machine cpu.old memory.old) (machine cpu.new memory.new) }
{
    pass(cpu, 2);
    cpu.sbc_hl(pair);
    Step::Done
}

#[inline(always)]
pub fn turn_load_pair_from(cpu: &mut Cpu, memory: &mut Memory, pair: RegisterPair) -> Step
    ensures { IsTurnOf (Instr.LoadWordFrom (WordRegister.Pair pair) (third_word (machine cpu.old memory.old))) 4 result
        (machine cpu.old memory.old) (machine cpu.new memory.new) }
{
    let nn = third_word(cpu, memory);
    pass(cpu, 4);
    cpu.set_pair(pair, memory.word(nn));
    Step::Done
}

#[inline(always)]
pub fn turn_store_pair(cpu: &mut Cpu, memory: &mut Memory, pair: RegisterPair) -> Step
    ensures { IsTurnOf (Instr.StoreWord (WordRegister.Pair pair) (third_word (machine cpu.old memory.old))) 4 result
        (machine cpu.old memory.old) (machine cpu.new memory.new) }
{
    let nn = third_word(cpu, memory);
    pass(cpu, 4);
    memory.set_word(nn, cpu.pair(pair));
    Step::Done
}

#[inline(always)]
pub fn turn_negate(cpu: &mut Cpu, memory: &mut Memory) -> Step
    ensures { IsTurnOf (Instr.Neg) 2 result
        (machine cpu.old memory.old) (machine cpu.new memory.new) }
{
    pass(cpu, 2);
    cpu.negate();
    Step::Done
}

/// RLD.
#[inline(always)]
pub fn turn_rotate_digits_left(cpu: &mut Cpu, memory: &mut Memory) -> Step
    ensures { IsTurnOf (Instr.Rld) 2 result
        (machine cpu.old memory.old) (machine cpu.new memory.new) }
{
    pass(cpu, 2);
    cpu.rotate_digits_left(memory);
    Step::Done
}

/// RRD.
#[inline(always)]
pub fn turn_rotate_digits_right(cpu: &mut Cpu, memory: &mut Memory) -> Step
    ensures { IsTurnOf (Instr.Rrd) 2 result
        (machine cpu.old memory.old) (machine cpu.new memory.new) }
{
    pass(cpu, 2);
    cpu.rotate_digits_right(memory);
    Step::Done
}

#[inline(always)]
pub fn turn_block(
    cpu: &mut Cpu,
    memory: &mut Memory,
    operation: BlockOperation,
    step: BlockStep,
) -> Step
    ensures { IsTurnOf (Instr.Block operation step) 2 result
        (machine cpu.old memory.old) (machine cpu.new memory.new) }
{
    pass(cpu, 2);
    cpu.block(memory, operation, step);
    Step::Done
}

/// Any instruction of two bytes after a prefix, through `execute`. The rare ones have no function of their own.
pub fn turn_behind_prefix(cpu: &mut Cpu, memory: &mut Memory, instr: Instr) -> Step
    ensures done { result ≡ Step.Done }
    ensures carried { machine cpu.new memory.new ≡ carried_out instr 2 (machine cpu.old memory.old) }
{
    pass(cpu, 2);
    cpu.execute(memory, instr);
    Step::Done
}
