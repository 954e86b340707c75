//! Steps of the instructions on IX and IY, after DD and FD.
ghost use Rattle.std.specs.Prelude.{◌≡◌};
ghost use Rattle.z80_cpu.specs.State.{machine};
ghost use Rattle.z80_turns.specs.Turning.{IsTurnOf};
ghost use Rattle.z80_turns.specs.Types.{Addend, HlOrIndex, Instr, MemoryOperand, Operand, StackOperand, WordRegister};
ghost use Rattle.z80_turns.specs.Numbers.{fourth_byte, third_signed, third_word};

use crate::numbers::{fourth_byte, pass, third_signed, third_word};
use crate::outcome::Step;
use z80_cpu::{Cpu, Memory, displaced};
use z80_instr::{
    Addend, AluOperation, HlOrIndex, IndexRegister, Memory as MemoryOperand, Operand, Register,
    StackOperand, WordRegister,
};

#[inline(always)]
pub fn turn_load_indexed(
    cpu: &mut Cpu,
    memory: &mut Memory,
    index: IndexRegister,
    register: Register,
) -> Step
    ensures { IsTurnOf (Instr.Load register (Operand.Memory (MemoryOperand.Indexed index (third_signed (machine cpu.old memory.old))))) 3 result
        (machine cpu.old memory.old) (machine cpu.new memory.new) }
{
    let d = third_signed(cpu, memory);
    pass(cpu, 3);
    let value = memory.get(displaced(cpu.index(index), d));
    cpu.main.set(register, value);
    Step::Done
}

#[inline(always)]
pub fn turn_store_indexed(
    cpu: &mut Cpu,
    memory: &mut Memory,
    index: IndexRegister,
    register: Register,
) -> Step
    ensures { IsTurnOf (Instr.Store (MemoryOperand.Indexed index (third_signed (machine cpu.old memory.old))) register) 3 result
        (machine cpu.old memory.old) (machine cpu.new memory.new) }
{
    let d = third_signed(cpu, memory);
    pass(cpu, 3);
    memory.set(displaced(cpu.index(index), d), cpu.main.get(register));
    Step::Done
}

#[inline(always)]
pub fn turn_load_byte_indexed(cpu: &mut Cpu, memory: &mut Memory, index: IndexRegister) -> Step
    ensures { IsTurnOf (Instr.LoadByte (Operand.Memory (MemoryOperand.Indexed index (third_signed (machine cpu.old memory.old)))) (fourth_byte (machine cpu.old memory.old))) 4 result
        (machine cpu.old memory.old) (machine cpu.new memory.new) }
{
    let d = third_signed(cpu, memory);
    let n = fourth_byte(cpu, memory);
    pass(cpu, 4);
    memory.set(displaced(cpu.index(index), d), n);
    Step::Done
}

#[inline(always)]
pub fn turn_operate_indexed(
    cpu: &mut Cpu,
    memory: &mut Memory,
    index: IndexRegister,
    operation: AluOperation,
) -> Step
    ensures { IsTurnOf (Instr.Alu operation (Operand.Memory (MemoryOperand.Indexed index (third_signed (machine cpu.old memory.old))))) 3 result
        (machine cpu.old memory.old) (machine cpu.new memory.new) }
{
    let d = third_signed(cpu, memory);
    pass(cpu, 3);
    let value = memory.get(displaced(cpu.index(index), d));
    cpu.operate(operation, value);
    Step::Done
}

#[inline(always)]
pub fn turn_increment_indexed(cpu: &mut Cpu, memory: &mut Memory, index: IndexRegister) -> Step
    ensures { IsTurnOf (Instr.Inc (Operand.Memory (MemoryOperand.Indexed index (third_signed (machine cpu.old memory.old))))) 3 result
        (machine cpu.old memory.old) (machine cpu.new memory.new) }
{
    let d = third_signed(cpu, memory);
    pass(cpu, 3);
    cpu.increment(memory, Operand::Memory(MemoryOperand::Indexed(index, d)));
    Step::Done
}

#[inline(always)]
pub fn turn_decrement_indexed(cpu: &mut Cpu, memory: &mut Memory, index: IndexRegister) -> Step
    ensures { IsTurnOf (Instr.Dec (Operand.Memory (MemoryOperand.Indexed index (third_signed (machine cpu.old memory.old))))) 3 result
        (machine cpu.old memory.old) (machine cpu.new memory.new) }
{
    let d = third_signed(cpu, memory);
    pass(cpu, 3);
    cpu.decrement(memory, Operand::Memory(MemoryOperand::Indexed(index, d)));
    Step::Done
}

#[inline(always)]
pub fn turn_load_index(cpu: &mut Cpu, memory: &mut Memory, index: IndexRegister) -> Step
    ensures { IsTurnOf (Instr.LoadWord (WordRegister.Index index) (third_word (machine cpu.old memory.old))) 4 result
        (machine cpu.old memory.old) (machine cpu.new memory.new) }
{
    let nn = third_word(cpu, memory);
    pass(cpu, 4);
    cpu.set_index(index, nn);
    Step::Done
}

#[inline(always)]
pub fn turn_load_index_from(cpu: &mut Cpu, memory: &mut Memory, index: IndexRegister) -> Step
    ensures { IsTurnOf (Instr.LoadWordFrom (WordRegister.Index index) (third_word (machine cpu.old memory.old))) 4 result
        (machine cpu.old memory.old) (machine cpu.new memory.new) }
{
    let nn = third_word(cpu, memory);
    pass(cpu, 4);
    cpu.set_index(index, memory.word(nn));
    Step::Done
}

#[inline(always)]
pub fn turn_store_index(cpu: &mut Cpu, memory: &mut Memory, index: IndexRegister) -> Step
    ensures { IsTurnOf (Instr.StoreWord (WordRegister.Index index) (third_word (machine cpu.old memory.old))) 4 result
        (machine cpu.old memory.old) (machine cpu.new memory.new) }
{
    let nn = third_word(cpu, memory);
    pass(cpu, 4);
    memory.set_word(nn, cpu.index(index));
    Step::Done
}

#[inline(always)]
pub fn turn_increment_index(cpu: &mut Cpu, memory: &mut Memory, index: IndexRegister) -> Step
    ensures { IsTurnOf (Instr.IncWord (WordRegister.Index index)) 2 result
        (machine cpu.old memory.old) (machine cpu.new memory.new) }
{
    pass(cpu, 2);
    cpu.increment_word(WordRegister::Index(index));
    Step::Done
}

#[inline(always)]
pub fn turn_decrement_index(cpu: &mut Cpu, memory: &mut Memory, index: IndexRegister) -> Step
    ensures { IsTurnOf (Instr.DecWord (WordRegister.Index index)) 2 result
        (machine cpu.old memory.old) (machine cpu.new memory.new) }
{
    pass(cpu, 2);
    cpu.decrement_word(WordRegister::Index(index));
    Step::Done
}

#[inline(always)]
pub fn turn_add_index(
    cpu: &mut Cpu,
    memory: &mut Memory,
    index: IndexRegister,
    addend: Addend,
) -> Step
    ensures { IsTurnOf (Instr.AddIndex index addend) 2 result
        (machine cpu.old memory.old) (machine cpu.new memory.new) }
{
    pass(cpu, 2);
    cpu.add_index(index, addend);
    Step::Done
}

#[inline(always)]
pub fn turn_push_index(cpu: &mut Cpu, memory: &mut Memory, index: IndexRegister) -> Step
    ensures { IsTurnOf (Instr.Push (StackOperand.Index index)) 2 result
        (machine cpu.old memory.old) (machine cpu.new memory.new) }
{
    pass(cpu, 2);
    cpu.push(memory, cpu.index(index));
    Step::Done
}

#[inline(always)]
pub fn turn_pop_index(cpu: &mut Cpu, memory: &mut Memory, index: IndexRegister) -> Step
    ensures { IsTurnOf (Instr.Pop (StackOperand.Index index)) 2 result
        (machine cpu.old memory.old) (machine cpu.new memory.new) }
{
    pass(cpu, 2);
    let word = cpu.pop(memory);
    cpu.set_index(index, word);
    Step::Done
}

#[inline(always)]
pub fn turn_jump_index(cpu: &mut Cpu, memory: &mut Memory, index: IndexRegister) -> Step
    ensures { IsTurnOf (Instr.JumpIndirect (HlOrIndex.Index index)) 2 result
        (machine cpu.old memory.old) (machine cpu.new memory.new) }
{
    cpu.pc = cpu.index(index);
    Step::Done
}

#[inline(always)]
pub fn turn_load_sp(cpu: &mut Cpu, memory: &mut Memory, index: IndexRegister) -> Step
    ensures { IsTurnOf (Instr.LoadSp (HlOrIndex.Index index)) 2 result
        (machine cpu.old memory.old) (machine cpu.new memory.new) }
{
    pass(cpu, 2);
    cpu.sp = cpu.index(index);
    Step::Done
}

#[inline(always)]
pub fn turn_exchange_index(cpu: &mut Cpu, memory: &mut Memory, index: IndexRegister) -> Step
    ensures { IsTurnOf (Instr.ExSp (HlOrIndex.Index index)) 2 result
        (machine cpu.old memory.old) (machine cpu.new memory.new) }
{
    pass(cpu, 2);
    cpu.ex_sp(memory, HlOrIndex::Index(index));
    Step::Done
}
