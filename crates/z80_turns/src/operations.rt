//! Steps of the 8-bit arithmetic group on A.
ghost use Rattle.std.specs.Prelude.{◌≡◌};
ghost use Rattle.z80_cpu.specs.State.{machine};
ghost use Rattle.z80_turns.specs.Turning.{IsTurnOf};
ghost use Rattle.z80_turns.specs.Types.{AluOperation, Instr, Operand, MemoryOperand};
ghost use Rattle.z80_turns.specs.Numbers.{next_byte};

use crate::numbers::{next_byte, pass};
use crate::outcome::Step;
use z80_cpu::{Cpu, Memory};
use z80_instr::{AluOperation, Register};

/// ADD, ADC, SUB, SBC, AND, XOR, OR or CP of A with a register.
#[inline(always)]
pub fn turn_operate(
    cpu: &mut Cpu,
    memory: &mut Memory,
    operation: AluOperation,
    from: Register,
) -> Step
    ensures { IsTurnOf (Instr.Alu operation (Operand.Register from)) 1 result
        (machine cpu.old memory.old) (machine cpu.new memory.new) }
{
    pass(cpu, 1);
    let value = cpu.main.get(from);
    cpu.operate(operation, value);
    Step::Done
}

#[inline(always)]
pub fn turn_operate_at_hl(cpu: &mut Cpu, memory: &mut Memory, operation: AluOperation) -> Step
    ensures { IsTurnOf (Instr.Alu operation (Operand.Memory MemoryOperand.Hl)) 1 result
        (machine cpu.old memory.old) (machine cpu.new memory.new) }
{
    pass(cpu, 1);
    let value = memory.get(cpu.main.hl());
    cpu.operate(operation, value);
    Step::Done
}

/// ADD, ADC, SUB, SBC, AND, XOR, OR or CP of A with the number that follows.
#[inline(always)]
pub fn turn_operate_byte(cpu: &mut Cpu, memory: &mut Memory, operation: AluOperation) -> Step
    ensures { IsTurnOf (Instr.AluByte operation (next_byte (machine cpu.old memory.old))) 2 result
        (machine cpu.old memory.old) (machine cpu.new memory.new) }
{
    let value = next_byte(cpu, memory);
    pass(cpu, 2);
    cpu.operate(operation, value);
    Step::Done
}
