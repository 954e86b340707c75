//! One step.
ghost use Rattle.std.specs.Prelude.{◌≡◌, ℕ};
ghost use Rattle.z80_table.specs.Reading.{read};
ghost use Rattle.z80_cpu.specs.State.{machine, byte_at};
ghost use Rattle.z80_machine.specs.Turn.{bytes_at_pc, StandsAtPc, IsTurnOf, IsStep};
ghost use Rattle.z80_machine.specs.Private.Opcodes.{AreBytes, IsTurnBy};
ghost use Rattle.z80_machine.specs.Types.{Instr};

use crate::opcodes::turn_of;
use z80_cpu::{Cpu, Memory};
use z80_instr::Instr;
use z80_table::decode;
use z80_turns::outcome::Step;

/// Carries out the instruction at PC.
pub fn step(cpu: &mut Cpu, memory: &mut Memory) -> Step
    ensures turn { IsStep result (machine cpu.old memory.old) (machine cpu.new memory.new) }

    // If an instruction is at PC, this is the step of that instruction and of no other.
    ensures known { (instr : Instr) (size : ℕ) → StandsAtPc (machine cpu.old memory.old) instr size →
        IsTurnOf instr size result (machine cpu.old memory.old) (machine cpu.new memory.new) }
{
    turn_by_table::<false>(cpu, memory)
}

/// Makes a step, by the copy of the table that is for a run or the one that is for a single step.
#[inline(always)]
pub(crate) fn turn_by_table<const IN_RUN: bool>(cpu: &mut Cpu, memory: &mut Memory) -> Step
    ensures turn { IsStep result (machine cpu.old memory.old) (machine cpu.new memory.new) }
    ensures known { (instr : Instr) (size : ℕ) → StandsAtPc (machine cpu.old memory.old) instr size →
        IsTurnOf instr size result (machine cpu.old memory.old) (machine cpu.new memory.new) }
{
    // Laws: what the table reads is the instruction at PC, and memory has bytes.
    z80_table::laws::reading();
    has_bytes(cpu, memory);
    let opcode = memory.get(cpu.pc);
    turn_of::<IN_RUN>(cpu, memory, opcode)
}

/// A law: the four numbers at PC are bytes.
fn has_bytes(cpu: &Cpu, memory: &Memory)
    ensures { AreBytes (bytes_at_pc (machine cpu.now memory.now)) }
{
    let _bytes = fetch(cpu, memory);
}

/// The four bytes from PC on; no instruction has more.
fn fetch(cpu: &Cpu, memory: &Memory) -> [u8; 4]
    ensures bytes { result ≡ bytes_at_pc (machine cpu.now memory.now) }
    ensures range { AreBytes (bytes_at_pc (machine cpu.now memory.now)) }
{
    let pc = cpu.pc;
    [
        memory.get(pc),
        memory.get(pc.wrapping_add(1)),
        memory.get(pc.wrapping_add(2)),
        memory.get(pc.wrapping_add(3)),
    ]
}

/// Makes the step of the instruction at PC by decoding it, whichever it is.
#[inline(never)]
pub(crate) fn turn_decoded(cpu: &mut Cpu, memory: &mut Memory) -> Step
    ensures { IsTurnBy (read (bytes_at_pc (machine cpu.old memory.old))) result
        (machine cpu.old memory.old) (machine cpu.new memory.new) }
{
    let bytes = fetch(cpu, memory);
    let (instr, size) = match decode(&bytes) {
        Ok(read) => read,
        Err(_) => return Step::Undocumented,
    };
    match instr {
        Instr::Halt => Step::Halted,
        _ => {
            cpu.pc = cpu.pc.wrapping_add(size as u16);
            cpu.execute(memory, instr);
            Step::Done
        }
    }
}
