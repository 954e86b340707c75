//! Moves PC to the next instruction, and reads the numbers after an opcode.
ghost use Rattle.std.specs.Prelude.{◌≡◌};
ghost use Rattle.z80_cpu.specs.State.{machine, with_pc, up_by};
ghost use Rattle.z80_turns.specs.Numbers.{fourth_byte, next_byte, next_signed, next_word, third_byte, third_signed, third_word};

use z80_cpu::{Cpu, Memory};

/// Moves PC to the next instruction, `size` bytes on.
#[inline(always)]
pub(crate) fn pass(cpu: &mut Cpu, size: u16)
    ensures { cpu.new ≡ with_pc (up_by size cpu.old.pc) cpu.old }
{
    cpu.pc = cpu.pc.wrapping_add(size);
}

/// The number n after an opcode.
#[inline(always)]
pub fn next_byte(cpu: &Cpu, memory: &Memory) -> u8
    ensures { result ≡ next_byte (machine cpu.now memory.now) }
{
    memory.get(cpu.pc.wrapping_add(1))
}

/// The distance e after an opcode.
#[inline(always)]
pub fn next_signed(cpu: &Cpu, memory: &Memory) -> i8
    ensures { result ≡ next_signed (machine cpu.now memory.now) }
{
    next_byte(cpu, memory).cast_signed()
}

/// The word nn after an opcode, low byte first.
#[inline(always)]
pub fn next_word(cpu: &Cpu, memory: &Memory) -> u16
    ensures { result ≡ next_word (machine cpu.now memory.now) }
{
    let (low, high) = (next_byte(cpu, memory), memory.get(cpu.pc.wrapping_add(2)));
    low as u16 + 256 * (high as u16)
}

/// The byte after a prefix and its opcode.
#[inline(always)]
pub fn third_byte(cpu: &Cpu, memory: &Memory) -> u8
    ensures { result ≡ third_byte (machine cpu.now memory.now) }
{
    memory.get(cpu.pc.wrapping_add(2))
}

/// The displacement d after a prefix and its opcode.
#[inline(always)]
pub fn third_signed(cpu: &Cpu, memory: &Memory) -> i8
    ensures { result ≡ third_signed (machine cpu.now memory.now) }
{
    third_byte(cpu, memory).cast_signed()
}

/// The number n after a prefix, its opcode and a displacement.
#[inline(always)]
pub fn fourth_byte(cpu: &Cpu, memory: &Memory) -> u8
    ensures { result ≡ fourth_byte (machine cpu.now memory.now) }
{
    memory.get(cpu.pc.wrapping_add(3))
}

/// The word nn after a prefix and its opcode, low byte first.
#[inline(always)]
pub fn third_word(cpu: &Cpu, memory: &Memory) -> u16
    ensures { result ≡ third_word (machine cpu.now memory.now) }
{
    let (low, high) = (third_byte(cpu, memory), fourth_byte(cpu, memory));
    low as u16 + 256 * (high as u16)
}
