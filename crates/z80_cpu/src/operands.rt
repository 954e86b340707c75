//! Operands of 8 bits: registers, and bytes in memory.
ghost use Rattle.std.specs.Prelude.{◌≡◌};
ghost use Rattle.z80_cpu.specs.State.{machine, displaced};
ghost use Rattle.z80_cpu.specs.Operands.{address_of, pointer_address, operand_value, with_operand};

use crate::memory::Memory;
use crate::registers::Cpu;
use z80_instr::{Memory as MemoryOperand, Operand, Pointer};

/// The address at a signed distance from another, modulo 65,536.
#[inline(always)]
pub fn displaced(address: u16, distance: i8) -> u16
    ensures { result ≡ displaced address distance }
{
    address.wrapping_add_signed(distance as i16)
}

impl Cpu {
    #[inline(always)]
    pub fn address(&self, place: MemoryOperand) -> u16
        ensures { result ≡ address_of place self.now }
    {
        match place {
            MemoryOperand::Hl => self.main.hl(),
            MemoryOperand::Indexed(index, d) => displaced(self.index(index), d),
        }
    }

    #[inline(always)]
    pub fn pointer(&self, pointer: Pointer) -> u16
        ensures { result ≡ pointer_address pointer self.now }
    {
        match pointer {
            Pointer::Bc => self.main.bc(),
            Pointer::De => self.main.de(),
            Pointer::Address(nn) => nn,
        }
    }

    #[inline(always)]
    pub fn operand(&self, memory: &Memory, operand: Operand) -> u8
        ensures { result ≡ operand_value operand (machine self.now memory.now) }
    {
        match operand {
            Operand::Register(register) => self.main.get(register),
            Operand::Memory(place) => memory.get(self.address(place)),
        }
    }

    #[inline(always)]
    pub fn set_operand(&mut self, memory: &mut Memory, operand: Operand, value: u8)
        ensures { machine self.new memory.new ≡ with_operand operand value (machine self.old memory.old) }
    {
        match operand {
            Operand::Register(register) => self.main.set(register, value),
            Operand::Memory(place) => memory.set(self.address(place), value),
        }
    }
}
