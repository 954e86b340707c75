//! The rotate and shift group, and the bit set, reset and test group.
ghost use Rattle.std.specs.Prelude.{◌≡◌};
ghost use Rattle.z80_cpu.specs.State.{machine};
ghost use Rattle.z80_cpu.specs.Types.{Instr};
ghost use Rattle.z80_cpu.specs.Effect.{instruction_effect};
ghost use Rattle.z80_cpu.specs.Arithmetic.{rotated_a};

use crate::memory::Memory;
use crate::registers::Cpu;
use crate::{reset_bit, set_bit};
use z80_instr::{Octal, Operand, Rotation};

impl Cpu {
    /// RLCA, RLA, RRCA and RRA. `rotation` is the one with the same name but for the A.
    #[inline(always)]
    pub fn rotate_accumulator(&mut self, rotation: Rotation)
        ensures { self.new ≡ rotated_a rotation self.old }
    {
        self.main.a = self.main.flags.rotate_accumulator(rotation, self.main.a);
    }

    pub fn rotate(&mut self, memory: &mut Memory, rotation: Rotation, operand: Operand)
        ensures { machine self.new memory.new ≡ instruction_effect (Instr.Rotate rotation operand) (machine self.old memory.old) }
    {
        let value = self.operand(memory, operand);
        let outcome = self.main.flags.rotate(rotation, value);
        self.set_operand(memory, operand, outcome);
    }

    /// RLD.
    #[inline(always)]
    pub fn rotate_digits_left(&mut self, memory: &mut Memory)
        ensures { machine self.new memory.new ≡ instruction_effect Instr.Rld (machine self.old memory.old) }
    {
        let address = self.main.hl();
        let (a, value) = self
            .main
            .flags
            .rotate_digits_left(self.main.a, memory.get(address));
        self.main.a = a;
        memory.set(address, value);
    }

    /// RRD.
    #[inline(always)]
    pub fn rotate_digits_right(&mut self, memory: &mut Memory)
        ensures { machine self.new memory.new ≡ instruction_effect Instr.Rrd (machine self.old memory.old) }
    {
        let address = self.main.hl();
        let (a, value) = self
            .main
            .flags
            .rotate_digits_right(self.main.a, memory.get(address));
        self.main.a = a;
        memory.set(address, value);
    }

    /// SET.
    pub fn set_bit(&mut self, memory: &mut Memory, bit: Octal, operand: Operand)
        ensures { machine self.new memory.new ≡ instruction_effect (Instr.Set bit operand) (machine self.old memory.old) }
    {
        let value = self.operand(memory, operand);
        self.set_operand(memory, operand, set_bit(bit, value));
    }

    /// RES.
    pub fn reset_bit(&mut self, memory: &mut Memory, bit: Octal, operand: Operand)
        ensures { machine self.new memory.new ≡ instruction_effect (Instr.Res bit operand) (machine self.old memory.old) }
    {
        let value = self.operand(memory, operand);
        self.set_operand(memory, operand, reset_bit(bit, value));
    }
}
