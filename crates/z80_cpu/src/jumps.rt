//! Jumps, calls and returns on conditions, DJNZ and RETN.
ghost use Rattle.std.specs.Prelude.{◌≡◌};
ghost use Rattle.z80_cpu.specs.State.{machine, displaced};
ghost use Rattle.z80_cpu.specs.Operands.{condition_holds, short_condition_holds};
ghost use Rattle.z80_cpu.specs.Jumps.{jumped_if, counted_and_jumped};
ghost use Rattle.z80_cpu.specs.Types.{Instr};
ghost use Rattle.z80_cpu.specs.Effect.{instruction_effect};

use crate::conditions::{condition_holds, short_condition_holds};
use crate::memory::Memory;
use crate::operands::displaced;
use crate::registers::Cpu;
use z80_instr::{Cond, ShortCond};

impl Cpu {
    /// JP cc.
    #[inline(always)]
    pub fn jump_if(&mut self, condition: Cond, address: u16)
        ensures { self.new ≡ jumped_if (condition_holds condition self.old.main.flags) address self.old }
    {
        if condition_holds(condition, &self.main.flags) {
            self.pc = address;
        }
    }

    /// JR cc.
    #[inline(always)]
    pub fn jump_relative_if(&mut self, condition: ShortCond, distance: i8)
        ensures { self.new ≡
            jumped_if (short_condition_holds condition self.old.main.flags) (displaced self.old.pc distance) self.old }
    {
        if short_condition_holds(condition, &self.main.flags) {
            self.pc = displaced(self.pc, distance);
        }
    }

    /// DJNZ.
    #[inline(always)]
    pub fn decrement_and_jump(&mut self, distance: i8)
        ensures { self.new ≡ counted_and_jumped distance self.old }
    {
        self.main.b = self.main.b.wrapping_sub(1);
        if self.main.b != 0 {
            self.pc = displaced(self.pc, distance);
        }
    }

    /// CALL cc.
    #[inline(always)]
    pub fn call_if(&mut self, memory: &mut Memory, condition: Cond, address: u16)
        ensures { machine self.new memory.new ≡ instruction_effect (Instr.CallIf condition address) (machine self.old memory.old) }
    {
        if condition_holds(condition, &self.main.flags) {
            self.call(memory, address);
        }
    }

    /// RET cc.
    #[inline(always)]
    pub fn ret_if(&mut self, memory: &Memory, condition: Cond)
        ensures { machine self.new memory.now ≡ instruction_effect (Instr.RetIf condition) (machine self.old memory.now) }
    {
        if condition_holds(condition, &self.main.flags) {
            self.ret(memory);
        }
    }

    /// RETN: returns, and allows interrupts if they were allowed before the non-maskable one.
    pub fn retn(&mut self, memory: &Memory)
        ensures { machine self.new memory.now ≡ instruction_effect Instr.Retn (machine self.old memory.now) }
    {
        self.ret(memory);
        self.iff1 = self.iff2;
    }
}
