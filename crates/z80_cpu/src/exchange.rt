//! The exchange group.
ghost use Rattle.std.specs.Prelude.{◌≡◌};
ghost use Rattle.z80_cpu.specs.State.{machine};
ghost use Rattle.z80_cpu.specs.Types.{Instr};
ghost use Rattle.z80_cpu.specs.Effect.{instruction_effect};
ghost use Rattle.z80_cpu.specs.Exchange.{with_others_of, ex_de_hl, ex_af, exx};

use crate::memory::Memory;
use crate::registers::{Cpu, Registers};
use std::mem;
use z80_instr::HlOrIndex;

impl Registers {
    /// Exchanges all registers but A and F with those of another set.
    #[inline(always)]
    fn exchange(&mut self, other: &mut Registers)
        ensures own { self.new ≡ with_others_of other.old self.old }
        ensures others { other.new ≡ with_others_of self.old other.old }
    {
        mem::swap(&mut self.b, &mut other.b);
        mem::swap(&mut self.c, &mut other.c);
        mem::swap(&mut self.d, &mut other.d);
        mem::swap(&mut self.e, &mut other.e);
        mem::swap(&mut self.h, &mut other.h);
        mem::swap(&mut self.l, &mut other.l);
    }
}

impl Cpu {
    /// EX DE,HL.
    #[inline(always)]
    pub fn ex_de_hl(&mut self)
        ensures { self.new ≡ ex_de_hl self.old }
    {
        mem::swap(&mut self.main.d, &mut self.main.h);
        mem::swap(&mut self.main.e, &mut self.main.l);
    }

    /// EX AF,AF'.
    #[inline(always)]
    pub fn ex_af(&mut self)
        ensures { self.new ≡ ex_af self.old }
    {
        mem::swap(&mut self.main.a, &mut self.shadow.a);
        mem::swap(&mut self.main.flags, &mut self.shadow.flags);
    }

    #[inline(always)]
    pub fn exx(&mut self)
        ensures { self.new ≡ exx self.old }
    {
        self.main.exchange(&mut self.shadow);
    }

    /// EX (SP),HL and EX (SP),IX.
    #[inline(always)]
    pub fn ex_sp(&mut self, memory: &mut Memory, register: HlOrIndex)
        ensures { machine self.new memory.new ≡ instruction_effect (Instr.ExSp register) (machine self.old memory.old) }
    {
        let word = memory.word(self.sp);
        memory.set_word(self.sp, self.hl_or_index(register));
        self.set_hl_or_index(register, word);
    }
}
