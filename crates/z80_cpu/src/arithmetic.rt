//! The arithmetic groups, and LD A,I and LD A,R.
ghost use Rattle.std.specs.Prelude.{◌≡◌};
ghost use Rattle.z80_cpu.specs.State.{machine};
ghost use Rattle.z80_cpu.specs.Types.{Instr};
ghost use Rattle.z80_cpu.specs.Effect.{instruction_effect};
ghost use Rattle.z80_cpu.specs.Arithmetic.{loaded_from_control, operated, adjusted_a, complemented_a, negated_a, added_to_hl, added_to_hl_with_carry, subtracted_from_hl, added_to_index, incremented, decremented};

use crate::memory::Memory;
use crate::registers::Cpu;
use z80_instr::{Addend, AluOperation, IndexRegister, Operand, RegisterPair, WordRegister};

impl Cpu {
    /// LD A,I and LD A,R, with the value of I or R.
    #[inline(always)]
    pub fn load_from_control(&mut self, value: u8)
        ensures { self.new ≡ loaded_from_control value self.old }
    {
        self.main.a = value;
        self.main.flags.set_parity(value, false);
        self.main.flags.parity_overflow = self.iff2;
    }

    /// ADD, ADC, SUB, SBC, AND, XOR, OR and CP with a byte.
    #[inline(always)]
    pub fn operate(&mut self, operation: AluOperation, value: u8)
        ensures { self.new ≡ operated operation value self.old }
    {
        self.main.a = self.main.flags.operate(operation, self.main.a, value);
    }

    /// INC of a byte.
    #[inline(always)]
    pub fn increment(&mut self, memory: &mut Memory, operand: Operand)
        ensures { machine self.new memory.new ≡ instruction_effect (Instr.Inc operand) (machine self.old memory.old) }
    {
        let value = self.operand(memory, operand);
        let sum = self.main.flags.increment(value);
        self.set_operand(memory, operand, sum);
    }

    /// DEC of a byte.
    #[inline(always)]
    pub fn decrement(&mut self, memory: &mut Memory, operand: Operand)
        ensures { machine self.new memory.new ≡ instruction_effect (Instr.Dec operand) (machine self.old memory.old) }
    {
        let value = self.operand(memory, operand);
        let difference = self.main.flags.decrement(value);
        self.set_operand(memory, operand, difference);
    }

    /// DAA.
    #[inline(always)]
    pub fn adjust(&mut self)
        ensures { self.new ≡ adjusted_a self.old }
    {
        self.main.a = self.main.flags.adjust(self.main.a);
    }

    /// CPL.
    #[inline(always)]
    pub fn complement(&mut self)
        ensures { self.new ≡ complemented_a self.old }
    {
        self.main.a = self.main.flags.complement(self.main.a);
    }

    /// NEG.
    #[inline(always)]
    pub fn negate(&mut self)
        ensures { self.new ≡ negated_a self.old }
    {
        self.main.a = self.main.flags.subtract(0, self.main.a, false);
    }

    /// ADD HL,ss.
    #[inline(always)]
    pub fn add_hl(&mut self, pair: RegisterPair)
        ensures { self.new ≡ added_to_hl pair self.old }
    {
        let (hl, addend) = (self.main.hl(), self.pair(pair));
        let sum = self.main.flags.add_word(hl, addend, false);
        self.main.set_hl(sum);
    }

    /// ADC HL,ss.
    #[inline(always)]
    pub fn adc_hl(&mut self, pair: RegisterPair)
        ensures { self.new ≡ added_to_hl_with_carry pair self.old }
    {
        let (hl, addend) = (self.main.hl(), self.pair(pair));
        let sum = self.main.flags.adc_word(hl, addend);
        self.main.set_hl(sum);
    }

    /// SBC HL,ss.
    #[inline(always)]
    pub fn sbc_hl(&mut self, pair: RegisterPair)
        ensures { self.new ≡ subtracted_from_hl pair self.old }
    {
        let (hl, subtrahend) = (self.main.hl(), self.pair(pair));
        let difference = self.main.flags.sbc_word(hl, subtrahend);
        self.main.set_hl(difference);
    }

    /// ADD IX,pp and ADD IY,rr.
    #[inline(always)]
    pub fn add_index(&mut self, index: IndexRegister, addend: Addend)
        ensures { self.new ≡ added_to_index index addend self.old }
    {
        let (word, added) = (self.index(index), self.addend(index, addend));
        let sum = self.main.flags.add_word(word, added, false);
        self.set_index(index, sum);
    }

    /// INC of a word.
    #[inline(always)]
    pub fn increment_word(&mut self, register: WordRegister)
        ensures { self.new ≡ incremented register self.old }
    {
        self.set_word(register, self.word(register).wrapping_add(1));
    }

    /// DEC of a word.
    #[inline(always)]
    pub fn decrement_word(&mut self, register: WordRegister)
        ensures { self.new ≡ decremented register self.old }
    {
        self.set_word(register, self.word(register).wrapping_sub(1));
    }
}
