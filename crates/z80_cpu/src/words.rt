//! Registers of 16 bits, by the types that instructions have for them.
ghost use Rattle.std.specs.Prelude.{◌≡◌};
ghost use Rattle.z80_cpu.specs.State.{index_value, with_index, pair_value, with_pair, word_value, with_word, hl_or_index_value, with_hl_or_index, addend_value, stack_operand_value, with_stack_operand};

use crate::registers::Cpu;
use z80_instr::{Addend, HlOrIndex, IndexRegister, RegisterPair, StackOperand, WordRegister};

impl Cpu {
    #[inline(always)]
    pub fn index(&self, index: IndexRegister) -> u16
        ensures { result ≡ index_value index self.now }
    {
        match index {
            IndexRegister::Ix => self.ix,
            IndexRegister::Iy => self.iy,
        }
    }

    #[inline(always)]
    pub fn set_index(&mut self, index: IndexRegister, word: u16)
        ensures { self.new ≡ with_index index word self.old }
    {
        match index {
            IndexRegister::Ix => self.ix = word,
            IndexRegister::Iy => self.iy = word,
        }
    }

    #[inline(always)]
    pub fn pair(&self, pair: RegisterPair) -> u16
        ensures { result ≡ pair_value pair self.now }
    {
        match pair {
            RegisterPair::Bc => self.main.bc(),
            RegisterPair::De => self.main.de(),
            RegisterPair::Hl => self.main.hl(),
            RegisterPair::Sp => self.sp,
        }
    }

    #[inline(always)]
    pub fn set_pair(&mut self, pair: RegisterPair, word: u16)
        ensures { self.new ≡ with_pair pair word self.old }
    {
        match pair {
            RegisterPair::Bc => self.main.set_bc(word),
            RegisterPair::De => self.main.set_de(word),
            RegisterPair::Hl => self.main.set_hl(word),
            RegisterPair::Sp => self.sp = word,
        }
    }

    #[inline(always)]
    pub fn word(&self, register: WordRegister) -> u16
        ensures { result ≡ word_value register self.now }
    {
        match register {
            WordRegister::Pair(pair) => self.pair(pair),
            WordRegister::Index(index) => self.index(index),
        }
    }

    #[inline(always)]
    pub fn set_word(&mut self, register: WordRegister, word: u16)
        ensures { self.new ≡ with_word register word self.old }
    {
        match register {
            WordRegister::Pair(pair) => self.set_pair(pair, word),
            WordRegister::Index(index) => self.set_index(index, word),
        }
    }

    #[inline(always)]
    pub fn hl_or_index(&self, register: HlOrIndex) -> u16
        ensures { result ≡ hl_or_index_value register self.now }
    {
        match register {
            HlOrIndex::Hl => self.main.hl(),
            HlOrIndex::Index(index) => self.index(index),
        }
    }

    #[inline(always)]
    pub fn set_hl_or_index(&mut self, register: HlOrIndex, word: u16)
        ensures { self.new ≡ with_hl_or_index register word self.old }
    {
        match register {
            HlOrIndex::Hl => self.main.set_hl(word),
            HlOrIndex::Index(index) => self.set_index(index, word),
        }
    }

    #[inline(always)]
    pub fn addend(&self, index: IndexRegister, addend: Addend) -> u16
        ensures { result ≡ addend_value index addend self.now }
    {
        match addend {
            Addend::Bc => self.main.bc(),
            Addend::De => self.main.de(),
            Addend::Itself => self.index(index),
            Addend::Sp => self.sp,
        }
    }

    #[inline(always)]
    pub fn stack_operand(&self, operand: StackOperand) -> u16
        ensures { result ≡ stack_operand_value operand self.now }
    {
        match operand {
            StackOperand::Bc => self.main.bc(),
            StackOperand::De => self.main.de(),
            StackOperand::Hl => self.main.hl(),
            StackOperand::Af => self.main.af(),
            StackOperand::Index(index) => self.index(index),
        }
    }

    #[inline(always)]
    pub fn set_stack_operand(&mut self, operand: StackOperand, word: u16)
        ensures { self.new ≡ with_stack_operand operand word self.old }
    {
        match operand {
            StackOperand::Bc => self.main.set_bc(word),
            StackOperand::De => self.main.set_de(word),
            StackOperand::Hl => self.main.set_hl(word),
            StackOperand::Af => self.main.set_af(word),
            StackOperand::Index(index) => self.set_index(index, word),
        }
    }
}
