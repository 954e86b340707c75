//! The stack, calls and returns.
ghost use Rattle.std.specs.Prelude.{◌≡◌};
ghost use Rattle.z80_cpu.specs.State.{machine};
ghost use Rattle.z80_cpu.specs.Stack.{pushed, top, popped, called, returned};

use crate::memory::Memory;
use crate::registers::Cpu;

impl Cpu {
    /// PUSH: puts a word on the stack.
    #[inline(always)]
    pub fn push(&mut self, memory: &mut Memory, word: u16)
        ensures { machine self.new memory.new ≡ pushed word (machine self.old memory.old) }
    {
        self.sp = self.sp.wrapping_sub(2);
        memory.set_word(self.sp, word);
    }

    /// POP: takes a word off the stack.
    #[inline(always)]
    pub fn pop(&mut self, memory: &Memory) -> u16
        ensures value { result ≡ top self.old memory.now }
        ensures cpu { self.new ≡ popped self.old }
    {
        let word = memory.word(self.sp);
        self.sp = self.sp.wrapping_add(2);
        word
    }

    /// CALL and RST.
    #[inline(always)]
    pub fn call(&mut self, memory: &mut Memory, address: u16)
        ensures { machine self.new memory.new ≡ called address (machine self.old memory.old) }
    {
        self.push(memory, self.pc);
        self.pc = address;
    }

    /// RET: takes PC off the stack.
    #[inline(always)]
    pub fn ret(&mut self, memory: &Memory)
        ensures { self.new ≡ returned memory.now self.old }
    {
        self.pc = self.pop(memory);
    }
}
