//! The registers.

use crate::Flags;
use z80_instr::{InterruptMode, Register};

/// One of the two sets of registers. The low register of a pair comes first, as in a word of the host's memory.
#[derive(Clone, Copy, Debug, Default, PartialEq, Eq)]
pub struct Registers {
    pub a: u8,
    /// F.
    pub flags: Flags,
    pub c: u8,
    pub b: u8,
    pub e: u8,
    pub d: u8,
    pub l: u8,
    pub h: u8,
}

impl Registers {
    ghost use Rattle.std.specs.Prelude.{◌≡◌};
    ghost use Rattle.z80_cpu.specs.State.{register_value, with_register, af, bc, de, hl, with_af, with_bc, with_de, with_hl};

    #[inline(always)]
    pub fn get(&self, register: Register) -> u8
        ensures { result ≡ register_value register self.now }
    {
        match register {
            Register::B => self.b,
            Register::C => self.c,
            Register::D => self.d,
            Register::E => self.e,
            Register::H => self.h,
            Register::L => self.l,
            Register::A => self.a,
        }
    }

    #[inline(always)]
    pub fn set(&mut self, register: Register, value: u8)
        ensures { self.new ≡ with_register register value self.old }
    {
        match register {
            Register::B => self.b = value,
            Register::C => self.c = value,
            Register::D => self.d = value,
            Register::E => self.e = value,
            Register::H => self.h = value,
            Register::L => self.l = value,
            Register::A => self.a = value,
        }
    }

    #[inline(always)]
    pub fn af(&self) -> u16
        ensures { result ≡ af self.now }
    {
        u16::from_be_bytes([self.a, self.flags.to_byte()])
    }

    #[inline(always)]
    pub fn bc(&self) -> u16
        ensures { result ≡ bc self.now }
    {
        u16::from_be_bytes([self.b, self.c])
    }

    #[inline(always)]
    pub fn de(&self) -> u16
        ensures { result ≡ de self.now }
    {
        u16::from_be_bytes([self.d, self.e])
    }

    #[inline(always)]
    pub fn hl(&self) -> u16
        ensures { result ≡ hl self.now }
    {
        u16::from_be_bytes([self.h, self.l])
    }

    #[inline(always)]
    pub fn set_af(&mut self, word: u16)
        ensures { self.new ≡ with_af word self.old }
    {
        let [high, low] = word.to_be_bytes();
        self.a = high;
        self.flags = Flags::from_byte(low);
    }

    #[inline(always)]
    pub fn set_bc(&mut self, word: u16)
        ensures { self.new ≡ with_bc word self.old }
    {
        let [low, high] = word.to_le_bytes();
        self.c = low;
        self.b = high;
    }

    #[inline(always)]
    pub fn set_de(&mut self, word: u16)
        ensures { self.new ≡ with_de word self.old }
    {
        let [low, high] = word.to_le_bytes();
        self.e = low;
        self.d = high;
    }

    #[inline(always)]
    pub fn set_hl(&mut self, word: u16)
        ensures { self.new ≡ with_hl word self.old }
    {
        let [low, high] = word.to_le_bytes();
        self.l = low;
        self.h = high;
    }
}

/// All registers of the processor.
#[derive(Clone, Copy, Debug, PartialEq, Eq)]
pub struct Cpu {
    /// A, F, B, C, D, E, H and L.
    pub main: Registers,
    /// A', F', B' .. L'.
    pub shadow: Registers,
    pub ix: u16,
    pub iy: u16,
    /// The address of the top of the stack.
    pub sp: u16,
    /// The address of the next instruction.
    pub pc: u16,
    pub i: u8,
    pub r: u8,
    /// The first interrupt flip-flop: whether interrupts are allowed.
    pub iff1: bool,
    /// The second interrupt flip-flop, which keeps the first one during a non-maskable interrupt.
    pub iff2: bool,
    pub mode: InterruptMode,
}

impl Cpu {
    ghost use Rattle.std.specs.Prelude.{◌≡◌};
    ghost use Rattle.z80_cpu.specs.Cleared.{cleared};

    /// Every register is 0, and interrupts are not allowed, in mode 0.
    pub fn new() -> Cpu
        ensures { result ≡ cleared }
    {
        Cpu {
            main: Registers::default(),
            shadow: Registers::default(),
            ix: 0,
            iy: 0,
            sp: 0,
            pc: 0,
            i: 0,
            r: 0,
            iff1: false,
            iff2: false,
            mode: InterruptMode::Zero,
        }
    }
}

impl Default for Cpu {
    ghost use Rattle.std.specs.Prelude.{◌≡◌};
    ghost use Rattle.z80_cpu.specs.Cleared.{cleared};

    /// Every register is 0, and interrupts are not allowed, in mode 0, as in [`Cpu::new`].
    fn default() -> Cpu
        ensures { result ≡ cleared }
    {
        Cpu::new()
    }
}
