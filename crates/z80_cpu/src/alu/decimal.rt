//! DAA, CPL, SCF and CCF.

use crate::alu::bits::{has_even_parity, is_negative};
use crate::alu::flags::Flags;

impl Flags {
    ghost use Rattle.std.specs.Prelude.{◌≡◌};
    ghost use Rattle.z80_cpu.specs.Alu.Bytes.{correction, adjusted, adjust_flags, complemented, complement_flags, set_carry_flags, complement_carry_flags};

    /// DAA: A becomes the decimal result of the last operation.
    #[inline(always)]
    pub fn adjust(&mut self, a: u8) -> u8
        ensures value { result ≡ adjusted a self.old }
        ensures flags { self.new ≡ adjust_flags a self.old }
    {
        let value = self.adjusted(a);
        self.sign = is_negative(value);
        self.zero = value == 0;
        self.half_carry = (a ^ value) & 0x10 != 0;
        self.parity_overflow = has_even_parity(value);
        self.carry |= a > 0x99;
        value
    }

    #[inline(always)]
    fn adjusted(&self, a: u8) -> u8
        ensures { result ≡ adjusted a self.now }
    {
        let correction = self.correction(a);
        if self.subtract {
            a.wrapping_sub(correction)
        } else {
            a.wrapping_add(correction)
        }
    }

    /// What DAA adds to A, or subtracts if N is set.
    #[inline(always)]
    fn correction(&self, a: u8) -> u8
        ensures { result ≡ correction a self.now }
    {
        let low = if self.half_carry || a & 0x0F > 9 {
            0x06
        } else {
            0
        };
        let high = if self.carry || a > 0x99 { 0x60 } else { 0 };
        low + high
    }

    /// CPL: every bit of A is inverted.
    #[inline(always)]
    pub fn complement(&mut self, a: u8) -> u8
        ensures value { result ≡ complemented a }
        ensures flags { self.new ≡ complement_flags self.old }
    {
        self.half_carry = true;
        self.subtract = true;
        !a
    }

    /// SCF.
    #[inline(always)]
    pub fn set_carry(&mut self)
        ensures { self.new ≡ set_carry_flags self.old }
    {
        self.half_carry = false;
        self.subtract = false;
        self.carry = true;
    }

    /// CCF.
    #[inline(always)]
    pub fn complement_carry(&mut self)
        ensures { self.new ≡ complement_carry_flags self.old }
    {
        self.half_carry = self.carry;
        self.subtract = false;
        self.carry = !self.carry;
    }
}
