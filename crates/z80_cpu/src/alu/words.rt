//! The 16-bit arithmetic group.

use crate::alu::bits::{
    add_overflows_word, half_carries_word, is_negative_word, subtract_overflows_word,
};
use crate::alu::flags::Flags;

impl Flags {
    ghost use Rattle.std.specs.Prelude.{◌≡◌, false};
    ghost use Rattle.z80_cpu.specs.Alu.Words.{word_sum_of, add_word_flags, adc_word_flags, word_difference_of, sbc_word_flags};

    /// ADD HL, ADD IX and ADD IY: a + b, plus 1 if `carry` is set. S, Z and P/V are kept.
    #[inline(always)]
    pub fn add_word(&mut self, a: u16, b: u16, carry: bool) -> u16
        ensures value { result ≡ word_sum_of a b carry }
        ensures flags { self.new ≡ add_word_flags a b carry self.old }
    {
        let sum = a as u32 + b as u32 + carry as u32;
        let value = (sum & 0xFFFF) as u16;
        self.half_carry = half_carries_word(a, b, value);
        self.subtract = false;
        self.carry = sum > 0xFFFF;
        value
    }

    /// ADC HL: a + b and C.
    #[inline(always)]
    pub fn adc_word(&mut self, a: u16, b: u16) -> u16
        ensures value { result ≡ word_sum_of a b self.old.carry }
        ensures flags { self.new ≡ adc_word_flags a b self.old.carry self.old }
    {
        let value = self.add_word(a, b, self.carry);
        self.sign = is_negative_word(value);
        self.zero = value == 0;
        self.parity_overflow = add_overflows_word(a, b, value);
        value
    }

    /// SBC HL: a - b - C.
    #[inline(always)]
    pub fn sbc_word(&mut self, a: u16, b: u16) -> u16
        ensures value { result ≡ word_difference_of a b self.old.carry }
        ensures flags { self.new ≡ sbc_word_flags a b self.old.carry self.old }
    {
        let difference = 0x1_0000 + a as u32 - (b as u32 + self.carry as u32);
        let value = (difference & 0xFFFF) as u16;
        self.sign = is_negative_word(value);
        self.zero = value == 0;
        self.half_carry = half_carries_word(a, b, value);
        self.parity_overflow = subtract_overflows_word(a, b, value);
        self.subtract = true;
        self.carry = difference < 0x1_0000;
        value
    }
}
