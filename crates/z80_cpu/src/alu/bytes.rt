//! The 8-bit arithmetic group.

use crate::alu::bits::{
    add_overflows, half_carries, has_even_parity, is_negative, subtract_overflows,
};
use crate::alu::flags::Flags;
use z80_instr::AluOperation;

impl Flags {
    ghost use Rattle.std.specs.Prelude.{◌≡◌, false, bit_and, bit_or, bit_xor};
    ghost use Rattle.z80_cpu.specs.Alu.Bytes.{sum_of, add_flags, difference_of, subtract_flags, parity_flags, logic_flags, accumulator_after, operation_flags, increment_flags, decrement_flags};

    /// ADD and ADC: a + b, plus 1 if `carry` is set.
    #[inline(always)]
    pub fn add(&mut self, a: u8, b: u8, carry: bool) -> u8
        ensures value { result ≡ sum_of a b carry }
        ensures flags { self.new ≡ add_flags a b carry self.old }
    {
        let sum = a as u16 + b as u16 + carry as u16;
        let value = (sum & 0xFF) as u8;
        self.sign = is_negative(value);
        self.zero = value == 0;
        self.half_carry = half_carries(a, b, value);
        self.parity_overflow = add_overflows(a, b, value);
        self.subtract = false;
        self.carry = sum > 0xFF;
        value
    }

    /// SUB, SBC, CP and NEG: a - b, minus 1 if `borrow` is set.
    #[inline(always)]
    pub fn subtract(&mut self, a: u8, b: u8, borrow: bool) -> u8
        ensures value { result ≡ difference_of a b borrow }
        ensures flags { self.new ≡ subtract_flags a b borrow self.old }
    {
        let difference = 0x100 + a as u16 - (b as u16 + borrow as u16);
        let value = (difference & 0xFF) as u8;
        self.sign = is_negative(value);
        self.zero = value == 0;
        self.half_carry = half_carries(a, b, value);
        self.parity_overflow = subtract_overflows(a, b, value);
        self.subtract = true;
        self.carry = difference < 0x100;
        value
    }

    /// Sets S, Z and P for a value, N to 0 and H as given; C is kept.
    #[inline(always)]
    pub fn set_parity(&mut self, value: u8, half_carry: bool)
        ensures { self.new ≡ parity_flags value half_carry self.old }
    {
        self.sign = is_negative(value);
        self.zero = value == 0;
        self.half_carry = half_carry;
        self.parity_overflow = has_even_parity(value);
        self.subtract = false;
    }

    /// Sets the flags for AND, XOR and OR.
    #[inline(always)]
    pub fn set_logic(&mut self, value: u8, half_carry: bool)
        ensures { self.new ≡ logic_flags value half_carry self.old }
    {
        self.set_parity(value, half_carry);
        self.carry = false;
    }

    /// An operation on A and a byte. Answers what A is after it.
    #[inline(always)]
    pub fn operate(&mut self, operation: AluOperation, a: u8, b: u8) -> u8
        ensures value { result ≡ accumulator_after operation a b self.old }
        ensures flags { self.new ≡ operation_flags operation a b self.old }
    {
        let carry = self.carry;
        match operation {
            AluOperation::Add => self.add(a, b, false),
            AluOperation::Adc => self.add(a, b, carry),
            AluOperation::Sub => self.subtract(a, b, false),
            AluOperation::Sbc => self.subtract(a, b, carry),
            AluOperation::And => {
                self.set_logic(a & b, true);
                a & b
            }
            AluOperation::Xor => {
                self.set_logic(a ^ b, false);
                a ^ b
            }
            AluOperation::Or => {
                self.set_logic(a | b, false);
                a | b
            }
            AluOperation::Cp => {
                let _difference = self.subtract(a, b, false);
                a
            }
        }
    }

    /// INC of a byte.
    #[inline(always)]
    pub fn increment(&mut self, value: u8) -> u8
        ensures value { result ≡ sum_of value 1 false }
        ensures flags { self.new ≡ increment_flags value self.old }
    {
        let carry = self.carry;
        let sum = self.add(value, 1, false);
        self.carry = carry;
        sum
    }

    /// DEC of a byte.
    #[inline(always)]
    pub fn decrement(&mut self, value: u8) -> u8
        ensures value { result ≡ difference_of value 1 false }
        ensures flags { self.new ≡ decrement_flags value self.old }
    {
        let carry = self.carry;
        let difference = self.subtract(value, 1, false);
        self.carry = carry;
        difference
    }
}
