//! The rotate and shift group, and the bit set, reset and test group.
ghost use Rattle.std.specs.Prelude.{◌≡◌};
ghost use Rattle.z80_cpu.specs.Alu.Rotations as rotations;
ghost use Rattle.z80_cpu.specs.Alu.Rotations.{highest_bit, lowest_bit, shifted_left, shifted_right};

use crate::alu::flags::Flags;
use z80_instr::{Octal, Rotation};

impl Flags {
    ghost use Rattle.std.specs.Prelude.{◌≡◌, false};
    ghost use Rattle.z80_cpu.specs.Alu.Rotations.{rotated, bit_out, rotate_accumulator_flags, rotate_flags, rld_byte, rld_accumulator, rrd_byte, rrd_accumulator, bit_flags};
    ghost use Rattle.z80_cpu.specs.Alu.Bytes.{parity_flags};

    /// RLCA, RRCA, RLA and RRA. `rotation` is the one with the same name but for the A.
    #[inline(always)]
    pub fn rotate_accumulator(&mut self, rotation: Rotation, value: u8) -> u8
        ensures value { result ≡ rotated rotation value self.old.carry }
        ensures flags { self.new ≡ rotate_accumulator_flags rotation value self.old }
    {
        let outcome = rotated(rotation, value, self.carry);
        self.half_carry = false;
        self.subtract = false;
        self.carry = bit_out(rotation, value);
        outcome
    }

    /// A rotation or a shift.
    #[inline(always)]
    pub fn rotate(&mut self, rotation: Rotation, value: u8) -> u8
        ensures value { result ≡ rotated rotation value self.old.carry }
        ensures flags { self.new ≡ rotate_flags rotation value self.old }
    {
        let outcome = rotated(rotation, value, self.carry);
        self.set_parity(outcome, false);
        self.carry = bit_out(rotation, value);
        outcome
    }

    /// RLD: moves the two digits of the byte and the low digit of A one place to the left, in a circle.
    #[inline(always)]
    pub fn rotate_digits_left(&mut self, a: u8, value: u8) -> (u8, u8)
        ensures accumulator { result.0 ≡ rld_accumulator a value }
        ensures byte { result.1 ≡ rld_byte a value }
        ensures flags { self.new ≡ parity_flags (rld_accumulator a value) false self.old }
    {
        let accumulator = a & 0xF0 | value >> 4;
        self.set_parity(accumulator, false);
        (accumulator, value << 4 | a & 0x0F)
    }

    /// RRD: moves the two digits of the byte and the low digit of A one place to the right, in a circle.
    #[inline(always)]
    pub fn rotate_digits_right(&mut self, a: u8, value: u8) -> (u8, u8)
        ensures accumulator { result.0 ≡ rrd_accumulator a value }
        ensures byte { result.1 ≡ rrd_byte a value }
        ensures flags { self.new ≡ parity_flags (rrd_accumulator a value) false self.old }
    {
        let accumulator = a & 0xF0 | value & 0x0F;
        self.set_parity(accumulator, false);
        (accumulator, a << 4 | value >> 4)
    }

    /// BIT.
    #[inline(always)]
    pub fn test_bit(&mut self, bit: Octal, value: u8)
        ensures { self.new ≡ bit_flags bit value self.old }
    {
        self.zero = value & 1 << bit.number() == 0;
        self.half_carry = true;
        self.subtract = false;
    }
}

/// SET.
#[inline(always)]
pub fn set_bit(bit: Octal, value: u8) -> u8
    ensures { result ≡ rotations.set_bit bit value }
{
    value | 1 << bit.number()
}

/// RES.
#[inline(always)]
pub fn reset_bit(bit: Octal, value: u8) -> u8
    ensures { result ≡ rotations.reset_bit bit value }
{
    value & !(1 << bit.number())
}

#[inline(always)]
fn rotated(rotation: Rotation, value: u8, carry: bool) -> u8
    ensures { result ≡ rotations.rotated rotation value carry }
{
    match rotation {
        Rotation::Rlc => shifted_left(value, highest_bit(value)),
        Rotation::Rrc => shifted_right(value, lowest_bit(value)),
        Rotation::Rl => shifted_left(value, carry),
        Rotation::Rr => shifted_right(value, carry),
        Rotation::Sla => shifted_left(value, false),
        Rotation::Sra => shifted_right(value, highest_bit(value)),
        Rotation::Srl => shifted_right(value, false),
    }
}

/// The bit that a rotation or shift moves out, which becomes C.
#[inline(always)]
fn bit_out(rotation: Rotation, value: u8) -> bool
    ensures { result ≡ rotations.bit_out rotation value }
{
    match rotation {
        Rotation::Rlc | Rotation::Rl | Rotation::Sla => highest_bit(value),
        Rotation::Rrc | Rotation::Rr | Rotation::Sra | Rotation::Srl => lowest_bit(value),
    }
}

#[inline(always)]
fn shifted_left(value: u8, bit_in: bool) -> u8
    ensures { result ≡ shifted_left value bit_in }
{
    value << 1 | bit_in as u8
}

#[inline(always)]
fn shifted_right(value: u8, bit_in: bool) -> u8
    ensures { result ≡ shifted_right value bit_in }
{
    (bit_in as u8) << 7 | value >> 1
}

#[inline(always)]
fn highest_bit(value: u8) -> bool
    ensures { result ≡ highest_bit value }
{
    value & 0x80 != 0
}

#[inline(always)]
fn lowest_bit(value: u8) -> bool
    ensures { result ≡ lowest_bit value }
{
    value & 0x01 != 0
}
