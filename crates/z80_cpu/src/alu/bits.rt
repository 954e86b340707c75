//! Tests of bits, from which the flags of a result follow.
ghost use Rattle.std.specs.Prelude.{◌≡◌, ◌+◌, ◌-◌, ◌%◌, Bool, pos, ◌+ℤ◌, ◌-ℤ◌, nat_le, nat_lt};
ghost use Rattle.std.specs.Int.{w8, w16, cast_signed, from_bool};
ghost use Rattle.z80_cpu.specs.Alu.Flags.{is_negative_byte, is_negative_word, has_even_parity, overflows};
ghost use Rattle.z80_cpu.specs.Alu.Bytes.{sum_of, difference_of};
ghost use Rattle.z80_cpu.specs.Alu.Words.{word_sum_of, word_difference_of};

#[inline(always)]
pub(crate) fn is_negative(value: u8) -> bool
    ensures { result ≡ is_negative_byte value }
{
    value & 0x80 != 0
}

#[inline(always)]
pub(crate) fn has_even_parity(value: u8) -> bool
    ensures { result ≡ has_even_parity value }
{
    value.count_ones() & 1 == 0
}

/// Whether the low digit had a carry or a borrow: bit 4 of the result differs from what it is without one.
#[inline(always)]
pub(crate) fn half_carries(a: u8, b: u8, value: u8) -> bool
    ensures adding { (carry : Bool) → value ≡ sum_of a b carry →
        result ≡ nat_le 16 (a % 16 + b % 16 + from_bool carry) }
    ensures subtracting { (borrow : Bool) → value ≡ difference_of a b borrow →
        result ≡ nat_lt (a % 16) (b % 16 + from_bool borrow) }
{
    (a ^ b ^ value) & 0x10 != 0
}

/// Whether a sum is outside -128 to 127: a and b have the same sign, and the sum has the other.
#[inline(always)]
pub(crate) fn add_overflows(a: u8, b: u8, sum: u8) -> bool
    ensures { (carry : Bool) → sum ≡ sum_of a b carry →
        result ≡ overflows 128 (cast_signed w8 a +ℤ cast_signed w8 b +ℤ pos (from_bool carry)) }
{
    (a ^ sum) & (b ^ sum) & 0x80 != 0
}

/// Whether a difference is outside -128 to 127: b and the difference have the same sign, and a has the other.
#[inline(always)]
pub(crate) fn subtract_overflows(a: u8, b: u8, difference: u8) -> bool
    ensures { (borrow : Bool) → difference ≡ difference_of a b borrow →
        result ≡ overflows 128 (cast_signed w8 a -ℤ cast_signed w8 b -ℤ pos (from_bool borrow)) }
{
    (a ^ b) & (a ^ difference) & 0x80 != 0
}

pub(crate) fn is_negative_word(value: u16) -> bool
    ensures { result ≡ is_negative_word value }
{
    value & 0x8000 != 0
}

/// Whether the low 12 bits had a carry or a borrow: bit 12 of the result differs from what it is without one.
#[inline(always)]
pub(crate) fn half_carries_word(a: u16, b: u16, value: u16) -> bool
    ensures adding { (carry : Bool) → value ≡ word_sum_of a b carry →
        result ≡ nat_le 4096 (a % 4096 + b % 4096 + from_bool carry) }
    ensures subtracting { (borrow : Bool) → value ≡ word_difference_of a b borrow →
        result ≡ nat_lt (a % 4096) (b % 4096 + from_bool borrow) }
{
    (a ^ b ^ value) & 0x1000 != 0
}

pub(crate) fn add_overflows_word(a: u16, b: u16, sum: u16) -> bool
    ensures { (carry : Bool) → sum ≡ word_sum_of a b carry →
        result ≡ overflows 32768 (cast_signed w16 a +ℤ cast_signed w16 b +ℤ pos (from_bool carry)) }
{
    (a ^ sum) & (b ^ sum) & 0x8000 != 0
}

pub(crate) fn subtract_overflows_word(a: u16, b: u16, difference: u16) -> bool
    ensures { (borrow : Bool) → difference ≡ word_difference_of a b borrow →
        result ≡ overflows 32768 (cast_signed w16 a -ℤ cast_signed w16 b -ℤ pos (from_bool borrow)) }
{
    (a ^ b) & (a ^ difference) & 0x8000 != 0
}
