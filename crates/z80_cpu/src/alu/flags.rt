//! The flag register F.

/// The flags. Bits 5 and 3 of F have no meaning; only `POP AF` and `EX AF,AF'` change them.
#[derive(Clone, Copy, Debug, Default, PartialEq, Eq)]
pub struct Flags {
    /// S, bit 7: the result is negative.
    pub sign: bool,
    /// Z, bit 6: the result is 0.
    pub zero: bool,
    pub bit_5: bool,
    /// H, bit 4: a carry or a borrow of the low digit.
    pub half_carry: bool,
    pub bit_3: bool,
    /// P/V, bit 2: the result has even parity, or it overflowed.
    pub parity_overflow: bool,
    /// N, bit 1: the operation subtracted.
    pub subtract: bool,
    /// C, bit 0: a carry or a borrow.
    pub carry: bool,
}

impl Flags {
    ghost use Rattle.std.specs.Prelude.{◌≡◌};
    ghost use Rattle.z80_cpu.specs.Alu.Flags.{byte_of, flags_of};

    /// The flags in a byte F.
    #[inline(always)]
    pub fn from_byte(byte: u8) -> Flags
        ensures { result ≡ flags_of byte }
    {
        Flags {
            sign: byte & 0x80 != 0,
            zero: byte & 0x40 != 0,
            bit_5: byte & 0x20 != 0,
            half_carry: byte & 0x10 != 0,
            bit_3: byte & 0x08 != 0,
            parity_overflow: byte & 0x04 != 0,
            subtract: byte & 0x02 != 0,
            carry: byte & 0x01 != 0,
        }
    }

    /// The byte F: S Z 5 H 3 P/V N C from bit 7 down.
    #[inline(always)]
    pub fn to_byte(self) -> u8
        ensures { result ≡ byte_of self }
    {
        (self.sign as u8) << 7
            | (self.zero as u8) << 6
            | (self.bit_5 as u8) << 5
            | (self.half_carry as u8) << 4
            | (self.bit_3 as u8) << 3
            | (self.parity_overflow as u8) << 2
            | (self.subtract as u8) << 1
            | self.carry as u8
    }
}
