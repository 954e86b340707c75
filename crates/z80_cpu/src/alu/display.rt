//! The flags as letters.

use crate::alu::flags::Flags;
use std::fmt;

/// `SZ5H3PNC`, from bit 7 down, with `-` for a flag that is 0.
impl fmt::Display for Flags {
    fn fmt<W: fmt::Write>(&self, f: &mut fmt::Formatter<W>) -> fmt::Result {
        let letters = [
            (self.sign, "S"),
            (self.zero, "Z"),
            (self.bit_5, "5"),
            (self.half_carry, "H"),
            (self.bit_3, "3"),
            (self.parity_overflow, "P"),
            (self.subtract, "N"),
            (self.carry, "C"),
        ];
        for (set, letter) in letters {
            write!(f, "{}", if set { letter } else { "-" })?;
        }
        Ok(())
    }
}
