//! Numbers of three bits.

use crate::Octal;

impl Octal {
    ghost use Rattle.std.specs.Prelude.{◌≡◌, ◌<◌};
    ghost use Rattle.z80_instr.specs.Table.{octal_code, octal_of};

    /// This value as a number.
    pub fn number(self) -> u8
        ensures code { result ≡ octal_code self }
        ensures small { result < 8 }
    {
        match self {
            Octal::Zero => 0,
            Octal::One => 1,
            Octal::Two => 2,
            Octal::Three => 3,
            Octal::Four => 4,
            Octal::Five => 5,
            Octal::Six => 6,
            Octal::Seven => 7,
        }
    }

    /// A number below 8 as a value of this type.
    pub fn from_number(number: u8) -> Octal
        requires { number < 8 }
        ensures octal { result ≡ octal_of number }
        ensures code { octal_code result ≡ number }
    {
        match number {
            0 => Octal::Zero,
            1 => Octal::One,
            2 => Octal::Two,
            3 => Octal::Three,
            4 => Octal::Four,
            5 => Octal::Five,
            6 => Octal::Six,
            7 => Octal::Seven,
            _ => unreachable!(),
        }
    }
}
