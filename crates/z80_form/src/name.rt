//! The words that are operands.

ghost use Rattle.std.specs.Prelude.{◌≡◌, ◌↔◌, Some};
ghost use Rattle.z80_form.specs.Types.{Name};
ghost use Rattle.z80_form.specs.Words.{upper_letters, operand_word};
ghost use Rattle.z80_form.specs.Named.{name_named};
ghost use Rattle.z80_form.specs.Private.Lists.{name_read};

use crate::buffer::Buffer;

/// A word that is an operand by itself: a register or a condition. `C` is both.
#[derive(Clone, Copy, Debug, PartialEq, Eq)]
pub enum Name {
    A,
    B,
    C,
    D,
    E,
    H,
    L,
    I,
    R,
    Af,
    /// `AF'`
    OtherAf,
    Bc,
    De,
    Hl,
    Ix,
    Iy,
    Sp,
    Nz,
    Z,
    Nc,
    Po,
    Pe,
    P,
    M,
}

/// The register or condition that a word is, in upper or lower case.
pub fn name_of(word: &[u8]) -> Option<Name>
    ensures spelled { (n : Name) → (result ≡ Some n) ↔ (upper_letters word.now ≡ operand_word n) }
    ensures named { result ≡ name_named word.now }
{
    let buffer = Buffer::upper(word)?;
    read(buffer.as_slice())
}

/// The register or condition that a word in upper case is.
fn read(word: &[u8]) -> Option<Name>
    ensures { result ≡ name_read word.now }
{
    match word {
        [b'A'] => Some(Name::A),
        [b'B'] => Some(Name::B),
        [b'C'] => Some(Name::C),
        [b'D'] => Some(Name::D),
        [b'E'] => Some(Name::E),
        [b'H'] => Some(Name::H),
        [b'L'] => Some(Name::L),
        [b'I'] => Some(Name::I),
        [b'R'] => Some(Name::R),
        [b'Z'] => Some(Name::Z),
        [b'P'] => Some(Name::P),
        [b'M'] => Some(Name::M),
        b"AF" => Some(Name::Af),
        b"AF'" => Some(Name::OtherAf),
        b"BC" => Some(Name::Bc),
        b"DE" => Some(Name::De),
        b"HL" => Some(Name::Hl),
        b"IX" => Some(Name::Ix),
        b"IY" => Some(Name::Iy),
        b"SP" => Some(Name::Sp),
        b"NZ" => Some(Name::Nz),
        b"NC" => Some(Name::Nc),
        b"PO" => Some(Name::Po),
        b"PE" => Some(Name::Pe),
        _ => None,
    }
}
