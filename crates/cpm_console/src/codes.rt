//! What a byte does to the screen of a terminal of CP/M's time.

ghost use Rattle.std.specs.Prelude.{◌≡◌, option_map};
ghost use Rattle.cpm_console.specs.Codes.{adm3a_control, adm3a_escape, is_attribute, next_after_escape, vt52_escape};

pub(crate) const ESCAPE: u8 = 0x1B;

/// Whose screen codes a program prints.
#[derive(Clone, Copy, Debug, PartialEq, Eq)]
pub enum Codes {
    /// Nobody's: each byte is shown as it is.
    Plain,
    /// Those that the ADM-3A, the Kaypro, the Osborne 1 and the terminals of TeleVideo share.
    Adm3a,
    /// Those of the VT52 and of the Heath H19.
    Vt52,
}

/// What the bytes so far have begun.
#[derive(Clone, Copy, Debug, PartialEq, Eq)]
pub enum Pending {
    Nothing,
    /// An escape sequence.
    Escape,
    /// A cursor address. Its line is the next byte.
    Line,
    /// A cursor address with this byte for its line. Its column is the next byte.
    Column(u8),
    /// A sequence that has no meaning here. One more byte belongs to it.
    Rest,
    /// The same, but a byte that is no attribute does not belong to it.
    Attribute,
}

/// What is shown for a byte outside of a sequence that is a control code of the ADM-3A and means something else today.
pub(crate) fn adm3a_control(byte: u8) -> Option<&'static [u8]>
    ensures { option_map (λ text. text.now) result ≡ adm3a_control byte }
{
    match byte {
        0x0B => Some(b"\x1b[A"),
        0x0C => Some(b"\x1b[C"),
        0x17 => Some(b"\x1b[J"),
        0x18 => Some(b"\x1b[K"),
        0x1A => Some(b"\x1b[H\x1b[2J"),
        0x1E => Some(b"\x1b[H"),
        _ => None,
    }
}

/// What is shown for an escape sequence of two bytes of those terminals, by its second byte.
pub(crate) fn adm3a_escape(byte: u8) -> &'static [u8]
    ensures { result.now ≡ adm3a_escape byte }
{
    match byte {
        b'T' | b't' => b"\x1b[K",
        b'Y' | b'y' => b"\x1b[J",
        b'*' | b'+' | b',' | b':' | b';' => b"\x1b[H\x1b[2J",
        b'E' => b"\x1b[L",
        b'R' => b"\x1b[M",
        b'Q' => b"\x1b[@",
        b'W' => b"\x1b[P",
        b')' => b"\x1b[2m",
        b'(' => b"\x1b[22m",
        b'j' => b"\x1b[7m",
        b'k' => b"\x1b[27m",
        b'l' => b"\x1b[4m",
        b'm' => b"\x1b[24m",
        _ => b"",
    }
}

/// What is shown for an escape sequence of two bytes of the VT52 or the H19, by its second byte.
pub(crate) fn vt52_escape(byte: u8) -> &'static [u8]
    ensures { result.now ≡ vt52_escape byte }
{
    match byte {
        b'A' => b"\x1b[A",
        b'B' => b"\x1b[B",
        b'C' => b"\x1b[C",
        b'D' => b"\x1b[D",
        b'E' => b"\x1b[H\x1b[2J",
        b'H' => b"\x1b[H",
        b'I' => b"\x1bM",
        b'J' => b"\x1b[J",
        b'K' => b"\x1b[K",
        b'L' => b"\x1b[L",
        b'M' => b"\x1b[M",
        b'p' => b"\x1b[7m",
        b'q' => b"\x1b[27m",
        _ => b"",
    }
}

/// What the second byte of an escape sequence begins.
pub(crate) fn next_after_escape(codes: Codes, byte: u8) -> Pending
    ensures { result ≡ next_after_escape codes byte }
{
    match (codes, byte) {
        (Codes::Plain, _) => Pending::Nothing,
        (_, ESCAPE) => Pending::Escape,
        (Codes::Adm3a, b'=') | (Codes::Vt52, b'Y') => Pending::Line,
        (Codes::Adm3a, b'B' | b'C' | b'.') | (Codes::Vt52, b'x' | b'y') => Pending::Rest,
        (Codes::Adm3a, b'G') => Pending::Attribute,
        _ => Pending::Nothing,
    }
}

/// Whether a byte is an attribute of the terminals of TeleVideo, one of the characters from `0` to `?`.
pub(crate) fn is_attribute(byte: u8) -> bool
    ensures { result ≡ is_attribute byte }
{
    (b'0'..=b'?').contains(&byte)
}
