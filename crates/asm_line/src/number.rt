//! The value of a number.

ghost use Rattle.std.specs.Prelude.{◌≡◌, ◌≤◌, slice_index, true};
ghost use Rattle.std.specs.Char.{is_ascii_digit, to_ascii_uppercase};
ghost use Rattle.asm_line.specs.Numbers.{base_of_letter, number_of, value_in};

/// The base that the last letter of a number names, if it names one.
fn base_of_letter(letter: u8) -> Option<u32>
    ensures { result ≡ base_of_letter (to_ascii_uppercase letter) }
{
    match letter.to_ascii_uppercase() {
        b'H' => Some(16),
        b'B' => Some(2),
        b'O' | b'Q' => Some(8),
        b'D' => Some(10),
        _ => None,
    }
}

/// The value of the digits; None if one is no digit of the base, or if the value does not fit into 16 bits.
fn value_in(base: u32, digits: &[u8]) -> Option<u16>
    requires low { 2 ≤ base }
    requires high { base ≤ 16 }
    requires begun { is_ascii_digit (slice_index digits.now 0) ≡ true }
    ensures { result ≡ value_in base digits.now }
{
    let digits = str::from_utf8(digits).ok()?;
    u16::from_str_radix(digits, base).ok()
}

/// The value of a number's text; None if it has no value.
pub(crate) fn number_of(text: &[u8]) -> Option<u16>
    requires { is_ascii_digit (slice_index text.now 0) ≡ true }
    ensures { result ≡ number_of text.now }
{
    let last = text.len() - 1;
    match base_of_letter(text[last]) {
        Some(base) => value_in(base, &text[..last]),
        None => value_in(10, text),
    }
}
