//! Reads and writes lines, and the numbers in them.

ghost use Rattle.std.specs.Prelude.{◌≡◌, ◌≢◌, ◌<◌, ◌∷◌, ◌++◌, ℕ, List, [], length, decimal, true, IfSome, MatchOption, OnOk};
ghost use Rattle.std.specs.List.{list_all};
ghost use Rattle.std.specs.Char.{is_ascii_digit};
ghost use Rattle.cert_check.specs.Lines.{line_feed};
ghost use Rattle.cert_check.specs.Private.Reading.{IsNumbered, IsPlain, IsTarget, is_number};

use itoa::Buffer;
use std::alloc::AllocError;

/// Answers the first whole line, without its line feed, and what follows it.
pub(crate) fn first_line(text: &[u8]) -> Option<(&[u8], &[u8])>
    ensures line { MatchOption result (IsPlain text.now)
        (λ found. IsPlain found.0.now × (text.now ≡ found.0.now ++ line_feed ∷ found.1.now)) }
    ensures shorter { IfSome result (λ found. length found.1.now < length text.now) }
{
    let len = text.iter().take_while(|b| **b != b'\n').count();
    let (line, rest) = text.split_at(len);
    match rest {
        [_, behind @ ..] => Some((line, behind)),
        [] => None,
    }
}

/// Answers what follows the header, if the file begins with it.
pub(crate) fn behind<'a>(header: &[u8], text: &'a [u8]) -> Option<&'a [u8]>
    ensures { MatchOption result ((rest : List ℕ) → text.now ≢ header.now ++ rest)
        (λ rest. text.now ≡ header.now ++ rest.now) }
{
    text.strip_prefix(header)
}

fn are_digits(bytes: &[u8]) -> bool
    ensures { result ≡ list_all is_ascii_digit bytes.now }
{
    bytes.iter().all(|b| b.is_ascii_digit())
}

/// Whether these are the digits of a number: decimal digits; the first is not 0 unless it is the only one.
fn is_number(digits: &[u8]) -> bool
    ensures { result ≡ is_number digits.now }
{
    if digits.is_empty() {
        return false;
    }
    if digits[0] == b'0' {
        return digits.len() == 1;
    }
    are_digits(digits)
}

/// Answers the number that the digits are, if it is below 2^32.
fn value(digits: &[u8]) -> Option<u32>
    requires { is_number digits.now ≡ true }
    ensures { IsNumbered [] digits.now result }
{
    let text = str::from_utf8(digits).ok()?;
    text.parse().ok()
}

/// Answers the number after a word, if the line has nothing else and the number is below 2^32.
pub(crate) fn numbered(word: &[u8], line: &[u8]) -> Option<u32>
    ensures { IsNumbered word.now line.now result }
{
    let digits = behind(word, line)?;
    if !is_number(digits) {
        return None;
    }
    value(digits)
}

/// Answers the number after a word, if the line has nothing else; u32::MAX if the number is greater than that.
pub(crate) fn target(word: &[u8], line: &[u8]) -> Option<u32>
    ensures { IsTarget word.now line.now result }
{
    let digits = behind(word, line)?;
    if !is_number(digits) {
        return None;
    }
    Some(value(digits).unwrap_or(u32::MAX))
}

/// Appends a line of a word and a number.
pub(crate) fn push_line(text: &mut Vec<u8>, word: &[u8], number: u32) -> Result<(), AllocError>
    ensures { OnOk result (text.new.items ≡ text.old.items ++ word.now ++ decimal number ++ line_feed ∷ []) }
{
    text.extend_from_slice(word)?;
    text.extend_from_slice(Buffer::new().format(number).as_bytes())?;
    text.extend_from_slice(b"\n")
}
