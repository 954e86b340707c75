//! Cuts data into lines of the text.

ghost use Rattle.std.specs.Prelude.{◌≤◌, length};

/// The fewest printable characters that are written as a string.
const FEWEST_CHARACTERS: usize = 4;

/// How many characters of a longer string are on one line. A line with them has at most 255 bytes, even if each is a quote and written twice.
const MOST_CHARACTERS: usize = 40;

/// The fewest bytes of zero that are written as `DS`.
pub(crate) const FEWEST_ZEROS: usize = 16;

/// How many numbers are on one line.
const MOST_NUMBERS: usize = 8;

/// The most bytes that have to be looked at to find how many a line has: a string that is not cut, numbers, and zeros after them.
pub(crate) const MOST_SEEN: usize = MOST_CHARACTERS
    + FEWEST_CHARACTERS
    + MOST_NUMBERS
    + FEWEST_ZEROS;

fn is_printable(byte: u8) -> bool {
    matches!(byte, 0x20..=0x7E)
}

/// How many characters of the string at the front are on one line, if the bytes begin with a string.
pub(crate) fn string_len(bytes: &[u8]) -> usize
    ensures { result ≤ length bytes.now }
{
    let most = MOST_CHARACTERS + FEWEST_CHARACTERS;
    let len = bytes
        .iter()
        .take(most)
        .take_while(|b| is_printable(**b))
        .count();
    if len < FEWEST_CHARACTERS {
        0
    } else if len < most {
        len
    } else {
        MOST_CHARACTERS
    }
}

/// How many bytes of zero are at the front.
pub(crate) fn zero_len(bytes: &[u8]) -> usize {
    bytes.iter().take_while(|b| **b == 0).count()
}

/// Whether a line of its own begins with these bytes.
fn begins_line(bytes: &[u8]) -> bool {
    string_len(bytes) > 0 || zero_len(bytes) >= FEWEST_ZEROS
}

/// How many bytes at the front are on one line: a string and the numbers after it, at least one byte.
pub(crate) fn line_len(bytes: &[u8]) -> usize {
    let from = string_len(bytes);
    let mut len = from;
    for _ in 0..MOST_NUMBERS {
        match bytes.get(len..) {
            Some(rest) if !rest.is_empty() && (len == 0 || !begins_line(rest)) => len += 1,
            _ => return len,
        }
    }
    len
}
