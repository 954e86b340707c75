//! The words after a command, as CP/M gives them to the program.

ghost use Rattle.std.specs.Prelude.{◌≡◌, ◌≤◌, ◌∷◌, IfOk, length, map};
ghost use Rattle.cpm_disk.specs.Control.Words.{before, after_first_byte, control, field, cut_or_padded, split_name, first_position, tail_of, upper_word};

use std::alloc::{AllocError, Global};

/// The most bytes that a command tail may have.
pub const LONGEST_TAIL: usize = 127;

/// A word in upper case.
pub fn upper(alloc: Global, word: &[u8]) -> Result<Vec<u8>, AllocError>
    ensures { IfOk result (λ bytes. bytes.items ≡ upper_word word.now) }
{
    word.to_ascii_uppercase(alloc)
}

/// The tail of a command: its words in upper case, with a space before each.
pub fn tail_of(alloc: Global, words: &[&[u8]]) -> Result<Vec<u8>, AllocError>
    ensures { IfOk result (λ tail. tail.items ≡ tail_of (map (λ w. w.now) words.now)) }
{
    let mut tail = Vec::new(alloc);
    for word in words {
        tail.push(b' ')?;
        tail.extend_from_slice(&upper(alloc, word)?)?;
    }
    Ok(tail)
}

/// The position of the first such byte in a word, or the length of the word if it has none.
fn place_of(byte: u8, word: &[u8]) -> usize
    ensures place { result ≡ first_position byte word.now }
    ensures within { result ≤ length word.now }
{
    word.iter().take_while(|b| **b != byte).count()
}

/// The part of a word before the first such byte, or the whole word.
fn before(byte: u8, word: &[u8]) -> &[u8]
    ensures { result.now ≡ before byte word.now }
{
    &word[..place_of(byte, word)]
}

/// The part of a word after the first such byte; empty if it has none.
fn behind(byte: u8, word: &[u8]) -> &[u8]
    ensures { result.now ≡ after_first_byte byte word.now }
{
    word.get(place_of(byte, word) + 1..).unwrap_or(&[])
}

/// A part of a name with exactly N bytes: cut, or padded with spaces. A `*` ends the part, and then `?` pads it.
fn field<const N: usize>(part: &[u8]) -> [u8; N]
    ensures { result ≡ field N part.now }
{
    let stem = before(b'*', part);
    let fill = if stem.len() < part.len() { b'?' } else { b' ' };
    filled(stem, fill)
}

/// The first N bytes of a part, padded with `fill` if it has fewer.
fn filled<const N: usize>(part: &[u8], fill: u8) -> [u8; N]
    ensures { result ≡ cut_or_padded N fill part.now }
{
    let len = part.len().min(N);
    let mut bytes = [fill; N];
    bytes[..len].copy_from_slice(&part[..len]);
    bytes
}

/// The drive that a word begins with (`A:` is 1; 0 if there is none), and the name after it.
fn drive_of(word: &[u8]) -> (u8, &[u8])
    ensures { control word.now ≡ result.0 ∷ split_name result.1.now }
{
    match word {
        [letter @ b'A'..=b'P', b':', name @ ..] => (letter - b'@', name),
        _ => (0, word),
    }
}

/// The first twelve bytes of a file control block, drive and name, from a word in upper case.
pub fn control(alloc: Global, word: &[u8]) -> Result<Vec<u8>, AllocError>
    ensures bytes { IfOk result (λ bytes. bytes.items ≡ control word.now) }
    ensures size { IfOk result (λ bytes. length bytes.items ≡ 12) }
{
    let (drive, name) = drive_of(word);
    let mut bytes = Vec::with_capacity(alloc, 12)?;
    bytes.push(drive)?;
    bytes.extend_from_slice(&field::<8>(before(b'.', name)))?;
    bytes.extend_from_slice(&field::<3>(behind(b'.', name)))?;
    Ok(bytes)
}
