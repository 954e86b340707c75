//! Parses the words of a command that are patterns of names.

ghost use Rattle.std.specs.Prelude.{◌≡◌, ◌≤◌, length};
ghost use Rattle.std.specs.List.{list_all};
ghost use Rattle.z80dev_disk.specs.Words.{before_star, filled_pattern, has_star, is_pattern, is_pattern_byte, is_pattern_part, is_wild, pattern_of};

use crate::name::{before_point, behind_point, is_name_byte};

/// Whether a pattern has a `?`, so that it may match several names.
pub fn is_wild(pattern: &[u8; 11]) -> bool
    ensures { result ≡ is_wild pattern.now }
{
    pattern.contains(&b'?')
}

/// Whether a part of a word ends with a star.
fn has_star(part: &[u8]) -> bool
    ensures { result ≡ has_star part.now }
{
    !part.is_empty() && part[part.len() - 1] == b'*'
}

/// A part of a pattern without the star at its end, if it has one.
fn before_star(part: &[u8]) -> &[u8]
    ensures { result.now ≡ before_star part.now }
{
    if has_star(part) {
        return &part[..part.len() - 1];
    }
    part
}

/// Whether a pattern may contain this byte, apart from the star at the end of a part.
fn is_pattern_byte(byte: u8) -> bool
    ensures { result ≡ is_pattern_byte byte }
{
    is_name_byte(byte) || byte == b'?'
}

/// Whether a pattern may contain each of these bytes, apart from the star at the end of a part.
fn is_spelled(part: &[u8]) -> bool
    ensures { result ≡ list_all is_pattern_byte part.now }
{
    part.iter().all(|byte| is_pattern_byte(*byte))
}

/// Whether these bytes can be a part of a pattern: without a star at the end, at most `most` bytes, each allowed in a pattern.
fn is_pattern_part(part: &[u8], most: usize) -> bool
    ensures { result ≡ is_pattern_part part.now most }
{
    before_star(part).len() <= most && is_spelled(before_star(part))
}

/// Whether a word is a pattern (see [`pattern_of`]).
fn is_pattern(word: &[u8]) -> bool
    ensures { result ≡ is_pattern word.now }
{
    !before_point(word).is_empty()
        && is_pattern_part(before_point(word), 8)
        && is_pattern_part(behind_point(word), 3)
}

/// Writes a part of a pattern and pads it: with `?` if it ends with a star, otherwise with spaces.
fn fill(bytes: &mut [u8], part: &[u8])
    requires { length (before_star part.now) ≤ length bytes.old }
    ensures { bytes.new ≡ filled_pattern (length bytes.old) part.now }
{
    let kept = before_star(part);
    bytes.fill(if has_star(part) { b'?' } else { b' ' });
    bytes[..kept.len()].copy_from_slice(kept);
}

/// The eleven bytes of the pattern that a word gives. The word has the form of a name (see [`file_name`](crate::file_name)), with two
/// additions: `?` matches any character, and a part may end with one `*`, which pads it with `?`.
///
/// `None` if the word is not such a pattern.
pub fn pattern_of(word: &str) -> Option<[u8; 11]>
    ensures { result ≡ pattern_of word.now }
{
    let word = word.as_bytes();
    if !is_pattern(word) {
        return None;
    }
    let mut bytes = [b' '; 11];
    fill(&mut bytes[..8], before_point(word));
    fill(&mut bytes[8..], behind_point(word));
    Some(bytes)
}
