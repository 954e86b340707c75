//! Parses the words of a command that name a file of a disk.

ghost use Rattle.std.specs.Prelude.{◌≡◌, ◌++◌, ◌≤◌, IfSome, false, length, true};
ghost use Rattle.std.specs.List.{list_all};
ghost use Rattle.z80dev_disk.specs.Words.{before_point, behind_point, padded, is_file_name, is_name_byte, is_name_part, is_wild, last_part, file_name_of, own_name, point_at};

use cpm_image::Name;

/// No name has these printable characters.
const LEFT_OUT: &[u8] = b"<>.,;:=?*[]";

/// Whether a name may contain this byte.
pub(crate) fn is_name_byte(byte: u8) -> bool
    ensures { result ≡ is_name_byte byte }
{
    byte.is_ascii_graphic() && !byte.is_ascii_lowercase() && !LEFT_OUT.contains(&byte)
}

/// Whether a name may contain each of these bytes.
fn is_spelled(part: &[u8]) -> bool
    ensures { result ≡ list_all is_name_byte part.now }
{
    part.iter().all(|byte| is_name_byte(*byte))
}

/// Whether these bytes can be the name or the type: at most `most` bytes, each allowed in a name.
fn is_name_part(part: &[u8], most: usize) -> bool
    ensures { result ≡ is_name_part part.now most }
{
    part.len() <= most && is_spelled(part)
}

/// The eleven bytes of a name and its type, each padded with spaces.
fn joined(name: &[u8], kind: &[u8]) -> Name
    requires name { is_name_part name.now 8 ≡ true }
    requires kind { is_name_part kind.now 3 ≡ true }
    ensures { result ≡ padded 8 name.now ++ padded 3 kind.now }
{
    let mut bytes = [b' '; 11];
    bytes[..name.len()].copy_from_slice(name);
    bytes[8..8 + kind.len()].copy_from_slice(kind);
    Name::new(bytes)
}

/// The position of the first point in a word, or the length of the word if there is none.
fn point_of(word: &[u8]) -> usize
    ensures point { result ≡ point_at word.now }
    ensures within { result ≤ length word.now }
{
    word.iter().take_while(|byte| **byte != b'.').count()
}

/// The part of a word before its first point, or the whole word if it has none.
pub(crate) fn before_point(word: &[u8]) -> &[u8]
    ensures { result.now ≡ before_point word.now }
{
    &word[..point_of(word)]
}

/// The part of a word after its first point; empty if it has none.
pub(crate) fn behind_point(word: &[u8]) -> &[u8]
    ensures { result.now ≡ behind_point word.now }
{
    word.get(point_of(word) + 1..).unwrap_or(&[])
}

/// Whether a word is a name of a file (see [`file_name`]).
fn is_file_name(word: &[u8]) -> bool
    ensures { result ≡ is_file_name word.now }
{
    !before_point(word).is_empty()
        && is_name_part(before_point(word), 8)
        && is_name_part(behind_point(word), 3)
}

/// The eleven bytes of the name that a word gives, or `None` if the word is not a name.
fn name_of(word: &[u8]) -> Option<Name>
    ensures name { result ≡ file_name_of word.now }
    ensures plain { IfSome result (λ name. is_wild name ≡ false) }
{
    if !is_file_name(word) {
        return None;
    }
    Some(joined(before_point(word), behind_point(word)))
}

/// The eleven bytes of the name that a word gives. The word has one to eight characters, and it may have a point and then a type of at
/// most three. The characters are printable; blanks, lower-case letters and `< > . , ; : = ? * [ ]` are not allowed.
///
/// `None` if the word is not such a name.
pub fn file_name(word: &str) -> Option<Name>
    ensures name { result ≡ file_name_of word.now }
    ensures plain { IfSome result (λ name. is_wild name ≡ false) }
{
    name_of(word.as_bytes())
}

/// The part of a path after its last `/`, or the whole path if it has none.
fn last_part(path: &[u8]) -> &[u8]
    ensures { result.now ≡ last_part path.now }
{
    let mut start = path.len();
    while start > 0 {
        if path[start - 1] == b'/' {
            return &path[start..];
        }
        start -= 1;
    }
    path
}

/// The most characters of a name: eight, a point and three of the type.
const LONGEST: usize = 12;

/// The name that the last part of a path gives, with its letters a to z in upper case.
///
/// `None` if that part is not a name (see [`file_name`]).
pub fn own_name(path: &str) -> Option<Name>
    ensures name { result ≡ own_name path.now }
    ensures plain { IfSome result (λ name. is_wild name ≡ false) }
{
    let part = last_part(path.as_bytes());
    if part.len() > LONGEST {
        return None;
    }
    let mut bytes = [0; LONGEST];
    let word = &mut bytes[..part.len()];
    word.copy_from_slice(part);
    word.make_ascii_uppercase();
    name_of(word)
}
