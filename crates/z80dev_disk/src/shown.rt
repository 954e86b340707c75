//! Names of files as the program prints them, which are also the names of the files on the host.

ghost use Rattle.std.specs.Prelude.{◌≡◌, ◌==◌, IfOk, IsAscii, codes, length, not};
ghost use Rattle.std.specs.List.{flat_map, list_all};
ghost use Rattle.z80dev_disk.specs.Names.{host_name, is_host_byte, is_host_name, trimmed, when};

use cpm_image::Name;
use std::alloc::{AllocError, Global};
use std::{fmt, str};

/// A part of a name without the blanks at its end.
pub(crate) fn trimmed(part: &[u8]) -> &[u8]
    ensures { result.now ≡ trimmed part.now }
{
    let mut end = part.len();
    while end > 0 {
        if part[end - 1] != b' ' {
            return &part[..end];
        }
        end -= 1;
    }
    &[]
}

/// The word if the condition holds, otherwise nothing.
pub(crate) fn when(so: bool, word: &[u8]) -> &[u8]
    ensures { result.now ≡ when so word.now }
{
    if so { word } else { &[] }
}

/// Joins byte strings in their order.
pub(crate) fn joined(alloc: Global, pieces: &[&[u8]]) -> Result<Vec<u8>, AllocError>
    ensures { IfOk result (λ bytes. bytes.items ≡ flat_map (λ piece. piece.now) pieces.now) }
{
    let mut bytes = Vec::new(alloc);
    for piece in pieces {
        bytes.extend_from_slice(piece)?;
    }
    Ok(bytes)
}

/// Whether a file name on the host may contain this byte.
fn is_host_byte(byte: u8) -> bool
    ensures { result ≡ is_host_byte byte }
{
    0x20 <= byte && byte <= 0x7E && byte != b'/' && byte != b'.'
}

/// Whether a file name on the host may contain each of these bytes.
fn are_host_bytes(name: &[u8]) -> bool
    ensures { result ≡ list_all is_host_byte name.now }
{
    name.iter().all(|byte| is_host_byte(*byte))
}

/// Whether a name has no characters but blanks.
fn is_blank(name: &[u8; 11]) -> bool
    ensures { result ≡ (length (host_name name.now) == 0) }
{
    trimmed(&name[..8]).is_empty() && trimmed(&name[8..]).is_empty()
}

/// Whether the host can have a file of this name.
pub(crate) fn is_host_name(name: &[u8; 11]) -> bool
    ensures { result ≡ is_host_name name.now }
{
    !is_blank(name) && are_host_bytes(name)
}

/// These ASCII bytes as a `str`.
fn text_of(bytes: &[u8]) -> &str
    requires { IsAscii bytes.now }
    ensures { result.now ≡ bytes.now }
{
    match str::from_utf8(bytes) {
        Ok(text) => text,
        Err(_) => unreachable!(),
    }
}

/// The point that comes before a type, or nothing if there is no type.
fn point_before(kind: &str) -> &'static str
    ensures { result.now ≡ when (not (length kind.now == 0)) (codes ".") }
{
    if kind.is_empty() { "" } else { "." }
}

/// A name of CP/M, printed as `NAME` or `NAME.TYP`: the low seven bits of each byte, without the blanks at the end of each part.
#[derive(Clone, Copy)]
pub(crate) struct HostName {
    pub name: [u8; 11],
}

impl fmt::Display for HostName {
    ghost use Rattle.std.specs.Prelude.{Some};
    ghost use Rattle.cpm_image.specs.Directory.Letters.{letters};
    ghost use Rattle.z80dev_disk.specs.Names.{host_name};

    ghost output = { λ shown. Some (host_name (letters shown.name)) };

    fn fmt<W: fmt::Write>(&self, f: &mut fmt::Formatter<W>) -> fmt::Result {
        let bytes = Name::new(self.name).bytes();
        let name = text_of(trimmed(&bytes[..8]));
        let kind = text_of(trimmed(&bytes[8..]));
        write!(f, "{}{}{}", name, point_before(kind), kind)
    }
}
