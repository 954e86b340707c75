//! The bytes that the program gets as typed.

ghost use Rattle.std.specs.Prelude.{◌≡◌, IfOk, option_to_list};
ghost use Rattle.z80dev_run.specs.Input.{begins_line_feed, typed, typed_byte};

use std::alloc::{AllocError, Global};

pub(crate) const CR: u8 = 0x0D;

pub(crate) const LF: u8 = 0x0A;

/// What a byte becomes, given the bytes after it; `None` for a CR before an LF.
fn typed_byte(byte: u8, rest: &[u8]) -> Option<u8>
    ensures { option_to_list result ≡ typed_byte byte rest.now }
{
    if byte == LF {
        return Some(CR);
    }
    if byte == CR && begins_line_feed(rest) {
        return None;
    }
    Some(byte)
}

fn begins_line_feed(bytes: &[u8]) -> bool
    ensures { result ≡ begins_line_feed bytes.now }
{
    match bytes {
        [first, ..] => *first == LF,
        [] => false,
    }
}

/// Converts standard input to what is typed: each CR LF and each LF becomes one CR.
pub(crate) fn typed(alloc: Global, bytes: &[u8]) -> Result<Vec<u8>, AllocError>
    ensures { IfOk result (λ typed_bytes. typed_bytes.items ≡ typed bytes.now) }
{
    let mut typed = Vec::with_capacity(alloc, bytes.len())?;
    let mut rest = bytes;
    while let Some((byte, behind)) = rest.split_first() {
        if let Some(one) = typed_byte(*byte, behind) {
            typed.push(one)?;
        }
        rest = behind;
    }
    Ok(typed)
}
