//! Converts a text between the host's form, whose lines end with LF, and that of CP/M, whose lines end with CR LF and which ends with
//! 1AH.

ghost use Rattle.std.specs.Prelude.{◌≡◌, ◌<◌, ◌≤◌, ◌==◌, ◌++◌, ◌&&◌, IfOk, drop, length, not, slice_index, take_while};
ghost use Rattle.std.specs.List.{position_or_len};
ghost use Rattle.z80dev_disk.specs.Text.{begins_with_line_feed, cpm_text, host_text, without_cr};

use std::alloc::{AllocError, Global};

/// CP/M ends a text with this byte.
const END: u8 = 0x1A;

/// Converts a text for CP/M: each LF becomes CR LF, and 1AH is added at the end.
pub fn cpm_text(alloc: Global, bytes: &[u8]) -> Result<Vec<u8>, AllocError>
    ensures { IfOk result (λ text. text.items ≡ cpm_text bytes.now) }
{
    let mut text = Vec::new(alloc);
    for byte in bytes {
        if *byte == b'\n' {
            text.push(b'\r')?;
        }
        text.push(*byte)?;
    }
    text.push(END)?;
    Ok(text)
}

/// The position of the first 1AH, or the length of the bytes if there is none.
fn end_of(bytes: &[u8]) -> usize
    ensures end { result ≡ position_or_len (λ b. b == 0x1A) bytes.now }
    ensures within { result ≤ length bytes.now }
{
    bytes.iter().take_while(|byte| **byte != END).count()
}

/// The bytes before the first 1AH, or all if there is none.
fn before_end(bytes: &[u8]) -> &[u8]
    ensures { result.now ≡ take_while (λ b. not (b == 0x1A)) bytes.now }
{
    &bytes[..end_of(bytes)]
}

/// Whether bytes begin with LF.
fn begins_line(bytes: &[u8]) -> bool
    ensures { result ≡ begins_with_line_feed bytes.now }
{
    match bytes {
        [first, ..] => *first == b'\n',
        [] => false,
    }
}

/// Whether a text begins with a CR before an LF.
fn is_left_out(text: &[u8]) -> bool
    requires { 0 < length text.now }
    ensures { result ≡ ((slice_index text.now 0 == 13) && begins_with_line_feed (drop 1 text.now)) }
{
    text[0] == b'\r' && begins_line(&text[1..])
}

/// The first byte of a text; nothing if that byte is a CR before an LF.
fn first_kept(text: &[u8]) -> &[u8]
    requires { 0 < length text.now }
    ensures { without_cr text.now ≡ result.now ++ without_cr (drop 1 text.now) }
{
    if is_left_out(text) {
        return &[];
    }
    &text[..1]
}

/// Converts a text for the host: takes the bytes before the first 1AH, without the CR before each LF.
pub(crate) fn host_text(alloc: Global, bytes: &[u8]) -> Result<Vec<u8>, AllocError>
    ensures { IfOk result (λ text. text.items ≡ host_text bytes.now) }
{
    let kept = before_end(bytes);
    let mut text = Vec::new(alloc);
    for number in 0..kept.len() {
        text.extend_from_slice(first_kept(&kept[number..]))?;
    }
    Ok(text)
}
