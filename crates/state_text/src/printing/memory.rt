//! Prints memory.

ghost use Rattle.std.specs.Prelude.{◌≡◌, ◌≤◌, ◌++◌, IfOk, OnOk, map};
ghost use Rattle.std.specs.List.{flat_map};
ghost use Rattle.state_text.specs.Printing.Memory.{byte_column, memory_bytes, shown_character, last_line, line_starts, memory_line, memory_text};

use super::columns::{put_blanks, put_word};
use std::alloc::{AllocError, Global};
use z80_cpu::Memory;

/// The bytes of a whole line.
const LINE_BYTES: u16 = 16;

/// A byte as a character, or a full stop for a byte outside 20H to 7EH.
pub fn shown_character(byte: u8) -> u8
    ensures { result ≡ shown_character byte }
{
    if byte >= 0x20 && byte <= 0x7E {
        byte
    } else {
        b'.'
    }
}

/// Appends bytes, with a full stop for each byte that is no character.
pub fn put_characters(bytes: &[u8], text: &mut Vec<u8>) -> Result<(), AllocError>
    ensures { OnOk result (text.new.items ≡ text.old.items ++ map shown_character bytes.now) }
{
    for byte in bytes {
        text.push(shown_character(*byte))?;
    }
    Ok(())
}

/// These bytes from an address on. After FFFFH comes address 0.
fn memory_bytes(
    alloc: Global,
    memory: &Memory,
    from: u16,
    count: u16,
) -> Result<Vec<u8>, AllocError>
    ensures { IfOk result (λ bytes. bytes.items ≡ memory_bytes memory.now from «count») }
{
    let mut bytes = Vec::new(alloc);
    for offset in 0..count {
        bytes.push(memory.get(from.wrapping_add(offset)))?;
    }
    Ok(bytes)
}

/// Appends a blank and a byte as two hexadecimal digits.
fn put_byte(alloc: Global, out: &mut Vec<u8>, byte: u8) -> Result<(), AllocError>
    ensures { OnOk result (out.new.items ≡ out.old.items ++ byte_column byte) }
{
    put_blanks(out, 1)?;
    let digits = hex::encode_upper(alloc, &[byte][..])?;
    out.extend_from_slice(digits.as_bytes())
}

/// Appends bytes so.
fn put_bytes(alloc: Global, out: &mut Vec<u8>, bytes: &[u8]) -> Result<(), AllocError>
    ensures { OnOk result (out.new.items ≡ out.old.items ++ flat_map byte_column bytes.now) }
{
    for byte in bytes {
        put_byte(alloc, out, *byte)?;
    }
    Ok(())
}

/// Bytes as characters.
fn characters(alloc: Global, bytes: &[u8]) -> Result<Vec<u8>, AllocError>
    ensures { IfOk result (λ text. text.items ≡ map shown_character bytes.now) }
{
    bytes
        .iter()
        .map(|byte| shown_character(*byte))
        .collect(alloc)
}

/// Appends a line of memory: the address, the bytes, and the same as characters.
fn put_line(
    alloc: Global,
    out: &mut Vec<u8>,
    memory: &Memory,
    from: u16,
    count: u16,
) -> Result<(), AllocError>
    ensures { OnOk result (out.new.items ≡ out.old.items ++ memory_line memory.now from «count») }
{
    let bytes = memory_bytes(alloc, memory, from, count)?;
    let shown = characters(alloc, &bytes)?;
    put_word(alloc, out, from)?;
    put_blanks(out, 1)?;
    put_bytes(alloc, out, &bytes)?;
    put_blanks(out, 2)?;
    out.extend_from_slice(&shown)?;
    out.extend_from_slice(b"\n")
}

/// Where this many whole lines begin.
fn line_starts(alloc: Global, from: u16, lines: u16) -> Result<Vec<u16>, AllocError>
    requires { lines ≤ 4095 }
    ensures { IfOk result (λ starts. starts.items ≡ line_starts from lines) }
{
    let mut starts = Vec::new(alloc);
    for line in 0..lines {
        starts.push(from.wrapping_add(LINE_BYTES * line))?;
    }
    Ok(starts)
}

/// Appends whole lines.
fn put_lines(
    alloc: Global,
    out: &mut Vec<u8>,
    memory: &Memory,
    starts: &[u16],
) -> Result<(), AllocError>
    ensures { OnOk result (out.new.items ≡ out.old.items ++ flat_map (λ start. memory_line memory.now start 16) starts.now) }
{
    for start in starts {
        put_line(alloc, out, memory, *start, LINE_BYTES)?;
    }
    Ok(())
}

/// Appends the last line, if there are bytes for it.
fn put_last(
    alloc: Global,
    out: &mut Vec<u8>,
    memory: &Memory,
    from: u16,
    count: u16,
) -> Result<(), AllocError>
    ensures { OnOk result (out.new.items ≡ out.old.items ++ last_line memory.now from «count») }
{
    if count == 0 {
        return Ok(());
    }
    put_line(alloc, out, memory, from, count)
}

/// Appends the lines of bytes of memory, 16 a line. After FFFFH comes address 0.
pub fn put_memory(
    alloc: Global,
    out: &mut Vec<u8>,
    memory: &Memory,
    from: u16,
    count: u16,
) -> Result<(), AllocError>
    ensures { OnOk result (out.new.items ≡ out.old.items ++ memory_text memory.now from «count») }
{
    let starts = line_starts(alloc, from, count / LINE_BYTES)?;
    put_lines(alloc, out, memory, &starts)?;
    let rest = count % LINE_BYTES;
    put_last(alloc, out, memory, from.wrapping_add(count - rest), rest)
}
