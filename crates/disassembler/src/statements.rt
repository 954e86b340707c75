//! Writes the statements of the text.

use crate::code::Found;
use crate::data::string_len;
use crate::items::{Item, Layout};
use crate::lines::Lines;
use crate::names::{Names, made_name};
use crate::place::{address_of, offset_of};
use crate::reference::Reference;
use bstr::ByteSlice;
use state_text::{put_instr, put_word_number};
use std::alloc::{AllocError, Global};
use z80_table::encode;

/// Answers the name of the label at an address, if there is one; only of a place that the labels file names if `only_given` is true.
fn name_at(
    alloc: Global,
    names: &Names,
    address: u16,
    only_given: bool,
) -> Result<Option<Vec<u8>>, AllocError> {
    let Some(offset) = offset_of(address).filter(|offset| names.is_labelled(*offset)) else {
        return Ok(None);
    };
    match names.first_at(offset) {
        Some(name) => Ok(Some(name.text.clone()?)),
        None if only_given => Ok(None),
        None => Ok(Some(made_name(alloc, address)?)),
    }
}

/// Writes the labels of an offset.
fn put_labels(
    alloc: Global,
    names: &Names,
    offset: usize,
    lines: &mut Lines,
) -> Result<(), AllocError> {
    if !names.is_labelled(offset) {
        return Ok(());
    }
    let address = address_of(offset);
    let given = names.at(offset);
    for name in given {
        lines.put_label(&name.text, address)?;
    }
    if given.is_empty() {
        lines.put_label(&made_name(alloc, address)?, address)?;
    }
    Ok(())
}

/// Writes operands with a name in place of the number of a reference.
///
/// A `JP` that the linker could make short gets `+0` after its label, since it then always takes three bytes.
fn put_named(
    alloc: Global,
    lines: &mut Lines,
    operands: &[u8],
    reference: Reference,
    name: &[u8],
) -> Result<(), AllocError> {
    let mut number = Vec::new(alloc);
    put_word_number(alloc, &mut number, reference.address())?;
    let parts = match reference {
        Reference::Relative(_) => operands.split_once_str(b"$"),
        _ => operands.split_once_str(&number),
    };
    let Some((before, after)) = parts else {
        return lines.put(operands);
    };
    lines.put(before)?;
    lines.put(name)?;
    match reference {
        Reference::Relaxable(_) => lines.put(b"+0"),
        Reference::Target(_) | Reference::Relative(_) => Ok(()),
        Reference::Word(_) => lines.put(after),
    }
}

/// Writes the operands of an instruction.
fn put_operands(
    alloc: Global,
    names: &Names,
    lines: &mut Lines,
    operands: &[u8],
    found: Found,
) -> Result<(), AllocError> {
    let Some(reference) = found.reference() else {
        return lines.put(operands);
    };
    let only_given = matches!(reference, Reference::Word(_));
    match name_at(alloc, names, reference.address(), only_given)? {
        Some(name) => put_named(alloc, lines, operands, reference, &name),
        None => lines.put(operands),
    }
}

/// Whether the assembler writes an instruction with these bytes.
fn is_canonical(found: Found, bytes: &[u8]) -> bool {
    let mut buffer = [0; 4];
    let len = encode(&found.instr, &mut buffer) as usize;
    buffer.get(..len) == Some(bytes)
}

/// Writes an instruction. If the assembler has other bytes for it, its bytes are written, and the instruction is a comment.
fn put_code(
    alloc: Global,
    names: &Names,
    lines: &mut Lines,
    at: usize,
    found: Found,
    bytes: &[u8],
) -> Result<(), AllocError> {
    let mut shown = Vec::new(alloc);
    put_instr(alloc, &mut shown, found.instr)?;
    if !is_canonical(found, bytes) {
        lines.put_mnemonic(b"DB")?;
        lines.begin_operands()?;
        put_numbers(lines, bytes, b"")?;
        return lines.end_line(address_of(at), &shown);
    }
    match shown.as_slice().split_once_str(b" ") {
        Some((mnemonic, operands)) => {
            lines.put_mnemonic(mnemonic)?;
            lines.begin_operands()?;
            put_operands(alloc, names, lines, operands, found)?;
        }
        None => lines.put_mnemonic(&shown)?,
    }
    lines.end_line(address_of(at), b"")
}

/// Writes bytes as numbers, with commas between them and `before` in front of the first.
fn put_numbers(lines: &mut Lines, bytes: &[u8], before: &[u8]) -> Result<(), AllocError> {
    let mut comma = before;
    for byte in bytes {
        lines.put(comma)?;
        lines.put_byte(*byte)?;
        comma = b",";
    }
    Ok(())
}

/// Writes characters as a string. A quote in it is written twice.
fn put_string(lines: &mut Lines, characters: &[u8]) -> Result<(), AllocError> {
    lines.put(b"'")?;
    for character in characters {
        if *character == b'\'' {
            lines.put(b"'")?;
        }
        lines.put(&[*character])?;
    }
    lines.put(b"'")
}

/// Writes a line of data.
fn put_data(lines: &mut Lines, at: usize, bytes: &[u8]) -> Result<(), AllocError> {
    lines.put_mnemonic(b"DB")?;
    lines.begin_operands()?;
    let (characters, numbers) = bytes.split_at(string_len(bytes));
    if characters.is_empty() {
        put_numbers(lines, numbers, b"")?;
    } else {
        put_string(lines, characters)?;
        put_numbers(lines, numbers, b",")?;
    }
    lines.end_line(address_of(at), b"")
}

/// Writes bytes of zero.
fn put_zeros(alloc: Global, lines: &mut Lines, at: usize, count: usize) -> Result<(), AllocError> {
    lines.put_mnemonic(b"DS")?;
    lines.begin_operands()?;
    lines.put(format!(in alloc; "{count}")?.as_bytes())?;
    lines.end_line(address_of(at), b"")
}

/// Writes the item at an offset with its labels, and answers the offset of the next item.
fn put_item(
    alloc: Global,
    layout: &Layout<'_>,
    lines: &mut Lines,
    at: usize,
) -> Result<usize, AllocError> {
    put_labels(alloc, &layout.names, at, lines)?;
    let item = layout.item_at(at);
    match item {
        Item::Code(found, bytes) => put_code(alloc, &layout.names, lines, at, found, bytes)?,
        Item::Zeros(count) => put_zeros(alloc, lines, at, count)?,
        Item::Data(bytes) => put_data(lines, at, bytes)?,
    }
    Ok(at.saturating_add(item.len()))
}

/// Writes the items of a program.
pub(crate) fn put_items(
    alloc: Global,
    layout: &Layout<'_>,
    lines: &mut Lines,
) -> Result<(), AllocError> {
    let mut next = 0;
    for at in 0..layout.end {
        if at >= next {
            next = put_item(alloc, layout, lines, at)?;
        }
    }
    Ok(())
}

/// Writes the labels at the end of a program.
pub(crate) fn put_last_labels(
    alloc: Global,
    layout: &Layout<'_>,
    lines: &mut Lines,
) -> Result<(), AllocError> {
    let end = layout.program.len();
    put_labels(alloc, &layout.names, end, lines)?;
    lines.end_label(address_of(end))
}

/// How many bytes are on a line of the rest of a long program, which has 183 characters then.
const PLAIN_BYTES: usize = 32;

/// Writes the bytes of a program from an offset on, as numbers only.
pub(crate) fn put_plain(lines: &mut Lines, program: &[u8], from: usize) -> Result<(), AllocError> {
    let mut at = from;
    for bytes in program.get(from..).unwrap_or(&[]).chunks(PLAIN_BYTES) {
        lines.put_mnemonic(b"DB")?;
        lines.begin_operands()?;
        put_numbers(lines, bytes, b"")?;
        lines.end_line(address_of(at), b"")?;
        at = at.saturating_add(bytes.len());
    }
    Ok(())
}
