//! Rows of the published opcode table, with letters in place of their numbers.

use crate::spelling::{has_short_fronts, is_written};
use row_text::Row;
use std::alloc::{AllocError, Global};
use z80_table::{DecodeFault, Instr, decode};

/// Bytes after an opcode: numbers that are 0, at their greatest and between, and displacements of -128, -5, 0, 52 and 127.
const TAILS: [[u8; 3]; 6] = [
    [0x00, 0x00, 0x00],
    [0xFF, 0xFF, 0x00],
    [0x34, 0x12, 0x00],
    [0x80, 0x7F, 0x00],
    [0x7F, 0x80, 0x00],
    [0xFB, 0x07, 0x00],
];

/// A byte as a signed number.
fn signed(byte: u8) -> i16 {
    if byte < 128 {
        byte as i16
    } else {
        byte as i16 - 256
    }
}

/// The bytes of a row, with these numbers in place of its letters, and then the numbers that are left. None: a column is neither a letter
/// nor a byte, or there is no memory.
fn filled(alloc: Global, columns: &str, tail: [u8; 3]) -> Option<Vec<u8>> {
    let mut bytes = Vec::new(alloc);
    let mut numbers = tail.iter();
    for word in columns.split(' ') {
        let byte = match word {
            "n" | "d" | "e" => *numbers.next()?,
            _ => u8::from_str_radix(word, 16).ok()?,
        };
        bytes.push(byte).ok()?;
    }
    for number in numbers {
        bytes.push(*number).ok()?;
    }
    Some(bytes)
}

/// A text with a letter in place of a number.
fn replaced(alloc: Global, text: &str, number: &str, letter: &str) -> Result<String, AllocError> {
    match text.split_once(number) {
        Some((before, after)) => format!(in alloc; "{before}{letter}{after}"),
        None => String::from_str(alloc, text),
    }
}

/// A hexadecimal number as the assembler reads it: with a 0 before a letter.
fn number_text(alloc: Global, digits: &str) -> Result<String, AllocError> {
    if digits < "A" {
        format!(in alloc; "{digits}H")
    } else {
        format!(in alloc; "0{digits}H")
    }
}

/// The text of an instruction, with n in place of a byte.
fn with_byte(alloc: Global, text: &str, byte: u8) -> Result<String, AllocError> {
    let digits = format!(in alloc; "{byte:02X}")?;
    let number = number_text(alloc, digits.as_str())?;
    replaced(alloc, text, number.as_str(), "n")
}

/// The text of an instruction, with nn in place of a word, whose low byte comes first.
fn with_word(alloc: Global, text: &str, low: u8, high: u8) -> Result<String, AllocError> {
    let digits = format!(in alloc; "{high:02X}{low:02X}")?;
    let number = number_text(alloc, digits.as_str())?;
    replaced(alloc, text, number.as_str(), "nn")
}

/// The text of an instruction, with d in place of a displacement.
fn with_displacement(alloc: Global, text: &str, byte: u8) -> Result<String, AllocError> {
    let number = format!(in alloc; "{:+}", signed(byte))?;
    replaced(alloc, text, number.as_str(), "+d")
}

/// The text of a relative jump, with e in place of its target.
fn with_goal(alloc: Global, text: &str, byte: u8) -> Result<String, AllocError> {
    let number = format!(in alloc; "${:+}", signed(byte).wrapping_add(2))?;
    replaced(alloc, text, number.as_str(), "e")
}

/// The text of an instruction, with the letters of its row in place of its numbers.
fn with_letters(
    alloc: Global,
    columns: &str,
    instr: Instr,
    tail: [u8; 3],
) -> Result<String, AllocError> {
    let text = format!(in alloc; "{instr}")?;
    let [first, second, _] = tail;
    if columns.ends_with("n n") {
        with_word(alloc, text.as_str(), first, second)
    } else if columns.ends_with("d n") {
        let text = with_displacement(alloc, text.as_str(), first)?;
        with_byte(alloc, text.as_str(), second)
    } else if columns.contains('d') {
        with_displacement(alloc, text.as_str(), first)
    } else if columns.contains('e') {
        with_goal(alloc, text.as_str(), first)
    } else if columns.contains('n') {
        with_byte(alloc, text.as_str(), first)
    } else {
        Ok(text)
    }
}

/// What is read from bytes: the text with the letters of the row, or the error of the decoder.
fn line_of_bytes(
    alloc: Global,
    columns: &str,
    tail: [u8; 3],
    bytes: &[u8],
) -> Result<String, AllocError> {
    let size = columns.split(' ').count();
    let spelling = bytes.get(..size).unwrap_or(bytes);
    match decode(bytes) {
        Ok((instr, count)) if count as usize == size && has_short_fronts(spelling) => {
            let text = with_letters(alloc, columns, instr, tail)?;
            if is_written(&instr, spelling) {
                Ok(text)
            } else {
                format!(in alloc; "{text}, which has other bytes too")
            }
        }
        Ok((instr, count)) => format!(in alloc; "{instr} in {count} bytes"),
        Err(fault) => format!(in alloc; "{fault:?}"),
    }
}

/// What is read from a row with these numbers; None if the row has other columns than bytes and letters, or there is no memory.
fn line_of(alloc: Global, columns: &str, tail: [u8; 3]) -> Option<String> {
    let bytes = filled(alloc, columns, tail)?;
    line_of_bytes(alloc, columns, tail, &bytes).ok()
}

/// Prints the line that a row has with these numbers if it is not this line, and answers whether the row is done.
fn show_other(row: &mut Row, columns: &str, line: &str, tail: [u8; 3]) -> bool {
    match line_of(row.alloc(), columns, tail) {
        Some(other) => {
            let differs = other.as_str() != line;
            if differs {
                write!(row, "; also {other}");
            }
            differs
        }
        None => {
            row.refuse("no memory");
            true
        }
    }
}

/// Prints a line other than this one that a row has with any first number and then 34H and 12H, or with the numbers of `TAILS`.
fn show_others(row: &mut Row, columns: &str, line: &str) {
    for first in 0..=255 {
        if show_other(row, columns, line, [first, 0x34, 0x12]) {
            return;
        }
    }
    for tail in TAILS {
        if show_other(row, columns, line, tail) {
            return;
        }
    }
}

/// Prints what a row of the table is read as, whatever its numbers are.
pub(crate) fn answer_opcode(row: &mut Row) {
    let columns = row.rest();
    let Some(line) = line_of(row.alloc(), columns, [0x34, 0x12, 0x00]) else {
        return row.refuse("no bytes and letters");
    };
    write!(row, " {line}");
    show_others(row, columns, line.as_str())
}

/// The bytes of a prefix and an opcode, and then 34H and 12H.
fn opcode_after(alloc: Global, prefix: &[u8], opcode: u8) -> Result<Vec<u8>, AllocError> {
    let mut bytes = prefix.to_vec(alloc)?;
    bytes.extend_from_slice(&[opcode, 0x34, 0x12])?;
    Ok(bytes)
}

/// Prints how many bytes after a prefix, followed by 34H and 12H, are an opcode, and how many are undocumented.
pub(crate) fn answer_page(row: &mut Row) {
    let Ok(prefix) = hex::decode(row.alloc(), row.rest()) else {
        return row.refuse("no bytes in hexadecimal");
    };
    let (mut read, mut undocumented) = (0u32, 0u32);
    for opcode in 0..=255 {
        let Ok(bytes) = opcode_after(row.alloc(), &prefix, opcode) else {
            return row.refuse("no memory");
        };
        match decode(&bytes) {
            Ok(_) => read = read.saturating_add(1),
            Err(DecodeFault::Undocumented) => undocumented = undocumented.saturating_add(1),
            Err(DecodeFault::Short) => {}
        }
    }
    write!(row, " {read} read, {undocumented} undocumented")
}
