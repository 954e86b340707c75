//! Instructions as text and as bytes.

use crate::text::{Reading, read};
use row_text::Row;
use z80_instr::Instr;
use z80_table::{DecodeFault, decode, encode, laws, size};

/// Prints the bytes that `encode` writes for an instruction.
fn show_bytes(row: &mut Row, instr: &Instr) {
    let mut bytes = [0; 4];
    let count = encode(instr, &mut bytes);
    for byte in &bytes[..count as usize] {
        write!(row, "{byte:02X}");
    }
}

/// Whether `encode` writes these bytes for an instruction and no others, and `size` answers their number.
pub(crate) fn is_written(instr: &Instr, bytes: &[u8]) -> bool {
    let mut out = [0xAA; 4];
    let count = encode(instr, &mut out);
    let (written, rest) = out.split_at(count as usize);
    written == bytes && rest.iter().all(|byte| *byte == 0xAA) && size(instr) == count
}

/// Whether the decoder answers Short for each beginning of an instruction's bytes that is not all of them.
pub(crate) fn has_short_fronts(bytes: &[u8]) -> bool {
    for count in 0..bytes.len() {
        if decode(&bytes[..count]) != Err(DecodeFault::Short) {
            return false;
        }
    }
    true
}

/// Prints the text of an instruction, if it is not the text that was given.
fn show_other_text(row: &mut Row, given: &str, instr: &Instr) {
    match format!(in row.alloc(); "{instr}") {
        Ok(text) => {
            if text.as_str() != given {
                write!(row, " = {text}");
            }
        }
        Err(_) => row.refuse("no memory"),
    }
}

/// Prints the bytes of an instruction, its own text if that differs from the row's, and whether its bytes are read as another
/// instruction.
fn show_instr(row: &mut Row, given: &str, instr: Instr) {
    write!(row, " ");
    show_bytes(row, &instr);
    show_other_text(row, given, &instr);
    let mut bytes = [0; 4];
    let count = encode(&instr, &mut bytes);
    match decode(&bytes[..count as usize]) {
        Ok((read, _)) if read == instr => {}
        _ => write!(row, " is read back as another"),
    }
}

/// Prints the bytes of an instruction that is given as text.
pub(crate) fn answer_bytes(row: &mut Row) {
    let given = row.rest();
    match read(row.alloc(), given) {
        Ok(Reading::Instr(instr)) => show_instr(row, given, instr),
        Ok(Reading::None) => write!(row, " none"),
        Ok(Reading::Number) => write!(row, " number"),
        Err(_) => row.refuse("no tokens, or no memory"),
    }
}

/// Prints the instruction at the front of bytes, how many of them it takes, and the bytes that `encode` writes for it if they differ.
pub(crate) fn answer_decoded(row: &mut Row) {
    let Ok(bytes) = hex::decode(row.alloc(), row.rest()) else {
        return row.refuse("no bytes in hexadecimal");
    };
    match decode(&bytes) {
        Ok((instr, count)) => {
            write!(row, " {instr}, {count} bytes");
            if !is_written(&instr, &bytes) {
                write!(row, ", written ");
                show_bytes(row, &instr);
            }
        }
        Err(fault) => write!(row, " {fault:?}"),
    }
}

/// Calls the law that no instruction's bytes are the beginning of another's.
pub(crate) fn answer_law(row: &mut Row) {
    laws::prefix();
    write!(row, " returned")
}
