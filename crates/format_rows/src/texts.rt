//! Parses bytes and lines as rows have them, and compares texts.

use row_text::Row;
use std::alloc::AllocError;

/// Takes the rest of a row as bytes in hexadecimal, with or without blanks between them.
pub(crate) fn hexadecimal(row: &mut Row) -> Vec<u8> {
    let mut digits = row.bytes();
    digits.retain(|byte| *byte != b' ');
    match hex::decode(row.alloc(), &digits) {
        Ok(bytes) => bytes,
        Err(_) => {
            row.refuse("no bytes in hexadecimal");
            digits
        }
    }
}

/// Takes the rest of a row as lines; each ends in `|` in the row.
pub(crate) fn lines(row: &mut Row) -> Vec<u8> {
    let rest = row.rest();
    row.lines_of(rest)
}

/// Prints a remark if this is not what was made.
pub(crate) fn show_difference(
    row: &mut Row,
    made: Result<Vec<u8>, AllocError>,
    text: &[u8],
    remark: &str,
) {
    match made {
        Ok(made) => {
            if made.as_slice() != text {
                write!(row, " {remark}");
            }
        }
        Err(_) => row.refuse("no memory"),
    }
}
