//! Prints the answers of rows.

use row_text::Row;

/// Prints lines, with `|` for the end of each.
pub(crate) fn show_lines(row: &mut Row, text: &[u8]) {
    write!(row, " ");
    for byte in text {
        if *byte == b'\n' {
            write!(row, "|");
        } else {
            row.write_text(&[*byte]);
        }
    }
}
