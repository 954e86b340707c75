//! Prints numbers and columns.

ghost use Rattle.std.specs.Prelude.{◌≡◌, ◌≤◌, ◌++◌, OnOk, decimal};
ghost use Rattle.state_text.specs.Printing.Columns.{blanks, column, on_right, word_text};

use std::alloc::{AllocError, Global};

/// As many blanks as the widest column has.
const BLANKS: &[u8; 16] = b"                ";

/// Appends blanks.
pub fn put_blanks(out: &mut Vec<u8>, count: usize) -> Result<(), AllocError>
    requires { count ≤ 16 }
    ensures { OnOk result (out.new.items ≡ out.old.items ++ blanks count) }
{
    out.extend_from_slice(&BLANKS[..count])
}

/// Appends a text on the left of a column, and a blank after it.
pub fn put_column(out: &mut Vec<u8>, width: usize, text: &[u8]) -> Result<(), AllocError>
    requires { width ≤ 16 }
    ensures { OnOk result (out.new.items ≡ out.old.items ++ column width text.now) }
{
    out.extend_from_slice(text)?;
    put_blanks(out, width.saturating_sub(text.len()))?;
    put_blanks(out, 1)
}

/// Appends a number in decimal on the right of a column.
pub fn put_number(
    alloc: Global,
    out: &mut Vec<u8>,
    width: usize,
    number: u64,
) -> Result<(), AllocError>
    requires { width ≤ 16 }
    ensures { OnOk result (out.new.items ≡ out.old.items ++ on_right width (decimal number)) }
{
    let digits = format!(in alloc; "{number}")?;
    let digits = digits.as_bytes();
    put_blanks(out, width.saturating_sub(digits.len()))?;
    out.extend_from_slice(digits)
}

/// Appends a word as four hexadecimal digits.
pub fn put_word(alloc: Global, out: &mut Vec<u8>, word: u16) -> Result<(), AllocError>
    ensures { OnOk result (out.new.items ≡ out.old.items ++ word_text word) }
{
    let digits = hex::encode_upper(alloc, &word.to_be_bytes()[..])?;
    out.extend_from_slice(digits.as_bytes())
}
