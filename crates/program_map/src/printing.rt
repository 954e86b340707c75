//! Prints addresses and numbers.

ghost use Rattle.std.specs.Prelude.{◌≡◌, ◌++◌, ◌≤◌, OnOk};
ghost use Rattle.program_map.specs.Printed.{address_text, blanks, number_column};

use std::alloc::{AllocError, Global};

/// The most blanks that are put at once.
const BLANKS: &[u8; 16] = b"                ";

/// Appends blanks.
pub(crate) fn put_blanks(out: &mut Vec<u8>, count: usize) -> Result<(), AllocError>
    requires { count ≤ 16 }
    ensures { OnOk result (out.new.items ≡ out.old.items ++ blanks count) }
{
    out.extend_from_slice(&BLANKS[..count])
}

/// Appends a text.
pub(crate) fn put(out: &mut Vec<u8>, text: &str) -> Result<(), AllocError>
    ensures { OnOk result (out.new.items ≡ out.old.items ++ text.now) }
{
    out.extend_from_slice(text.as_bytes())
}

/// Appends an address as four digits.
pub(crate) fn put_address(alloc: Global, out: &mut Vec<u8>, place: u32) -> Result<(), AllocError>
    ensures { OnOk result (out.new.items ≡ out.old.items ++ address_text place) }
{
    let address = [(place / 256 % 256) as u8, (place % 256) as u8];
    let digits = hex::encode_upper(alloc, &address[..])?;
    out.extend_from_slice(digits.as_bytes())
}

/// Appends a number at the right of a column.
pub(crate) fn put_column(
    alloc: Global,
    out: &mut Vec<u8>,
    width: usize,
    number: usize,
) -> Result<(), AllocError>
    requires { width ≤ 16 }
    ensures { OnOk result (out.new.items ≡ out.old.items ++ number_column width number) }
{
    let text = format!(in alloc; "{number}")?;
    put_blanks(out, width.saturating_sub(text.len()))?;
    put(out, &text)
}
