//! Prints lines with their bytes, four to a row.

ghost use Rattle.std.specs.Prelude.{◌≡◌, ◌++◌, ◌+◌, ◌/◌, ◌%◌, ◌≤◌, IfOk, OnOk, length, map, slice_index};
ghost use Rattle.std.specs.String.{string_bytes};
ghost use Rattle.hex.specs.Hex.{encode_upper};
ghost use Rattle.program_map.specs.Listings.Printed.{address_text, blanks, left_in, listed_line, margin};
ghost use Rattle.program_map.specs.Listings.Printed as spec;
ghost use Rattle.program_map.specs.Private.Runs.{byte_of};

use crate::listings::cells::Cell;
use common::FIRST_PLACE;
use std::alloc::{AllocError, Global};

/// The most bytes of a row.
const ROW: usize = 4;

/// How wide the column of bytes is.
const BYTES_WIDTH: usize = 8;

/// The blanks before the text of a line without bytes.
const BLANKS: &[u8; 16] = b"                ";

/// Appends blanks.
pub(crate) fn put_blanks(out: &mut Vec<u8>, count: usize) -> Result<(), AllocError>
    requires { count ≤ 16 }
    ensures { OnOk result (out.new.items ≡ out.old.items ++ blanks count) }
{
    out.extend_from_slice(&BLANKS[..count])
}

/// Answers the address of a byte of the file, as two bytes.
fn address_of(cell: &Cell) -> (u8, u8)
    ensures high { result.0 ≡ (FIRST_PLACE + cell.now.number) / 256 % 256 }
    ensures low { result.1 ≡ (FIRST_PLACE + cell.now.number) % 256 }
{
    let number = cell.number;
    let page = FIRST_PLACE as usize / 256 + number / 256;
    ((page % 256) as u8, (number % 256) as u8)
}

/// Answers the value of a byte of a row, or 0 if the row has no such byte.
fn value_at(row: &[Cell], index: usize) -> u8
    ensures { result ≡ slice_index (map (λ c. c.value) row.now) index }
{
    match row.get(index) {
        Some(cell) => cell.value,
        None => 0,
    }
}

/// Answers the digits of a row: four for the address of its first byte, and two for each byte.
fn row_digits(alloc: Global, first: &Cell, row: &[Cell]) -> Result<String, AllocError>
    requires { length row.now ≤ ROW }
    ensures { IfOk result (λ digits. string_bytes digits ≡ address_text (FIRST_PLACE + first.now.number) ++ encode_upper (map (λ c. c.value) row.now)) }
{
    let (high, low) = address_of(first);
    let shown = [
        high,
        low,
        value_at(row, 0),
        value_at(row, 1),
        value_at(row, 2),
        value_at(row, 3),
    ];
    hex::encode_upper(alloc, &shown[..2 + row.len()])
}

/// Appends what comes before the text of a row.
fn put_margin(alloc: Global, out: &mut Vec<u8>, row: &[Cell]) -> Result<(), AllocError>
    requires { length row.now ≤ ROW }
    ensures { OnOk result (out.new.items ≡ out.old.items ++ margin (map byte_of row.now)) }
{
    let Some((first, _)) = row.split_first() else {
        return put_blanks(out, BLANKS.len());
    };
    let digits = row_digits(alloc, first, row)?;
    let (address, bytes) = digits.as_bytes().split_at(4);
    out.extend_from_slice(address)?;
    put_blanks(out, 2)?;
    out.extend_from_slice(bytes)?;
    put_blanks(out, BYTES_WIDTH.saturating_sub(bytes.len()))?;
    put_blanks(out, 2)
}

/// Appends a row.
fn put_row(alloc: Global, out: &mut Vec<u8>, text: &[u8], row: &[Cell]) -> Result<(), AllocError>
    requires { length row.now ≤ ROW }
    ensures { OnOk result (out.new.items ≡ out.old.items ++ spec.listing_row text.now (map byte_of row.now)) }
{
    put_margin(alloc, out, row)?;
    out.extend_from_slice(text)?;
    out.push(b'\n')?;
    Ok(())
}

/// Appends a line with its bytes.
pub(crate) fn put_line(
    alloc: Global,
    out: &mut Vec<u8>,
    text: &[u8],
    cells: &[Cell],
) -> Result<(), AllocError>
    ensures { OnOk result (out.new.items ≡ out.old.items ++ listed_line text.now (map byte_of cells.now)) }
{
    let (first, more) = cells.split_at(ROW.min(cells.len()));
    put_row(alloc, out, text, first)?;
    for row in more.chunks(ROW) {
        put_row(alloc, out, &[], row)?;
    }
    Ok(())
}
