//! Prints a listing with how often each line ran.

ghost use Rattle.std.specs.Prelude.{◌≡◌, ◌++◌, IfOk, OnOk, decimal, slice_index};
ghost use Rattle.std.specs.List.{flat_map};
ghost use Rattle.asm_macro.specs.Texts.{source_lines};
ghost use Rattle.z80dev_run.specs.Coverage.{coverage_line, listed_address, margin_text};

use asm_macro::source_part;
use bstr::ByteSlice;
use cpm_run::Record;
use state_text::{put_blanks, put_number};
use std::alloc::{AllocError, Global};

/// The address that a line of a listing begins with, if it does: four hexadecimal digits and two blanks.
fn listed_address(line: &[u8]) -> Option<u16>
    ensures { result ≡ listed_address line.now }
{
    let [a, b, c, d, e, f, ..] = line else {
        return None;
    };
    if *e != b' ' || *f != b' ' {
        return None;
    }
    let digits = [*a, *b, *c, *d];
    let mut bytes = [0; 2];
    match hex::decode_to_slice(&digits[..], &mut bytes) {
        Ok(()) => Some(u16::from_be_bytes(bytes)),
        Err(_) => None,
    }
}

/// How many steps were counted at an address.
fn count_at(counts: &[u64], address: u16) -> u64
    ensures { result ≡ slice_index counts.now address }
{
    match counts.get(address as usize) {
        Some(count) => *count,
        None => 0,
    }
}

/// Appends how often the line of an address ran, or blanks for a line without one.
fn put_margin(
    alloc: Global,
    out: &mut Vec<u8>,
    counts: &[u64],
    address: Option<u16>,
) -> Result<(), AllocError>
    ensures { OnOk result (out.new.items ≡ out.old.items ++ margin_text counts.now address) }
{
    match address {
        Some(address) => put_number(alloc, out, 10, count_at(counts, address)),
        None => put_blanks(out, 10),
    }
}

/// Appends a line of a listing with its count.
fn put_line(alloc: Global, out: &mut Vec<u8>, counts: &[u64], line: &[u8]) -> Result<(), AllocError>
    ensures { OnOk result (out.new.items ≡ out.old.items ++ coverage_line counts.now line.now) }
{
    put_margin(alloc, out, counts, listed_address(line))?;
    put_blanks(out, 1)?;
    out.extend_from_slice(line)?;
    out.extend_from_slice(b"\n")
}

/// Answers a listing with a number before each line: how many steps were made at the address that the line begins with.
pub fn coverage_file(alloc: Global, kept: &Record, listing: &[u8]) -> Result<Vec<u8>, AllocError>
    ensures { IfOk result (λ text. text.items ≡ flat_map (coverage_line kept.now.counts.items) (source_lines listing.now)) }
{
    let counts = kept.counts.as_slice();
    let mut out = Vec::new(alloc);
    for line in source_part(listing).lines() {
        put_line(alloc, &mut out, counts, line)?;
    }
    Ok(out)
}
