//! Prints how often a run was at each address.

ghost use Rattle.std.specs.Prelude.{◌≡◌, ◌++◌, IfOk, OnOk};
ghost use Rattle.std.specs.List.{flat_map};
ghost use Rattle.std.specs.List.Sorted.{IsNonDecreasingBy, IsPermutation};
ghost use Rattle.z80dev_run.specs.Profile.{IsProfile, counted_rows, order_of, profile_line};

use crate::labels::Labels;
use crate::lines::label_of;
use cpm_run::Record;
use state_text::{put_blanks, put_number, put_word};
use std::alloc::{AllocError, Global};

/// An address, and how many steps were made there.
#[derive(Clone, Copy)]
struct Counted {
    address: u16,
    count: u64,
}

/// The place of a row in a profile: by falling count, then by address.
fn order_of(row: &Counted) -> u128
    ensures { result ≡ order_of row.now }
{
    u128::from(u64::MAX - row.count) * 65_536 + u128::from(row.address)
}

/// The addresses at which steps were made, in their order.
fn counted_rows(alloc: Global, counts: &[u64]) -> Result<Vec<Counted>, AllocError>
    ensures { IfOk result (λ rows. rows.items ≡ counted_rows 0 counts.now) }
{
    let mut rows = Vec::new(alloc);
    let mut number: usize = 0;
    let mut rest = counts;
    while let Some((count, behind)) = rest.split_first() {
        let address = (number % 65_536) as u16;
        if *count != 0 {
            rows.push(Counted {
                address,
                count: *count,
            })?;
        }
        number += 1;
        rest = behind;
    }
    Ok(rows)
}

/// The same by falling count, then by address.
fn sorted(alloc: Global, counts: &[u64]) -> Result<Vec<Counted>, AllocError>
    ensures same { IfOk result (λ rows. IsPermutation (counted_rows 0 counts.now) rows.items) }
    ensures order { IfOk result (λ rows. IsNonDecreasingBy order_of rows.items) }
{
    let mut rows = counted_rows(alloc, counts)?;
    rows.sort_by_key(|row| order_of(row))?;
    Ok(rows)
}

/// Appends the line of an address.
fn put_row(
    alloc: Global,
    out: &mut Vec<u8>,
    row: &Counted,
    labels: &Labels,
) -> Result<(), AllocError>
    ensures { OnOk result (out.new.items ≡ out.old.items ++ profile_line labels.now row.now) }
{
    let label = label_of(alloc, labels, row.address)?;
    put_number(alloc, out, 10, row.count)?;
    put_blanks(out, 1)?;
    put_word(alloc, out, row.address)?;
    put_blanks(out, 1)?;
    out.extend_from_slice(&label)?;
    out.extend_from_slice(b"\n")
}

/// Appends the lines of addresses.
fn put_rows(
    alloc: Global,
    out: &mut Vec<u8>,
    rows: &[Counted],
    labels: &Labels,
) -> Result<(), AllocError>
    ensures { OnOk result (out.new.items ≡ out.old.items ++ flat_map (profile_line labels.now) rows.now) }
{
    for row in rows {
        put_row(alloc, out, row, labels)?;
    }
    Ok(())
}

/// Answers the bytes of a profile: the number of all steps, and a line for each address at which steps were made, with their number and the
/// label of the address, by falling number and then by address.
pub fn profile_file(
    alloc: Global,
    kept: &Record,
    turns: u64,
    labels: &Labels,
) -> Result<Vec<u8>, AllocError>
    ensures { IfOk result (λ text. IsProfile labels.now kept.now.counts.items turns text.items) }
{
    let rows = sorted(alloc, &kept.counts)?;
    let mut out = format!(in alloc; "{turns} steps\n")?.into_bytes();
    put_rows(alloc, &mut out, &rows, labels)?;
    Ok(out)
}
