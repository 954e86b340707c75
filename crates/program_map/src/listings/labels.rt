//! Prints labels by name.

ghost use Rattle.std.specs.Prelude.{◌≡◌, ◌++◌, IfOk, OnOk, map};
ghost use Rattle.zlink.specs.Linked.{symbol_of};
ghost use Rattle.program_map.specs.Listings.Symbols.{symbol_line};
ghost use Rattle.program_map.specs.Listings.Symbols as spec;

use crate::listings::rows::put_blanks;
use std::alloc::{AllocError, Global};
use zlink::{Built, Symbol};

/// Answers the labels, borrowed.
fn lent(alloc: Global, symbols: &[Symbol]) -> Result<Vec<&Symbol>, AllocError>
    ensures { IfOk result (λ found. map (λ s. s.now) found.items ≡ symbols.now) }
{
    symbols.iter().collect(alloc)
}

/// Answers the labels by name. Those with the same name stay in their order.
fn by_name(alloc: Global, symbols: &[Symbol]) -> Result<Vec<&Symbol>, AllocError>
    ensures { IfOk result (λ sorted. map (λ s. symbol_of s.now) sorted.items ≡ spec.by_name (map symbol_of symbols.now)) }
{
    let mut sorted = lent(alloc, symbols)?;
    sorted.sort_by(|a, b| a.name.cmp(&b.name))?;
    Ok(sorted)
}

/// Appends the line of a label.
fn put_symbol(alloc: Global, out: &mut Vec<u8>, symbol: &Symbol) -> Result<(), AllocError>
    ensures { OnOk result (out.new.items ≡ out.old.items ++ symbol_line (symbol_of symbol.now)) }
{
    let place = symbol.place;
    let address = [(place / 256 % 256) as u8, (place % 256) as u8];
    let digits = hex::encode_upper(alloc, &address[..])?;
    out.extend_from_slice(digits.as_bytes())?;
    put_blanks(out, 1)?;
    out.extend_from_slice(&symbol.module)?;
    put_blanks(out, 1)?;
    out.extend_from_slice(&symbol.name)?;
    out.push(b'\n')?;
    Ok(())
}

/// Answers the symbols file of a program: a line for each label, with its address in hexadecimal, its module and its name. The lines are
/// sorted by name, byte by byte. Equal names are in the order of their modules.
///
/// # Errors
///
/// [`AllocError`] if memory ran out.
pub fn symbols(alloc: Global, built: &Built) -> Result<Vec<u8>, AllocError>
    ensures { IfOk result (λ text. text.items ≡ spec.symbols built.now) }
{
    let sorted = by_name(alloc, &built.symbols)?;
    let mut out = Vec::new(alloc);
    for symbol in &sorted {
        put_symbol(alloc, &mut out, symbol)?;
    }
    Ok(out)
}
