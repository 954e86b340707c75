//! Prints the symbols of a program for debuggers.

ghost use Rattle.std.specs.Prelude.{◌≡◌, ◌++◌, ◌∷◌, [], IfOk, OnOk, filter, map, not};
ghost use Rattle.std.specs.List.{flat_map};
ghost use Rattle.zlink.specs.Linked.{symbol_of};
ghost use Rattle.program_map.specs.Named.{named_of};
ghost use Rattle.program_map.specs.SymbolFile.{is_made_by_local, label_named, printed_in, sid_line, ucsim_line};
ghost use Rattle.program_map.specs.SymbolFile as spec;

mod form;

use crate::naming::{PlacedName, by_address};
use crate::printing::{put, put_address, put_blanks};
pub use form::SymbolForm;
use std::alloc::{AllocError, Global};
use zlink::Symbol;

/// The most characters of a name of MAC, whose files SID reads.
const LONGEST_SID_NAME: usize = 16;

/// Whether `LOCAL` made the name, which then begins with `??`.
fn is_made_by_local(name: &[u8]) -> bool
    ensures { result ≡ is_made_by_local name.now }
{
    name.starts_with(b"??")
}

/// Appends the line of a name for SID.
fn put_sid(alloc: Global, out: &mut Vec<u8>, name: &PlacedName) -> Result<(), AllocError>
    ensures { OnOk result (out.new.items ≡ out.old.items ++ sid_line (named_of name.now)) }
{
    put_address(alloc, out, name.place)?;
    put_blanks(out, 1)?;
    let length = name.name.len().min(LONGEST_SID_NAME);
    out.extend_from_slice(&name.name[..length])?;
    put(out, "\r\n")
}

/// Appends the command of ucsim for a name.
fn put_ucsim(alloc: Global, out: &mut Vec<u8>, name: &PlacedName) -> Result<(), AllocError>
    ensures { OnOk result (out.new.items ≡ out.old.items ++ ucsim_line (named_of name.now)) }
{
    put(out, "var ")?;
    out.extend_from_slice(&name.name)?;
    put(out, " rom 0x")?;
    put_address(alloc, out, name.place)?;
    put(out, "\n")
}

/// Answers the lines for SID.
fn sid_file(alloc: Global, names: &[PlacedName]) -> Result<Vec<u8>, AllocError>
    ensures { IfOk result (λ text. text.items ≡ flat_map sid_line (map named_of names.now) ++ 0x1A ∷ []) }
{
    let mut out = Vec::new(alloc);
    for name in names {
        put_sid(alloc, &mut out, name)?;
    }
    out.push(0x1A)?;
    Ok(out)
}

/// Answers the commands of ucsim.
fn ucsim_file(alloc: Global, names: &[PlacedName]) -> Result<Vec<u8>, AllocError>
    ensures { IfOk result (λ text. text.items ≡ flat_map ucsim_line (map named_of names.now)) }
{
    let mut out = Vec::new(alloc);
    for name in names {
        put_ucsim(alloc, &mut out, name)?;
    }
    Ok(out)
}

/// Answers the names as a file, given those that are in it, by address.
fn printed(alloc: Global, form: SymbolForm, names: &[PlacedName]) -> Result<Vec<u8>, AllocError>
    ensures { IfOk result (λ text. text.items ≡ printed_in form (map named_of names.now)) }
{
    match form {
        SymbolForm::Sid => sid_file(alloc, names),
        SymbolForm::Ucsim => ucsim_file(alloc, names),
    }
}

/// Answers the names of labels with their addresses, without those that `LOCAL` made.
fn kept_names(alloc: Global, symbols: &[Symbol]) -> Result<Vec<PlacedName>, AllocError>
    ensures { IfOk result (λ names. map named_of names.items ≡ filter (λ n. not (is_made_by_local n.name)) (map label_named (map symbol_of symbols.now))) }
{
    let mut names = Vec::new(alloc);
    for symbol in symbols {
        if !is_made_by_local(&symbol.name) {
            names.push(PlacedName {
                place: symbol.place,
                name: symbol.name.to_vec(alloc)?,
            })?;
        }
    }
    Ok(names)
}

/// Answers the labels of a program as a file that a debugger reads, without the names that `LOCAL` made. The lines are in the order of the
/// addresses. Labels of one address are in the order in which they are given.
///
/// # Errors
///
/// [`AllocError`] if memory ran out.
pub fn symbol_file(
    alloc: Global,
    form: SymbolForm,
    symbols: &[Symbol],
) -> Result<Vec<u8>, AllocError>
    ensures { IfOk result (λ text. text.items ≡ spec.symbol_file form (map symbol_of symbols.now)) }
{
    let names = by_address(kept_names(alloc, symbols)?)?;
    printed(alloc, form, &names)
}
