//! Reads and writes the header of an object file: name, flags, counts and entry.

ghost use Rattle.std.specs.Prelude.{◌≡◌, ◌++◌, OnOk};
ghost use Rattle.zmo_object.specs.Modules.{module_of};
ghost use Rattle.zmo_object.specs.Fields.Field.{FieldReturns};
ghost use Rattle.zmo_object.specs.Texts.{counts_text, entry_text, flags, header_text};
ghost use Rattle.zmo_object.specs.Reading.{counts_at, entry_field, flags_at, header_at};
ghost use Rattle.zmo_object.specs.Private.{FitsHeader, counts_of, header_of};

use crate::Module;
use crate::field::{byte, counted, number, word};
use crate::field_fault::FieldFault;
use crate::put::{put_byte, put_counted, put_word};
use common::{MOST_NAMES, MOST_STATEMENTS};
use std::alloc::AllocError;

/// The numbers of statements, labels, publics and externals.
#[derive(Clone, Copy)]
pub(crate) struct Counts {
    pub(crate) statements: u16,
    pub(crate) labels: u16,
    pub(crate) publics: u16,
    pub(crate) externals: u16,
}

/// The header of an object file, without its first four bytes.
#[derive(Clone, Copy)]
pub(crate) struct Header<'a> {
    pub(crate) name: &'a [u8],
    pub(crate) begins: bool,
    pub(crate) counts: Counts,
    pub(crate) entry: Option<u16>,
}

fn flags(module: &Module) -> u8
    ensures { result ≡ flags (module_of «module».now) }
{
    let begins = if module.begins { 1 } else { 0 };
    let entry = if module.entry.is_some() { 2 } else { 0 };
    begins + entry
}

fn put_counts(text: &mut Vec<u8>, module: &Module) -> Result<(), AllocError>
    requires { FitsHeader (module_of «module».now) }
    ensures { OnOk result (text.new.items ≡ text.old.items ++ counts_text (module_of «module».now)) }
{
    put_word(text, module.statements.len() as u16)?;
    put_word(text, module.labels.len() as u16)?;
    put_word(text, module.publics.len() as u16)?;
    put_word(text, module.externals.len() as u16)
}

fn put_entry(text: &mut Vec<u8>, entry: Option<u16>) -> Result<(), AllocError>
    ensures { OnOk result (text.new.items ≡ text.old.items ++ entry_text entry) }
{
    match entry {
        Some(label) => put_word(text, label),
        None => Ok(()),
    }
}

/// Appends the header of a module's object file, with its first four bytes.
pub(crate) fn put_header(text: &mut Vec<u8>, module: &Module) -> Result<(), AllocError>
    requires { FitsHeader (module_of «module».now) }
    ensures { OnOk result (text.new.items ≡ text.old.items ++ header_text (module_of «module».now)) }
{
    text.extend_from_slice(if module.grow { b"ZMO2" } else { b"ZMO1" })?;
    put_counted(text, &module.name)?;
    put_byte(text, flags(module))?;
    put_counts(text, module)?;
    put_entry(text, module.entry)
}

fn read_counts(bytes: &[u8]) -> Result<(Counts, &[u8]), FieldFault>
    ensures { FieldReturns (λ x. (counts_of x.0, x.1.now)) result (counts_at bytes.now) }
{
    let (statements, rest) = number(0, MOST_STATEMENTS + 1, bytes)?;
    let (labels, rest) = number(0, MOST_NAMES + 1, rest)?;
    let (publics, rest) = word(rest)?;
    let room = (MOST_NAMES + 1).saturating_sub(usize::from(labels));
    let (externals, rest) = number(0, room, rest)?;
    let counts = Counts {
        statements,
        labels,
        publics,
        externals,
    };
    Ok((counts, rest))
}

/// Reads the entry if there is one: the number of a label, below `labels`.
fn entry(has_entry: bool, labels: u16, bytes: &[u8]) -> Result<(Option<u16>, &[u8]), FieldFault>
    ensures { FieldReturns (λ x. (x.0, x.1.now)) result (entry_field has_entry labels bytes.now) }
{
    if !has_entry {
        return Ok((None, bytes));
    }
    let (label, rest) = number(0, usize::from(labels), bytes)?;
    Ok((Some(label), rest))
}

fn flag_bits(bytes: &[u8]) -> Result<(u8, &[u8]), FieldFault>
    ensures { FieldReturns (λ x. (x.0, x.1.now)) result (flags_at bytes.now) }
{
    let (flags, rest) = byte(bytes)?;
    if flags >= 4 {
        return Err(FieldFault::BadField(bytes.len()));
    }
    Ok((flags, rest))
}

/// Reads the header of an object file after its first four bytes.
pub(crate) fn read_header(bytes: &[u8]) -> Result<(Header<'_>, &[u8]), FieldFault>
    ensures { FieldReturns (λ x. (header_of x.0, x.1.now)) result (header_at bytes.now) }
{
    let (name, rest) = counted(bytes)?;
    let (flags, rest) = flag_bits(rest)?;
    let (counts, rest) = read_counts(rest)?;
    let (entry, rest) = entry(flags >= 2, counts.labels, rest)?;
    let header = Header {
        name,
        begins: flags % 2 == 1,
        counts,
        entry,
    };
    Ok((header, rest))
}
