//! Reads and prints the names, attributes and kinds of disks of rows.

use cpm_disk::{Attribute, Broken, DiskFault, DiskKind, Name, Pattern};
use row_text::Row;

/// Takes a kind of disk.
pub(crate) fn kind_of(row: &mut Row) -> DiskKind {
    match row.word() {
        "eight" => DiskKind::EightInch,
        "megabyte" => DiskKind::Megabyte,
        _ => {
            row.refuse("no such kind of disk");
            DiskKind::EightInch
        }
    }
}

/// Takes an attribute.
pub(crate) fn attribute_of(row: &mut Row) -> Attribute {
    match row.word() {
        "read-only" => Attribute::ReadOnly,
        "system" => Attribute::System,
        _ => {
            row.refuse("no such attribute");
            Attribute::System
        }
    }
}

/// Takes whether an attribute is set: `on` or `off`.
pub(crate) fn switch_of(row: &mut Row) -> bool {
    match row.word() {
        "on" => true,
        "off" => false,
        _ => {
            row.refuse("neither on nor off");
            false
        }
    }
}

/// The first N of these bytes; if there are fewer, zeros follow. More are refused.
fn padded_to<const N: usize>(row: &mut Row, bytes: &[u8]) -> [u8; N] {
    let mut all = [0; N];
    if bytes.len() > N {
        row.refuse("too many bytes");
    }
    for (place, byte) in all.iter_mut().zip(bytes) {
        *place = *byte;
    }
    all
}

/// Takes the rest of a row as N bytes; if it has fewer, zeros follow.
pub(crate) fn padded<const N: usize>(row: &mut Row) -> [u8; N] {
    let bytes = row.bytes();
    padded_to(row, &bytes)
}

/// Takes the rest of a row as the eleven bytes of a name.
pub(crate) fn name_of(row: &mut Row) -> [u8; 11] {
    let bytes = row.bytes();
    if bytes.len() != 11 {
        row.refuse("a name has eleven bytes");
    }
    padded_to(row, &bytes)
}

/// Takes the rest of a row as a name.
pub(crate) fn file_name_of(row: &mut Row) -> Name {
    Name::new(name_of(row))
}

/// Takes a pattern: EX, S2 and the name.
pub(crate) fn pattern_of(row: &mut Row) -> Pattern {
    Pattern {
        extent: row.hexadecimal_byte(),
        high: row.hexadecimal_byte(),
        name: name_of(row),
    }
}

/// Prints the number of an entry, or `none`.
pub(crate) fn show_number(row: &mut Row, number: Option<u16>) {
    match number {
        Some(number) => write!(row, " {number}"),
        None => write!(row, " none"),
    }
}

/// Prints a number of entries and a number of blocks.
pub(crate) fn show_counts(row: &mut Row, entries: u16, blocks: u16) {
    write!(row, " {entries} entries, {blocks} blocks");
}

/// Prints the entries that break a rule: how many, and for each its number, the first rule that it breaks, and its bytes; or why they are not
/// found.
pub(crate) fn show_faults(row: &mut Row, answer: Result<Vec<Broken>, DiskFault>) {
    match answer {
        Ok(broken) => show_broken(row, &broken),
        Err(fault) => write!(row, " {fault:?}"),
    }
}

fn show_broken(row: &mut Row, broken: &[Broken]) {
    write!(row, " {} broken", broken.len());
    for entry in broken {
        write!(row, ", {} {:?}", entry.number, entry.fault);
        row.write_runs(&entry.entry.to_bytes());
    }
}

/// Prints the number that a call answers, or why the call is refused.
pub(crate) fn show_answer(row: &mut Row, answer: Result<u16, DiskFault>) {
    match answer {
        Ok(number) => write!(row, " {number}"),
        Err(fault) => write!(row, " {fault:?}"),
    }
}

/// Prints that a call was done, or why it is refused.
pub(crate) fn show_done(row: &mut Row, answer: Result<(), DiskFault>) {
    match answer {
        Ok(()) => write!(row, " done"),
        Err(fault) => write!(row, " {fault:?}"),
    }
}
