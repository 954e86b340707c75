//! Rows of lists of entries, in which the functions of the directory search.

ghost use Rattle.std.specs.Prelude.{◌≤◌, length};

use crate::call::{NewLast, OnLast, OnList};
use crate::disks::show_files;
use crate::shown::{
    attribute_of, file_name_of, kind_of, name_of, padded, pattern_of, show_counts, show_faults,
    show_number, switch_of,
};
use cpm_disk::DiskKind;
use cpm_image::{
    Entry, faults, file_is_read_only, file_is_system, find, free_block, free_entry, is_file, judge,
    list as list_files, position_of, size, space_of, usage_of,
};
use row_text::Row;
use std::alloc::Global;

/// Directory entries of a format.
#[derive(Drop)]
pub(crate) struct List {
    kind: DiskKind,
    entries: Vec<Entry>,
}

/// A list without entries.
pub(crate) fn empty_list(alloc: Global) -> List {
    List {
        kind: DiskKind::EightInch,
        entries: Vec::new(alloc),
    }
}

/// A list without entries, of a format that the row names.
pub(crate) fn new_list(row: &mut Row) -> List {
    List {
        kind: kind_of(row),
        entries: Vec::new(row.alloc()),
    }
}

/// Adds an entry to the list.
fn add(row: &mut Row, list: &mut List, entry: Entry) {
    if list.entries.push(entry).is_err() {
        row.refuse("no memory");
    }
}

/// The entry of a new extent: the user, the number of the extent, and the name.
fn new_extent(row: &mut Row) -> Entry {
    let user = row.byte();
    let number = row.short();
    let name = name_of(row);
    if number < 8_192 {
        Entry::new_extent(user, name, number)
    } else {
        row.refuse("no such extent");
        Entry::new_extent(user, name, 0)
    }
}

/// The entry after a record is written to a block: the record's number in the extent, and its block.
fn with_record(row: &mut Row, kind: DiskKind, entry: &Entry) -> Entry {
    let record = row.byte();
    let block = row.short();
    match kind {
        DiskKind::EightInch if record < 128 && block < 256 => {
            entry.with_record(DiskKind::EightInch, record, block)
        }
        DiskKind::Megabyte if record < 128 => entry.with_record(DiskKind::Megabyte, record, block),
        _ => {
            row.refuse("no such record or block");
            *entry
        }
    }
}

/// The entry with an attribute set or cleared.
fn marked(row: &mut Row, entry: &Entry) -> Entry {
    let attribute = attribute_of(row);
    entry.marked(attribute, switch_of(row))
}

/// The last entry as a call changes it.
fn changed(row: &mut Row, call: NewLast, kind: DiskKind, entry: &Entry) -> Entry {
    match call {
        NewLast::With => with_record(row, kind, entry),
        NewLast::Marked => marked(row, entry),
        NewLast::Erased => entry.erased(),
        _ => entry.renamed(&file_name_of(row)),
    }
}

/// Replaces the last entry.
fn change_last(row: &mut Row, call: NewLast, list: &mut List) {
    match list.entries.pop() {
        Some(entry) => {
            let entry = changed(row, call, list.kind, &entry);
            add(row, list, entry)
        }
        None => row.refuse("no entry"),
    }
}

/// Makes calls that make or change the last entry of a list.
pub(crate) fn change_list(row: &mut Row, call: NewLast, list: &mut List) {
    match call {
        NewLast::Add => {
            let entry = new_extent(row);
            add(row, list, entry)
        }
        NewLast::AddBytes => {
            let entry = Entry::from_bytes(&padded(row));
            add(row, list, entry)
        }
        _ => change_last(row, call, list),
    }
}

/// Prints the bytes of the last entry, the number of its extent, and what it is.
fn answer_shape(row: &mut Row, entry: &Entry) {
    row.write_runs(&entry.to_bytes());
    if entry.is_free() {
        write!(row, " free");
    }
    if entry.is_read_only() {
        write!(row, " read-only");
    }
    if entry.is_system() {
        write!(row, " system");
    }
    if entry.is_extent() {
        write!(row, " extent {}", entry.extent_number());
    }
}

/// Prints whether the last entry has a record, and the logical record of the disk for it.
fn answer_record(row: &mut Row, kind: DiskKind, entry: &Entry) {
    let record = row.byte();
    if record >= 128 {
        return row.refuse("no such record");
    }
    let is_there = if entry.has_record(kind, record) {
        "there"
    } else {
        "not there"
    };
    write!(
        row,
        " {is_there}, {}",
        entry.place_on_disk(kind, record).number()
    )
}

/// Prints a block of the last entry on a disk of a format: the format, and which block.
fn answer_block(row: &mut Row, entry: &Entry) {
    let kind = kind_of(row);
    let group = row.byte();
    if group >= kind.entry_blocks() {
        return row.refuse("no such block");
    }
    write!(row, " {}", entry.block(kind, group))
}

/// Prints yes or no.
fn show_truth(row: &mut Row, is_so: bool) {
    let word = if is_so { "yes" } else { "no" };
    write!(row, " {word}")
}

/// Makes calls that look at the last entry of a list.
pub(crate) fn answer_last(row: &mut Row, call: OnLast, list: &List) {
    let Some(entry) = list.entries.last() else {
        return row.refuse("no entry");
    };
    match call {
        OnLast::Shape => answer_shape(row, entry),
        OnLast::RecordOf => answer_record(row, list.kind, entry),
        OnLast::BlockOf => answer_block(row, entry),
        OnLast::IsOf => {
            let user = row.byte();
            let name = file_name_of(row);
            show_truth(row, entry.is_of(user, &name))
        }
        OnLast::Matches => {
            let user = row.byte();
            let name = name_of(row);
            show_truth(row, entry.is_match(user, &name))
        }
    }
}

/// Prints whether a list keeps the rules, or its first fault.
fn answer_judged(row: &mut Row, list: &List) {
    match judge(list.kind, &list.entries) {
        Ok(()) => write!(row, " kept"),
        Err(fault) => write!(row, " {fault:?}"),
    }
}

/// Prints the records and the attributes of a file in a list.
fn answer_file(row: &mut Row, entries: &[Entry]) {
    let user = row.byte();
    let name = file_name_of(row);
    let count = size(entries, user, &name);
    if !is_file(entries, user, &name) {
        return write!(row, " none, {count:?}");
    }
    write!(row, " {count:?} records");
    if file_is_read_only(entries, user, &name) {
        write!(row, " read-only");
    }
    if file_is_system(entries, user, &name) {
        write!(row, " system");
    }
}

/// Prints the first free entry and the first free block of a part of a list.
fn answer_free(row: &mut Row, kind: DiskKind, entries: &[Entry]) {
    let (from, to) = (row.decimal() as usize, row.decimal() as usize);
    match entries.get(from..to) {
        Some(part) if part.len() <= 256 => {
            write!(row, " entry");
            show_number(row, free_entry(part));
            write!(row, ", block");
            show_number(row, free_block(kind, part))
        }
        _ => row.refuse("no such part"),
    }
}

/// Prints the position of an extent: the user, its number and the name.
fn answer_position(row: &mut Row, entries: &[Entry])
    requires { length entries.now ≤ 256 }
{
    let user = row.byte();
    let number = row.short();
    let name = file_name_of(row);
    show_number(row, position_of(entries, user, &name, number))
}

/// Prints the first entry that a pattern finds: the user, where to begin, EX, S2 and the name.
fn answer_found(row: &mut Row, entries: &[Entry])
    requires { length entries.now ≤ 256 }
{
    let user = row.byte();
    let from = row.short();
    let pattern = pattern_of(row);
    show_number(row, find(entries, user, &pattern, from))
}

/// Prints the number of entries and blocks that a file in a list has.
fn answer_usage(row: &mut Row, kind: DiskKind, entries: &[Entry])
    requires { length entries.now ≤ 256 }
{
    let user = row.byte();
    let name = file_name_of(row);
    let usage = usage_of(kind, entries, user, &name);
    show_counts(row, usage.entries, usage.blocks)
}

/// Prints the number of free entries and blocks in a list.
fn answer_space(row: &mut Row, kind: DiskKind, entries: &[Entry])
    requires { length entries.now ≤ 256 }
{
    let space = space_of(kind, entries);
    show_counts(row, space.entries, space.blocks)
}

/// Makes calls that look at a whole list of at most 256 entries.
fn answer_short_list(row: &mut Row, call: OnList, kind: DiskKind, entries: &[Entry])
    requires { length entries.now ≤ 256 }
{
    match call {
        OnList::Position => answer_position(row, entries),
        OnList::Match => answer_found(row, entries),
        OnList::UsageOf => answer_usage(row, kind, entries),
        OnList::SpaceOf => answer_space(row, kind, entries),
        _ => show_faults(row, faults(row.alloc(), kind, entries)),
    }
}

/// Makes calls that look at a whole list.
pub(crate) fn answer_list(row: &mut Row, call: OnList, list: &List) {
    match call {
        OnList::Judge => answer_judged(row, list),
        OnList::File => answer_file(row, &list.entries),
        OnList::Free => answer_free(row, list.kind, &list.entries),
        OnList::Files => show_files(row, list_files(row.alloc(), &list.entries)),
        _ if list.entries.len() <= 256 => answer_short_list(row, call, list.kind, &list.entries),
        _ => row.refuse("too many entries"),
    }
}
