//! Rows of mounted disks and their calls.

ghost use Rattle.std.specs.Prelude.{◌<◌};

use crate::call::ChangeKind;
use crate::shown::{
    attribute_of, file_name_of, pattern_of, show_answer, show_counts, show_done, show_number,
    switch_of,
};
use cpm_disk::{Attribute, Disk, DiskFault, Listed, Name, Pattern};
use cpm_image::{FailedWrite, Failing, MemoryImage};
use row_text::Row;

/// Takes what a failed write leaves: `old` or `new`.
pub(crate) fn leaves_of(row: &mut Row) -> FailedWrite {
    if row.word() == "new" {
        FailedWrite::New
    } else {
        FailedWrite::Old
    }
}

/// Makes a device over an image: `good`; or `once` or `from` with the number of the call that fails, counted from 0, and `old` or `new`
/// for what a failed write leaves.
pub(crate) fn device_of(row: &mut Row, image: MemoryImage) -> Failing {
    let mode = row.word();
    if mode == "good" {
        return good(image);
    }
    let call = row.decimal();
    let leaves = leaves_of(row);
    if mode == "from" {
        Failing::lasting(image, call, leaves)
    } else {
        if mode != "once" {
            row.refuse("no such device");
        }
        Failing::once(image, call, leaves)
    }
}

/// A device over an image that does not fail.
pub(crate) fn good(image: MemoryImage) -> Failing {
    Failing::once(image, u32::MAX, FailedWrite::Old)
}

/// A call that changes a disk.
#[derive(Clone, Copy)]
pub(crate) enum Change {
    Create(Name),
    Erase(Pattern),
    Mark(Pattern, Attribute, bool),
    Rename(Name, Name),
    Read(Name, u32),
    Write(Name, u32, u8),
}

/// Takes the attribute to set or clear, and the entries: the columns are the attribute, `on` or `off`, and a pattern.
fn mark_of(row: &mut Row) -> Change {
    let attribute = attribute_of(row);
    let is_set = switch_of(row);
    Change::Mark(pattern_of(row), attribute, is_set)
}

/// Takes two names, with `/` between them.
fn rename_of(row: &mut Row) -> Change {
    let old = row.until('/');
    let old = name_in(row, old);
    Change::Rename(old, file_name_of(row))
}

/// The name of eleven bytes that this text is.
fn name_in(row: &mut Row, text: &str) -> Name {
    let mut part = Row::new(row.alloc(), text);
    let name = file_name_of(&mut part);
    if part.is_wrong() {
        row.refuse("a name has eleven bytes");
    }
    name
}

/// Takes the columns of a call that changes a disk.
pub(crate) fn change_of(row: &mut Row, call: ChangeKind) -> Change {
    match call {
        ChangeKind::Create => Change::Create(file_name_of(row)),
        ChangeKind::Erase => Change::Erase(pattern_of(row)),
        ChangeKind::Mark => mark_of(row),
        ChangeKind::Rename => rename_of(row),
        ChangeKind::Read => {
            let number = row.decimal();
            Change::Read(file_name_of(row), number)
        }
        ChangeKind::Write => {
            let number = row.decimal();
            let value = row.hexadecimal_byte();
            Change::Write(file_name_of(row), number, value)
        }
    }
}

/// Makes a change, and answers only whether it was done.
pub(crate) fn make(change: Change, user: u8, disk: &mut Disk<Failing>) -> Result<(), DiskFault>
    requires { user < 32 }
{
    match change {
        Change::Create(name) => disk.create(user, &name).map(|_| ()),
        Change::Erase(pattern) => disk.erase(user, &pattern).map(|_| ()),
        Change::Mark(pattern, attribute, on) => disk
            .mark(user, &pattern, attribute, on)
            .map(|_| ()),
        Change::Rename(old, new) => disk.rename(user, &old, &new),
        Change::Read(name, number) => disk.read_block_of(user, &name, number).map(|_| ()),
        Change::Write(name, number, value) => {
            disk.write_block_of(user, &name, number, &[value; 128])
        }
    }
}

/// Prints the record that a call answers, or why it is refused.
fn show_record(row: &mut Row, answer: Result<[u8; 128], DiskFault>) {
    match answer {
        Ok(bytes) => row.write_runs(&bytes),
        Err(fault) => write!(row, " {fault:?}"),
    }
}

/// Makes a change, and prints the answer.
fn show_change(row: &mut Row, change: Change, user: u8, disk: &mut Disk<Failing>)
    requires { user < 32 }
{
    match change {
        Change::Create(name) => show_answer(row, disk.create(user, &name)),
        Change::Erase(pattern) => show_answer(row, disk.erase(user, &pattern)),
        Change::Mark(pattern, attribute, on) => {
            show_answer(row, disk.mark(user, &pattern, attribute, on))
        }
        Change::Read(name, number) => show_record(row, disk.read_block_of(user, &name, number)),
        _ => show_done(row, make(change, user, disk)),
    }
}

/// A row with a call that changes a disk: the user and the columns of the call.
pub(crate) fn answer_change(row: &mut Row, call: ChangeKind, disk: &mut Disk<Failing>) {
    let user = row.byte();
    if user >= 32 {
        return row.refuse("users are 0 to 31");
    }
    let change = change_of(row, call);
    show_change(row, change, user, disk)
}

/// The bytes of a record that begins with its number.
fn marked(number: u32, mark: u8) -> [u8; 128] {
    let mut bytes = [mark; 128];
    bytes[..4].copy_from_slice(&number.to_le_bytes());
    bytes
}

/// The records of a row: the first, how many, how far apart, the byte that marks them, and the file.
#[derive(Clone, Copy)]
struct Records {
    first: u32,
    count: u32,
    step: u32,
    mark: u8,
    name: Name,
}

impl Records {
    fn of(row: &mut Row) -> Records {
        Records {
            first: row.decimal(),
            count: row.decimal(),
            step: row.decimal(),
            mark: row.hexadecimal_byte(),
            name: file_name_of(row),
        }
    }

    fn number(&self, i: u32) -> u32 {
        self.first.wrapping_add(i.wrapping_mul(self.step))
    }
}

/// Writes records of user 0 until one is refused, and prints how many were written, and why the next was not.
pub(crate) fn answer_writes(row: &mut Row, disk: &mut Disk<Failing>) {
    let records = Records::of(row);
    for i in 0..records.count {
        let number = records.number(i);
        let bytes = marked(number, records.mark);
        if let Err(fault) = disk.write_block_of(0, &records.name, number, &bytes) {
            return write!(row, " {i}, then {fault:?}");
        }
    }
    write!(row, " {}", records.count)
}

/// Reads records of user 0, and prints how many are as they were written.
pub(crate) fn answer_reads(row: &mut Row, disk: &mut Disk<Failing>) {
    let records = Records::of(row);
    let mut count = 0u32;
    for i in 0..records.count {
        let number = records.number(i);
        if disk.read_block_of(0, &records.name, number) == Ok(marked(number, records.mark)) {
            count = count.saturating_add(1);
        }
    }
    write!(row, " {count}")
}

/// A row that prints a directory entry, by its number.
pub(crate) fn answer_entry(row: &mut Row, disk: &Disk<Failing>) {
    let number = row.short();
    if number >= disk.kind().entry_count() {
        return row.refuse("no such entry");
    }
    row.write_runs(&disk.entry(number))
}

/// A row that searches the directory: by a pattern, from an entry on.
pub(crate) fn answer_found(row: &mut Row, disk: &Disk<Failing>) {
    let user = row.byte();
    let from = row.short();
    let pattern = pattern_of(row);
    show_number(row, disk.find(user, &pattern, from))
}

/// A row that prints the number of the entry of a file's extent.
pub(crate) fn answer_extent(row: &mut Row, disk: &Disk<Failing>) {
    let user = row.byte();
    let number = row.short();
    let name = file_name_of(row);
    show_number(row, disk.find_extent(user, &name, number))
}

/// A row that prints the number of records in a file.
pub(crate) fn answer_size(row: &mut Row, disk: &Disk<Failing>) {
    let user = row.byte();
    let name = file_name_of(row);
    match disk.size(user, &name) {
        Some(size) => write!(row, " {size}"),
        None => write!(row, " none"),
    }
}

/// A row that prints the number of entries and blocks that a file has.
pub(crate) fn answer_usage(row: &mut Row, disk: &Disk<Failing>) {
    let user = row.byte();
    let name = file_name_of(row);
    let usage = disk.usage(user, &name);
    show_counts(row, usage.entries, usage.blocks)
}

/// A row that prints the number of entries and blocks that are free.
pub(crate) fn answer_space(row: &mut Row, disk: &Disk<Failing>) {
    let space = disk.space();
    show_counts(row, space.entries, space.blocks)
}

/// Prints a file of a list: user, name, number of records, and attributes.
fn show_listed(row: &mut Row, file: &Listed) {
    write!(row, ", {}", file.user);
    row.write_runs(&file.name.bytes());
    write!(row, " {}", file.records);
    if file.read_only {
        write!(row, " read-only");
    }
    if file.system {
        write!(row, " system");
    }
}

/// Prints a list of files.
fn show_list(row: &mut Row, files: &[Listed]) {
    write!(row, " {} files", files.len());
    if files.len() < 10 {
        for file in files {
            show_listed(row, file);
        }
    }
}

/// Prints the files that a call answers, or why it is refused.
pub(crate) fn show_files(row: &mut Row, answer: Result<Vec<Listed>, DiskFault>) {
    match answer {
        Ok(files) => show_list(row, &files),
        Err(fault) => write!(row, " {fault:?}"),
    }
}

/// A row that prints all files of a disk.
pub(crate) fn answer_list(row: &mut Row, disk: &Disk<Failing>) {
    show_files(row, disk.list(row.alloc()))
}
