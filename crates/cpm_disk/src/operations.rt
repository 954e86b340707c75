//! What each operation leaves of a directory.

ghost use Rattle.std.specs.Prelude.{◌≡◌, ◌<◌, ◌≤◌, ◌/◌, ◌%◌, ◌&&◌, Bool, IfErr, IfOk, OnOk, count_by, find, length};
ghost use Rattle.std.specs.List.{list_any};
ghost use Rattle.cpm_image.specs.declared.directory.attribute.Attribute.{Attribute};
ghost use Rattle.cpm_image.specs.declared.directory.entry.TheConstants.{USERS};
ghost use Rattle.cpm_image.specs.Directory.Entries.{block, is_extent_of, is_match, is_of, is_read_only};
ghost use Rattle.cpm_image.specs.Directory.Rules.{IsSound};
ghost use Rattle.cpm_image.specs.Kind.{block_records, directory_records, entry_blocks, file_records, number_limit, record_count};
ghost use Rattle.cpm_image.specs.declared.kind.DiskKind.{DiskKind};
ghost use Rattle.cpm_disk.specs.Kept.{IsKeptBy, IsGoodPut, StaysSound};
ghost use Rattle.cpm_disk.specs.Refusals.{RefusesCreation, RefusesErasure, RefusesMarking, RefusesReading, RefusesRenaming, RefusesWriting};
ghost use Rattle.cpm_disk.specs.Steps.{after_erasure, after_marking, after_renaming, block_place, creation, erasure, extent_place, marking, placing, placing_in, reading, renaming, writing, written_place};

use crate::placement::Placement;
use cpm_image::laws::is_name;
use cpm_image::{
    DiskFault, DiskKind, EXTENT_RECORDS, Entry, LogicalRecord, Name, file_is_read_only, free_block,
    free_entry, is_file, position_of,
};

/// The entry of a new file, and its number, the lowest that is free.
fn new_file(entries: &[Entry], user: u8, name: &Name) -> Result<(u16, Entry), DiskFault>
    requires { length entries.now ≤ 65536 }
    ensures step { result ≡ creation user name.now entries.now }
    ensures refusals { IfErr result RefusesCreation }
{
    if is_file(entries, user, name) {
        return Err(DiskFault::Exists);
    }
    let at = free_entry(entries).ok_or(DiskFault::DirectoryFull)?;
    Ok((at, Entry::new_extent(user, name.bytes(), 0)))
}

/// Whether an entry of the user matches a pattern.
fn any_matches(entries: &[Entry], user: u8, pattern: &[u8; 11]) -> bool
    ensures { result ≡ list_any (is_match user pattern.now) entries.now }
{
    entries.iter().any(|entry| entry.is_match(user, pattern))
}

/// Whether an entry of the user that matches a pattern is read-only.
fn any_read_only(entries: &[Entry], user: u8, pattern: &[u8; 11]) -> bool
    ensures { result ≡ list_any (λ e. is_match user pattern.now e && is_read_only e) entries.now }
{
    entries.iter().any(|entry| entry.is_match(user, pattern) && entry.is_read_only())
}

/// How many entries of the user match a pattern.
fn match_count(entries: &[Entry], user: u8, pattern: &[u8; 11]) -> u16
    requires { length entries.now ≤ 65535 }
    ensures { result ≡ count_by (is_match user pattern.now) entries.now }
{
    entries
        .iter()
        .filter(|entry| entry.is_match(user, pattern))
        .count() as u16
}

/// The number of entries to erase, or why erasing is refused.
fn may_erase(entries: &[Entry], user: u8, pattern: &[u8; 11]) -> Result<u16, DiskFault>
    requires { length entries.now ≤ 65535 }
    ensures step { result ≡ erasure user pattern.now entries.now }
    ensures refusals { IfErr result RefusesErasure }
{
    if !any_matches(entries, user, pattern) {
        return Err(DiskFault::NotFound);
    }
    if any_read_only(entries, user, pattern) {
        return Err(DiskFault::ReadOnly);
    }
    Ok(match_count(entries, user, pattern))
}

/// The number of entries to mark, or why marking is refused.
fn may_mark(entries: &[Entry], user: u8, pattern: &[u8; 11]) -> Result<u16, DiskFault>
    requires { length entries.now ≤ 65535 }
    ensures step { result ≡ marking user pattern.now entries.now }
    ensures refusals { IfErr result RefusesMarking }
{
    if !any_matches(entries, user, pattern) {
        return Err(DiskFault::NotFound);
    }
    Ok(match_count(entries, user, pattern))
}

/// Whether a file may be renamed, or why not.
fn may_rename(entries: &[Entry], user: u8, old: &Name, new: &Name) -> Result<(), DiskFault>
    ensures step { result ≡ renaming user old.now new.now entries.now }
    ensures refusals { IfErr result RefusesRenaming }
{
    if !is_file(entries, user, old) {
        return Err(DiskFault::NotFound);
    }
    if is_file(entries, user, new) {
        return Err(DiskFault::Exists);
    }
    if file_is_read_only(entries, user, old) {
        return Err(DiskFault::ReadOnly);
    }
    Ok(())
}

/// The entry of a file's extent.
fn extent_entry(entries: &[Entry], user: u8, name: &Name, extent: u16) -> Option<Entry>
    ensures { result ≡ find (is_extent_of user name.now extent) entries.now }
{
    for entry in entries {
        if entry.is_extent_of(user, name, extent) {
            return Some(*entry);
        }
    }
    None
}

/// The lowest entry of a file.
fn first_entry(entries: &[Entry], user: u8, name: &Name) -> Option<Entry>
    ensures { result ≡ find (is_of user name.now) entries.now }
{
    for entry in entries {
        if entry.is_of(user, name) {
            return Some(*entry);
        }
    }
    None
}

/// The logical record of the disk that has record `i` of an extent, if the extent has it.
pub(crate) fn record_of(kind: DiskKind, entry: &Entry, i: u8) -> Result<LogicalRecord, DiskFault>
    requires { i < EXTENT_RECORDS }
    ensures step { result ≡ written_place kind i entry.now }
    ensures refusals { IfErr result RefusesReading }
{
    if !entry.has_record(kind, i) {
        return Err(DiskFault::Unwritten);
    }
    Ok(entry.place_on_disk(kind, i))
}

/// The logical record of the disk that has a file's record.
fn read_place(
    kind: DiskKind,
    entries: &[Entry],
    user: u8,
    name: &Name,
    number: u32,
) -> Result<LogicalRecord, DiskFault>
    ensures step { result ≡ reading kind user name.now number entries.now }
    ensures refusals { IfErr result RefusesReading }
{
    if !is_file(entries, user, name) {
        return Err(DiskFault::NotFound);
    }
    if number >= kind.file_records() {
        return Err(DiskFault::TooFar);
    }
    let extent = (number / EXTENT_RECORDS as u32) as u16;
    let i = (number % EXTENT_RECORDS as u32) as u8;
    let entry = extent_entry(entries, user, name, extent).ok_or(DiskFault::NoExtent)?;
    record_of(kind, &entry, i)
}

/// The number and the entry of a file's extent. If the file does not have that extent, it is a new one at the lowest free number, with
/// the name in the file's lowest entry.
fn extent_of(
    entries: &[Entry],
    user: u8,
    name: &Name,
    extent: u16,
) -> Result<(u16, Entry), DiskFault>
    requires size { length entries.now ≤ 65536 }
    requires extent { extent < 512 }
    ensures step { result ≡ extent_place user name.now extent entries.now }
    ensures refusals { IfErr result RefusesWriting }
{
    if let Some(at) = position_of(entries, user, name, extent) {
        return Ok((at, entries[usize::from(at)]));
    }
    let at = free_entry(entries).ok_or(DiskFault::DirectoryFull)?;
    let first = first_entry(entries, user, name).ok_or(DiskFault::NotFound)?;
    Ok((at, Entry::new_extent(user, first.name, extent)))
}

/// The block of a group of records, and whether it is new: the block that the entry has, otherwise the lowest free one.
fn block_of(
    kind: DiskKind,
    entries: &[Entry],
    entry: &Entry,
    group: u8,
) -> Result<(u16, bool), DiskFault>
    requires { group < entry_blocks kind }
    ensures step { result ≡ block_place kind entry.now group entries.now }
    ensures refusals { IfErr result RefusesWriting }
    ensures fits { IfOk result (λ found. found.0 < number_limit kind) }
{
    let block = entry.block(kind, group);
    if block != 0 {
        return Ok((block, false));
    }
    let block = free_block(kind, entries).ok_or(DiskFault::DiskFull)?;
    Ok((block, true))
}

/// Where to write record `i` of the extent whose entry has this number.
pub(crate) fn place_in(
    kind: DiskKind,
    entries: &[Entry],
    at: u16,
    entry: &Entry,
    i: u8,
) -> Result<Placement, DiskFault>
    requires { i < EXTENT_RECORDS }
    ensures step { result ≡ placing_in kind at entry.now i entries.now }
    ensures refusals { IfErr result RefusesWriting }
    ensures placed { IfOk result (λ p. block kind p.entry (i / block_records kind) ≡ p.block) }
{
    let (block, is_new) = block_of(kind, entries, entry, i / kind.block_records())?;
    Ok(Placement {
        entry_number: at,
        entry: entry.with_record(kind, i, block),
        block,
        is_new,
    })
}

/// Where to write a record of a file.
fn place(
    kind: DiskKind,
    entries: &[Entry],
    user: u8,
    name: &Name,
    number: u32,
) -> Result<Placement, DiskFault>
    requires number { number < file_records kind }
    requires size { length entries.now ≤ 65536 }
    ensures step { result ≡ placing kind user name.now number entries.now }
    ensures refusals { IfErr result RefusesWriting }
    ensures placed { IfOk result (λ p. block kind p.entry (number % EXTENT_RECORDS / block_records kind) ≡ p.block) }
{
    let (at, entry) = extent_of(entries, user, name, (number / EXTENT_RECORDS as u32) as u16)?;
    place_in(
        kind,
        entries,
        at,
        &entry,
        (number % EXTENT_RECORDS as u32) as u8,
    )
}

/// Where to write a record of a file, if it may be written.
fn write_place(
    kind: DiskKind,
    entries: &[Entry],
    user: u8,
    name: &Name,
    number: u32,
) -> Result<Placement, DiskFault>
    requires { length entries.now ≤ 65536 }
    ensures step { result ≡ writing kind user name.now number entries.now }
    ensures refusals { IfErr result RefusesWriting }
    ensures placed { IfOk result (λ p. block kind p.entry (number % EXTENT_RECORDS / block_records kind) ≡ p.block) }
{
    if !is_file(entries, user, name) {
        return Err(DiskFault::NotFound);
    }
    if file_is_read_only(entries, user, name) {
        return Err(DiskFault::ReadOnly);
    }
    if number >= kind.file_records() {
        return Err(DiskFault::TooFar);
    }
    place(kind, entries, user, name, number)
}

/// The number of entries to erase: all of the user that match a pattern, whatever their extents.
///
/// # Errors
///
/// In this order: [`DiskFault::NotFound`] if none matches, [`DiskFault::ReadOnly`] if a matching one is read-only.
pub(crate) fn erasure(entries: &[Entry], user: u8, pattern: &[u8; 11]) -> Result<u16, DiskFault>
    requires user { user < USERS }
    requires size { length entries.now ≤ 65535 }
    ensures step { result ≡ erasure user pattern.now entries.now }
    ensures refusals { IfErr result RefusesErasure }
    ensures kept { (kind : DiskKind) → IsSound kind entries.now → StaysSound kind entries.now (after_erasure user pattern.now entries.now) }
{
    may_erase(entries, user, pattern)
}

/// The number of entries whose attribute is to be set or cleared: all of the user that match a pattern, whatever their extents and
/// attributes.
///
/// # Errors
///
/// [`DiskFault::NotFound`] if none matches.
pub(crate) fn marking(entries: &[Entry], user: u8, pattern: &[u8; 11]) -> Result<u16, DiskFault>
    requires user { user < USERS }
    requires size { length entries.now ≤ 65535 }
    ensures step { result ≡ marking user pattern.now entries.now }
    ensures refusals { IfErr result RefusesMarking }
    ensures kept { (kind : DiskKind) (attribute : Attribute) (on : Bool) → IsSound kind entries.now → StaysSound kind entries.now (after_marking user pattern.now attribute on entries.now) }
{
    may_mark(entries, user, pattern)
}

/// The entry of a new file, and its number, the lowest that is free.
///
/// # Errors
///
/// In this order: [`DiskFault::Exists`], [`DiskFault::DirectoryFull`].
pub(crate) fn creation(entries: &[Entry], user: u8, name: &Name) -> Result<(u16, Entry), DiskFault>
    requires user { user < USERS }
    requires size { length entries.now ≤ 65535 }
    ensures step { result ≡ creation user name.now entries.now }
    ensures kept { (kind : DiskKind) → IsSound kind entries.now → IfOk result (IsGoodPut kind entries.now) }
    ensures refusals { IfErr result RefusesCreation }
{
    // A law: `kept` needs that the bytes of the name are below 80H.
    is_name(name);
    new_file(entries, user, name)
}

/// Whether a file may be renamed. It may not be renamed to its own name, which exists.
///
/// # Errors
///
/// In this order: [`DiskFault::NotFound`], [`DiskFault::Exists`], [`DiskFault::ReadOnly`].
pub(crate) fn renaming(entries: &[Entry], user: u8, old: &Name, new: &Name) -> Result<(), DiskFault>
    requires { user < USERS }
    ensures step { result ≡ renaming user old.now new.now entries.now }
    ensures kept { (kind : DiskKind) → IsSound kind entries.now → OnOk result (StaysSound kind entries.now (after_renaming user old.now new.now entries.now)) }
    ensures refusals { IfErr result RefusesRenaming }
{
    // A law: `kept` needs that both names have eleven bytes, and that those of the new one are below 80H.
    is_name(old);
    is_name(new);
    may_rename(entries, user, old, new)
}

/// The logical record of the disk that has a file's record; both are counted from 0.
///
/// # Errors
///
/// In this order: [`DiskFault::NotFound`], [`DiskFault::TooFar`] above 4,095 (65,535 on a Megabyte disk),
/// [`DiskFault::NoExtent`], [`DiskFault::Unwritten`].
pub(crate) fn reading(
    kind: DiskKind,
    entries: &[Entry],
    user: u8,
    name: &Name,
    number: u32,
) -> Result<LogicalRecord, DiskFault>
    requires { user < USERS }
    ensures step { result ≡ reading kind user name.now number entries.now }
    ensures refusals { IfErr result RefusesReading }
    ensures within { IsSound kind entries.now → IfOk result (λ n. (directory_records kind ≤ n) × (n < record_count kind)) }
{
    read_place(kind, entries, user, name, number)
}

/// Where to write a record of a file, counted from 0.
///
/// # Errors
///
/// In this order: [`DiskFault::NotFound`], [`DiskFault::ReadOnly`], [`DiskFault::TooFar`] above 4,095 (65,535 on a Megabyte disk),
/// [`DiskFault::DirectoryFull`] if the record needs a new extent, [`DiskFault::DiskFull`] if it needs a new block.
pub(crate) fn writing(
    kind: DiskKind,
    entries: &[Entry],
    user: u8,
    name: &Name,
    number: u32,
) -> Result<Placement, DiskFault>
    requires user { user < USERS }
    requires size { length entries.now ≤ 65535 }
    ensures step { result ≡ writing kind user name.now number entries.now }
    ensures placed { IfOk result (λ p. block kind p.entry (number % EXTENT_RECORDS / block_records kind) ≡ p.block) }
    ensures refusals { IfErr result RefusesWriting }
    ensures kept { IsSound kind entries.now → IfOk result (IsKeptBy kind user name.now entries.now) }
{
    write_place(kind, entries, user, name, number)
}
