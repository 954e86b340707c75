//! Finds records of a file faster: the entry of the extent is tried at one number first.

ghost use Rattle.std.specs.Prelude.{◌≡◌, ◌<◌, ◌≤◌, ◌/◌, ◌%◌, IfErr, IfOk, IfSome, None, false, length, position, slice_index_or, true};
ghost use Rattle.cpm_image.specs.declared.directory.entry.TheConstants.{USERS};
ghost use Rattle.cpm_image.specs.Directory.Entries.{blank, block, is_extent_of};
ghost use Rattle.cpm_image.specs.Directory.Rules.{IsSound};
ghost use Rattle.cpm_image.specs.Directory.Searches.{file_is_read_only};
ghost use Rattle.cpm_image.specs.Kind.{block_records, directory_records, file_records, record_count};
ghost use Rattle.cpm_disk.specs.Kept.{IsKeptBy};
ghost use Rattle.cpm_disk.specs.Near.{IsExtentAt};
ghost use Rattle.cpm_disk.specs.Refusals.{RefusesReading, RefusesWriting};
ghost use Rattle.cpm_disk.specs.Steps.{reading, writing};

use crate::operations::{place_in, reading, record_of, writing};
use crate::placement::Placement;
use cpm_image::{DiskFault, DiskKind, EXTENT_RECORDS, Entry, LogicalRecord, Name, position_of};

/// Whether the entry with this number is that of a file's extent.
fn is_extent_at(entries: &[Entry], at: u16, user: u8, name: &Name, extent: u16) -> bool
    ensures { result ≡ true → (at < length entries.now) × (is_extent_of user name.now extent (slice_index_or entries.now at blank) ≡ true) }
{
    let position = usize::from(at);
    if position >= entries.len() {
        return false;
    }
    entries[position].is_extent_of(user, name, extent)
}

/// The number of the directory entry of a record's extent. The entry `near` is tried first. `None` if there is no such entry, or if no
/// file can have a record with this number.
pub(crate) fn extent_near(
    kind: DiskKind,
    entries: &[Entry],
    near: u16,
    user: u8,
    name: &Name,
    number: u32,
) -> Option<u16>
    requires { length entries.now ≤ 65536 }
    ensures found { IfSome result (IsExtentAt kind user name.now number entries.now) }
    ensures none { result ≡ None → number < file_records kind → position (is_extent_of user name.now (number / EXTENT_RECORDS)) entries.now ≡ None }
{
    if number >= kind.file_records() {
        return None;
    }
    let extent = (number / EXTENT_RECORDS as u32) as u16;
    if is_extent_at(entries, near, user, name, extent) {
        return Some(near);
    }
    position_of(entries, user, name, extent)
}

/// As [`reading`], but if the entry of the record's extent is known, it looks at no other entry.
///
/// # Errors
///
/// Those of [`reading`].
pub(crate) fn reading_at(
    kind: DiskKind,
    entries: &[Entry],
    at: Option<u16>,
    user: u8,
    name: &Name,
    number: u32,
) -> Result<LogicalRecord, DiskFault>
    requires user { user < USERS }
    requires at { IfSome at (IsExtentAt kind user name.now number entries.now) }
    requires sound { IsSound kind entries.now }
    ensures step { result ≡ reading kind user name.now number entries.now }
    ensures refusals { IfErr result RefusesReading }
    ensures within { IfOk result (λ n. (directory_records kind ≤ n) × (n < record_count kind)) }
{
    match at {
        Some(at) => record_of(
            kind,
            &entries[usize::from(at)],
            (number % EXTENT_RECORDS as u32) as u8,
        ),
        None => reading(kind, entries, user, name, number),
    }
}

/// As [`writing`], but if the entry of the record's extent is known, and that the file is not read-only, it looks at other entries only
/// for a free block.
///
/// # Errors
///
/// Those of [`writing`].
pub(crate) fn writing_at(
    kind: DiskKind,
    entries: &[Entry],
    at: Option<u16>,
    may_write: bool,
    user: u8,
    name: &Name,
    number: u32,
) -> Result<Placement, DiskFault>
    requires user { user < USERS }
    requires size { length entries.now ≤ 65535 }
    requires at { IfSome at (IsExtentAt kind user name.now number entries.now) }
    requires may_write { may_write ≡ true → file_is_read_only user name.now entries.now ≡ false }
    requires sound { IsSound kind entries.now }
    ensures step { result ≡ writing kind user name.now number entries.now }
    ensures placed { IfOk result (λ p. block kind p.entry (number % EXTENT_RECORDS / block_records kind) ≡ p.block) }
    ensures refusals { IfErr result RefusesWriting }
    ensures kept { IfOk result (IsKeptBy kind user name.now entries.now) }
{
    if may_write {
        if let Some(at) = at {
            let entry = entries[usize::from(at)];
            return place_in(
                kind,
                entries,
                at,
                &entry,
                (number % EXTENT_RECORDS as u32) as u8,
            );
        }
    }
    writing(kind, entries, user, name, number)
}
