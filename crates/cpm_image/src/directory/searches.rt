//! Searches in a directory.

ghost use Rattle.std.specs.Prelude.{◌≡◌, ◌<◌, ◌≤◌, IfSome, count_by, length, position};
ghost use Rattle.cpm_image.specs.declared.directory.entry.TheConstants.{USERS};
ghost use Rattle.cpm_image.specs.Kind.{file_records};
ghost use Rattle.cpm_image.specs.declared.kind.DiskKind.{DiskKind};
ghost use Rattle.cpm_image.specs.Directory.Entries.{is_exact_match, is_extent_of, is_of};
ghost use Rattle.cpm_image.specs.Directory.Rules.{IsSound};
ghost use Rattle.cpm_image.specs.Directory.Searches.{file_is_read_only, file_is_system, found_from, free_entry, is_file, size, usage_of};

use crate::{DiskKind, Entry, Name, Pattern, Usage};

/// Whether a user has a file of this name.
pub fn is_file(entries: &[Entry], user: u8, name: &Name) -> bool
    ensures { result ≡ is_file user name.now entries.now }
{
    entries.iter().any(|entry| entry.is_of(user, name))
}

/// Whether one of a file's entries is read-only.
pub fn file_is_read_only(entries: &[Entry], user: u8, name: &Name) -> bool
    ensures { result ≡ file_is_read_only user name.now entries.now }
{
    entries
        .iter()
        .any(|entry| entry.is_of(user, name) && entry.is_read_only())
}

/// Whether one of a file's entries is a system entry.
pub fn file_is_system(entries: &[Entry], user: u8, name: &Name) -> bool
    ensures { result ≡ file_is_system user name.now entries.now }
{
    entries
        .iter()
        .any(|entry| entry.is_of(user, name) && entry.is_system())
}

/// A position as the number of an entry; there are at most 65,536 entries.
fn numbered(position: Option<usize>) -> Option<u16>
    requires { IfSome position (λ k. k < 65536) }
    ensures { result ≡ position }
{
    match position {
        Some(k) => Some(k as u16),
        None => None,
    }
}

/// The number of the entry of a file's extent.
pub fn position_of(entries: &[Entry], user: u8, name: &Name, extent: u16) -> Option<u16>
    requires { length entries.now ≤ 65536 }
    ensures found { result ≡ position (is_extent_of user name.now extent) entries.now }
    ensures within { IfSome result (λ k. k < length entries.now) }
{
    numbered(
        entries
            .iter()
            .position(|entry| entry.is_extent_of(user, name, extent)),
    )
}

/// The number of the lowest free entry.
pub fn free_entry(entries: &[Entry]) -> Option<u16>
    requires { length entries.now ≤ 65536 }
    ensures { result ≡ free_entry entries.now }
{
    numbered(entries.iter().position(|entry| entry.is_free()))
}

/// The position of the first entry of the user that matches a pattern.
fn first_match(entries: &[Entry], user: u8, pattern: &Pattern) -> Option<usize>
    ensures first { result ≡ position (is_exact_match user pattern.now) entries.now }
    ensures within { IfSome result (λ k. k < length entries.now) }
{
    entries
        .iter()
        .position(|entry| entry.is_exact_match(user, pattern))
}

/// The number of the first entry from `from` on that belongs to the user and matches a pattern.
pub fn find(entries: &[Entry], user: u8, pattern: &Pattern, from: u16) -> Option<u16>
    requires { length entries.now ≤ 65536 }
    ensures found { result ≡ found_from user pattern.now from entries.now }
    ensures within { IfSome result (λ k. k < length entries.now) }
{
    let start = usize::from(from).min(entries.len());
    let (_, rest) = entries.split_at(start);
    match first_match(rest, user, pattern) {
        Some(k) => numbered(Some(start + k)),
        None => None,
    }
}

/// The number of records that a file has up to its last one, whether they were written or not. `None` if there is no such file.
pub fn size(entries: &[Entry], user: u8, name: &Name) -> Option<u32>
    ensures size { result ≡ size user name.now entries.now }
    ensures most { (kind : DiskKind) → user < USERS → IsSound kind entries.now → IfSome result (λ n. n ≤ file_records kind) }
{
    entries
        .iter()
        .filter(|entry| entry.is_of(user, name))
        .map(|entry| entry.record_end())
        .max()
}

/// The number of directory entries that a file has.
fn entries_of(entries: &[Entry], user: u8, name: &Name) -> u16
    requires { length entries.now ≤ 65535 }
    ensures { result ≡ count_by (is_of user name.now) entries.now }
{
    entries
        .iter()
        .filter(|entry| entry.is_of(user, name))
        .count() as u16
}

/// The number of directory entries that a file has, and of blocks that these have: their block numbers except 0. Both are 0 if there is
/// no such file.
pub fn usage_of(kind: DiskKind, entries: &[Entry], user: u8, name: &Name) -> Usage
    requires { length entries.now < 4096 }
    ensures { result ≡ usage_of kind user name.now entries.now }
{
    let mut blocks = 0;
    for entry in entries {
        if entry.is_of(user, name) {
            blocks += u16::from(entry.held_blocks(kind));
        }
    }
    Usage {
        entries: entries_of(entries, user, name),
        blocks,
    }
}
