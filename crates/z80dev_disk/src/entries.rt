//! Reads the entries of a disk's directory.

ghost use Rattle.std.specs.Prelude.{◌≡◌, ◌&&◌, ◌<◌, false};
ghost use Rattle.cpm_image.specs.Kind.{entry_count};
ghost use Rattle.cpm_image.specs.Directory.Entries.{at, is_match, is_read_only};
ghost use Rattle.cpm_disk.specs.Image.{directory};
ghost use Rattle.z80dev_disk.specs.Changes.{first_name};
ghost use Rattle.z80dev_disk.specs.Private.{HaveNames};

use cpm_disk::Disk;
use cpm_image::{Entry, MemoryImage, Name, Pattern};

/// A pattern for the entries of all extents of the files that `name` matches.
pub(crate) fn of_any_extent(name: &[u8; 11]) -> Pattern
    ensures { result.name ≡ name.now }
{
    Pattern {
        name: *name,
        extent: b'?',
        high: b'?',
    }
}

/// The directory entry with this number.
fn entry_at(disk: &Disk<MemoryImage>, entry_number: u16) -> Entry
    requires sound { disk.now.failed ≡ false }
    requires within { entry_number < entry_count disk.now.kind }
    ensures { result ≡ at (directory disk.now.kind disk.now.device) entry_number }
{
    Entry::from_bytes(&disk.entry(entry_number))
}

/// A law: the name in each directory entry has eleven bytes. The loop only gives the prover each entry.
pub(crate) fn has_names(disk: &Disk<MemoryImage>)
    requires { disk.now.failed ≡ false }
    ensures { HaveNames disk.now.kind disk.now.device }
{
    for number in 0..disk.kind().entry_count() {
        let _name = entry_at(disk, number).name;
    }
}

/// The name in the first read-only entry of a user that matches a pattern, or the pattern itself if there is no such entry.
pub(crate) fn read_only_name(disk: &Disk<MemoryImage>, user: u8, pattern: &[u8; 11]) -> [u8; 11]
    requires { disk.now.failed ≡ false }
    ensures { result ≡ first_name (λ e. is_match user pattern.now e && is_read_only e) (directory disk.now.kind disk.now.device) pattern.now }
{
    for number in 0..disk.kind().entry_count() {
        let entry = entry_at(disk, number);
        if entry.is_match(user, pattern) && entry.is_read_only() {
            return Name::new(entry.name).bytes();
        }
    }
    *pattern
}
