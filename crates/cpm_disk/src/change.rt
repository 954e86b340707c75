//! Changes the directory entries of files.

ghost use Rattle.std.specs.Prelude.{◌≡◌, length, map, OnErr, OnOk};
ghost use Rattle.cpm_image.specs.Device.{HasCountedFault};
ghost use Rattle.cpm_image.specs.Kind.{entry_count, sector_count};
ghost use Rattle.cpm_disk.specs.Image.{directory};
ghost use Rattle.cpm_disk.specs.Calls.{Changed, PartlyChanged};
ghost use Rattle.cpm_disk.specs.Private.Changes.{after};

use crate::records::store;
use cpm_image::{Attribute, DeviceFault, DiskKind, Entry, Name, Sectors};

/// A change of directory entries.
#[derive(Clone, Copy, Debug, PartialEq, Eq)]
pub(crate) enum Change {
    /// Erases the entries of a user that match a pattern.
    Erase {
        user: u8,
        pattern: [u8; 11],
    },
    /// Sets or clears an attribute in the entries of a user that match a pattern.
    Mark {
        user: u8,
        pattern: [u8; 11],
        attribute: Attribute,
        on: bool,
    },
    /// Renames the entries of a file.
    Rename {
        user: u8,
        old: Name,
        new: Name,
    },
}

impl Change {
    ghost use Rattle.std.specs.Prelude.{◌≡◌, unwrap_or};
    ghost use Rattle.cpm_disk.specs.Private.Changes.{after};

    /// The entry after the change, or `None` if the change is not about this entry.
    fn changed(&self, entry: &Entry) -> Option<Entry>
        ensures { unwrap_or result entry.now ≡ after self.now entry.now }
    {
        match self {
            Change::Erase { user, pattern } => {
                if entry.is_match(*user, pattern) {
                    return Some(entry.erased());
                }
            }
            Change::Mark {
                user,
                pattern,
                attribute,
                on,
            } => {
                if entry.is_match(*user, pattern) {
                    return Some(entry.marked(*attribute, *on));
                }
            }
            Change::Rename { user, old, new } => {
                if entry.is_of(*user, old) {
                    return Some(entry.renamed(new));
                }
            }
        }
        None
    }
}

/// Changes the entries, one after the other, in `entries` and on the device.
pub(crate) fn change_all<S: Sectors>(
    device: &mut S,
    kind: DiskKind,
    entries: &mut [Entry],
    change: &Change,
) -> Result<(), DeviceFault>
    requires count { length (S.sectors device.old) ≡ sector_count kind }
    requires size { length entries.old ≡ entry_count kind }
    requires entries { directory kind (S.sectors device.old) ≡ entries.old }
    ensures entries { OnOk result (entries.new ≡ map (after change.now) entries.old) }
    ensures changed { OnOk result (Changed kind (S.sectors device.old) (S.sectors device.new) entries.new) }
    ensures stopped { OnErr result (PartlyChanged kind (S.sectors device.old) (S.sectors device.new) (map (after change.now) entries.old)) }
    ensures size { length entries.new ≡ entry_count kind }
    ensures cause { HasCountedFault (S.faults device.old) (S.faults device.new) result }
{
    for number in 0..kind.entry_count() {
        let entry = entries[usize::from(number)];
        match change.changed(&entry) {
            Some(changed) => store(device, kind, entries, number, changed)?,
            None => {}
        }
    }
    Ok(())
}
