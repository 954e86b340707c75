//! Reads and writes logical records of a device, and the directory among them.

ghost use Rattle.std.specs.Prelude.{◌≡◌, ◌⊎◌, ◌<◌, ◌≤◌, ◌+◌, ◌*◌, ◌/◌, ℕ, drop, length, OnErr, OnOk, slice_set, take};
ghost use Rattle.cpm_image.specs.Device.{HasCountedFault};
ghost use Rattle.cpm_image.specs.Kind.{entry_count, record_count, sector_count};
ghost use Rattle.cpm_image.specs.Directory.Entries.{at, entry_of};
ghost use Rattle.cpm_disk.specs.Image.{SameBut, Wrote, directory, disk_record};
ghost use Rattle.cpm_disk.specs.Calls.{Changed};

use cpm_image::{
    DeviceFault, DiskKind, ENTRY_BYTES, Entry, LogicalRecord, RECORD_BYTES, RECORD_ENTRIES,
    Sectors, logical_of,
};

/// The number of entries in a directory record, for indices.
const ENTRIES_IN_RECORD: usize = RECORD_ENTRIES as usize;

/// Reads a logical record.
pub(crate) fn read_record<S: Sectors>(
    device: &mut S,
    kind: DiskKind,
    logical_record: LogicalRecord,
    bytes: &mut [u8; RECORD_BYTES],
) -> Result<(), DeviceFault>
    requires count { length (S.sectors device.old) ≡ sector_count kind }
    requires logical { logical_record < record_count kind }
    ensures read { OnOk result (bytes.new ≡ disk_record kind (S.sectors device.old) logical_record) }
    ensures kept { S.sectors device.new ≡ S.sectors device.old }
    ensures cause { HasCountedFault (S.faults device.old) (S.faults device.new) result }
{
    device.read(logical_of(kind, logical_record), bytes)
}

/// Writes a logical record.
pub(crate) fn write_record<S: Sectors>(
    device: &mut S,
    kind: DiskKind,
    logical_record: LogicalRecord,
    bytes: &[u8; RECORD_BYTES],
) -> Result<(), DeviceFault>
    requires count { length (S.sectors device.old) ≡ sector_count kind }
    requires logical { logical_record < record_count kind }
    ensures written { OnOk result (Wrote kind (S.sectors device.old) (S.sectors device.new) logical_record bytes.now) }
    ensures stopped { OnErr result ((S.sectors device.new ≡ S.sectors device.old) ⊎ Wrote kind (S.sectors device.old) (S.sectors device.new) logical_record bytes.now) }
    ensures cause { HasCountedFault (S.faults device.old) (S.faults device.new) result }
{
    device.write(logical_of(kind, logical_record), bytes)
}

/// The bytes of a directory record.
fn directory_record(entries: &[Entry], record: usize) -> [u8; RECORD_BYTES]
    requires { RECORD_ENTRIES * «record» + RECORD_ENTRIES ≤ length entries.now }
    ensures { (i : ℕ) → i < RECORD_ENTRIES → entry_of (take ENTRY_BYTES (drop (ENTRY_BYTES * i) result)) ≡ at entries.now (RECORD_ENTRIES * «record» + i) }
{
    let mut bytes = [0; RECORD_BYTES];
    for i in 0..ENTRIES_IN_RECORD {
        let entry = entries[ENTRIES_IN_RECORD * record + i].to_bytes();
        bytes[ENTRY_BYTES * i..ENTRY_BYTES * i + ENTRY_BYTES].copy_from_slice(&entry);
    }
    bytes
}

/// Writes a directory entry, in `entries` and on the device.
pub(crate) fn store<S: Sectors>(
    device: &mut S,
    kind: DiskKind,
    entries: &mut [Entry],
    entry_number: u16,
    entry: Entry,
) -> Result<(), DeviceFault>
    requires count { length (S.sectors device.old) ≡ sector_count kind }
    requires size { length entries.old ≡ entry_count kind }
    requires number { entry_number < entry_count kind }
    requires entries { directory kind (S.sectors device.old) ≡ entries.old }
    ensures entries { entries.new ≡ slice_set entries.old entry_number entry }
    ensures stored { OnOk result (Changed kind (S.sectors device.old) (S.sectors device.new) entries.new) }
    ensures stopped { OnErr result ((S.sectors device.new ≡ S.sectors device.old) ⊎ Changed kind (S.sectors device.old) (S.sectors device.new) entries.new) }
    ensures cause { HasCountedFault (S.faults device.old) (S.faults device.new) result }
{
    entries[usize::from(entry_number)] = entry;
    let bytes = directory_record(entries, usize::from(entry_number / RECORD_ENTRIES));
    let logical_record = LogicalRecord::new(u32::from(entry_number / RECORD_ENTRIES));
    write_record(device, kind, logical_record, &bytes)
}
