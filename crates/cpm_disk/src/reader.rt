//! Reads a directory.

ghost use Rattle.std.specs.Prelude.{◌≡◌, IfErr, IfOk, OnOk, length};
ghost use Rattle.cpm_image.specs.Kind.{sector_count};
ghost use Rattle.cpm_image.specs.declared.directory.fault.DiskFault.TheVariants as DiskFault;
ghost use Rattle.cpm_image.specs.declared.directory.layout.TheConstants.{RECORD_ENTRIES};
ghost use Rattle.cpm_disk.specs.Image.{directory};
ghost use Rattle.cpm_disk.specs.Private.Reading.{Extended, IsReadFault};

use crate::records::read_record;
use cpm_image::{DiskFault, DiskKind, ENTRY_BYTES, Entry, LogicalRecord, RECORD_BYTES, Sectors};
use std::alloc::Global;

/// Adds the four entries of a directory record.
fn add_entries(entries: &mut Vec<Entry>, bytes: &[u8; RECORD_BYTES]) -> Result<(), DiskFault>
    ensures added { OnOk result (Extended entries.old.items entries.new.items bytes.now RECORD_ENTRIES) }
    ensures memory { IfErr result (λ fault. fault ≡ DiskFault.NoMemory) }
{
    let (pieces, _) = bytes.as_chunks::<ENTRY_BYTES>();
    for piece in pieces {
        entries.push(Entry::from_bytes(piece))?;
    }
    Ok(())
}

/// Reads all directory entries of a device.
pub(crate) fn read_entries<S: Sectors>(
    alloc: Global,
    device: &mut S,
    kind: DiskKind,
) -> Result<Vec<Entry>, DiskFault>
    requires { length (S.sectors device.old) ≡ sector_count kind }
    ensures entries { IfOk result (λ entries. entries.items ≡ directory kind (S.sectors device.old)) }
    ensures kept { S.sectors device.new ≡ S.sectors device.old }
    ensures unfailed { OnOk result (S.faults device.new ≡ S.faults device.old) }
    ensures cause { IfErr result (IsReadFault (S.faults device.old) (S.faults device.new)) }
{
    let mut entries = Vec::new(alloc);
    for number in 0..kind.directory_records() {
        let mut bytes = [0; RECORD_BYTES];
        if read_record(device, kind, LogicalRecord::new(number), &mut bytes).is_err() {
            return Err(DiskFault::Fault);
        }
        add_entries(&mut entries, &bytes)?;
    }
    Ok(entries)
}
