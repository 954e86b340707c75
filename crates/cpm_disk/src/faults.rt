//! Finds the faults of a directory that cannot be mounted.

ghost use Rattle.std.specs.Prelude.{◌≡◌};
ghost use Rattle.cpm_disk.specs.Mounting.{AreFaultsOf};

use crate::reader::read_entries;
use cpm_image::{Broken, DiskFault, DiskKind, Sectors, faults};
use std::alloc::Global;

/// The entries of a device's directory that break a rule, in their order, each with the first rule that it breaks. There are none if the
/// device can be mounted. The sectors of the device stay as they are.
///
/// # Errors
///
/// [`DiskFault::WrongSize`] if no disk has the size of the device, before anything else; [`DiskFault::Fault`] if the device failed;
/// [`DiskFault::NoMemory`].
pub fn faults_of<S: Sectors>(alloc: Global, device: &mut S) -> Result<Vec<Broken>, DiskFault>
    ensures done { AreFaultsOf (λ broken. broken.items) (S.sectors device.old) (S.faults device.old) (S.faults device.new) result }
    ensures kept { S.sectors device.new ≡ S.sectors device.old }
{
    let Some(kind) = DiskKind::of_size(device.len()) else {
        return Err(DiskFault::WrongSize);
    };
    let entries = read_entries(alloc, device, kind)?;
    faults(alloc, kind, &entries)
}
