//! A device of 100 sectors, which is not the size of any disk.

use crate::shown::show_faults;
use cpm_disk::{Disk, faults_of};
use cpm_image::{DeviceFault, Sectors};
use row_text::Row;

/// A device that counts its calls, which all fail.
#[derive(Drop)]
struct Short {
    calls: u64,
}

impl Sectors for Short {
    ghost use Rattle.std.specs.Prelude.{replicate, ℕ};

    ghost sectors = { λ _. replicate 100 (replicate {A = ℕ} 128 0) };

    ghost faults = { λ device. device.calls };

    fn len(&self) -> u32 {
        100
    }

    fn read(&mut self, _: u32, _: &mut [u8; 128]) -> Result<(), DeviceFault> {
        self.calls = self.calls.saturating_add(1);
        Err(DeviceFault)
    }

    fn write(&mut self, _: u32, _: &[u8; 128]) -> Result<(), DeviceFault> {
        self.calls = self.calls.saturating_add(1);
        Err(DeviceFault)
    }
}

/// Prints why the device is not mounted, and how often it was called.
pub(crate) fn answer_short(row: &mut Row) {
    match Disk::mount(row.alloc(), Short { calls: 0 }) {
        Ok(_) => row.refuse("a disk of 100 sectors"),
        Err((fault, device)) => write!(row, " {fault:?}, {} calls", device.calls),
    }
}

/// Prints why the faults of the device's directory are not found, and how often it was called.
pub(crate) fn answer_short_faults(row: &mut Row) {
    let mut device = Short { calls: 0 };
    show_faults(row, faults_of(row.alloc(), &mut device));
    write!(row, ", {} calls", device.calls)
}
