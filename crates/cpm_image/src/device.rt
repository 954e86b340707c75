//! Devices of sectors.

ghost use Rattle.std.specs.Prelude.{◌≡◌, ◌<◌, ◌⊎◌, ℕ, List, [], length, OnErr, OnOk, slice_index_or, slice_set};
ghost use Rattle.cpm_image.specs.Device.{HasCountedFault};

use crate::format::RECORD_BYTES;
use thiserror::Error;

/// The device failed.
#[derive(Clone, Copy, Debug, PartialEq, Eq, Error)]
#[error("the device failed")]
pub struct DeviceFault;

/// A device of 128-byte sectors, numbered from 0, which counts its faults.
///
/// A call that succeeds leaves the number of faults as it was, and one that fails raises it. At 2 ^ 64 - 1 the number stays, which counts
/// as raised.
pub trait Sectors {
    /// The 128 bytes of each sector.
    ghost sectors: { Self → List (List ℕ) };

    /// How often the device has failed.
    ghost faults: { Self → ℕ };

    /// The number of sectors.
    fn len(&self) -> u32
        ensures { result ≡ length (sectors self.now) };

    /// Reads a sector. After a fault the buffer may hold anything.
    ///
    /// # Errors
    ///
    /// [`DeviceFault`] if the device failed.
    fn read(&mut self, n: u32, bytes: &mut [u8; RECORD_BYTES]) -> Result<(), DeviceFault>
        requires { n < length (sectors self.old) }
        ensures read { OnOk result (bytes.new ≡ slice_index_or (sectors self.old) n []) }
        ensures kept { sectors self.new ≡ sectors self.old }
        ensures cause { HasCountedFault (faults self.old) (faults self.new) result };

    /// Writes a sector, and no other. After a fault the whole sector is either as it was or as written.
    ///
    /// # Errors
    ///
    /// [`DeviceFault`] if the device failed.
    fn write(&mut self, n: u32, bytes: &[u8; RECORD_BYTES]) -> Result<(), DeviceFault>
        requires { n < length (sectors self.old) }
        ensures written { OnOk result (sectors self.new ≡ slice_set (sectors self.old) n bytes.now) }
        ensures stopped { OnErr result ((sectors self.new ≡ sectors self.old) ⊎ (sectors self.new ≡ slice_set (sectors self.old) n bytes.now)) }
        ensures cause { HasCountedFault (faults self.old) (faults self.new) result };
}
