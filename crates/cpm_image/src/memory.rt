//! Images in memory.

ghost use Rattle.std.specs.Prelude.{◌≡◌, ◌≤◌, ◌-◌, ◌++◌, IfOk, length, replicate};
ghost use Rattle.cpm_image.specs.Image.{kind_of_bytes};

use crate::device::{DeviceFault, Sectors};
use crate::fault::ImageFault;
use crate::format::{BLANK, RECORD_BYTES};
use crate::kind::DiskKind;
use std::alloc::{AllocError, Global};
use std::marker::Model;

/// A sector that was never written.
const BLANK_SECTOR: [u8; RECORD_BYTES] = [BLANK; RECORD_BYTES];

/// The number of bytes of a Megabyte disk.
const MEGABYTE: usize = 1_048_576;

/// The format of a disk whose image has this many bytes.
fn kind_of_bytes(bytes: &[u8]) -> DiskKind
    ensures { result ≡ kind_of_bytes bytes.now }
{
    if bytes.len() == MEGABYTE {
        DiskKind::Megabyte
    } else {
        DiskKind::EightInch
    }
}

/// These sectors, followed by blank ones up to `count`.
fn filled_up(
    alloc: Global,
    given: &[[u8; RECORD_BYTES]],
    count: usize,
) -> Result<Vec<[u8; RECORD_BYTES]>, AllocError>
    requires { length given.now ≤ «count» }
    ensures { IfOk result (λ sectors. sectors.items ≡ given.now ++ replicate («count» - length given.now) (replicate RECORD_BYTES BLANK)) }
{
    let mut sectors = Vec::with_capacity(alloc, count)?;
    sectors.extend_from_slice(given)?;
    sectors.resize(count, BLANK_SECTOR)?;
    Ok(sectors)
}

/// The image of a disk: 2,002 sectors of 128 bytes, or 8,192 on a Megabyte disk. In a contract it is the list of them.
#[derive(Debug, Drop)]
pub struct MemoryImage {
    sectors: Vec<[u8; RECORD_BYTES]>,
}

impl Model for MemoryImage {
    ghost use Rattle.std.specs.Prelude.{◌≡◌, List, ℕ, length};
    ghost use Rattle.cpm_image.specs.Kind.{IsDiskSize};

    ghost Value = { List (List ℕ) };

    ghost view = { λ image. image.sectors.items };

    ghost invariant = { λ image. IsDiskSize (length image.sectors.items) };
}

impl MemoryImage {
    ghost use Rattle.std.specs.Prelude.{◌≡◌, IfErr, IfOk};
    ghost use Rattle.cpm_image.specs.Image.{IsImageOf, blank_image};
    ghost use Rattle.cpm_image.specs.declared.fault.ImageFault.TheVariants.{NoMemory};

    /// The image that these bytes are, sector after sector. Exactly 1,048,576 bytes are a Megabyte disk, any other number an eight inch
    /// one. A shorter image is padded with E5H, so no bytes at all are an empty disk.
    ///
    /// # Errors
    ///
    /// In this order: [`ImageFault::NotSectors`] if the bytes are not whole sectors, [`ImageFault::TooLong`] if they are more than
    /// 256,256 and not 1,048,576, [`ImageFault::NoMemory`].
    pub fn from_bytes(alloc: Global, bytes: &[u8]) -> Result<MemoryImage, ImageFault>
        ensures { IsImageOf bytes.now result }
    {
        let (given, rest) = bytes.as_chunks::<RECORD_BYTES>();
        if !rest.is_empty() {
            return Err(ImageFault::NotSectors);
        }
        let count = kind_of_bytes(bytes).sector_count() as usize;
        if given.len() > count {
            return Err(ImageFault::TooLong);
        }
        let sectors = filled_up(alloc, given, count)?;
        Ok(MemoryImage { sectors })
    }

    /// The image of an empty disk: every byte is E5H.
    ///
    /// # Errors
    ///
    /// [`ImageFault::NoMemory`].
    pub fn blank(alloc: Global, kind: DiskKind) -> Result<MemoryImage, ImageFault>
        ensures blank { IfOk result (λ image. image ≡ blank_image kind) }
        ensures memory { IfErr result (λ fault. fault ≡ NoMemory) }
    {
        let sectors = filled_up(alloc, &[], kind.sector_count() as usize)?;
        Ok(MemoryImage { sectors })
    }

    /// The sectors, in the order of the bytes of the image.
    pub fn sectors(&self) -> &[[u8; RECORD_BYTES]]
        ensures { result.now ≡ self.now }
    {
        &self.sectors
    }
}

impl Sectors for MemoryImage {
    ghost use Rattle.std.specs.Prelude.{◌≡◌, ◌<◌, [], IsOk, length, slice_index_or, slice_set};
    ghost use Rattle.cpm_image.specs.Kind.{IsDiskSize};

    ghost sectors = { λ image. image };

    ghost faults = { λ _. 0 };

    fn len(&self) -> u32
        ensures len { result ≡ length self.now }
        ensures count { IsDiskSize result }
    {
        self.sectors.len() as u32
    }

    fn read(&mut self, n: u32, bytes: &mut [u8; RECORD_BYTES]) -> Result<(), DeviceFault>
        requires { n < length self.old }
        ensures never { IsOk result }
        ensures read { bytes.new ≡ slice_index_or self.old n [] }
        ensures kept { self.new ≡ self.old }
    {
        *bytes = self.sectors[n as usize];
        Ok(())
    }

    fn write(&mut self, n: u32, bytes: &[u8; RECORD_BYTES]) -> Result<(), DeviceFault>
        requires { n < length self.old }
        ensures never { IsOk result }
        ensures written { self.new ≡ slice_set self.old n bytes.now }
    {
        self.sectors[n as usize] = *bytes;
        Ok(())
    }
}
