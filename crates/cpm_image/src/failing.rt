//! Devices that fail, for tests of what a failure leaves.

use crate::device::{DeviceFault, Sectors};
use crate::format::RECORD_BYTES;
use crate::memory::MemoryImage;
use std::marker::Model;

/// What a failed write leaves in its sector.
#[derive(Clone, Copy, Debug, PartialEq, Eq)]
pub enum FailedWrite {
    /// The sector is as it was.
    Old,
    /// The sector is as written.
    New,
}

/// An image in memory with a call to read or write that fails: only that call, or all calls after it too.
#[derive(Debug, Drop)]
pub struct Failing {
    image: MemoryImage,
    left: Option<u32>,
    lasts: bool,
    leaves: FailedWrite,
    faults: u64,
}

impl Model for Failing {
    ghost use Rattle.cpm_image.specs.Failing.{FailingImage};

    ghost Value = { FailingImage };

    ghost view = { λ d. record { image = d.image; left = d.left; lasts = d.lasts; leaves = d.leaves; faults = d.faults } };
}

impl Failing {
    ghost use Rattle.std.specs.Prelude.{◌≡◌, ◌<◌, Some, false, length, true};
    ghost use Rattle.cpm_image.specs.Failing.{after_call, is_due, left_of};

    /// A device on which call number `call`, counted from 0, fails, and no call after it.
    pub fn once(image: MemoryImage, call: u32, leaves: FailedWrite) -> Failing
        ensures { result ≡ record { image = image; left = Some call; lasts = false; leaves = leaves; faults = 0 } }
    {
        Failing {
            image,
            left: Some(call),
            lasts: false,
            leaves,
            faults: 0,
        }
    }

    /// A device on which call number `call`, counted from 0, fails, and all calls after it.
    pub fn lasting(image: MemoryImage, call: u32, leaves: FailedWrite) -> Failing
        ensures { result ≡ record { image = image; left = Some call; lasts = true; leaves = leaves; faults = 0 } }
    {
        Failing {
            image,
            left: Some(call),
            lasts: true,
            leaves,
            faults: 0,
        }
    }

    /// The image as the calls have left it.
    pub fn into_image(self) -> MemoryImage
        ensures { result ≡ self.image }
    {
        self.image
    }

    /// Counts a call, and answers whether it fails.
    fn fails(&mut self) -> bool
        ensures due { result ≡ is_due self.old.left }
        ensures left { self.new.left ≡ after_call self.old.lasts self.old.left }
        ensures image { self.new.image ≡ self.old.image }
        ensures lasts { self.new.lasts ≡ self.old.lasts }
        ensures leaves { self.new.leaves ≡ self.old.leaves }
        ensures faults { self.new.faults ≡ self.old.faults }
    {
        match self.left {
            None => false,
            Some(0) => {
                if !self.lasts {
                    self.left = None;
                }
                true
            }
            Some(left) => {
                self.left = Some(left - 1);
                false
            }
        }
    }
}

impl Sectors for Failing {
    ghost use Rattle.std.specs.Prelude.{◌≡◌, ◌<◌, [], OnErr, OnOk, is_err, length, slice_index_or, slice_set};
    ghost use Rattle.cpm_image.specs.Device.{HasCountedFault};
    ghost use Rattle.cpm_image.specs.Failing.{after_call, is_due, left_of};

    ghost sectors = { λ device. device.image };

    ghost faults = { λ device. device.faults };

    fn len(&self) -> u32
        ensures { result ≡ length self.now.image }
    {
        self.image.len()
    }

    fn read(&mut self, n: u32, bytes: &mut [u8; RECORD_BYTES]) -> Result<(), DeviceFault>
        requires { n < length self.old.image }
        ensures due { is_err result ≡ is_due self.old.left }
        ensures left { self.new.left ≡ after_call self.old.lasts self.old.left }
        ensures lasts { self.new.lasts ≡ self.old.lasts }
        ensures leaves { self.new.leaves ≡ self.old.leaves }
        ensures read { OnOk result (bytes.new ≡ slice_index_or self.old.image n []) }
        ensures kept { self.new.image ≡ self.old.image }
        ensures cause { HasCountedFault self.old.faults self.new.faults result }
    {
        if self.fails() {
            self.faults = self.faults.saturating_add(1);
            return Err(DeviceFault);
        }
        self.image.read(n, bytes)
    }

    fn write(&mut self, n: u32, bytes: &[u8; RECORD_BYTES]) -> Result<(), DeviceFault>
        requires { n < length self.old.image }
        ensures due { is_err result ≡ is_due self.old.left }
        ensures left { self.new.left ≡ after_call self.old.lasts self.old.left }
        ensures lasts { self.new.lasts ≡ self.old.lasts }
        ensures leaves { self.new.leaves ≡ self.old.leaves }
        ensures written { OnOk result (self.new.image ≡ slice_set self.old.image n bytes.now) }
        ensures stopped { OnErr result (self.new.image ≡ left_of self.old.leaves self.old.image n bytes.now) }
        ensures cause { HasCountedFault self.old.faults self.new.faults result }
    {
        if self.fails() {
            self.faults = self.faults.saturating_add(1);
            if self.leaves == FailedWrite::New {
                self.image.write(n, bytes)?;
            }
            return Err(DeviceFault);
        }
        self.image.write(n, bytes)
    }
}
