//! Why a command on an image is refused.

ghost use Rattle.std.specs.Prelude.{◌≡◌};
ghost use Rattle.z80dev_disk.specs.Refusals.{disk_name, image_name, of_disk, of_image};
ghost use Rattle.z80dev_disk.specs.declared.refusal.Refusal.TheVariants as refusal;

use crate::shown::HostName;
use cpm_image::{DiskFault, ImageFault};
use std::alloc::{AllocError, AllocFailed};
use std::fmt;

/// Why a command on an image is refused.
#[derive(Clone, Copy, Debug, PartialEq, Eq)]
pub enum Refusal {
    /// A word is not a name of a file.
    BadName,
    /// The host cannot have a file of this name, which is the name of a file of the disk.
    BadFile([u8; 11]),
    /// The bytes are not an image.
    Image(ImageFault),
    /// The disk refuses the call, or its directory breaks a rule.
    Disk(DiskFault),
    /// The disk refuses the call for this file, or for this pattern of names.
    Named(DiskFault, [u8; 11]),
    /// Memory ran out.
    NoMemory,
}

impl Refusal {
    ghost use Rattle.z80dev_disk.specs.Refusals.{unnamed};

    /// The refusal without the name of its file.
    pub fn unnamed(self) -> Refusal
        ensures { result ≡ unnamed self }
    {
        match self {
            Refusal::BadFile(_) => Refusal::BadName,
            Refusal::Named(why, _) => Refusal::Disk(why),
            _ => self,
        }
    }
}

impl From<ImageFault> for Refusal {
    ghost from_gives = { λ fault e. e ≡ of_image fault };

    fn from(fault: ImageFault) -> Refusal {
        match fault {
            ImageFault::NoMemory => Refusal::NoMemory,
            _ => Refusal::Image(fault),
        }
    }
}

impl From<DiskFault> for Refusal {
    ghost from_gives = { λ fault e. e ≡ of_disk fault };

    fn from(fault: DiskFault) -> Refusal {
        match fault {
            DiskFault::NoMemory => Refusal::NoMemory,
            _ => Refusal::Disk(fault),
        }
    }
}

impl From<AllocError> for Refusal {
    ghost from_gives = { λ _ e. e ≡ refusal.NoMemory };

    fn from(_: AllocError) -> Refusal {
        Refusal::NoMemory
    }
}

impl<T: Drop> From<AllocFailed<T>> for Refusal {
    ghost from_gives = { λ _ e. e ≡ refusal.NoMemory };

    fn from(_: AllocFailed<T>) -> Refusal {
        Refusal::NoMemory
    }
}

fn image_name(fault: ImageFault) -> &'static str
    ensures { result.now ≡ image_name fault }
{
    match fault {
        ImageFault::NotSectors => "NotSectors",
        ImageFault::TooLong => "TooLong",
        ImageFault::NoMemory => "NoMemory",
    }
}

/// The name of a fault, as it is printed.
pub(crate) fn disk_name(fault: DiskFault) -> &'static str
    ensures { result.now ≡ disk_name fault }
{
    match fault {
        DiskFault::Fault => "Fault",
        DiskFault::BlockTwice => "BlockTwice",
        DiskFault::BlockRange => "BlockRange",
        DiskFault::BadEntry => "BadEntry",
        DiskFault::NotFound => "NotFound",
        DiskFault::Exists => "Exists",
        DiskFault::DirectoryFull => "DirectoryFull",
        DiskFault::DiskFull => "DiskFull",
        DiskFault::ReadOnly => "ReadOnly",
        DiskFault::Unwritten => "Unwritten",
        DiskFault::NoExtent => "NoExtent",
        DiskFault::NameTwice => "NameTwice",
        DiskFault::Failed => "Failed",
        DiskFault::TooFar => "TooFar",
        DiskFault::NoMemory => "NoMemory",
        DiskFault::WrongSize => "WrongSize",
    }
}

/// The text after `error: `: the name of the innermost variant, with the name of a file in parentheses if the refusal has one.
impl fmt::Display for Refusal {
    ghost use Rattle.std.specs.Prelude.{Some};
    ghost use Rattle.z80dev_disk.specs.Refusals.{refusal_text};

    ghost output = { λ refusal. Some (refusal_text refusal) };

    fn fmt<W: fmt::Write>(&self, f: &mut fmt::Formatter<W>) -> fmt::Result {
        match self {
            Refusal::BadName => f.write_str("BadName"),
            Refusal::BadFile(name) => write!(f, "BadName({})", HostName { name: *name }),
            Refusal::Image(fault) => f.write_str(image_name(*fault)),
            Refusal::Disk(fault) => f.write_str(disk_name(*fault)),
            Refusal::Named(fault, name) => {
                write!(f, "{}({})", disk_name(*fault), HostName { name: *name })
            }
            Refusal::NoMemory => f.write_str("NoMemory"),
        }
    }
}
