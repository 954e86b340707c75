//! Why a disk refuses.

ghost use Rattle.std.specs.Prelude.{◌≡◌};
ghost use Rattle.cpm_image.specs.declared.directory.fault.DiskFault.TheVariants.{NoMemory};

use std::alloc::{AllocError, AllocFailed};
use thiserror::Error;

/// Why a disk is not mounted, or refuses a call.
#[derive(Clone, Copy, Debug, PartialEq, Eq, Error)]
pub enum DiskFault {
    /// The device failed during the call.
    #[error("the device failed")]
    Fault,
    /// A block other than 0 is twice in the entries of users 0 to 31.
    #[error("a block stands twice in the directory")]
    BlockTwice,
    /// A block number is not 0 and not that of a block for files: 1 or above 242, on a Megabyte disk 1 to 3 or above 511.
    #[error("a directory entry names a block that holds no files")]
    BlockRange,
    /// RC is above 128, EX is above 31, or the low six bits of S2 are not 0 (above 15 on a Megabyte disk).
    #[error("a directory entry has a count out of range")]
    BadEntry,
    /// The user has no file of this name, or none that matches.
    #[error("no such file")]
    NotFound,
    /// The user already has a file of this name.
    #[error("the file exists")]
    Exists,
    /// A new file or extent is needed, and no directory entry is free.
    #[error("the directory is full")]
    DirectoryFull,
    /// A new block is needed, and none is free.
    #[error("the disk is full")]
    DiskFull,
    /// One of the file's entries is read-only.
    #[error("the file is read-only")]
    ReadOnly,
    /// The extent is there, but not the record.
    #[error("the record was not written")]
    Unwritten,
    #[error("the extent of the record was not written")]
    NoExtent,
    /// Two entries have the same user, name and extent number.
    #[error("two directory entries have the same name and extent")]
    NameTwice,
    /// The device failed in an earlier call since the disk was mounted.
    #[error("the device has failed")]
    Failed,
    /// The record is above 4,095 (65,535 on a Megabyte disk).
    #[error("the record is past the last that a file may have")]
    TooFar,
    /// Memory ran out.
    #[error("out of memory")]
    NoMemory,
    /// The device has neither 2,002 sectors nor 8,192.
    #[error("the device has the size of no disk")]
    WrongSize,
}

impl From<AllocError> for DiskFault {
    ghost from_gives = { λ _ e. e ≡ NoMemory };

    fn from(_: AllocError) -> DiskFault {
        DiskFault::NoMemory
    }
}

impl<T: Drop> From<AllocFailed<T>> for DiskFault {
    ghost from_gives = { λ _ e. e ≡ NoMemory };

    fn from(_: AllocFailed<T>) -> DiskFault {
        DiskFault::NoMemory
    }
}
