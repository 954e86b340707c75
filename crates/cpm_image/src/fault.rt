//! Why bytes are not an image.

ghost use Rattle.std.specs.Prelude.{◌≡◌};
ghost use Rattle.cpm_image.specs.declared.fault.ImageFault.TheVariants.{NoMemory};

use std::alloc::{AllocError, AllocFailed};
use thiserror::Error;

/// Why bytes are not the image of a disk.
#[derive(Clone, Copy, Debug, PartialEq, Eq, Error)]
pub enum ImageFault {
    /// The number of bytes is not a multiple of 128.
    #[error("the image is not a whole number of 128-byte sectors")]
    NotSectors,
    /// There are more than 256,256 bytes, but not exactly 1,048,576.
    #[error("the image is longer than 256256 bytes, and is not of 1048576")]
    TooLong,
    /// Memory ran out.
    #[error("out of memory")]
    NoMemory,
}

impl From<AllocError> for ImageFault {
    ghost from_gives = { λ _ e. e ≡ NoMemory };

    fn from(_: AllocError) -> ImageFault {
        ImageFault::NoMemory
    }
}

impl<T: Drop> From<AllocFailed<T>> for ImageFault {
    ghost from_gives = { λ _ e. e ≡ NoMemory };

    fn from(_: AllocFailed<T>) -> ImageFault {
        ImageFault::NoMemory
    }
}
