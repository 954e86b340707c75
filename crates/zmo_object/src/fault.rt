//! Why bytes are not an object file.

ghost use Rattle.std.specs.Prelude.{◌≡◌};
ghost use Rattle.zmo_object.specs.declared.fault.ObjectFault.TheVariants.{NoMemory};
ghost use Rattle.zmo_object.specs.Reading.{fault_in};

use crate::field_fault::FieldFault;
use std::alloc::{AllocError, AllocFailed};
use thiserror::Error;

/// Why bytes are not an object file.
#[derive(Clone, Copy, Debug, PartialEq, Eq, Error)]
pub enum ObjectFault {
    #[error("no object")]
    Magic,
    /// The bytes end within a field.
    #[error("the object ends in a field")]
    Truncated,
    /// A field breaks a rule. The number says how many bytes are before it.
    #[error("a bad field after {0} bytes")]
    BadField(usize),
    /// Bytes are left over after the last field.
    #[error("bytes behind the object")]
    Trailing,
    #[error("out of memory")]
    NoMemory,
}

impl From<AllocError> for ObjectFault {
    ghost from_gives = { λ _ e. e ≡ NoMemory };

    fn from(_e: AllocError) -> ObjectFault {
        ObjectFault::NoMemory
    }
}

impl<T: Drop> From<AllocFailed<T>> for ObjectFault {
    ghost from_gives = { λ _ e. e ≡ NoMemory };

    fn from(_e: AllocFailed<T>) -> ObjectFault {
        ObjectFault::NoMemory
    }
}

/// Converts the error of a field to one of an object file with `len` bytes.
pub(crate) fn fault_in(len: usize, fault: FieldFault) -> ObjectFault
    ensures { result ≡ fault_in len fault }
{
    match fault {
        FieldFault::Truncated => ObjectFault::Truncated,
        FieldFault::BadField(left) => ObjectFault::BadField(len.saturating_sub(left)),
        FieldFault::NoMemory => ObjectFault::NoMemory,
    }
}
