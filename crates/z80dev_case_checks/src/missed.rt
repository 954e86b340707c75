//! The difference between an answer and what plain code computes.

use std::alloc::{AllocError, AllocFailed};

/// The difference between an answer and what plain code computes.
#[derive(Clone, Copy, Debug, PartialEq, Eq)]
pub enum Missed {
    /// Memory ran out.
    NoMemory,
    /// The number of statements or of bytes.
    Length,
    /// The address, the source or the line of a statement.
    Origin(usize),
    /// The bytes of a statement.
    Bytes(usize),
    /// The bytes of the listing.
    Listing,
    /// The verdict that the checker proves.
    Certificate,
    /// A choice of short and long jumps has fewer bytes, or one fits although none was found.
    Fewest,
    /// A step of the machine, at an address.
    Turn(u16),
    /// A byte of memory that differs after the machine's steps and after those of the statements.
    Memory(u16),
    /// A program that has to be refused was built.
    Built,
    /// A program was refused that has to be built, or for the wrong reason.
    Refusal,
}

impl From<AllocError> for Missed {
    fn from(_: AllocError) -> Missed {
        Missed::NoMemory
    }
}

impl<T: Drop> From<AllocFailed<T>> for Missed {
    fn from(_: AllocFailed<T>) -> Missed {
        Missed::NoMemory
    }
}
