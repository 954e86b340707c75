//! Why there is no source text for a program.

ghost use Rattle.std.specs.Prelude.{◌≡◌, IfOk, string_bytes};
ghost use Rattle.disassembler.specs.Faults.{disassembly_fault_text};
ghost use Rattle.disassembler.specs.declared.fault.DisassemblyFault.TheVariants.{NoMemory};

use std::alloc::{AllocError, AllocFailed, Global};
use thiserror::Error;

/// Why there is no source text for a program.
#[derive(Clone, Copy, Debug, PartialEq, Eq, Error)]
pub enum DisassemblyFault<'a> {
    /// The program has more bytes than [`LONGEST_PROGRAM`](common::LONGEST_PROGRAM).
    #[error("the program is too long")]
    TooLong,
    /// The first of the entries that is no number of the language, as 0150H, or not the address of a byte of the program.
    #[error("{0} is not an address of the program")]
    BadEntry(&'a str),
    /// The first of the beginnings of data that is no such address.
    #[error("{0} is not an address of the program")]
    BadData(&'a str),
    /// The first line of the labels file, counted from 1, that is not `AAAA PATH NAME`: four hexadecimal digits in upper case, a path, and a
    /// name.
    #[error("line {0} of the labels is bad")]
    BadLabels(usize),
    /// No text that was tried builds to the bytes of the program.
    #[error("no source text was found")]
    NotRebuilt,
    #[error("out of memory")]
    NoMemory,
}

impl From<AllocError> for DisassemblyFault<'_> {
    ghost from_gives = { λ _ e. e ≡ NoMemory };

    fn from(_: AllocError) -> Self {
        DisassemblyFault::NoMemory
    }
}

impl<T: Drop> From<AllocFailed<T>> for DisassemblyFault<'_> {
    ghost from_gives = { λ _ e. e ≡ NoMemory };

    fn from(_: AllocFailed<T>) -> Self {
        DisassemblyFault::NoMemory
    }
}

/// Answers a fault as it is printed after `error: `: its name, with the word or the line in parentheses.
pub fn fault_text(alloc: Global, fault: DisassemblyFault<'_>) -> Result<String, AllocError>
    ensures { IfOk result (λ text. string_bytes text ≡ disassembly_fault_text fault.entry) }
{
    match fault {
        DisassemblyFault::TooLong => String::from_str(alloc, "TooLong"),
        DisassemblyFault::BadEntry(word) => format!(in alloc; "BadEntry({word})"),
        DisassemblyFault::BadData(word) => format!(in alloc; "BadData({word})"),
        DisassemblyFault::BadLabels(line) => format!(in alloc; "BadLabels({line})"),
        DisassemblyFault::NotRebuilt => String::from_str(alloc, "NotRebuilt"),
        DisassemblyFault::NoMemory => String::from_str(alloc, "NoMemory"),
    }
}
