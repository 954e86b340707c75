//! Why there is no file.

ghost use Rattle.std.specs.Prelude.{◌≡◌};
ghost use Rattle.zlink.specs.Linked.{link_fault};
ghost use Rattle.zlink.specs.Private.Assembling.{source_fault};

use crate::program::JoinFault;
use asm_module::{AsmFault, Why};
use std::alloc::{AllocError, AllocFailed};
use thiserror::Error;

/// Why no choice of short and long jumps fits.
#[derive(Clone, Copy, Debug, PartialEq, Eq, Error)]
pub enum Misfit {
    /// This statement, counted from 0, is the lowest jump that is always short and does not reach its target. It does not reach it in any
    /// settled choice: one in which every relaxable jump that is short reaches its own target.
    #[error("statement {0} reaches its target in no choice that fits")]
    Range(u32),
    /// All jumps that are always short reach their targets, but every settled choice takes at least this many bytes, and this is more than
    /// 64,512. (In a settled choice every relaxable jump that is short reaches its target.)
    #[error("no choice in which jumps reach takes less than {0} bytes")]
    TooLarge(u32),
}

/// Why modules make no file. Modules, their labels and their externals are numbered from 0. If there are several reasons, the first of
/// these is reported.
#[derive(Debug, Drop, PartialEq, Eq, Error)]
pub enum LinkFault {
    /// There are more than 20,000 statements.
    #[error("too many statements")]
    TooManyStatements,
    /// This module says ORG 0100H, but is not the first.
    #[error("module {0} begins the program, and is not the first")]
    BeginsNotFirst(usize),
    /// This label of this module is public, and a module before it has a public label of the same name.
    #[error("label {1} of module {0} is public in a module before it too")]
    DefinedTwice(usize, u16),
    /// No module has a public label with the name of this external of this module.
    #[error("external {1} of module {0} is public in no module")]
    Unresolved(usize, usize),
    /// The entry of this module is not the first statement of the program.
    #[error("the entry of module {0} is not the first statement of the program")]
    EntryNotFirst(usize),
    /// No choice of short and long jumps fits.
    #[error("no choice of short and long jumps fits")]
    NoFit {
        why: Misfit,
        /// The sizes file.
        sizes: Vec<u8>,
        /// The certificate.
        cert: Vec<u8>,
    },
    /// Memory ran out.
    #[error("out of memory")]
    NoMemory,
}

/// Why there is no file.
#[derive(Debug, Drop, PartialEq, Eq, Error)]
pub enum BuildFault {
    /// A source has an error; sources are numbered from 0.
    #[error("source {source}, {fault}")]
    Asm { source: usize, fault: AsmFault },
    /// The modules of the sources cannot be linked.
    #[error(transparent)]
    Link(LinkFault),
}

/// Answers the error of a source as one of building. If memory ran out, that is not an error of the source.
pub(crate) fn of_source(source: usize, fault: AsmFault) -> BuildFault
    ensures { result ≡ source_fault source fault }
{
    match fault.why {
        Why::NoMemory => BuildFault::Link(LinkFault::NoMemory),
        _ => BuildFault::Asm { source, fault },
    }
}

impl From<JoinFault> for LinkFault {
    ghost from_gives = { λ fault e. e ≡ link_fault fault };

    fn from(fault: JoinFault) -> LinkFault {
        match fault {
            JoinFault::TooManyStatements => LinkFault::TooManyStatements,
            JoinFault::BeginsNotFirst(module) => LinkFault::BeginsNotFirst(module),
            JoinFault::DefinedTwice(module, label) => LinkFault::DefinedTwice(module, label),
            JoinFault::Unresolved(module, external) => LinkFault::Unresolved(module, external),
            JoinFault::EntryNotFirst(module) => LinkFault::EntryNotFirst(module),
            JoinFault::NoMemory => LinkFault::NoMemory,
        }
    }
}

impl From<AllocError> for LinkFault {
    ghost use Rattle.zlink.specs.declared.fault.LinkFault.TheVariants as link;

    ghost from_gives = { λ _ e. e ≡ link.NoMemory };

    fn from(_: AllocError) -> LinkFault {
        LinkFault::NoMemory
    }
}

impl From<LinkFault> for BuildFault {
    ghost use Rattle.zlink.specs.declared.fault.BuildFault.TheVariants as build;

    ghost from_gives = { λ fault e. e ≡ build.Link fault };

    fn from(fault: LinkFault) -> BuildFault {
        BuildFault::Link(fault)
    }
}

impl From<AllocError> for BuildFault {
    ghost use Rattle.zlink.specs.declared.fault.LinkFault.TheVariants as link;
    ghost use Rattle.zlink.specs.declared.fault.BuildFault.TheVariants as build;

    ghost from_gives = { λ _ e. e ≡ build.Link link.NoMemory };

    fn from(_: AllocError) -> BuildFault {
        BuildFault::Link(LinkFault::NoMemory)
    }
}

impl<T: Drop> From<AllocFailed<T>> for BuildFault {
    ghost use Rattle.zlink.specs.declared.fault.LinkFault.TheVariants as link;
    ghost use Rattle.zlink.specs.declared.fault.BuildFault.TheVariants as build;

    ghost from_gives = { λ _ e. e ≡ build.Link link.NoMemory };

    fn from(_: AllocFailed<T>) -> BuildFault {
        BuildFault::Link(LinkFault::NoMemory)
    }
}
