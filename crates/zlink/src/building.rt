//! Builds a file from sources.

ghost use Rattle.std.specs.Prelude.{◌≡◌, ◌<◌, All, IfOk, false, map};
ghost use Rattle.zlink.specs.Built.{IsBuilt, IsExactBuild};

use crate::assembling::{Assemblies, assemble_all};
use crate::fault::BuildFault;
use crate::laws::{exact, laid_out};
use crate::linking::{Linked, link};
use crate::origins::{Origin, origins_of};
use crate::source::Source;
use crate::symbol::Symbol;
use asm_module::{Lines, Module};
use std::alloc::{AllocError, Global};

/// What building sources gives.
#[derive(Debug, Drop)]
pub struct Built {
    /// The .COM file, which is loaded at 0100H.
    pub com: Vec<u8>,
    /// The sizes file: what the size of the program depends on.
    pub sizes: Vec<u8>,
    /// The certificate that no choice of short and long jumps that fits takes fewer bytes.
    pub cert: Vec<u8>,
    /// The labels of all sources, in the order of their lines.
    pub symbols: Vec<Symbol>,
    /// The address, the source and the line of each statement.
    pub statements: Vec<Origin>,
    /// For each source the number of the last line that its listing shows, or 0 if the source has no lines.
    pub last: Vec<u32>,
    /// The numbers of the jumps that were written as `JR` and became `JP`, ascending.
    pub grown: Vec<u32>,
    /// The modules of the sources.
    pub modules: Vec<Module>,
    /// For each source the lines of the statements of its module.
    pub lines: Vec<Lines>,
}

/// Does nothing. Its contract says that each byte of a list is below 256, which the proof needs about the file.
fn are_bytes(bytes: &[u8])
    ensures { All (λ b. b < 256) bytes.now }
{}

/// Answers the last line of each source.
fn last_lines(alloc: Global, lines: &[Lines]) -> Result<Vec<u32>, AllocError>
    ensures { IfOk result (λ v. v.items ≡ map (λ l. l.last) lines.now) }
{
    let mut last = Vec::with_capacity(alloc, lines.len())?;
    for own in lines {
        last.push(own.last)?;
    }
    Ok(last)
}

/// Builds the sources, or answers why it cannot.
fn build_sources(alloc: Global, sources: &[Source<'_>], grow: bool) -> Result<Built, BuildFault>
    ensures { IsBuilt grow sources.now result }
{
    laid_out();
    let Assemblies { modules, lines } = assemble_all(alloc, sources, grow)?;
    let Linked {
        com,
        sizes,
        cert,
        symbols,
        places,
        grown,
    } = link(alloc, &modules)?;
    are_bytes(&com);
    let statements = origins_of(alloc, &lines, &places)?;
    let last = last_lines(alloc, &lines)?;
    Ok(Built {
        com,
        sizes,
        cert,
        symbols,
        statements,
        last,
        grown,
        modules,
        lines,
    })
}

/// Builds the .COM file of the sources, one after the other, with each jump as short as it can be. If `grow` is true, a written `JR` may
/// become a `JP`.
///
/// The file begins with the first statement and is loaded at 0100H.
///
/// # Errors
///
/// [`BuildFault::Asm`] with the first error of the first source that has one; [`BuildFault::Link`] with the first error of the modules
/// together; with [`LinkFault::NoFit`](crate::LinkFault::NoFit), and the reason, only if no choice of short and long jumps fits; with
/// [`LinkFault::NoMemory`](crate::LinkFault::NoMemory) if memory ran out.
pub fn build_with(alloc: Global, sources: &[Source<'_>], grow: bool) -> Result<Built, BuildFault>
    // What is answered holds of the sources.
    ensures answer { IsBuilt grow sources.now result }

    // What holds of the sources is answered, unless memory ran out.
    ensures exact { IsExactBuild grow sources.now result }
{
    // A law: it does nothing, and the clause `exact` follows from its contract.
    exact();
    build_sources(alloc, sources, grow)
}

/// Builds the sources as [`build_with`] does, with each written `JR` always short.
///
/// # Errors
///
/// Those of [`build_with`].
pub fn build(alloc: Global, sources: &[Source<'_>]) -> Result<Built, BuildFault>
    ensures answer { IsBuilt false sources.now result }
    ensures exact { IsExactBuild false sources.now result }
{
    build_with(alloc, sources, false)
}
