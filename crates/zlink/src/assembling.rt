//! Assembles all sources to modules.

ghost use Rattle.std.specs.Prelude.{All, map};
ghost use Rattle.zlink.specs.Private.Assembling.{AreAssembledBy};

use crate::fault::{BuildFault, of_source};
use crate::source::Source;
use asm_module::{Lines, Module, assemble_with};
use std::alloc::Global;

/// The modules of all sources, and the lines of their statements.
#[derive(Drop)]
pub(crate) struct Assemblies {
    pub(crate) modules: Vec<Module>,
    pub(crate) lines: Vec<Lines>,
}

/// Assembles each source to a module. Answers the first error of the first source that has one.
pub(crate) fn assemble_all(
    alloc: Global,
    sources: &[Source<'_>],
    grow: bool,
) -> Result<Assemblies, BuildFault>
    ensures { AreAssembledBy grow sources.now result }
{
    let mut modules = Vec::new(alloc);
    let mut lines = Vec::new(alloc);
    for (number, source) in sources.iter().enumerate() {
        match assemble_with(alloc, source.name, source.text, grow) {
            Ok((module, own)) => {
                modules.push(module)?;
                lines.push(own)?;
            }
            Err(fault) => return Err(of_source(number, fault)),
        }
    }
    Ok(Assemblies { modules, lines })
}
