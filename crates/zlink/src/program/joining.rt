//! Finds for each module where its statements begin and what its externals stand for.

ghost use Rattle.std.specs.Prelude.{◌≤◌, All, map};
ghost use Rattle.std.specs.List.{AllZip};
ghost use Rattle.std.specs.Result.{result_map_both};
ghost use Rattle.common.specs.declared.limits.TheConstants.{MOST_STATEMENTS};
ghost use Rattle.zmo_object.specs.Modules.{module_of};
ghost use Rattle.zmo_object.specs.Rules.{IsModule};
ghost use Rattle.zlink.specs.Program.Faults.{IsJoined, first_of, unresolved};
ghost use Rattle.zlink.specs.Program.Laws.{statement_count};
ghost use Rattle.zlink.specs.Program.Parts.{parts};
ghost use Rattle.zlink.specs.Private.Joining.{Judges, part};
ghost use Rattle.zlink.specs.Program.Whole.{IsLinks};

use crate::program::checks::{check_begins, check_count, check_entries};
use crate::program::fault::JoinFault;
use crate::program::publics::PublicNames;
use std::alloc::Global;
use zmo_object::Module;

/// The links of a module to the whole program.
#[derive(Debug, Drop)]
pub struct Links {
    /// How many statements come before its own in the whole program.
    pub base: u32,
    /// For each of its externals the number of the statement for which it stands, in the whole program.
    pub externals: Vec<u32>,
}

/// Answers the links of a module before which `base` statements come, or the first external that no module defines.
fn links_of(
    alloc: Global,
    names: &PublicNames<'_>,
    number: usize,
    base: u32,
    object: &Module,
) -> Result<Links, JoinFault>
    ensures { Judges (unresolved names.now (part number base (module_of object.now))) (λ links. IsLinks names.now (part number base (module_of object.now)) links) result }
{
    let mut externals = Vec::new(alloc);
    for (external, name) in object.externals.iter().enumerate() {
        let Some(statement) = names.found(name) else {
            return Err(JoinFault::Unresolved(number, external));
        };
        externals.push(statement)?;
    }
    Ok(Links { base, externals })
}

/// Answers the links of all modules, or the first external that no module defines.
fn all_links(
    alloc: Global,
    names: &PublicNames<'_>,
    modules: &[Module],
) -> Result<Vec<Links>, JoinFault>
    requires rules { All IsModule (map module_of modules.now) }
    requires few { statement_count (map module_of modules.now) ≤ MOST_STATEMENTS }
    ensures { Judges (first_of (unresolved names.now) (parts (map module_of modules.now))) (λ links. AllZip (IsLinks names.now) (parts (map module_of modules.now)) links.items) result }
{
    let mut links = Vec::new(alloc);
    let mut base = 0;
    for (number, module) in modules.iter().enumerate() {
        links.push(links_of(alloc, names, number, base, module)?)?;
        base += module.statements.len() as u32;
    }
    Ok(links)
}

/// Answers for each module, in their order, where its statements begin and which statement each external stands for.
///
/// # Errors
///
/// The first error of the modules together: the kinds are looked for in the order of [`JoinFault`], and the first error of the first kind
/// is answered; [`JoinFault::NoMemory`] if memory ran out.
pub fn join(alloc: Global, modules: &[Module]) -> Result<Vec<Links>, JoinFault>
    requires { All IsModule (map module_of modules.now) }
    ensures { IsJoined (map module_of modules.now) (result_map_both (λ links. links.items) (λ fault. fault) result) }
{
    check_count(modules)?;
    check_begins(modules)?;
    let names = PublicNames::of(alloc, modules)?;
    let links = all_links(alloc, &names, modules)?;
    check_entries(modules)?;
    Ok(links)
}
