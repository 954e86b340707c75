//! Finds the long jumps of a program of modules.

ghost use Rattle.std.specs.Prelude.{◌≡◌, ◌++◌, All, IfOk, OnOk, length, map};
ghost use Rattle.zmo_object.specs.Modules.{module_of};
ghost use Rattle.zmo_object.specs.Rules.{IsModule};
ghost use Rattle.program_map.specs.Reasons.Programs.{AnswersLongJumps, sites_from, sites_of};

use crate::reasons::long_jumps::{LongJump, long_jumps_of};
use relax::least;
use source_warnings::Site;
use std::alloc::{AllocError, Global};
use zlink::{JoinFault, join, shape_of};
use zmo_object::Module;

/// The long jumps of a program, and where its statements are in its modules.
#[derive(Debug, Drop)]
pub struct LongJumps {
    /// Sorted by `excess`, and then by number.
    pub jumps: Vec<LongJump>,
    /// For each statement of the program its module, and its number there.
    pub sites: Vec<Site>,
}

/// Appends the sites of a module with this many statements.
fn put_sites(sites: &mut Vec<Site>, number: usize, count: usize) -> Result<(), AllocError>
    ensures { OnOk result (sites.new.items ≡ sites.old.items ++ sites_of number count) }
{
    for statement in 0..count {
        sites.push(Site {
            module: number,
            statement,
        })?;
    }
    Ok(())
}

/// Answers for each statement of a program its module, and its number there.
fn all_sites(alloc: Global, modules: &[Module]) -> Result<Vec<Site>, AllocError>
    ensures { IfOk result (λ sites. sites.items ≡ sites_from 0 (map module_of modules.now)) }
{
    let mut sites = Vec::new(alloc);
    for (number, module) in modules.iter().enumerate() {
        put_sites(&mut sites, number, module.statements.len())?;
    }
    Ok(sites)
}

/// Answers the long jumps of a program, given its modules in their order, and where its statements are.
///
/// # Errors
///
/// The first error of the modules together; [`JoinFault::NoMemory`] if memory ran out.
pub fn find_long_jumps(alloc: Global, modules: &[Module]) -> Result<LongJumps, JoinFault>
    requires { All IsModule (map module_of modules.now) }
    ensures { AnswersLongJumps (map module_of modules.now) result }
{
    let links = join(alloc, modules)?;
    let shape = shape_of(alloc, modules, &links)?;
    let growth = least(alloc, &shape)?;
    let jumps = long_jumps_of(alloc, &shape, &growth)?;
    let sites = all_sites(alloc, modules)?;
    Ok(LongJumps { jumps, sites })
}
