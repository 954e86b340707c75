//! Makes the maps of programs that were built or linked.

ghost use Rattle.std.specs.Prelude.{◌≡◌, ◌≤◌, Bool, IfOk, List, None, Ok, map, vec_len};
ghost use Rattle.common.specs.declared.limits.TheConstants.{LONGEST_PROGRAM};
ghost use Rattle.zmo_object.specs.Modules.{module_of};
ghost use Rattle.zlink.specs.Built.{IsBuilt};
ghost use Rattle.zlink.specs.Linked.{IsLinked};
ghost use Rattle.program_map.specs.Map as spec;
ghost use Rattle.program_map.specs.Mapped.{mapped_program_of};
ghost use Rattle.program_map.specs.Programs.{IsMapOf, built_places};
ghost use Rattle.program_map.specs.Sums.{IsWholeMap};

use crate::laws::adds_up;
use crate::maps::kinds::kinds_of;
use crate::maps::map::ProgramMap;
use crate::maps::mapping::program_map;
use common::FIRST_PLACE;
use std::alloc::{AllocError, Global};
use zlink::{Built, Linked, Module, Source};

/// Answers the addresses of the statements of a program that was built, and that of its end.
fn built_places(alloc: Global, built: &Built) -> Result<Vec<u32>, AllocError>
    requires { vec_len built.now.com ≤ LONGEST_PROGRAM }
    ensures { IfOk result (λ places. places.items ≡ built_places built.now) }
{
    let mut places = Vec::with_capacity(alloc, built.statements.len() + 1)?;
    for statement in &built.statements {
        places.push(statement.place)?;
    }
    places.push(FIRST_PLACE + built.com.len() as u32)?;
    Ok(places)
}

/// Answers the map of a program that was built of these sources. Instructions are code, `DB` and `DW` are data, `DS` is space.
///
/// # Errors
///
/// [`AllocError`] if memory ran out.
pub fn map_of_built(
    alloc: Global,
    sources: &[Source<'_>],
    built: &Built,
) -> Result<ProgramMap, AllocError>
    requires { (grow : Bool) × IsBuilt grow sources.now (Ok built.now) }
    ensures map { IfOk result (λ m. (grow : Bool) → IsBuilt grow sources.now (Ok built.now) → IsMapOf grow sources.now built.now (mapped_program_of m)) }
    ensures sums { IfOk result (λ m. IsWholeMap (vec_len built.now.com) (mapped_program_of m)) }
{
    zlink::laws::laid_out();
    adds_up();
    let kinds = kinds_of(alloc, sources, &built.modules)?;
    let places = built_places(alloc, built)?;
    program_map(alloc, Some(&kinds), &places, &built.modules)
}

/// Answers the map of a program that was linked of these modules. An object file does not tell an instruction from data, so both are code.
///
/// # Errors
///
/// [`AllocError`] if memory ran out.
pub fn map_of_linked(
    alloc: Global,
    modules: &[Module],
    linked: &Linked,
) -> Result<ProgramMap, AllocError>
    requires { IsLinked (map module_of modules.now) (Ok linked.now) }
    ensures map { IfOk result (λ m. mapped_program_of m ≡ spec.program_map None linked.now.places.items (map module_of modules.now)) }
    ensures sums { IfOk result (λ m. IsWholeMap (vec_len linked.now.com) (mapped_program_of m)) }
{
    zlink::laws::laid_out();
    adds_up();
    program_map(alloc, None, &linked.places, modules)
}
