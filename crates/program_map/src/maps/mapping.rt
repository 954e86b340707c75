//! Makes the map of a program of modules.

ghost use Rattle.std.specs.Prelude.{◌≡◌, ◌≤◌, ◌<◌, ◌+◌, ◌^◌, IfOk, drop, length, map, slice_index};
ghost use Rattle.std.specs.Option.{option_map};
ghost use Rattle.zmo_object.specs.Modules.{module_of};
ghost use Rattle.zlink.specs.Program.Laws.{statement_count};
ghost use Rattle.zlink.specs.Program.Parts.{label_at};
ghost use Rattle.program_map.specs.Figures.{Ascend};
ghost use Rattle.program_map.specs.Map.{mapped_module, placed_label, program_map};
ghost use Rattle.program_map.specs.Mapped.{mapped_module_of, mapped_program_of};
ghost use Rattle.program_map.specs.Named.{by_address, named_of};
ghost use Rattle.program_map.specs.Private.Adding.{joined_figures, seen_kinds};

use crate::maps::figures::{Figures, NOTHING, figures_of};
use crate::maps::kind::Kind;
use crate::maps::map::{ModuleMap, ProgramMap};
use crate::naming::{PlacedName, by_address};
use std::alloc::{AllocError, Global};
use zmo_object::Module;

/// Answers the address of a statement, or 0 if it has none.
fn place_at(places: &[u32], statement: usize) -> u32
    ensures { result ≡ slice_index places.now statement }
{
    match places.get(statement) {
        Some(place) => *place,
        None => 0,
    }
}

/// Answers the name of a label and its address, given the label's number.
fn placed_label(
    alloc: Global,
    places: &[u32],
    module: &Module,
    number: u16,
) -> Result<PlacedName, AllocError>
    ensures { IfOk result (λ name. named_of name ≡ placed_label places.now (label_at (module_of «module».now) number)) }
{
    let Some(label) = module.labels.get(usize::from(number)) else {
        return Ok(PlacedName {
            place: place_at(places, 0),
            name: Vec::new(alloc),
        });
    };
    Ok(PlacedName {
        place: place_at(places, usize::from(label.statement)),
        name: label.name.to_vec(alloc)?,
    })
}

/// Answers the public names of a module by address.
fn publics_of(alloc: Global, places: &[u32], module: &Module) -> Result<Vec<PlacedName>, AllocError>
    ensures { IfOk result (λ names. map named_of names.items ≡ by_address (map (λ l. placed_label places.now (label_at (module_of «module».now) l)) «module».now.publics.items)) }
{
    let mut names = Vec::with_capacity(alloc, module.publics.len())?;
    for number in &module.publics {
        names.push(placed_label(alloc, places, module, *number)?)?;
    }
    by_address(names)
}

/// Answers a module in a map, given what its statements are, and the addresses of its statements and of what follows.
fn module_map(
    alloc: Global,
    kinds: Option<&[Kind]>,
    places: &[u32],
    module: &Module,
) -> Result<ModuleMap, AllocError>
    requires ascend { Ascend places.now }
    requires long { length «module».now.statements.items < length places.now }
    ensures map { IfOk result (λ m. mapped_module_of m ≡ mapped_module (seen_kinds kinds.entry) places.now (module_of «module».now)) }
    ensures bytes { IfOk result (λ m. slice_index places.now 0 + (m.figures.code + m.figures.data + m.figures.space) ≡ slice_index places.now (length «module».now.statements.items)) }
    ensures jumps { IfOk result (λ m. (m.figures.jumps ≤ length «module».now.statements.items) × (m.figures.short ≤ length «module».now.statements.items) × (m.figures.long ≤ length «module».now.statements.items)) }
{
    let figures = figures_of(kinds, places, &module.statements);
    Ok(ModuleMap {
        name: module.name.to_vec(alloc)?,
        first: place_at(places, 0),
        end: place_at(places, module.statements.len()),
        figures,
        publics: publics_of(alloc, places, module)?,
    })
}

/// Answers what statements are, from this one on.
fn kinds_from(kinds: Option<&[Kind]>, base: usize) -> Option<&[Kind]>
    ensures { seen_kinds result ≡ option_map (drop base) (seen_kinds kinds.entry) }
{
    match kinds {
        Some(kinds) => Some(kinds.get(base..).unwrap_or(&[])),
        None => None,
    }
}

/// Answers the addresses from those of this statement on.
fn places_from(places: &[u32], base: usize) -> &[u32]
    ensures { result.now ≡ drop base places.now }
{
    places.get(base..).unwrap_or(&[])
}

/// Answers the sums of two modules.
fn joined(a: Figures, b: Figures) -> Figures
    requires bytes { a.code + a.data + a.space + b.code + b.data + b.space < 2 ^ 32 }
    requires jumps { (a.jumps + b.jumps < 2 ^ 64) × (a.short + b.short < 2 ^ 64) × (a.long + b.long < 2 ^ 64) }
    ensures { result ≡ joined_figures a b }
{
    Figures {
        code: a.code + b.code,
        data: a.data + b.data,
        space: a.space + b.space,
        jumps: a.jumps + b.jumps,
        short: a.short + b.short,
        long: a.long + b.long,
    }
}

/// Answers the map of a program of modules, given what its statements are, if that is known, their addresses and that of their end.
///
/// # Errors
///
/// [`AllocError`] if memory ran out.
pub fn program_map(
    alloc: Global,
    kinds: Option<&[Kind]>,
    places: &[u32],
    modules: &[Module],
) -> Result<ProgramMap, AllocError>
    requires ascend { Ascend places.now }
    requires all { length places.now ≡ statement_count (map module_of modules.now) + 1 }
    ensures { IfOk result (λ m. mapped_program_of m ≡ program_map (seen_kinds kinds.entry) places.now (map module_of modules.now)) }
{
    let mut mapped = Vec::with_capacity(alloc, modules.len())?;
    let mut total = NOTHING;
    let mut base = 0;
    for module in modules {
        let own_kinds = kinds_from(kinds, base);
        let own = module_map(alloc, own_kinds, places_from(places, base), module)?;
        total = joined(total, own.figures);
        base += module.statements.len();
        mapped.push(own)?;
    }
    Ok(ProgramMap {
        tells_data: kinds.is_some(),
        modules: mapped,
        total,
        end: place_at(places, base),
    })
}
