//! Finds all warnings of a program.

ghost use Rattle.std.specs.Prelude.{◌≡◌, ◌++◌, IfOk, OnOk, map};
ghost use Rattle.std.specs.List.{flat_map};
ghost use Rattle.source_warnings.specs.Private.Flat.{placed_of};
ghost use Rattle.source_warnings.specs.Jumps.Parts.{member_of};
ghost use Rattle.source_warnings.specs.Jumps.Warnings as spec;

use crate::jumps::entries::put_entries;
use crate::jumps::near::Jumps;
use crate::jumps::offsets::Offset;
use crate::jumps::overs::put_overs;
use crate::jumps::part::{Part, Placed, Site, place_all, program};
use std::alloc::{AllocError, Global};

/// What depends on whether a jump is short or long.
#[derive(Clone, Copy, Debug, PartialEq, Eq)]
pub enum Warning {
    /// An offset in the statement at the first site is over the jump at the second.
    Over(Site, Offset, Site),
    /// Only a computed jump reaches the jump at this site.
    Entry(Site),
}

/// Appends the warnings about the offsets in all modules.
fn put_all_overs(
    found: &mut Vec<Warning>,
    jumps: &Jumps,
    placed: &[Placed<'_>],
) -> Result<(), AllocError>
    ensures { OnOk result (found.new.items ≡ found.old.items ++ flat_map (spec.overs_in jumps.now) (map placed_of placed.now)) }
{
    for own in placed {
        put_overs(found, jumps, own)?;
    }
    Ok(())
}

/// Answers the warnings of a program, given its modules in their order: first those about offsets, in the order of the statements, then
/// those about jumps that only a computed jump reaches.
///
/// # Errors
///
/// [`AllocError`] if memory ran out, or if a program has more statements than memory holds.
pub fn find_jump_warnings(alloc: Global, parts: &[Part<'_>]) -> Result<Vec<Warning>, AllocError>
    ensures { IfOk result (λ found. found.items ≡ spec.all_warnings (map member_of parts.now)) }
{
    let placed = place_all(alloc, parts)?;
    let statements = program(alloc, &placed)?;
    let jumps = Jumps::of(alloc, &statements)?;
    let mut found = Vec::new(alloc);
    put_all_overs(&mut found, &jumps, &placed)?;
    put_entries(alloc, &mut found, &placed, &statements)?;
    Ok(found)
}
