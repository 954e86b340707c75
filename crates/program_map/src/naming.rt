//! Names with their addresses, by address.

ghost use Rattle.std.specs.Prelude.{◌≡◌, IfOk, map};
ghost use Rattle.program_map.specs.Named.{named_of};
ghost use Rattle.program_map.specs.Named as spec;

use std::alloc::AllocError;

/// A name and its address.
#[derive(Debug, Drop, PartialEq, Eq)]
pub struct PlacedName {
    pub place: u32,
    pub name: Vec<u8>,
}

/// Answers the names by address. Those of one address stay in their order.
pub(crate) fn by_address(names: Vec<PlacedName>) -> Result<Vec<PlacedName>, AllocError>
    ensures { IfOk result (λ sorted. map named_of sorted.items ≡ spec.by_address (map named_of names.items)) }
{
    let mut sorted = names;
    sorted.sort_by(|a, b| a.place.cmp(&b.place))?;
    Ok(sorted)
}
