//! Says for each statement its address and the line that it comes from.

ghost use Rattle.std.specs.Prelude.{◌≡◌, ◌++◌, ℕ, IfOk, List, OnOk, map, slice_index};
ghost use Rattle.zlink.specs.Built.{origin_of, origins_by};
ghost use Rattle.zlink.specs.Private.Assembling.{lines_in};

use asm_module::Lines;
use std::alloc::{AllocError, Global};

/// The address of a statement, and the line that it comes from.
#[derive(Clone, Copy, Debug, PartialEq, Eq)]
pub struct Origin {
    /// Its address.
    pub place: u32,
    /// The number of its source, from 0.
    pub source: usize,
    /// The number of its line there, from 1.
    pub line: u32,
}

/// Answers the address of a statement, or 0 if it has none.
fn place_of(places: &[u32], statement: usize) -> u32
    ensures { result ≡ slice_index places.now statement }
{
    match places.get(statement) {
        Some(place) => *place,
        None => 0,
    }
}

/// Appends the origins of the statements of a source.
fn put_origins(
    origins: &mut Vec<Origin>,
    source: usize,
    lines: &[u32],
    places: &[u32],
) -> Result<(), AllocError>
    ensures { OnOk result ((before : List (ℕ × ℕ)) → map origin_of origins.old.items ≡ origins_by (λ k. slice_index places.now k) before →
        map origin_of origins.new.items ≡ origins_by (λ k. slice_index places.now k) (before ++ map (λ line. (source, line)) lines.now)) }
{
    for line in lines {
        origins.push(Origin {
            place: place_of(places, origins.len()),
            source,
            line: *line,
        })?;
    }
    Ok(())
}

/// Answers the origins of the statements of all sources, given their addresses.
pub(crate) fn origins_of(
    alloc: Global,
    sources: &[Lines],
    places: &[u32],
) -> Result<Vec<Origin>, AllocError>
    ensures { IfOk result (λ v. map origin_of v.items ≡ origins_by (λ k. slice_index places.now k) (lines_in sources.now)) }
{
    let mut origins = Vec::with_capacity(alloc, places.len())?;
    for (number, lines) in sources.iter().enumerate() {
        put_origins(&mut origins, number, &lines.each, places)?;
    }
    Ok(origins)
}
