//! Answers what the refs of one module stand for.

ghost use Rattle.std.specs.Prelude.{◌≡◌, ◌≤◌, ◌<◌, ◌+◌, ◌++◌, ◌^◌, All, OnOk, length, map, slice_index, vec_len};
ghost use Rattle.zlink.specs.Private.Refs.{stands_by, table_of};

use crate::program::Links;
use std::alloc::AllocError;

/// Answers the statement of the whole program for which a ref stands, in a module of `count` statements.
pub(crate) fn stands(count: usize, links: &Links, target: u16) -> u32
    requires refs { target < count + 1 + vec_len links.now.externals }
    requires room { links.now.base + count < 2 ^ 32 }
    ensures { result ≡ stands_by count links.now.base links.now.externals.items target }
{
    let own = usize::from(target);
    if own <= count {
        links.base + u32::from(target)
    } else {
        links.externals[own - (count + 1)]
    }
}

/// Answers the address of a statement, or 0 if there is no such statement.
fn place_at(places: &[u32], number: u32) -> u16
    requires { All (λ place. place < 65536) places.now }
    ensures { result ≡ slice_index places.now number }
{
    match places.get(number as usize) {
        Some(place) => *place as u16,
        None => 0,
    }
}

/// Appends addresses to a table.
fn put_places(table: &mut Vec<u16>, places: &[u32]) -> Result<(), AllocError>
    requires { All (λ place. place < 65536) places.now }
    ensures { OnOk result (table.new.items ≡ table.old.items ++ places.now) }
{
    for place in places {
        table.push(*place as u16)?;
    }
    Ok(())
}

/// Appends the addresses of these statements to a table.
fn put_externals(table: &mut Vec<u16>, externals: &[u32], places: &[u32]) -> Result<(), AllocError>
    requires { All (λ place. place < 65536) places.now }
    ensures { OnOk result (table.new.items ≡ table.old.items ++ map (slice_index places.now) externals.now) }
{
    for number in externals {
        table.push(place_at(places, *number))?;
    }
    Ok(())
}

/// Replaces the content of the table by the addresses of a module's refs. One table serves all modules, so its memory is used again.
pub(crate) fn fill_table(
    table: &mut Vec<u16>,
    count: usize,
    links: &Links,
    places: &[u32],
) -> Result<(), AllocError>
    requires small { All (λ place. place < 65536) places.now }
    requires within { links.now.base + count < length places.now }
    ensures { OnOk result (table.new.items ≡ table_of count links.now.base links.now.externals.items places.now) }
{
    table.clear();
    let base = links.base as usize;
    put_places(table, &places[base..=base + count])?;
    put_externals(table, &links.externals, places)
}
