//! Finds the offsets over a relaxable jump.

ghost use Rattle.std.specs.Prelude.{◌≡◌, ◌++◌, OnOk};
ghost use Rattle.std.specs.List.{filter_map, flat_map};
ghost use Rattle.zmo_object.specs.Modules.{statement_of};
ghost use Rattle.source_warnings.specs.Jumps.Offsets.{offsets};
ghost use Rattle.source_warnings.specs.Private.Flat.{placed_of};
ghost use Rattle.source_warnings.specs.Jumps.Warnings.{over, overs_in, statement_overs};
ghost use Rattle.source_warnings.specs.Jumps.Parts as spec;

use crate::jumps::near::Jumps;
use crate::jumps::offsets::{Offset, offset_at};
use crate::jumps::part::{Placed, Site};
use crate::jumps::warnings::Warning;
use asm_parse::{Atom, Expr, Item, Room, items};
use std::alloc::AllocError;
use zmo_object::{Hole, Statement};

/// Answers the number in the program of the statement for which a ref of a module stands, if it is known.
fn stands(placed: &Placed<'_>, reference: usize) -> Option<usize>
    ensures { result ≡ spec.stands_at (placed_of placed.now) reference }
{
    let count = placed.part.module.statements.len();
    if reference <= count {
        return Some(placed.base as usize + reference);
    }
    match placed.part.externals.get(reference - (count + 1)) {
        Some(statement) => Some(*statement as usize),
        None => None,
    }
}

/// Answers the warning about an offset in the statement at a site, if it is over a relaxable jump.
fn over(jumps: &Jumps, placed: &Placed<'_>, site: Site, offset: Offset) -> Option<Warning>
    ensures { result ≡ over jumps.now (placed_of placed.now) site offset }
{
    let Some(k) = stands(placed, offset.reference) else {
        return None;
    };
    match jumps.over(k, offset.bytes) {
        Some(jump) => Some(Warning::Over(site, offset, jump)),
        None => None,
    }
}

/// Appends the warnings about the offsets in some items of the statement at a site.
fn put_items(
    found: &mut Vec<Warning>,
    jumps: &Jumps,
    placed: &Placed<'_>,
    site: Site,
    items: &[Item<Atom>],
) -> Result<(), AllocError>
    ensures { OnOk result (found.new.items ≡ found.old.items ++ filter_map (over jumps.now (placed_of placed.now) site) (offsets items.now)) }
{
    let mut rest = items;
    while let [_, more @ ..] = rest {
        if let Some(offset) = offset_at(rest) {
            if let Some(warning) = over(jumps, placed, site, offset) {
                found.push(warning)?;
            }
        }
        rest = more;
    }
    Ok(())
}

/// Appends the warnings about an expression whose items are not side by side in memory. Clearing the room for them takes time, so this is a
/// function of its own, which is not inlined.
#[inline(never)]
fn put_gathered(
    found: &mut Vec<Warning>,
    jumps: &Jumps,
    placed: &Placed<'_>,
    site: Site,
    expr: &Expr,
) -> Result<(), AllocError>
    ensures { OnOk result (found.new.items ≡ found.old.items ++ filter_map (over jumps.now (placed_of placed.now) site) (offsets expr.now)) }
{
    put_items(found, jumps, placed, site, items(expr, &mut Room::new()))
}

/// Appends the warnings about an expression in the statement at a site.
fn put_expr(
    found: &mut Vec<Warning>,
    jumps: &Jumps,
    placed: &Placed<'_>,
    site: Site,
    expr: &Expr,
) -> Result<(), AllocError>
    ensures { OnOk result (found.new.items ≡ found.old.items ++ filter_map (over jumps.now (placed_of placed.now) site) (offsets expr.now)) }
{
    match expr.side_by_side() {
        Some(list) => put_items(found, jumps, placed, site, list),
        None => put_gathered(found, jumps, placed, site, expr),
    }
}

/// Appends the warnings about the fix-ups of the statement at a site.
fn put_holes(
    found: &mut Vec<Warning>,
    jumps: &Jumps,
    placed: &Placed<'_>,
    site: Site,
    holes: &[Hole],
) -> Result<(), AllocError>
    ensures { OnOk result (found.new.items ≡ found.old.items ++ flat_map (λ h. filter_map (over jumps.now (placed_of placed.now) site) (offsets h.value)) holes.now) }
{
    for hole in holes {
        put_expr(found, jumps, placed, site, &hole.value)?;
    }
    Ok(())
}

/// Appends the warnings about the statement at a site.
fn put_statement(
    found: &mut Vec<Warning>,
    jumps: &Jumps,
    placed: &Placed<'_>,
    site: Site,
    statement: &Statement,
) -> Result<(), AllocError>
    ensures { OnOk result (found.new.items ≡ found.old.items ++ statement_overs jumps.now (placed_of placed.now) (site, statement_of statement.now)) }
{
    match statement {
        Statement::Bytes { holes, .. } => put_holes(found, jumps, placed, site, holes),
        _ => Ok(()),
    }
}

/// Appends the warnings about the offsets in a module.
pub(crate) fn put_overs(
    found: &mut Vec<Warning>,
    jumps: &Jumps,
    placed: &Placed<'_>,
) -> Result<(), AllocError>
    ensures { OnOk result (found.new.items ≡ found.old.items ++ overs_in jumps.now (placed_of placed.now)) }
{
    let module = placed.number;
    for (number, own) in placed.part.module.statements.iter().enumerate() {
        let site = Site {
            module,
            statement: number,
        };
        put_statement(found, jumps, placed, site, own)?;
    }
    Ok(())
}
