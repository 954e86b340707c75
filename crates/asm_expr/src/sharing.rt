//! How settled expressions are kept: an expression that uses an EQU name shares the items of that EQU's expression.

ghost use Rattle.std.specs.Prelude.{◌≡◌, ◌++◌, IfOk, Some, None, if◌then◌else◌};
ghost use Rattle.std.specs.List.{flat_map};
ghost use Rattle.std.specs.Option.{option_map};
ghost use Rattle.asm_parse.specs.Values.Kept.{items_in, kept};
ghost use Rattle.asm_expr.specs.Settling.{item_known, items_known};
ghost use Rattle.asm_expr.specs.Private.Cells.{opened};

use crate::part::Part;
use crate::parts::Cell;
use asm_parse::{Atom, Item, Kept, Piece};
use std::alloc::{AllocError, Global};
use std::rc::Rc;

/// This item as one of an object file; None if it has no value.
pub(crate) fn item_known(item: &Item<Part>) -> Option<Item<Atom>>
    ensures { result ≡ item_known item.now }
{
    match item {
        Item::Leaf(Part::Number(n)) => Some(Item::Leaf(Atom::Number(*n))),
        Item::Leaf(Part::Ref(r)) => Some(Item::Leaf(Atom::Ref(*r))),
        Item::Leaf(Part::Unknown(_)) => None,
        Item::Unary(op) => Some(Item::Unary(*op)),
        Item::Binary(op) => Some(Item::Binary(*op)),
    }
}

/// A settled cell as a piece to be kept; None if it has no value.
fn piece_of(cell: &Cell<'_>) -> Result<Option<Piece>, AllocError>
    ensures { IfOk result (λ answer. option_map items_in answer ≡ items_known (opened cell.now)) }
{
    match cell {
        Cell::Item(item) => Ok(item_known(item).map(|alone| Piece::One([alone]))),
        Cell::List(list) => Ok(Some(Piece::Shared(Rc::clone(list)?))),
    }
}

/// The settled cells as pieces; None if one of them has no value.
fn pieces_of(alloc: Global, cells: &[Cell<'_>]) -> Result<Option<Vec<Piece>>, AllocError>
    ensures { IfOk result (λ answer. option_map (λ pieces. flat_map items_in pieces.items) answer ≡ items_known (flat_map opened cells.now)) }
{
    let mut pieces = Vec::with_capacity(alloc, cells.len())?;
    for cell in cells {
        match piece_of(cell)? {
            Some(piece) => pieces.push(piece)?,
            None => return Ok(None),
        }
    }
    Ok(Some(pieces))
}

/// Appends the items of a settled cell to others. Answers false if the cell has no value.
fn add_known(known: &mut Vec<Item<Atom>>, cell: &Cell<'_>) -> Result<bool, AllocError>
    ensures { IfOk result (λ all. option_map (λ added. known.old.items ++ added) (items_known (opened cell.now)) ≡ if all then Some known.new.items else None) }
{
    match cell {
        Cell::Item(item) => match item_known(item) {
            Some(item) => {
                known.push(item)?;
                Ok(true)
            }
            None => Ok(false),
        },
        Cell::List(list) => {
            known.extend_from_slice(list)?;
            Ok(true)
        }
    }
}

/// How many items there are in all cells.
fn count_of(cells: &[Cell<'_>]) -> usize {
    let mut count = 0usize;
    for cell in cells {
        count = count.saturating_add(match cell {
            Cell::Item(_) => 1,
            Cell::List(list) => list.len(),
        });
    }
    count
}

/// The settled cells as one list; None if one of them has no value.
fn items_known(alloc: Global, cells: &[Cell<'_>]) -> Result<Option<Vec<Item<Atom>>>, AllocError>
    ensures { IfOk result (λ answer. option_map (λ known. known.items) answer ≡ items_known (flat_map opened cells.now)) }
{
    let mut known = Vec::with_capacity(alloc, count_of(cells))?;
    for cell in cells {
        if !add_known(&mut known, cell)? {
            return Ok(None);
        }
    }
    Ok(Some(known))
}

/// A settled cell that is the whole expression, as it is kept; None if it has no value.
fn kept_alone(cell: &Cell<'_>) -> Result<Option<Kept>, AllocError>
    ensures { IfOk result (λ answer. option_map kept answer ≡ items_known (opened cell.now)) }
{
    match cell {
        Cell::Item(item) => Ok(item_known(item).map(|alone| Kept::One([alone]))),
        Cell::List(list) => Ok(Some(Kept::Shared(Rc::clone(list)?))),
    }
}

/// How many items take as much memory as one piece.
const ITEMS_OF_A_PIECE: usize = 3;

/// A settled expression as it is kept; None if a part of it has no value.
pub(crate) fn kept_of(alloc: Global, cells: &[Cell<'_>]) -> Result<Option<Kept>, AllocError>
    ensures { IfOk result (λ answer. option_map kept answer ≡ items_known (flat_map opened cells.now)) }
{
    if let [cell] = cells {
        return kept_alone(cell);
    }
    // One piece for each cell, if that takes less memory than a list of all items.
    if count_of(cells) / ITEMS_OF_A_PIECE > cells.len() {
        Ok(pieces_of(alloc, cells)?.map(Kept::Pieces))
    } else {
        Ok(items_known(alloc, cells)?.map(Kept::Many))
    }
}
