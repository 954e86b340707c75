//! How the items of an expression are kept in memory.

ghost use Rattle.std.specs.Prelude.{◌≡◌, ◌≤◌, IfErr, IfOk, IfSome, length, take};
ghost use Rattle.std.specs.List.{flat_map};
ghost use Rattle.asm_parse.specs.Values.Kept.{items_in, kept};
ghost use Rattle.asm_parse.specs.declared.values.expr.TheConstants.{MOST_ITEMS};

use crate::Item;
use crate::values::atom::Atom;
use crate::values::expr::MOST_ITEMS;
use std::alloc::{AllocError, Global};
use std::rc::Rc;

/// A part of the items of an expression: one item, or all items of an EQU's expression, which all expressions that name it share.
#[derive(Debug, Drop)]
pub enum Piece {
    One([Item<Atom>; 1]),
    Shared(Rc<Vec<Item<Atom>>>),
}

/// The items of an expression. A single item is kept in place.
#[derive(Debug, Drop)]
pub enum Kept {
    One([Item<Atom>; 1]),
    /// A list that no other expression shares.
    Many(Vec<Item<Atom>>),
    /// The list of an EQU's expression.
    Shared(Rc<Vec<Item<Atom>>>),
    /// Pieces. Some are the shared lists of EQU names.
    Pieces(Vec<Piece>),
}

/// Room for the items of an expression that are not side by side in memory.
#[derive(Debug, Drop)]
pub struct Room {
    items: [Item<Atom>; MOST_ITEMS],
}

impl Piece {
    /// The items of a piece, in order.
    pub fn items(&self) -> &[Item<Atom>]
        ensures { result.now ≡ items_in self.now }
    {
        match self {
            Piece::One(alone) => alone,
            Piece::Shared(items) => items,
        }
    }
}

/// The items of some pieces, in order, as one new list.
fn joined(alloc: Global, pieces: &[Piece]) -> Result<Vec<Item<Atom>>, AllocError>
    ensures { IfOk result (λ items. items.items ≡ flat_map items_in pieces.now) }
{
    let mut items = Vec::with_capacity(alloc, MOST_ITEMS)?;
    for piece in pieces {
        items.extend_from_slice(piece.items())?;
    }
    Ok(items)
}

impl Kept {
    /// The items, in order, if they are side by side in memory; otherwise the pieces that they consist of.
    fn list_or_pieces(&self) -> Result<&[Item<Atom>], &[Piece]>
        ensures list { IfOk result (λ items. items.now ≡ kept self.now) }
        ensures pieces { IfErr result (λ pieces. flat_map items_in pieces.now ≡ kept self.now) }
    {
        match self {
            Kept::One(alone) => Ok(alone),
            Kept::Many(items) => Ok(items),
            Kept::Shared(items) => Ok(items),
            Kept::Pieces(pieces) => Err(pieces),
        }
    }

    /// The items, in order, if they are side by side in memory.
    pub(crate) fn side_by_side(&self) -> Option<&[Item<Atom>]>
        ensures { IfSome result (λ items. items.now ≡ kept self.now) }
    {
        self.list_or_pieces().ok()
    }

    /// The same items, kept so that other expressions can share them.
    pub(crate) fn into_shared(self, alloc: Global) -> Result<Kept, AllocError>
        ensures { IfOk result (λ shared. kept shared ≡ kept self) }
    {
        match self {
            Kept::Many(items) => Ok(Kept::Shared(Rc::new(alloc, items)?)),
            Kept::Pieces(pieces) => Ok(Kept::Shared(Rc::new(alloc, joined(alloc, &pieces)?)?)),
            other => Ok(other),
        }
    }
}

impl Room {
    /// A room into which nothing has been written yet.
    pub fn new() -> Room {
        Room {
            items: [Item::Leaf(Atom::Number(0)); MOST_ITEMS],
        }
    }
}

/// Writes the items of some pieces into the room, in order, and answers how many there are.
fn gather(pieces: &[Piece], room: &mut Room) -> usize
    requires { length (flat_map items_in pieces.now) ≤ MOST_ITEMS }
    ensures gathered { take result room.new.items ≡ flat_map items_in pieces.now }
    ensures fits { result ≤ MOST_ITEMS }
{
    let mut len = 0;
    for piece in pieces {
        let items = piece.items();
        room.items[len..len + items.len()].copy_from_slice(items);
        len += items.len();
    }
    len
}

/// The items, in order. If they are not side by side in memory, they are written into the room.
pub(crate) fn laid<'a>(items: &'a Kept, room: &'a mut Room) -> &'a [Item<Atom>]
    requires { length (kept items.now) ≤ MOST_ITEMS }
    ensures { result.now ≡ kept items.now }
{
    match items.list_or_pieces() {
        Ok(list) => list,
        Err(pieces) => {
            let len = gather(pieces, room);
            &room.items[..len]
        }
    }
}
