//! Items that are being settled, kept on the stack.

ghost use Rattle.std.specs.Prelude.{◌≡◌, ◌<◌, ◌≤◌, ◌+◌, ◌-◌, ◌++◌, ◌∷◌, [], length, map, take};
ghost use Rattle.std.specs.List.{flat_map};
ghost use Rattle.std.proofs.Common.{get_or};
ghost use Rattle.asm_expr.specs.Settling.{known_item};
ghost use Rattle.asm_expr.specs.Private.Cells.{EndsInLeaf, IsOperation, IsSound, opened};

use crate::part::Part;
use asm_parse::{Atom, Item, MOST_ITEMS};
use std::marker::Model;
use std::rc::Rc;

/// Some items that are being settled: one item, or all items of an expression that settling leaves as it is.
#[derive(Clone, Copy)]
pub(crate) enum Cell<'a> {
    Item(Item<Part>),
    List(&'a Rc<Vec<Item<Atom>>>),
}

/// Items that are being settled, at most as many as an expression may have. They are kept on the stack and take no other memory. An
/// expression that settling leaves as it is takes one cell, whatever its length. Clauses see the list of all items.
#[derive(Drop)]
pub(crate) struct Parts<'a> {
    cells: [Cell<'a>; MOST_ITEMS],
    len: usize,
}

impl<'a> Model for Parts<'a> {
    ghost use Rattle.std.specs.Prelude.{◌≡◌, ◌≤◌, List, All, length, take};
    ghost use Rattle.std.specs.List.{flat_map};
    ghost use Rattle.asm_parse.specs.declared.item.Item.{Item};
    ghost use Rattle.asm_expr.specs.declared.part.Part.{Part};
    ghost use Rattle.asm_parse.specs.declared.values.expr.TheConstants.{MOST_ITEMS};
    ghost use Rattle.asm_expr.specs.Private.Cells.{IsSound, opened};

    ghost Value = { List (Item Part) };

    ghost view = { λ p. flat_map opened (take p.len p.cells) };

    ghost invariant = { λ p. (p.len ≤ MOST_ITEMS) × (length p.cells ≡ MOST_ITEMS) × All IsSound (take p.len p.cells) };
}

/// An item of an object file, as an item that is being settled.
pub(crate) fn known_item(item: Item<Atom>) -> Item<Part>
    ensures { result ≡ known_item item }
{
    match item {
        Item::Leaf(Atom::Number(n)) => Item::Leaf(Part::Number(n)),
        Item::Leaf(Atom::Ref(r)) => Item::Leaf(Part::Ref(r)),
        Item::Unary(op) => Item::Unary(op),
        Item::Binary(op) => Item::Binary(op),
    }
}

/// The last item of a cell.
fn last_of(cell: &Cell<'_>) -> Item<Part>
    requires { IsSound cell.now }
    ensures { result ≡ get_or (opened cell.now) (length (opened cell.now) - 1) result }
{
    match cell {
        Cell::Item(item) => *item,
        Cell::List(list) => known_item(list[list.len() - 1]),
    }
}

impl<'a> Parts<'a> {
    /// No items.
    pub(crate) fn new() -> Parts<'a>
        ensures { result ≡ [] }
    {
        Parts {
            cells: [Cell::Item(Item::Leaf(Part::Number(0))); MOST_ITEMS],
            len: 0,
        }
    }

    /// Appends an item.
    pub(crate) fn push(&mut self, item: Item<Part>)
        requires { length self.old < MOST_ITEMS }
        ensures { self.new ≡ self.old ++ item ∷ [] }
    {
        let at = self.len;
        let cells = &mut self.cells[..];
        cells[at] = Cell::Item(item);
        self.len += 1;
    }

    /// Appends all items of an expression.
    pub(crate) fn push_list(&mut self, list: &'a Rc<Vec<Item<Atom>>>)
        requires room { length self.old < MOST_ITEMS }
        requires operation { IsOperation list.now.value.items }
        ensures { self.new ≡ self.old ++ map known_item list.now.value.items }
    {
        let at = self.len;
        let cells = &mut self.cells[..];
        cells[at] = Cell::List(list);
        self.len += 1;
    }

    /// Replaces the last item, which is a leaf, by this leaf.
    pub(crate) fn replace_last(&mut self, part: Part)
        requires some { 1 ≤ length self.old }
        requires leaf { EndsInLeaf self.old }
        ensures { self.new ≡ take (length self.old - 1) self.old ++ Item.Leaf part ∷ [] }
    {
        let at = self.len - 1;
        let cells = &mut self.cells[..];
        cells[at] = Cell::Item(Item::Leaf(part));
    }

    /// Replaces the last two items, which are leaves, by this leaf.
    pub(crate) fn replace_two(&mut self, part: Part)
        requires some { 2 ≤ length self.old }
        requires right { EndsInLeaf self.old }
        requires left { EndsInLeaf (take (length self.old - 1) self.old) }
        ensures { self.new ≡ take (length self.old - 2) self.old ++ Item.Leaf part ∷ [] }
    {
        self.len -= 1;
        let at = self.len - 1;
        let cells = &mut self.cells[..];
        cells[at] = Cell::Item(Item::Leaf(part));
    }

    /// The last item.
    pub(crate) fn last(&self) -> Item<Part>
        requires { 1 ≤ length self.now }
        ensures { result ≡ get_or self.now (length self.now - 1) result }
    {
        let cells = &self.cells[..];
        last_of(&cells[self.len - 1])
    }

    /// The item before the last one, if the last one is a leaf. If it is not, the answer has no meaning.
    pub(crate) fn before_last(&self) -> Item<Part>
        requires { 2 ≤ length self.now }
        ensures { EndsInLeaf self.now → result ≡ get_or self.now (length self.now - 2) result }
    {
        if self.len < 2 {
            return Item::Leaf(Part::Number(0));
        }
        let cells = &self.cells[..];
        last_of(&cells[self.len - 2])
    }

    /// The cells of all items, in order.
    pub(crate) fn cells(&self) -> &[Cell<'a>]
        ensures { flat_map opened result.now ≡ self.now }
    {
        &self.cells[..self.len]
    }
}
