//! Expressions whose names are replaced, as lists of postfix items, and their values.

ghost use Rattle.std.specs.Prelude.{◌≡◌, ◌<◌, ◌≤◌, ◌+◌, ◌∷◌, List, Some, length, IfOk, IfSome, MatchOption, All, IsTrue, ◌↔◌, slice_index, []};
ghost use Rattle.std.specs.List.{list_all, list_any};
ghost use Rattle.std.specs.Option.{option_map};
ghost use Rattle.asm_parse.specs.declared.values.atom.Atom.{Atom};
ghost use Rattle.asm_parse.specs.declared.item.Item.{Item};
ghost use Rattle.asm_parse.specs.Expression.{Expression};
ghost use Rattle.asm_parse.specs.Values.Postfix.{put, run, tree};
ghost use Rattle.asm_parse.specs.Values.Kept.{kept};
ghost use Rattle.asm_parse.specs.Values.Items.{IsConstant, IsExpr, is_division, is_divisor, is_guarded, is_ref, is_within, refs, refs_in, value};
ghost use Rattle.asm_parse.specs.Private.Steps.{Stacked, arity, is_expr};

use crate::Item;
use crate::values::arithmetic::{apply_binary, apply_unary};
use crate::values::atom::Atom;
use crate::values::kept::{Kept, Room, laid};
use std::alloc::{AllocError, Global};
use std::marker::Model;
use std::rc::Rc;

/// The most items that an expression may have.
pub const MOST_ITEMS: usize = 64;

/// An expression whose names are replaced: at most 64 items in postfix order. They leave one value, and a division comes only
/// directly after a number that is not 0.
#[derive(Debug, Drop)]
pub struct Expr {
    items: Kept,
}

impl Model for Expr {
    ghost use Rattle.std.specs.Prelude.{List};
    ghost use Rattle.asm_parse.specs.declared.item.Item.{Item};
    ghost use Rattle.asm_parse.specs.declared.values.atom.Atom.{Atom};

    ghost Value = { List (Item Atom) };

    ghost use Rattle.asm_parse.specs.Values.Kept.{kept};
    ghost use Rattle.asm_parse.specs.Values.Items.{IsExpr};

    ghost view = { λ e. kept e.items };

    ghost invariant = { λ e. IsExpr (kept e.items) };
}

/// How many values the items leave; None if an operator lacks an operand.
pub fn values_left<L>(items: &[Item<L>]) -> Option<usize>
    ensures { result ≡ option_map length (run items.now []) }
{
    let mut left = 0;
    for item in items {
        match item {
            Item::Leaf(_) => left += 1,
            Item::Unary(_) => {
                if left < 1 {
                    return None;
                }
            }
            Item::Binary(_) => {
                if left < 2 {
                    return None;
                }
                left -= 1;
            }
        }
    }
    Some(left)
}

fn is_division(item: &Item<Atom>) -> bool
    ensures { result ≡ is_division item.now }
{
    match item {
        Item::Binary(op) => op.divides(),
        _ => false,
    }
}

/// Whether the item is a number other than 0.
fn is_divisor(item: &Item<Atom>) -> bool
    ensures { result ≡ is_divisor item.now }
{
    match item {
        Item::Leaf(Atom::Number(n)) => *n != 0,
        _ => false,
    }
}

/// Whether each division comes directly after a number other than 0.
fn is_guarded(items: &[Item<Atom>]) -> bool
    ensures { result ≡ is_guarded items.now }
{
    let [first, rest @ ..] = items else {
        return true;
    };
    let mut before = *first;
    for item in rest {
        if is_division(item) && !is_divisor(&before) {
            return false;
        }
        before = *item;
    }
    true
}

/// Whether the items make an expression.
fn is_expr(items: &[Item<Atom>]) -> bool
    ensures { result ≡ is_expr items.now }
{
    items.len() <= MOST_ITEMS && values_left(items) == Some(1) && is_guarded(items)
}

impl Expr {
    /// The expression of items that are known to make one, kept as they are. [`Expr::of`] tests whether a list makes one.
    pub fn known(items: Kept) -> Expr
        requires { IsExpr (kept items) }
        ensures { result ≡ kept items }
    {
        Expr { items }
    }

    /// The expression of one leaf.
    pub fn leaf(atom: Atom) -> Expr
        ensures { result ≡ Item.Leaf atom ∷ [] }
    {
        Expr {
            items: Kept::One([Item::Leaf(atom)]),
        }
    }

    /// The expression of these items; None if they make none.
    pub fn of(items: Vec<Item<Atom>>) -> Option<Expr>
        ensures { MatchOption result (IsExpr items.items → ⊥) (λ expr. (expr ≡ items.items) × IsExpr items.items) }
    {
        if is_expr(&items) {
            Some(Expr {
                items: Kept::Many(items),
            })
        } else {
            None
        }
    }

    /// The items in postfix order, if they are side by side in memory, as those of most expressions are.
    pub fn side_by_side(&self) -> Option<&[Item<Atom>]>
        ensures { IfSome result (λ items. (items.now ≡ self.now) × IsExpr self.now) }
    {
        self.items.side_by_side()
    }

    /// The same expression, with its items kept so that other expressions can share them.
    pub fn into_shared(self, alloc: Global) -> Result<Expr, AllocError>
        ensures { IfOk result (λ shared. shared ≡ self) }
    {
        let Expr { items } = self;
        Ok(Expr {
            items: items.into_shared(alloc)?,
        })
    }

    /// The same expression once more, if that copies no list: if it has one item, or its items are kept so that others can share
    /// them. None otherwise.
    ///
    /// # Errors
    ///
    /// `AllocError` if the items already have as many owners as a list can have.
    pub fn again(&self) -> Result<Option<Expr>, AllocError>
        ensures { IfOk result (λ answer. IfSome answer (λ expr. expr ≡ self.now)) }
    {
        match &self.items {
            Kept::One(alone) => Ok(Some(Expr {
                items: Kept::One(*alone),
            })),
            Kept::Shared(items) => Ok(Some(Expr {
                items: Kept::Shared(Rc::clone(items)?),
            })),
            _ => Ok(None),
        }
    }

    /// The items in postfix order, if they are kept so that other expressions can share them; None otherwise.
    pub fn shared(&self) -> Option<&Rc<Vec<Item<Atom>>>>
        ensures { IfSome result (λ items. items.now.value.items ≡ self.now) }
    {
        match &self.items {
            Kept::Shared(items) => Some(items),
            _ => None,
        }
    }
}

/// The items in postfix order. If they are not side by side in memory, they are written into the room.
pub fn items<'a>(expr: &'a Expr, room: &'a mut Room) -> &'a [Item<Atom>]
    ensures items { result.now ≡ expr.now }
    ensures expr { IsExpr expr.now }
{
    laid(&expr.items, room)
}

/// Evaluates one more item. The first `len` numbers of the stack are in use before, and as many as the answer says are in use
/// after.
fn take_item(stack: &mut [u16], len: usize, item: Item<Atom>, places: &[u16]) -> usize
    requires room { len < length stack.old }
    requires operands { arity item ≤ len }
    requires placed { All (λ r. r < length places.now) (refs_in item) }
    ensures few { result ≤ len + 1 }
    ensures values { (values now : List (Expression Atom)) → Stacked (λ r. slice_index places.now r) values stack.old len →
        put item values ≡ Some now → Stacked (λ r. slice_index places.now r) now stack.new result }
{
    match item {
        Item::Leaf(Atom::Number(n)) => {
            stack[len] = n;
            len + 1
        }
        Item::Leaf(Atom::Ref(r)) => {
            stack[len] = places[usize::from(r)];
            len + 1
        }
        Item::Unary(op) => {
            stack[len - 1] = apply_unary(op, stack[len - 1]);
            len
        }
        Item::Binary(op) => {
            stack[len - 2] = apply_binary(op, stack[len - 2], stack[len - 1]);
            len - 1
        }
    }
}

/// The value of some items, modulo 65,536, with the address of each ref in `places`.
fn value_of(items: &[Item<Atom>], places: &[u16]) -> u16
    requires expr { IsExpr items.now }
    requires placed { All (λ r. r < length places.now) (refs items.now) }
    ensures { result ≡ value (λ r. slice_index places.now r) (tree items.now) }
{
    let mut stack = [0; MOST_ITEMS];
    let mut len = 0;
    for item in items {
        len = take_item(&mut stack, len, *item, places);
    }
    stack[0]
}

/// The value of an expression whose items are not side by side in memory, with the address of each ref in `places`. Few expressions
/// are like that, and only they need the time to make room for the items.
#[inline(never)]
fn value_gathered(expr: &Expr, places: &[u16]) -> u16
    requires { All (λ r. r < length places.now) (refs expr.now) }
    ensures { result ≡ value (λ r. slice_index places.now r) (tree expr.now) }
{
    value_of(items(expr, &mut Room::new()), places)
}

/// The value of an expression, modulo 65,536, with the address of each ref in `places`.
pub fn value(expr: &Expr, places: &[u16]) -> u16
    requires { All (λ r. r < length places.now) (refs expr.now) }
    ensures { result ≡ value (λ r. slice_index places.now r) (tree expr.now) }
{
    match expr.side_by_side() {
        Some(list) => value_of(list, places),
        None => value_gathered(expr, places),
    }
}

fn is_within(item: &Item<Atom>, count: usize) -> bool
    ensures { result ≡ is_within count item.now }
{
    match item {
        Item::Leaf(Atom::Ref(r)) => usize::from(*r) < count,
        _ => true,
    }
}

/// Whether all refs in these items are less than `count`.
fn are_within(items: &[Item<Atom>], count: usize) -> bool
    ensures { result ≡ list_all (is_within count) items.now }
{
    items.iter().all(|item| is_within(item, count))
}

/// Whether all refs are less than `count`, in an expression whose items are not side by side in memory.
#[inline(never)]
fn are_within_gathered(expr: &Expr, count: usize) -> bool
    ensures { result ≡ list_all (is_within count) expr.now }
{
    are_within(items(expr, &mut Room::new()), count)
}

/// Whether each ref of an expression is less than `count`, so that `count` addresses are enough.
pub fn has_places(expr: &Expr, count: usize) -> bool
    ensures { IsTrue result ↔ All (λ r. r < count) (refs expr.now) }
{
    match expr.side_by_side() {
        Some(list) => are_within(list, count),
        None => are_within_gathered(expr, count),
    }
}

fn is_ref(item: &Item<Atom>) -> bool
    ensures { result ≡ is_ref item.now }
{
    matches!(item, Item::Leaf(Atom::Ref(_)))
}

fn has_ref(items: &[Item<Atom>]) -> bool
    ensures { result ≡ list_any is_ref items.now }
{
    items.iter().any(is_ref)
}

/// The value of an expression without refs, which is the same at any addresses; None if it has a ref.
pub fn constant(expr: &Expr) -> Option<u16>
    ensures { IsConstant expr.now result }
{
    if has_ref(items(expr, &mut Room::new())) {
        None
    } else {
        Some(value(expr, &[]))
    }
}
