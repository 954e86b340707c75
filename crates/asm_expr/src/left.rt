//! Expressions that settling leaves as they are, such as those that were settled before.

ghost use Rattle.std.specs.Prelude.{◌≡◌, ◌∷◌, [], map, true};
ghost use Rattle.std.specs.List.{flat_map};
ghost use Rattle.asm_expr.specs.Settling.{known_item};
ghost use Rattle.asm_expr.specs.Private.Cells.{opened};
ghost use Rattle.asm_expr.specs.Private.Left.{IsLeft};

use crate::names::Names;
use crate::parts::{Cell, Parts};
use crate::reduction::take_expr;
use crate::sharing::item_known;
use asm_parse::{Atom, Expr, Item};

/// Whether a settled part is exactly this one item. It may answer false even if it is.
fn is_item(cell: &Cell<'_>, item: &Item<Atom>) -> bool
    ensures { result ≡ true → opened cell.now ≡ known_item item.now ∷ [] }
{
    match cell {
        Cell::Item(settled) => match item_known(settled) {
            Some(known) => known == *item,
            None => false,
        },
        Cell::List(_) => false,
    }
}

/// Whether the settled parts are exactly these items. It may answer false even if they are.
fn are_items(cells: &[Cell<'_>], items: &[Item<Atom>]) -> bool
    ensures { result ≡ true → flat_map opened cells.now ≡ map known_item items.now }
{
    if cells.len() != items.len() {
        return false;
    }
    let mut at = 0;
    while at < items.len() {
        if !is_item(&cells[at], &items[at]) {
            return false;
        }
        at += 1;
    }
    true
}

/// Whether settling leaves an expression as it is. It may answer false even if it does.
pub(crate) fn is_left(expr: &Expr, names: &Names) -> bool
    ensures { result ≡ true → IsLeft names.now expr.now }
{
    let Some(list) = expr.side_by_side() else {
        return false;
    };
    let mut out = Parts::new();
    match take_expr(&mut out, expr, names) {
        Ok(()) => are_items(out.cells(), list),
        Err(_) => false,
    }
}
