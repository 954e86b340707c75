//! The fix-ups of a statement.

ghost use Rattle.std.specs.Prelude.{◌≡◌};
ghost use Rattle.zmo_object.specs.Holes.{ends_in_byte};

use asm_parse::{Atom, Expr, Item, Room, Unary, items};

/// How many bytes a field takes.
#[derive(Clone, Copy, Debug, PartialEq, Eq)]
pub enum Width {
    Byte,
    /// Two bytes, the low one first.
    Word,
}

/// A fix-up: a field of a statement whose value depends on addresses.
#[derive(Debug, Drop)]
pub struct Hole {
    /// How many bytes of the statement come before it.
    pub offset: usize,
    pub width: Width,
    pub value: Expr,
}

/// Whether the last item is HIGH or LOW.
fn end_in_byte(items: &[Item<Atom>]) -> bool
    ensures { result ≡ ends_in_byte items.now }
{
    matches!(items.last(), Some(Item::Unary(Unary::High | Unary::Low)))
}

/// Answers the same for an expression whose items are not one slice in memory. Such expressions are rare, and clearing the room for their
/// items takes time, so this is a function of its own, which is not inlined.
#[inline(never)]
fn ends_in_byte_gathered(expr: &Expr) -> bool
    ensures { result ≡ ends_in_byte expr.now }
{
    end_in_byte(items(expr, &mut Room::new()))
}

/// Whether the outermost operator is HIGH or LOW, as it has to be if the value of a byte depends on addresses.
pub fn ends_in_byte(expr: &Expr) -> bool
    ensures { result ≡ ends_in_byte expr.now }
{
    match expr.side_by_side() {
        Some(list) => end_in_byte(list),
        None => ends_in_byte_gathered(expr),
    }
}
