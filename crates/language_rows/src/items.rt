//! Rows about lists of items, which may make an expression or not.

use asm_expr::{Atom, Binary, Expr, Item, Room, Unary, constant, items};
use row_text::Row;
use std::alloc::{AllocError, Global};

/// The item that a byte stands for: a number, a ref as a letter, or an operator.
fn item_of(byte: u8) -> Item<Atom> {
    match byte {
        b'0'..=b'9' => Item::Leaf(Atom::Number(u16::from(byte % 16))),
        b'_' => Item::Unary(Unary::Negate),
        b'!' => Item::Unary(Unary::Not),
        b'+' => Item::Binary(Binary::Add),
        b'-' => Item::Binary(Binary::Subtract),
        b'/' => Item::Binary(Binary::Divide),
        b'%' => Item::Binary(Binary::Modulo),
        b'<' => Item::Binary(Binary::ShiftLeft),
        _ => Item::Leaf(Atom::Ref(u16::from(byte % 16))),
    }
}

/// The items that the bytes of a text stand for.
fn items_of(alloc: Global, text: &[u8]) -> Result<Vec<Item<Atom>>, AllocError> {
    let mut list = Vec::new(alloc);
    for byte in text {
        list.push(item_of(*byte))?;
    }
    Ok(list)
}

/// Prints the items of the expression that a list makes, and its number if it is fixed.
pub(crate) fn answer_items(row: &mut Row, text: &[u8]) {
    let Ok(list) = items_of(row.alloc(), text) else {
        return row.refuse("no memory");
    };
    match Expr::of(list) {
        Some(expr) => write!(
            row,
            "{:?}, {:?}",
            items(&expr, &mut Room::new()),
            constant(&expr)
        ),
        None => write!(row, "no expression"),
    }
}
