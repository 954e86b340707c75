//! Parses an expression from the bytes of its items in postfix order.

ghost use Rattle.std.specs.Prelude.{◌≡◌, ◌∷◌, [], IfOk, IfSome, Some};
ghost use Rattle.std.specs.Option.{option_map};
ghost use Rattle.asm_parse.specs.declared.item.Item.{Item};
ghost use Rattle.zmo_object.specs.Fields.Postfix.{expr_of, item_at, items_of, leaf_at, whole};

use crate::operator::operator_of;
use asm_parse::{Atom, Expr, Item, MOST_ITEMS};
use byteorder::{ByteOrder, LittleEndian};
use std::alloc::{AllocError, Global};

/// Answers the number of a leaf, and the bytes after it.
fn leaf(bytes: &[u8]) -> Option<(u16, &[u8])>
    ensures { option_map (λ x. (x.0, x.1.now)) result ≡ leaf_at bytes.now }
{
    if bytes.len() < 2 {
        return None;
    }
    let (front, rest) = bytes.split_at(2);
    Some((LittleEndian::read_u16(front), rest))
}

/// Answers the item at the front, and the bytes after it.
fn item(bytes: &[u8]) -> Option<(Item<Atom>, &[u8])>
    ensures { option_map (λ x. (x.0, x.1.now)) result ≡ item_at bytes.now }
{
    let [code, rest @ ..] = bytes else {
        return None;
    };
    if *code == 1 {
        let (number, rest) = leaf(rest)?;
        return Some((Item::Leaf(Atom::Number(number)), rest));
    }
    if *code == 2 {
        let (number, rest) = leaf(rest)?;
        return Some((Item::Leaf(Atom::Ref(number)), rest));
    }
    let op = operator_of(*code)?;
    Some((op, rest))
}

/// Answers the items if no bytes are left, otherwise None.
fn whole(items: Vec<Item<Atom>>, rest: &[u8]) -> Option<Vec<Item<Atom>>>
    ensures { option_map (λ found. found.items) result ≡ whole items.items rest.now }
{
    if rest.is_empty() { Some(items) } else { None }
}

/// Answers the items that the bytes are. Answers None if the bytes are not items, or are more items than an expression may have.
fn items_of(alloc: Global, bytes: &[u8]) -> Result<Option<Vec<Item<Atom>>>, AllocError>
    ensures { IfOk result (λ found. option_map (λ items. items.items) found ≡ items_of bytes.now) }
{
    // With binary operators only, there is one operator fewer than leaves, so an item takes about two bytes: a leaf three and an operator
    // one. If there are more items, the list grows.
    let mut items = Vec::with_capacity(alloc, bytes.len().div_ceil(2))?;
    let mut rest = bytes;
    for _ in 0..MOST_ITEMS {
        let Some((first, after)) = item(rest) else {
            return Ok(whole(items, rest));
        };
        items.push(first)?;
        rest = after;
    }
    Ok(whole(items, rest))
}

/// Answers the leaf if the bytes are exactly one leaf, as in most expressions of an object file. This needs no list of items.
fn leaf_alone(bytes: &[u8]) -> Option<Atom>
    ensures { IfSome result (λ atom. expr_of bytes.now ≡ Some (Item.Leaf atom ∷ [])) }
{
    match item(bytes) {
        Some((Item::Leaf(atom), [])) => Some(atom),
        _ => None,
    }
}

/// Answers the expression whose items in postfix order these bytes are, or None if they are not an expression.
pub fn expr_of(alloc: Global, bytes: &[u8]) -> Result<Option<Expr>, AllocError>
    ensures { IfOk result (λ found. found ≡ expr_of bytes.now) }
{
    if let Some(atom) = leaf_alone(bytes) {
        return Ok(Some(Expr::leaf(atom)));
    }
    match items_of(alloc, bytes)? {
        Some(items) => Ok(Expr::of(items)),
        None => Ok(None),
    }
}
