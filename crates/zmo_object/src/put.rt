//! Appends fields to the bytes of an object file.

ghost use Rattle.std.specs.Prelude.{◌≡◌, ◌≤◌, ◌++◌, ◌∷◌, [], OnOk, length};
ghost use Rattle.asm_parse.specs.declared.values.expr.TheConstants.{MOST_ITEMS};
ghost use Rattle.zmo_object.specs.Fields.Texts.{word_bytes, with_length, item_text, expr_text};

use crate::operator::{binary_code, unary_code};
use asm_parse::{Atom, Expr, Item, MOST_ITEMS, Room, items};
use byteorder::{ByteOrder, LittleEndian};
use std::alloc::AllocError;

/// Appends a byte.
pub fn put_byte(text: &mut Vec<u8>, byte: u8) -> Result<(), AllocError>
    ensures { OnOk result (text.new.items ≡ text.old.items ++ byte ∷ []) }
{
    text.push(byte)?;
    Ok(())
}

/// Appends a number as two bytes, the low one first.
pub fn put_word(text: &mut Vec<u8>, number: u16) -> Result<(), AllocError>
    ensures { OnOk result (text.new.items ≡ text.old.items ++ word_bytes number) }
{
    let mut bytes = [0; 2];
    LittleEndian::write_u16(&mut bytes, number);
    text.extend_from_slice(&bytes)?;
    Ok(())
}

/// Appends the length in one byte, and then the bytes.
pub fn put_counted(text: &mut Vec<u8>, bytes: &[u8]) -> Result<(), AllocError>
    requires { length bytes.now ≤ 255 }
    ensures { OnOk result (text.new.items ≡ text.old.items ++ with_length bytes.now) }
{
    text.push(bytes.len() as u8)?;
    text.extend_from_slice(bytes)?;
    Ok(())
}

fn put_item(text: &mut Vec<u8>, item: &Item<Atom>) -> Result<(), AllocError>
    ensures { OnOk result (text.new.items ≡ text.old.items ++ item_text item.now) }
{
    match item {
        Item::Leaf(Atom::Number(number)) => {
            put_byte(text, 1)?;
            put_word(text, *number)
        }
        Item::Leaf(Atom::Ref(number)) => {
            put_byte(text, 2)?;
            put_word(text, *number)
        }
        Item::Unary(op) => put_byte(text, unary_code(*op)),
        Item::Binary(op) => put_byte(text, binary_code(*op)),
    }
}

/// Answers how many bytes an item takes.
fn item_len(item: &Item<Atom>) -> usize
    ensures len { result ≡ length (item_text item.now) }
    ensures few { result ≤ 3 }
{
    match item {
        Item::Leaf(_) => 3,
        Item::Unary(_) | Item::Binary(_) => 1,
    }
}

/// Answers how many bytes the items take.
fn items_len(items: &[Item<Atom>]) -> usize
    requires { length items.now ≤ MOST_ITEMS }
    ensures len { result ≡ length (expr_text items.now) }
    ensures few { result ≤ 255 }
{
    let mut len = 0;
    for item in items {
        len += item_len(item);
    }
    len
}

/// Appends the length of the items in one byte, and then the items.
fn put_items(text: &mut Vec<u8>, items: &[Item<Atom>]) -> Result<(), AllocError>
    requires { length items.now ≤ MOST_ITEMS }
    ensures { OnOk result (text.new.items ≡ text.old.items ++ with_length (expr_text items.now)) }
{
    put_byte(text, items_len(items) as u8)?;
    for item in items {
        put_item(text, item)?;
    }
    Ok(())
}

/// Appends an expression whose items are not one slice in memory. Such expressions are rare, and clearing the room for their items takes
/// time, so this is a function of its own, which is not inlined.
#[inline(never)]
fn put_gathered(text: &mut Vec<u8>, expr: &Expr) -> Result<(), AllocError>
    ensures { OnOk result (text.new.items ≡ text.old.items ++ with_length (expr_text expr.now)) }
{
    put_items(text, items(expr, &mut Room::new()))
}

/// Appends an expression: the length of its items in one byte, and then its items.
pub fn put_expr(text: &mut Vec<u8>, expr: &Expr) -> Result<(), AllocError>
    ensures { OnOk result (text.new.items ≡ text.old.items ++ with_length (expr_text expr.now)) }
{
    match expr.side_by_side() {
        Some(list) => put_items(text, list),
        None => put_gathered(text, expr),
    }
}
