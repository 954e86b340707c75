//! Rows about expressions.

use crate::tables::{define_equ, table, tree_of};
use asm_expr::{
    Expr, ExprFault, Names, Room, Settled, constant, has_places, is_constant, is_defined, items,
    offset_from_here, parse, settle, value,
};
use asm_line::tokens;
use row_text::Row;
use std::alloc::Global;

/// Parses and settles an expression. None if it has no tokens, or a name in it stands for nothing.
fn made(alloc: Global, text: &[u8], names: &Names) -> Option<Result<Settled, ExprFault>> {
    match parse(alloc, &tokens(alloc, text).ok()?) {
        Ok(tree) => {
            if is_defined(&tree, names) {
                Some(settle(alloc, &tree, names))
            } else {
                None
            }
        }
        Err(fault) => Some(Err(fault)),
    }
}

/// The expression that a text is settled as.
fn expr_of(alloc: Global, text: &[u8], names: &Names) -> Option<Expr> {
    match made(alloc, text, names) {
        Some(Ok(Settled::Known(expr))) => Some(expr),
        _ => None,
    }
}

/// Prints the number of a fixed expression, or how many items another expression has.
fn show_expr(row: &mut Row, expr: &Expr) {
    match constant(expr) {
        Some(number) => write!(row, "{number:04X}H"),
        None => write!(row, "{} items", items(expr, &mut Room::new()).len()),
    }
}

pub(crate) fn answer_made(row: &mut Row, text: &[u8], names: &Names) {
    match made(row.alloc(), text, names) {
        Some(Ok(Settled::Known(expr))) => show_expr(row, &expr),
        Some(Ok(Settled::Unknown(what))) => write!(row, "unknown, {what:?}"),
        Some(Err(fault)) => write!(row, "{fault:?}"),
        None => row.refuse("a name that stands for nothing"),
    }
}

/// Prints how an expression is kept in memory.
pub(crate) fn answer_kept(row: &mut Row, text: &[u8], names: &Names) {
    match expr_of(row.alloc(), text, names) {
        Some(expr) => write!(row, "{expr:?}"),
        None => row.refuse("no expression where one was wanted"),
    }
}

/// Prints the value of an expression, with the statements at five given addresses.
pub(crate) fn answer_value(row: &mut Row, text: &[u8], names: &Names) {
    let places = [0x0100, 0x0103, 0x0107, 0x010A, 0x010B];
    let Some(expr) = expr_of(row.alloc(), text, names) else {
        return row.refuse("no expression where one was wanted");
    };
    if has_places(&expr, places.len()) {
        write!(row, "{:04X}H", value(&expr, &places))
    } else {
        row.refuse("a ref of no statement")
    }
}

/// Prints how far the target of a short jump's operand is from `$`.
pub(crate) fn answer_offset(row: &mut Row, text: &[u8], names: &Names) {
    let Some(tree) = tree_of(row.alloc(), text) else {
        return row.refuse("no operand");
    };
    if !is_defined(&tree, names) {
        return row.refuse("a name that stands for nothing");
    }
    match offset_from_here(row.alloc(), &tree, names) {
        Ok(offset) => write!(row, "{offset:?}"),
        Err(fault) => write!(row, "{fault:?}"),
    }
}

/// Prints whether an expression is constant.
pub(crate) fn answer_constant(row: &mut Row, text: &[u8], names: &Names) {
    match tree_of(row.alloc(), text) {
        Some(tree) => write!(row, "{}", is_constant(&tree, names)),
        None => row.refuse("no expression"),
    }
}

/// Prints whether the name K is constant, once EQU has defined it by this expression, beside the names of a table.
pub(crate) fn answer_equ(row: &mut Row, text: &[u8], number: u32) {
    let mut names = table(row, number);
    define_equ(row, &mut names, b"K", text);
    answer_constant(row, b"K", &names)
}

/// Prints how far one statement is from another.
pub(crate) fn answer_distance(row: &mut Row, names: &Names) {
    let from = row.short();
    let to = row.short();
    write!(row, " {:?}", names.distance(to, from))
}
