//! Rows about statements whose names are known: their bytes, and how many there are.

use crate::scanning::tokens_of;
use crate::tables::define;
use asm_expr::{Atom, Item, Names, Room, Statement, Tree, equate, is_defined, items};
use asm_spell::{Line, statement};
use asm_stmt::{Body, Hole, Made, Piece, are_defined, settle, size_of};
use row_text::Row;

fn show_item(row: &mut Row, item: &Item<Atom>) {
    match item {
        Item::Leaf(Atom::Number(n)) => write!(row, " {n}"),
        Item::Leaf(Atom::Ref(r)) => write!(row, " #{r}"),
        Item::Unary(operator) => write!(row, " {operator:?}"),
        Item::Binary(operator) => write!(row, " {operator:?}"),
    }
}

/// Prints the offset and width of a fix-up, and the items of its expression in postfix order.
fn show_hole(row: &mut Row, hole: &Hole) {
    write!(row, "; {} {:?}", hole.offset, hole.width);
    for item in items(&hole.value, &mut Room::new()) {
        show_item(row, item);
    }
}

fn show_holes(row: &mut Row, holes: &[Hole]) {
    for hole in holes {
        show_hole(row, hole);
    }
}

fn show_bytes(row: &mut Row, bytes: &[u8]) {
    for byte in bytes {
        write!(row, " {byte:02X}");
    }
}

fn show_piece(row: &mut Row, piece: &Piece) {
    match piece {
        Piece::Bytes { bytes, holes } => {
            show_bytes(row, bytes);
            show_holes(row, holes)
        }
        Piece::Jump { condition, target } => write!(row, " jump {condition:?} #{target}"),
        Piece::Short { branch, target } => write!(row, " short {branch:?} #{target}"),
        Piece::Space { size, fill } => write!(row, " space {size} of {fill}"),
    }
}

fn show_made(row: &mut Row, made: &Made) {
    match made {
        Made::Nothing => write!(row, " nothing"),
        Made::Piece(piece) => show_piece(row, piece),
        Made::Unknown => write!(row, " unknown"),
    }
}

fn show_size(row: &mut Row, size: Option<Statement>) {
    match size {
        None => write!(row, " nothing"),
        Some(Statement::Sized(size)) => write!(row, " {size} bytes"),
        Some(Statement::Relaxable) => write!(row, " 2 or 3 bytes"),
        Some(Statement::Unsized) => write!(row, " unsized"),
    }
}

/// Prints the bytes and fix-ups of a statement.
fn answer_made(row: &mut Row, body: &Body, names: &Names) {
    if !are_defined(body, names) {
        return write!(row, " Undefined");
    }
    match settle(row.alloc(), body, names) {
        Ok(made) => show_made(row, &made),
        Err(fault) => write!(row, " {fault:?}"),
    }
}

/// Prints how many bytes a statement takes.
fn answer_body_size(row: &mut Row, body: &Body, names: &Names) {
    if !are_defined(body, names) {
        return write!(row, " Undefined");
    }
    match size_of(row.alloc(), body, names) {
        Ok(size) => show_size(row, size),
        Err(_) => row.refuse("no memory"),
    }
}

pub(crate) fn answer_size(row: &mut Row, names: &Names) {
    let line = row.bytes();
    let found = tokens_of(row, &line);
    match statement(row.alloc(), &found) {
        Ok(Line::Equ { name: _, value: _ }) => (),
        Ok(Line::Statement { label: _, body }) => match body {
            Some(body) => answer_body_size(row, &body, names),
            None => (),
        },
        Err(fault) => write!(row, " {fault:?}"),
    }
}

/// Defines a name by EQU, or prints why it has no value.
fn answer_equ(row: &mut Row, name: &[u8], value: &Tree, names: &mut Names) {
    if !is_defined(value, names) {
        return write!(row, " Undefined");
    }
    match equate(row.alloc(), value, names) {
        Ok(meaning) => {
            define(row, names, name, meaning);
            write!(row, " equal")
        }
        Err(_) => row.refuse("no value"),
    }
}

pub(crate) fn answer_piece(row: &mut Row, names: &mut Names) {
    let line = row.bytes();
    let found = tokens_of(row, &line);
    match statement(row.alloc(), &found) {
        Ok(Line::Equ { name, value }) => answer_equ(row, &name, &value, names),
        Ok(Line::Statement { label: _, body }) => match body {
            Some(body) => answer_made(row, &body, names),
            None => write!(row, " empty"),
        },
        Err(fault) => write!(row, " {fault:?}"),
    }
}
