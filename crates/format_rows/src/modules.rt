//! Prints a module in words.

use crate::parts::Parts;
use asm_parse::{Atom, Item, Room, items};
use row_text::Row;
use zmo_object::{Hole, Label, Module, Statement};

/// Prints a number, the number of a statement or an external, or an operator.
fn show_item(part: &mut Row, item: &Item<Atom>) {
    match item {
        Item::Leaf(Atom::Number(n)) => write!(part, " {n}"),
        Item::Leaf(Atom::Ref(r)) => write!(part, " #{r}"),
        Item::Unary(operator) => write!(part, " {operator:?}"),
        Item::Binary(operator) => write!(part, " {operator:?}"),
    }
}

/// Prints the offset and the width of a fix-up, and the items of its expression in postfix order.
fn show_hole(part: &mut Row, hole: &Hole) {
    write!(part, " ({} {:?}", hole.offset, hole.width);
    for item in items(&hole.value, &mut Room::new()) {
        show_item(part, item);
    }
    write!(part, ")")
}

fn show_digits(part: &mut Row, bytes: &[u8]) {
    write!(part, "bytes ");
    for byte in bytes {
        write!(part, "{byte:02X}");
    }
}

fn show_bytes(part: &mut Row, bytes: &[u8], holes: &[Hole]) {
    show_digits(part, bytes);
    for hole in holes {
        show_hole(part, hole);
    }
}

fn show_statement(part: &mut Row, statement: &Statement) {
    match statement {
        Statement::Bytes { bytes, holes } => show_bytes(part, bytes, holes),
        Statement::Jump {
            marked,
            condition,
            target,
        } => {
            let mark = if *marked { "marked jump" } else { "jump" };
            write!(part, "{mark} {condition:?} to {target}")
        }
        Statement::Short { branch, target } => write!(part, "short {branch:?} to {target}"),
        Statement::Space { size, fill } => write!(part, "space {size} of {fill:02X}"),
    }
}

/// Prints the first four bytes and the name of an object file, whether it has `ORG 0100H`, and the label of its entry.
fn add_head(row: &mut Row, parts: &mut Parts, module: &Module) {
    let mut part = Row::new(row.alloc(), "");
    let magic = if module.grow { "ZMO2" } else { "ZMO1" };
    write!(part, "{magic} <");
    part.write_text(&module.name);
    write!(part, ">");
    if module.begins {
        write!(part, " begins");
    }
    if let Some(entry) = module.entry {
        write!(part, " entry {entry}");
    }
    parts.add(row, &part)
}

fn add_statements(row: &mut Row, parts: &mut Parts, statements: &[Statement]) {
    for statement in statements {
        let mut part = Row::new(row.alloc(), "");
        show_statement(&mut part, statement);
        parts.add(row, &part);
    }
}

fn add_labels(row: &mut Row, parts: &mut Parts, labels: &[Label]) {
    for label in labels {
        let mut part = Row::new(row.alloc(), "");
        write!(part, "label ");
        part.write_text(&label.name);
        write!(part, " at {}", label.statement);
        parts.add(row, &part);
    }
}

fn add_publics(row: &mut Row, parts: &mut Parts, publics: &[u16]) {
    for number in publics {
        let mut part = Row::new(row.alloc(), "");
        write!(part, "public {number}");
        parts.add(row, &part);
    }
}

fn add_externals(row: &mut Row, parts: &mut Parts, externals: &[Vec<u8>]) {
    for name in externals {
        let mut part = Row::new(row.alloc(), "");
        write!(part, "external ");
        part.write_text(name);
        parts.add(row, &part);
    }
}

/// Prints everything that a module has.
pub(crate) fn show_module(row: &mut Row, module: &Module) {
    let mut parts = Parts::new(row.alloc());
    add_head(row, &mut parts, module);
    add_statements(row, &mut parts, &module.statements);
    add_labels(row, &mut parts, &module.labels);
    add_publics(row, &mut parts, &module.publics);
    add_externals(row, &mut parts, &module.externals);
    parts.show(row)
}
