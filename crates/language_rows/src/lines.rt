//! Rows about parsed lines.

use asm_line::{Token, tokens};
use asm_module::{SourceText, read_source};
use asm_parse::{Item, KeptName, Term, TermView, Tree};
use asm_spell::{Body, Line, Value, is_name, statement};
use row_text::Row;

fn show_name(row: &mut Row, name: &[u8]) {
    row.write_bytes(b" ");
    row.write_bytes(name)
}

fn show_item(row: &mut Row, item: &Item<Term>) {
    match item.view() {
        Item::Leaf(TermView::Number(n)) => write!(row, " {n}"),
        Item::Leaf(TermView::Name(name)) => show_name(row, name),
        Item::Leaf(TermView::Here) => write!(row, " $"),
        Item::Unary(operator) => write!(row, " {operator:?}"),
        Item::Binary(operator) => write!(row, " {operator:?}"),
    }
}

/// Prints the items of an expression in postfix order.
fn show_tree(row: &mut Row, tree: &Tree) {
    for item in tree.items() {
        show_item(row, item);
    }
}

fn show_names(row: &mut Row, names: &[KeptName]) {
    for name in names {
        show_name(row, name);
    }
}

fn show_value(row: &mut Row, value: &Value) {
    match value {
        Value::Text(text) => {
            write!(row, " <");
            row.write_bytes(text);
            write!(row, ">")
        }
        Value::Byte(tree) => {
            write!(row, " byte");
            show_tree(row, tree)
        }
    }
}

fn show_bytes(row: &mut Row, values: &[Value]) {
    write!(row, "bytes");
    for value in values {
        show_value(row, value);
    }
}

fn show_words(row: &mut Row, fields: &[Tree]) {
    write!(row, "words");
    for tree in fields {
        write!(row, " word");
        show_tree(row, tree);
    }
}

fn show_space(row: &mut Row, size: &Tree, fill: Option<&Tree>) {
    write!(row, "space");
    show_tree(row, size);
    if let Some(tree) = fill {
        write!(row, " fill");
        show_tree(row, tree);
    }
}

fn show_data(row: &mut Row, body: &Body) {
    match body {
        Body::Bytes(values) => show_bytes(row, values),
        Body::Words(fields) => show_words(row, fields),
        Body::Space { size, fill } => show_space(row, size, fill.as_ref()),
        _ => write!(row, "nothing"),
    }
}

fn show_body(row: &mut Row, body: &Body) {
    match body {
        Body::Code { instr, numbers } => {
            write!(row, "code {instr}");
            for (field, tree) in numbers.as_slice() {
                write!(row, "; {field:?}");
                show_tree(row, tree);
            }
        }
        Body::Jump { condition, target } => {
            write!(row, "jump {condition:?}");
            show_name(row, target)
        }
        Body::Short { branch, target } => {
            write!(row, "short {branch:?}");
            show_name(row, target)
        }
        Body::Public(names) => {
            write!(row, "public");
            show_names(row, names)
        }
        Body::External(names) => {
            write!(row, "external");
            show_names(row, names)
        }
        Body::Origin(tree) => {
            write!(row, "origin");
            show_tree(row, tree)
        }
        Body::End(None) => write!(row, "end"),
        Body::End(Some(name)) => {
            write!(row, "end");
            show_name(row, name)
        }
        Body::Z80 => write!(row, "z80"),
        _ => show_data(row, body),
    }
}

fn show_statement(row: &mut Row, label: Option<&Vec<u8>>, body: Option<&Body>) {
    if let Some(name) = label {
        row.write_bytes(name);
        write!(row, ": ");
    }
    match body {
        Some(body) => show_body(row, body),
        None => write!(row, "empty"),
    }
}

fn show_line(row: &mut Row, line: &Line) {
    match line {
        Line::Equ { name, value } => {
            row.write_bytes(name);
            write!(row, " equals");
            show_tree(row, value)
        }
        Line::Statement { label, body } => show_statement(row, label.as_ref(), body.as_ref()),
    }
}

/// Prints whether a line is a name that a program can define, and the parsed line or its error.
pub(crate) fn answer_spelled(row: &mut Row, line: &[u8]) {
    if is_name(line) {
        write!(row, " a name;");
    }
    let Ok(found) = tokens(row.alloc(), line) else {
        return row.refuse("no tokens");
    };
    write!(row, " ");
    match statement(row.alloc(), &found) {
        Ok(found) => show_line(row, &found),
        Err(fault) => write!(row, "{fault:?}"),
    }
}

/// Adds the tokens of a text this many times.
fn add_tokens<'a>(row: &mut Row, all: &mut Vec<Token<'a>>, text: &'a str, count: u32) {
    let Ok(each) = tokens(row.alloc(), text.as_bytes()) else {
        return row.refuse("no tokens");
    };
    for _ in 0..count {
        if all.extend_from_slice(&each).is_err() {
            return row.refuse("no memory");
        }
    }
}

/// How many items a line of DB has; None for any other line.
fn count_of(line: &Line) -> Option<usize> {
    match line {
        Line::Statement {
            label: _,
            body: Some(Body::Bytes(values)),
        } => Some(values.len()),
        _ => None,
    }
}

fn show_count(row: &mut Row, line: &Line) {
    match count_of(line) {
        Some(items) => write!(row, " {items} items"),
        None => row.refuse("another line than of DB"),
    }
}

/// Prints how many items DB has when it has more tokens than a line can have, or the error.
pub(crate) fn answer_many(row: &mut Row) {
    let mut all = Vec::new(row.alloc());
    let word = row.until('/');
    add_tokens(row, &mut all, word, 1);
    let Ok(count) = u32::from_str_radix(row.until('/'), 10) else {
        return row.refuse("no count");
    };
    let text = row.until('/');
    add_tokens(row, &mut all, text, count);
    let last = row.rest();
    add_tokens(row, &mut all, last, 1);
    match statement(row.alloc(), &all) {
        Ok(line) => show_count(row, &line),
        Err(fault) => write!(row, " {fault:?}"),
    }
}

/// Replaces each bar by a line end.
fn put_line_ends(text: &mut [u8]) {
    for byte in text.iter_mut() {
        if *byte == b'|' {
            *byte = b'\n';
        }
    }
}

/// Prints the lines of a source with their numbers, the line that cannot be parsed, and the last line that is listed.
fn show_source(row: &mut Row, source: &SourceText) {
    for line in &source.lines {
        write!(row, " {} ", line.number);
        show_line(row, &line.line);
        write!(row, " |");
    }
    if let Some((number, why)) = source.unread {
        write!(row, " unread {number} {why:?} |");
    }
    write!(row, " last {}", source.last)
}

/// Prints what a source says, or where the expansion stops.
pub(crate) fn answer_source(row: &mut Row, mut text: Vec<u8>) {
    put_line_ends(&mut text);
    match read_source(row.alloc(), &text) {
        Ok(source) => show_source(row, &source),
        Err((number, why)) => write!(row, " stops {number} {why:?}"),
    }
}
