//! Reads rows from standard input, one line each, and prints each with the answer of the call that it names.
//!
//! The head of `stdin` explains the calls and what follows each. A line that begins with `;` is a remark.
#![tactic(auto)]

mod blocks;
mod call;
mod calls;
mod expressions;
mod items;
mod lines;
mod orders;
mod pieces;
mod scanning;
mod tables;

use asm_expr::Names;
use call::{Alone, Call, OnColumns, OnExpression, OnLine, OnNames};
use row_text::Row;
use std::io::Write;

/// The names with which expressions and statements are read, and the number of their table.
#[derive(Drop)]
struct Known {
    table: u32,
    names: Names,
}

/// Makes calls without columns.
fn answer_alone(row: &mut Row, call: Alone) {
    match call {
        Alone::Faults => scanning::answer_faults(row),
        Alone::NoLines => blocks::answer_no_lines(row),
    }
}

/// Makes calls that cut a line into tokens or parse it.
fn answer_line(row: &mut Row, call: OnLine) {
    let line = row.bytes();
    match call {
        OnLine::Tokens => scanning::answer_tokens(row, &line),
        OnLine::Count => scanning::answer_count(row, &line),
        OnLine::Form => scanning::answer_form(row, &line),
        OnLine::Names => scanning::answer_names(row, &line),
        OnLine::Arguments => calls::answer_arguments(row, &line),
        OnLine::Spell => lines::answer_spelled(row, &line),
        OnLine::Source => lines::answer_source(row, line),
    }
}

/// Makes calls with columns of their own.
fn answer_columns(row: &mut Row, call: OnColumns) {
    match call {
        OnColumns::Replace => calls::answer_replaced(row),
        OnColumns::Body => blocks::answer_body(row),
        OnColumns::Branches => blocks::answer_branches(row),
        OnColumns::Order => orders::answer_order(row),
        OnColumns::Chain => orders::answer_chain(row),
        OnColumns::Defined => orders::answer_defined(row),
        OnColumns::Many => lines::answer_many(row),
    }
}

/// Takes the number of a table, whose names the rows after this one use.
fn begin_table(row: &mut Row, known: &mut Known) {
    known.table = row.decimal();
    known.names = tables::table(row, known.table);
}

/// Makes calls that change or use the names of a table.
fn answer_names(row: &mut Row, call: OnNames, known: &mut Known) {
    match call {
        OnNames::Table => begin_table(row, known),
        OnNames::Here => known.names.set_here(row.short()),
        OnNames::Distance => expressions::answer_distance(row, &known.names),
        OnNames::Piece => pieces::answer_piece(row, &mut known.names),
        OnNames::Size => pieces::answer_size(row, &known.names),
    }
}

/// Makes calls that read an expression with the names of a table.
fn answer_expression(row: &mut Row, call: OnExpression, known: &Known) {
    let text = row.bytes();
    write!(row, " ");
    match call {
        OnExpression::Expression => expressions::answer_made(row, &text, &known.names),
        OnExpression::Value => expressions::answer_value(row, &text, &known.names),
        OnExpression::Kept => expressions::answer_kept(row, &text, &known.names),
        OnExpression::Offset => expressions::answer_offset(row, &text, &known.names),
        OnExpression::Constant => expressions::answer_constant(row, &text, &known.names),
        OnExpression::Equ => expressions::answer_equ(row, &text, known.table),
        OnExpression::Items => items::answer_items(row, &text),
    }
}

/// Makes any call, which has to use all columns.
fn answer(row: &mut Row, call: Call, known: &mut Known) {
    match call {
        Call::Alone(call) => answer_alone(row, call),
        Call::Line(call) => answer_line(row, call),
        Call::Columns(call) => answer_columns(row, call),
        Call::Names(call) => answer_names(row, call, known),
        Call::Expression(call) => answer_expression(row, call, known),
    }
    if !row.rest().is_empty() {
        row.refuse("too many columns");
    }
}

fn main(rt: HostRuntime) -> Result<(), anyhow::Error> {
    let alloc = rt.alloc();
    let mut out = rt.stdout();
    let mut known = Known {
        table: 0,
        names: Names::new(alloc),
    };
    for line in rt.lines(alloc) {
        let line = line?;
        write!(out, "{line}")?;
        if !line.as_str().starts_with(';') {
            write!(out, " =>")?;
            let mut row = Row::new(alloc, &line);
            match call::call_named(row.word()) {
                Some(call) => answer(&mut row, call, &mut known),
                None => row.refuse("no such call"),
            }
            row.print(&mut out)?;
        }
        writeln!(out)?;
    }
    Ok(())
}
