//! Reads rows, one from each line of standard input, and prints each with the answer of the call that it names.
//!
//! The head of `stdin` says which calls there are and what their columns mean; a line of `;` is a remark.
#![tactic(auto)]

mod call;
mod certificates;
mod choices;
mod modules;
mod objects;
mod parts;
mod sized;
mod spelling;
mod texts;

use call::{Call, OnObject, OnText};
use row_text::Row;
use std::io::Write;

/// Makes calls about object files. Rows after an `object` are about that object file.
fn answer_object(row: &mut Row, call: OnObject, object: &mut Vec<u8>) {
    match call {
        OnObject::Object => {
            *object = texts::hexadecimal(row);
            objects::answer_object(row, object)
        }
        OnObject::Cuts => objects::answer_cuts(row, object),
        OnObject::Changes => objects::answer_changes(row, object),
        OnObject::With => objects::answer_with(row, object),
        OnObject::Statement => objects::answer_statement(row),
        OnObject::Sized => sized::answer_sized(row),
    }
}

/// Makes calls about sizes, certificates and choices.
fn answer_text(row: &mut Row, call: OnText) {
    match call {
        OnText::Sizes => certificates::answer_sizes(row),
        OnText::Certificate => certificates::answer_certificate(row),
        OnText::Check => certificates::answer_check(row),
        OnText::Faults => certificates::answer_faults(row),
        OnText::Least => choices::answer_least(row),
        OnText::Shape => choices::answer_shape(row),
    }
}

/// Makes any call.
fn answer(row: &mut Row, call: Call, object: &mut Vec<u8>) {
    match call {
        Call::Object(call) => answer_object(row, call, object),
        Call::Text(call) => answer_text(row, call),
    }
}

fn main(rt: HostRuntime) -> Result<(), anyhow::Error> {
    let alloc = rt.alloc();
    let mut out = rt.stdout();
    let mut object = Vec::new(alloc);
    for line in rt.lines(alloc) {
        let line = line?;
        write!(out, "{line}")?;
        if !line.as_str().starts_with(';') {
            write!(out, " =>")?;
            let mut row = Row::new(alloc, &line);
            match call::call_named(row.word()) {
                Some(call) => answer(&mut row, call, &mut object),
                None => row.refuse("no such call"),
            }
            row.print(&mut out)?;
        }
        writeln!(out)?;
    }
    Ok(())
}
