//! Reads rows, one from each line of standard input, and prints each with the answer of the call that it names.
//!
//! The head of `stdin` says which calls there are and what their columns mean; a line of `;` is a remark.
#![tactic(auto)]

mod beside;
mod building;
mod call;
mod files;
mod linking;
mod made;
mod shown;
mod sources;
mod warned;

use call::{Call, OnFiles, OnMade, OnSources};
use files::Program;
use row_text::Row;
use std::io::Write;

/// Makes calls that build files.
fn answer_files(rt: &HostRuntime, row: &mut Row, call: OnFiles, program: &mut Option<Program>) {
    match call {
        OnFiles::Program => *program = files::answer_program(rt, row),
        OnFiles::At => files::answer_bytes(row, program.as_ref()),
        OnFiles::Listing => files::answer_listing(rt, row),
    }
}

/// Makes calls that build sources, or try to.
fn answer_sources(row: &mut Row, call: OnSources) {
    match call {
        OnSources::Build => building::answer_build(row),
        OnSources::Texts => building::answer_texts(row),
        OnSources::Judge => building::answer_judged(row),
        OnSources::Same => building::answer_same(row),
        OnSources::Fault => building::answer_fault(row),
        OnSources::Sentence => building::answer_sentence(row),
        OnSources::NoMemory => building::answer_no_memory(row),
        OnSources::Object => linking::answer_object(row),
        OnSources::ModuleName => beside::answer_module_name(row),
        OnSources::Warnings => warned::answer_build(row),
        OnSources::AsmWarnings => warned::answer_asm(row),
    }
}

/// Makes calls about a program that the row says.
fn answer_made(row: &mut Row, call: OnMade) {
    match call {
        OnMade::Listing => made::answer_listing(row),
        OnMade::Symbols => made::answer_symbols(row),
    }
}

/// Makes any call, which has to use all columns.
fn answer(rt: &HostRuntime, row: &mut Row, call: Call, program: &mut Option<Program>) {
    match call {
        Call::Files(call) => answer_files(rt, row, call, program),
        Call::Sources(call) => answer_sources(row, call),
        Call::Built(call) => beside::answer_built(row, call),
        Call::Made(call) => answer_made(row, call),
    }
    if !row.rest().is_empty() {
        row.refuse("too many columns");
    }
}

fn main(rt: HostRuntime) -> Result<(), anyhow::Error> {
    let alloc = rt.alloc();
    let mut out = rt.stdout();
    let mut program = None;
    for line in rt.lines(alloc) {
        let line = line?;
        write!(out, "{line}")?;
        if !line.as_str().starts_with(';') {
            write!(out, " =>")?;
            let mut row = Row::new(alloc, &line);
            match call::call_named(row.word()) {
                Some(call) => answer(&rt, &mut row, call, &mut program),
                None => row.refuse("no such call"),
            }
            row.print(&mut out)?;
        }
        writeln!(out)?;
    }
    Ok(())
}
