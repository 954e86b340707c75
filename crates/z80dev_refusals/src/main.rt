//! Makes calls that allocate memory, each twice in a row, and prints what each answers. A test runs it and refuses each allocation in
//! turn.
//!
//! A line of standard input has the name of a call and a text, in which `\` ends a line. The program prints the line and both answers.
#![tactic(auto)]

mod lines;
mod module;
mod numbers;
mod table;

use anyhow::Context;
use std::alloc::Global;
use std::io::Write;

/// Writes what one call answers.
fn answer<W: Write>(
    alloc: Global,
    out: &mut W,
    call: &str,
    text: &[u8],
) -> Result<(), anyhow::Error> {
    if call == "tokens" {
        lines::answer_tokens(alloc, out, text)
    } else if call == "statement" {
        lines::answer_statement(alloc, out, text)
    } else if call == "parse" {
        numbers::answer_parse(alloc, out, text)
    } else if call == "settle" {
        numbers::answer_settle(alloc, out, text)
    } else if call == "names" {
        table::answer_names(alloc, out, text)
    } else if call == "grow" {
        table::answer_grow(alloc, out)
    } else if call == "expand" {
        module::answer_expand(alloc, out, text)
    } else if call == "next" {
        module::answer_next(alloc, out, text)
    } else {
        module::answer_assemble(alloc, out, text)
    }
}

/// The text, with a line feed for each `\`.
fn text_of(alloc: Global, text: &str) -> Result<Vec<u8>, anyhow::Error> {
    let mut bytes = Vec::new(alloc);
    for byte in text.as_bytes() {
        bytes.push(if *byte == b'\\' { b'\n' } else { *byte })?;
    }
    Ok(bytes)
}

fn report<W: Write>(alloc: Global, out: &mut W, line: &str) -> Result<(), anyhow::Error> {
    let (call, text) = line.split_once(' ').context("no text")?;
    let text = text_of(alloc, text)?;
    write!(out, "{line} => ")?;
    answer(alloc, out, call, &text)?;
    write!(out, " | ")?;
    answer(alloc, out, call, &text)?;
    Ok(writeln!(out)?)
}

fn main(rt: HostRuntime) -> Result<(), anyhow::Error> {
    let alloc = rt.alloc();
    let mut out = rt.stdout();
    for line in rt.lines(alloc) {
        report(alloc, &mut out, line?.as_str())?;
    }
    Ok(())
}
