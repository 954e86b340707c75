//! Makes calls that take a line.

use asm_line::tokens;
use asm_spell::{Body, Line, statement};
use std::alloc::Global;
use std::io::Write;

/// Writes the number of tokens in a line, or its error.
pub(crate) fn answer_tokens<W: Write>(
    alloc: Global,
    out: &mut W,
    text: &[u8],
) -> Result<(), anyhow::Error> {
    match tokens(alloc, text) {
        Ok(tokens) => Ok(write!(out, "{} tokens", tokens.len())?),
        Err(fault) => Ok(write!(out, "{fault:?}")?),
    }
}

/// Writes what a word with its operands is, and how many numbers, items or the like it has.
fn show_body<W: Write>(out: &mut W, body: &Body) -> Result<(), anyhow::Error> {
    match body {
        Body::Code { instr, numbers } => write!(out, "{instr} of {}", numbers.as_slice().len())?,
        Body::Jump { .. } => write!(out, "a jump")?,
        Body::Short { .. } => write!(out, "a short jump")?,
        Body::Bytes(values) => write!(out, "bytes of {}", values.len())?,
        Body::Words(trees) => write!(out, "words of {}", trees.len())?,
        Body::Space { .. } => write!(out, "space")?,
        Body::Public(names) => write!(out, "public {}", names.len())?,
        Body::External(names) => write!(out, "external {}", names.len())?,
        _ => write!(out, "a word")?,
    }
    Ok(())
}

fn show_line<W: Write>(out: &mut W, line: &Line) -> Result<(), anyhow::Error> {
    match line {
        Line::Equ { .. } => Ok(write!(out, "a definition")?),
        Line::Statement { body: None, .. } => Ok(write!(out, "a label alone")?),
        Line::Statement {
            body: Some(body),
            ..
        } => show_body(out, body),
    }
}

/// Writes what a line is, or its error.
pub(crate) fn answer_statement<W: Write>(
    alloc: Global,
    out: &mut W,
    text: &[u8],
) -> Result<(), anyhow::Error> {
    match tokens(alloc, text) {
        Ok(tokens) => match statement(alloc, &tokens) {
            Ok(line) => show_line(out, &line),
            Err(fault) => Ok(write!(out, "{fault:?}")?),
        },
        Err(fault) => Ok(write!(out, "{fault:?}")?),
    }
}
