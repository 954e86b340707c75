//! Reads what a row runs, and runs it.

use disassembler::read_labels;
use host::MemorySink;
use row_text::Row;
use std::alloc::Global;
use z80dev_run::{Labels, TracedRan, Wish, ready};

/// A program to run, the limit of its steps, and its labels file.
#[derive(Drop)]
pub(crate) struct Input {
    program: Vec<u8>,
    limit: u64,
    labels: Vec<u8>,
}

/// A run, and the labels of its program.
#[derive(Drop)]
pub(crate) struct Run {
    pub(crate) traced: TracedRan<MemorySink>,
    pub(crate) labels: Labels,
}

/// Takes a program as hexadecimal digits and a limit.
pub(crate) fn input_of(row: &mut Row) -> Option<Input> {
    let program = hex::decode(row.alloc(), row.word()).ok()?;
    let limit = u64::from(row.decimal());
    Some(Input {
        program,
        limit,
        labels: Vec::new(row.alloc()),
    })
}

/// Runs a program on a blank disk without input.
pub(crate) fn traced(alloc: Global, input: &Input, wish: Wish) -> Option<TracedRan<MemorySink>> {
    let ready = ready(alloc, &input.program, &[], &[], &[]).ok()?;
    Some(ready.run_traced(alloc, MemorySink::new(alloc), input.limit, wish))
}

/// The labels of a program by their file.
fn labels_of(alloc: Global, input: &Input) -> Option<Labels> {
    let labels = read_labels(alloc, &input.labels).ok()?;
    Labels::new(alloc, &labels, input.program.len()).ok()
}

/// Takes the lines of a labels file, and runs the program of a row.
pub(crate) fn run_of(row: &mut Row, input: Input, wish: Wish) -> Option<Run> {
    let mut input = input;
    let text = row.rest();
    input.labels = row.lines_of(text);
    let alloc = row.alloc();
    Some(Run {
        traced: traced(alloc, &input, wish)?,
        labels: labels_of(alloc, &input)?,
    })
}
