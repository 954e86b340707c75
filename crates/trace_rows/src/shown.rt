//! Answers the calls.

use crate::input::{Run, input_of, run_of, traced};
use disassembler::{fault_text, read_labels};
use row_text::Row;
use z80dev_run::{Wish, coverage_file, last_lines, machine_text, profile_file, trace_file};

/// Prints a text, with `|` for the end of a line.
fn show(row: &mut Row, text: &[u8]) {
    row.write_bytes(b" ");
    for byte in text {
        if *byte == b'\n' {
            row.write_bytes(b"|");
        } else {
            row.write_text(&[*byte]);
        }
    }
}

/// Prints the text that was made of a run.
fn show_made(row: &mut Row, made: Option<Vec<u8>>) {
    match made {
        Some(text) => show(row, &text),
        None => row.refuse("no answer"),
    }
}

fn trace_of(row: &mut Row) -> Option<Vec<u8>> {
    let input = input_of(row)?;
    let first = row.decimal() as usize;
    let wish = Wish {
        first,
        last: 0,
        counts: false,
    };
    let Run { traced, labels } = run_of(row, input, wish)?;
    trace_file(row.alloc(), &traced.kept?, traced.ran.turns, &labels).ok()
}

/// Prints the trace file of a run.
pub(crate) fn answer_trace(row: &mut Row) {
    let made = trace_of(row);
    show_made(row, made);
}

fn last_of(row: &mut Row) -> Option<Vec<u8>> {
    let input = input_of(row)?;
    let last = row.decimal() as usize;
    let most = row.decimal() as usize;
    let wish = Wish {
        first: 0,
        last,
        counts: false,
    };
    let Run { traced, labels } = run_of(row, input, wish)?;
    last_lines(row.alloc(), &traced.kept?, most, &labels).ok()
}

/// Prints the lines of the last steps of a run.
pub(crate) fn answer_last(row: &mut Row) {
    let made = last_of(row);
    show_made(row, made);
}

fn regs_of(row: &mut Row) -> Option<Vec<u8>> {
    let input = input_of(row)?;
    let wish = Wish {
        first: 0,
        last: 3,
        counts: false,
    };
    let Run { traced, labels } = run_of(row, input, wish)?;
    machine_text(row.alloc(), &traced.state?, &traced.kept?.last, &labels).ok()
}

/// Prints the machine at the end of a run.
pub(crate) fn answer_regs(row: &mut Row) {
    let made = regs_of(row);
    show_made(row, made);
}

fn profile_of(row: &mut Row) -> Option<Vec<u8>> {
    let input = input_of(row)?;
    let wish = Wish {
        first: 0,
        last: 0,
        counts: true,
    };
    let Run { traced, labels } = run_of(row, input, wish)?;
    profile_file(row.alloc(), &traced.kept?, traced.ran.turns, &labels).ok()
}

/// Prints the profile of a run.
pub(crate) fn answer_profile(row: &mut Row) {
    let made = profile_of(row);
    show_made(row, made);
}

fn coverage_of(row: &mut Row) -> Option<Vec<u8>> {
    let input = input_of(row)?;
    let rest = row.rest();
    let listing = row.lines_of(rest);
    let wish = Wish {
        first: 0,
        last: 0,
        counts: true,
    };
    let run = traced(row.alloc(), &input, wish)?;
    coverage_file(row.alloc(), &run.kept?, &listing).ok()
}

/// Prints a listing with how often each line ran.
pub(crate) fn answer_coverage(row: &mut Row) {
    let made = coverage_of(row);
    show_made(row, made);
}

/// Prints the labels of a labels file.
pub(crate) fn answer_labels(row: &mut Row) {
    let alloc = row.alloc();
    let rest = row.rest();
    let text = row.lines_of(rest);
    match read_labels(alloc, &text) {
        Ok(labels) => {
            for label in &labels {
                write!(row, " {:04X} ", label.address);
                row.write_text(label.name);
            }
        }
        Err(fault) => match fault_text(alloc, fault) {
            Ok(text) => write!(row, " error {text}"),
            Err(_) => row.refuse("no memory"),
        },
    }
}
