//! Rows that expand a source, as a whole or line by line.

use asm_line::Token;
use asm_macro::{Expanded, Expander, Line, MacroFault, expand};
use row_text::Row;

fn show_line(row: &mut Row, number: u32, text: &[u8]) {
    write!(row, "{number} ");
    row.write_text(text);
    writeln!(row)
}

fn show_fault(row: &mut Row, fault: (u32, MacroFault)) {
    writeln!(row, "line {}: {:?}", fault.0, fault.1)
}

fn show_expanded(row: &mut Row, expanded: &Expanded) {
    for line in &expanded.lines {
        show_line(row, line.number, &line.text);
    }
}

/// Prints all lines of an expansion with their numbers, or the line that has an error.
pub(crate) fn answer_expanded(row: &mut Row, text: &[u8]) {
    match expand(row.alloc(), text) {
        Ok(expanded) => show_expanded(row, &expanded),
        Err(fault) => show_fault(row, fault),
    }
}

fn show_next(row: &mut Row, next: Result<Option<Line>, (u32, MacroFault)>) {
    match next {
        Ok(Some(line)) => show_line(row, line.number, line.text),
        Ok(None) => writeln!(row, "no line"),
        Err(fault) => show_fault(row, fault),
    }
}

/// Prints what the expander of a source answers if it is asked for the next line as often as the row says.
pub(crate) fn answer_lines(row: &mut Row, text: &[u8]) {
    let mut expander = Expander::new(row.alloc(), text);
    for _ in 0..row.decimal() {
        show_next(row, expander.next_line());
    }
}

/// Prints how many tokens of a line were kept.
fn show_kept(row: &mut Row, kept: Option<Vec<Token>>) {
    match kept {
        Some(tokens) => write!(row, "{} tokens", tokens.len()),
        None => write!(row, "none"),
    }
}

/// Prints the next line, and twice what is kept of it: its tokens, and then nothing.
fn show_line_kept(row: &mut Row, expander: &mut Expander) {
    row.write_text(expander.line().text);
    write!(row, " : ");
    show_kept(row, expander.take_tokens());
    write!(row, ", then ");
    show_kept(row, expander.take_tokens());
    writeln!(row)
}

/// Prints the next line and its tokens, or the error.
fn show_step(row: &mut Row, expander: &mut Expander) {
    match expander.advance() {
        Ok(true) => show_line_kept(row, expander),
        Ok(false) => writeln!(row, "no line"),
        Err(fault) => show_fault(row, fault),
    }
}

/// Prints the tokens that are kept of the lines of a source, as many as the row says.
pub(crate) fn answer_kept(row: &mut Row, text: &[u8]) {
    let mut expander = Expander::new(row.alloc(), text);
    for _ in 0..row.decimal() {
        show_step(row, &mut expander);
    }
}
