//! Finds which jumps have to be long.

use crate::texts::lines;
use relax::{Growth, Ruler, Shape, Statement, Sums, grow, least};
use row_text::Row;
use std::alloc::{AllocError, Global};

/// Parses a statement, as a line of a sizes file has it.
fn statement_of(line: &str) -> Option<Statement> {
    let (word, number) = line.split_once(' ')?;
    match word {
        "F" => Some(Statement::Fixed(u16::from_str_radix(number, 10).ok()?)),
        "J" => Some(Statement::Jump(u32::from_str_radix(number, 10).ok()?)),
        "S" => Some(Statement::Short(u32::from_str_radix(number, 10).ok()?)),
        _ => None,
    }
}

/// The statements of these lines. None: a line has none, or there is no memory.
fn statements_in(alloc: Global, text: &[u8]) -> Option<Vec<Statement>> {
    let mut statements = Vec::new(alloc);
    for line in std::str::from_utf8(text).ok()?.lines() {
        statements.push(statement_of(line)?).ok()?;
    }
    Some(statements)
}

/// Takes the rest of a row as statements.
fn statements_of(row: &mut Row) -> Vec<Statement> {
    let text = lines(row);
    match statements_in(row.alloc(), &text) {
        Some(statements) => statements,
        None => {
            row.refuse("no statements");
            Vec::new(row.alloc())
        }
    }
}

/// Prints whether a program may have these statements.
pub(crate) fn answer_shape(row: &mut Row) {
    let statements = statements_of(row);
    write!(row, " {}", Shape::is_shape(&statements))
}

/// Prints the jumps that have to be long in the order in which they are found, the verdict, and how often a jump was tested.
fn show_growth(row: &mut Row, growth: &Growth) {
    for k in &growth.order {
        write!(row, " {k}");
    }
    write!(row, " {:?}, {} tests", growth.verdict, growth.probes)
}

/// Whether `grow` finds the same jumps with as many tests.
fn is_grown(alloc: Global, shape: &Shape, growth: &Growth) -> Result<bool, AllocError> {
    let mut sums = Sums::new(alloc, shape)?;
    let order = grow(alloc, &mut sums)?;
    Ok(order.as_slice() == growth.order.as_slice() && sums.asked() == growth.probes)
}

/// Prints that `grow` answers something else.
fn show_grown(row: &mut Row, is_same: Result<bool, AllocError>) {
    match is_same {
        Ok(true) => {}
        Ok(false) => write!(row, ", grown otherwise"),
        Err(_) => row.refuse("no memory"),
    }
}

/// Prints what `least` answers, and whether `grow` answers something else.
pub(crate) fn answer_least(row: &mut Row) {
    let statements = statements_of(row);
    if !Shape::is_shape(&statements) {
        return row.refuse("no shape");
    }
    let shape = Shape::new(statements);
    match least(row.alloc(), &shape) {
        Ok(growth) => {
            let is_same = is_grown(row.alloc(), &shape, &growth);
            show_growth(row, &growth);
            show_grown(row, is_same)
        }
        Err(_) => row.refuse("no memory"),
    }
}
