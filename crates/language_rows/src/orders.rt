//! Rows about the order in which definitions are settled.

use asm_names::{Turn, are_defined, order};
use row_text::Row;
use std::alloc::Global;

/// The numbers of a column, separated by commas.
fn numbers_of(alloc: Global, column: &str) -> Option<Vec<u32>> {
    let mut numbers = Vec::new(alloc);
    for number in column.split_terminator(',') {
        let number = u32::from_str_radix(number, 10).ok()?;
        numbers.push(number).ok()?;
    }
    Some(numbers)
}

/// For each definition, the numbers of those that it names, with a slash after each list.
fn uses_of(alloc: Global, columns: &str) -> Option<Vec<Vec<u32>>> {
    let mut uses = Vec::new(alloc);
    for column in columns.split_terminator('/') {
        let numbers = numbers_of(alloc, column)?;
        uses.push(numbers).ok()?;
    }
    Some(uses)
}

/// The order of some definitions. None if they are too many, or have a number of no definition.
fn order_of(alloc: Global, uses: &[Vec<u32>]) -> Option<Vec<Turn>> {
    if uses.len() < 100_000 && are_defined(uses) {
        order(alloc, uses).ok()
    } else {
        None
    }
}

fn show_turns(row: &mut Row, turns: &[Turn]) {
    for turn in turns {
        let mark = if turn.on_circle { "*" } else { "" };
        write!(row, " {}{mark}", turn.definition);
    }
}

/// Takes definitions, and refuses them if they are no numbers.
fn uses_in(row: &mut Row) -> Vec<Vec<u32>> {
    let columns = row.rest();
    match uses_of(row.alloc(), columns) {
        Some(uses) => uses,
        None => {
            row.refuse("no numbers");
            Vec::new(row.alloc())
        }
    }
}

/// Prints all definitions in an order in which they can be settled, with a star after each that is on a circle.
pub(crate) fn answer_order(row: &mut Row) {
    let uses = uses_in(row);
    match order_of(row.alloc(), &uses) {
        Some(turns) => show_turns(row, &turns),
        None => row.refuse("a number of no definition"),
    }
}

/// A chain of `count` definitions: each names the next one, and the last one names those in `last`.
fn chain(alloc: Global, count: u32, last: &str) -> Option<Vec<Vec<u32>>> {
    let mut uses = Vec::new(alloc);
    for definition in 1..count {
        uses.push(vec![in alloc; definition; 1].ok()?).ok()?;
    }
    uses.push(numbers_of(alloc, last)?).ok()?;
    Some(uses)
}

/// The order of a chain.
fn chain_order(alloc: Global, count: u32, last: &str) -> Option<Vec<Turn>> {
    let uses = chain(alloc, count, last)?;
    order_of(alloc, &uses)
}

/// Prints how many definitions of a chain are in its order, and how many of them are on a circle.
pub(crate) fn answer_chain(row: &mut Row) {
    let count = row.decimal();
    let last = row.rest();
    match chain_order(row.alloc(), count, last) {
        Some(turns) => {
            let circles = turns.iter().filter(|turn| turn.on_circle).count();
            write!(row, " {}, {circles} on a circle", turns.len())
        }
        None => row.refuse("a number of no definition"),
    }
}

/// Prints whether definitions name only definitions.
pub(crate) fn answer_defined(row: &mut Row) {
    let uses = uses_in(row);
    write!(row, " {}", are_defined(&uses))
}
