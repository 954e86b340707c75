//! Goes to turns in any order, and compares each state with that of a new history.

use crate::input::{Debugged, begin};
use debugger::{History, Snapshot};
use row_text::Row;
use std::alloc::Global;

/// Whether two states have the same registers, memory and output.
fn is_same(one: &Snapshot, other: &Snapshot) -> bool {
    if one.cpu() != other.cpu() || one.output() != other.output() {
        return false;
    }
    for address in 0..=u16::MAX {
        if one.memory().get(address) != other.memory().get(address) {
            return false;
        }
    }
    true
}

/// Whether two histories show the same.
fn shows_same(one: &History, other: &History) -> bool {
    one.turn() == other.turn()
        && one.point().end() == other.point().end()
        && is_same(one.point().snapshot(), other.point().snapshot())
}

/// Goes to a turn, and answers the number of the turn that is shown then; `None` if a new history shows something else there.
fn gone(alloc: Global, program: Debugged<'_>, history: &mut History, word: &str) -> Option<u64> {
    let turn = u64::from_str_radix(word, 10).ok()?;
    history.go_to(alloc, turn).ok()?;
    let mut fresh = begin(alloc, program)?;
    fresh.go_to(alloc, turn).ok()?;
    if shows_same(history, &fresh) {
        Some(history.turn())
    } else {
        None
    }
}

/// Goes to each of these turns, and prints the number of the turn that is shown then.
pub(crate) fn walk(row: &mut Row, program: Debugged<'_>, turns: &str) {
    let alloc = row.alloc();
    let Some(mut history) = begin(alloc, program) else {
        row.refuse("the program does not start");
        return;
    };
    for word in turns.split_ascii_whitespace() {
        match gone(alloc, program, &mut history, word) {
            Some(turn) => write!(row, " {turn}"),
            None => row.refuse("another state than that of a new history"),
        }
    }
    row.write_bytes(b"\n");
}
