//! Prints the parts of an answer. Equal ones in a row are printed once, with their count.

use row_text::Row;
use std::alloc::Global;

/// Equal parts that are not printed yet, and how many they are.
#[derive(Drop)]
pub(crate) struct Parts {
    text: Vec<u8>,
    count: u32,
}

impl Parts {
    pub(crate) fn new(alloc: Global) -> Parts {
        Parts {
            text: Vec::new(alloc),
            count: 0,
        }
    }

    /// Adds the answer of a row as a part. Those before it are printed if they are others.
    pub(crate) fn add(&mut self, row: &mut Row, part: &Row) {
        if part.answer() != self.text.as_slice() {
            self.show(row);
            self.text.clear();
            if self.text.extend_from_slice(part.answer()).is_err() {
                row.refuse("no memory");
            }
        }
        if part.is_wrong() {
            row.refuse("a part cannot be answered");
        }
        self.count = self.count.saturating_add(1);
    }

    /// Prints the parts that are not printed yet.
    pub(crate) fn show(&mut self, row: &mut Row) {
        if self.count == 0 {
            return;
        }
        write!(row, " ");
        if self.count > 1 {
            write!(row, "{} times ", self.count);
        }
        row.write_bytes(&self.text);
        write!(row, ";");
        self.count = 0;
    }
}
