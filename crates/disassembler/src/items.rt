//! Cuts a program into items, each a statement of the text.

use crate::code::{Found, Kind, find_code, instr_at};
use crate::data::{FEWEST_ZEROS, MOST_SEEN, line_len, zero_len};
use crate::labels::Label;
use crate::names::Names;
use std::alloc::{AllocError, Global};

/// The most items. After them the rest of the program takes 2,016 statements at most, and a source may have 20,000.
const MOST_ITEMS: usize = 17_000;

/// A statement of the text.
#[derive(Clone, Copy)]
pub(crate) enum Item<'a> {
    /// An instruction and its bytes.
    Code(Found, &'a [u8]),
    /// This many bytes of zero.
    Zeros(usize),
    /// Other bytes.
    Data(&'a [u8]),
}

impl Item<'_> {
    /// How many bytes it has.
    pub(crate) fn len(self) -> usize {
        match self {
            Item::Code(_, bytes) | Item::Data(bytes) => bytes.len(),
            Item::Zeros(count) => count,
        }
    }
}

/// A program, what its bytes are, and its labels.
#[derive(Drop)]
pub(crate) struct Layout<'a> {
    pub(crate) program: &'a [u8],
    kinds: Vec<Kind>,
    pub(crate) names: Names,
    /// How much of the program is written as items.
    pub(crate) end: usize,
}

impl<'a> Layout<'a> {
    /// Lays out a program, given the labels of its labels file, the offsets of its entries, and those at which data begins.
    pub(crate) fn new(
        alloc: Global,
        program: &'a [u8],
        labels: &[Label<'_>],
        entries: &[usize],
        data_starts: &[usize],
    ) -> Result<Layout<'a>, AllocError> {
        let kinds = find_code(alloc, program, entries, data_starts)?;
        let names = Names::new(alloc, program, &kinds, labels, entries)?;
        let mut layout = Layout {
            program,
            kinds,
            names,
            end: program.len(),
        };
        layout.cut();
        Ok(layout)
    }

    /// Leaves the end of a program with too many items to lines without labels.
    fn cut(&mut self) {
        let end = self.most_items();
        if end < self.end {
            self.end = end;
            self.names.cut(end);
        }
    }

    /// How much of the program the items take that a text may have.
    fn most_items(&self) -> usize {
        let mut left = MOST_ITEMS;
        let mut next = 0;
        for at in 0..self.end {
            if at < next {
                continue;
            }
            if left == 0 {
                return at;
            }
            left -= 1;
            next = at.saturating_add(self.item_at(at).len());
        }
        self.end
    }

    /// Whether no item may go on over an offset: the items end there, or another one begins.
    fn has_to_begin(&self, at: usize) -> bool {
        at >= self.end
            || !matches!(self.kinds.get(at), Some(Kind::Data))
            || self.names.is_labelled(at)
    }

    /// Answers the data at an offset, at most `most` bytes of it.
    fn data_at(&self, at: usize, most: usize) -> &'a [u8] {
        let behind = at.saturating_add(1)..at.saturating_add(most);
        let len = behind.take_while(|k| !self.has_to_begin(*k)).count() + 1;
        let rest = self.program.get(at..).unwrap_or(&[]);
        rest.get(..len).unwrap_or(rest)
    }

    /// Answers how many bytes of zero are at an offset, up to where another item has to begin.
    fn zeros_at(&self, at: usize) -> usize {
        let behind = at.saturating_add(1)..self.end;
        behind
            .take_while(|k| self.program.get(*k) == Some(&0) && !self.has_to_begin(*k))
            .count()
            + 1
    }

    /// Answers the item at an offset.
    pub(crate) fn item_at(&self, at: usize) -> Item<'a> {
        if let Some(Kind::First) = self.kinds.get(at) {
            if let Some(found) = instr_at(self.program, at) {
                return Item::Code(found, self.program.get(at..found.next).unwrap_or(&[]));
            }
        }
        let data = self.data_at(at, MOST_SEEN);
        if zero_len(data) >= FEWEST_ZEROS {
            Item::Zeros(self.zeros_at(at))
        } else {
            Item::Data(data.get(..line_len(data)).unwrap_or(data))
        }
    }
}
