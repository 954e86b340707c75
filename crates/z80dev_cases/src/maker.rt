//! The case that is being made.

use crate::case::{Kind, Spoiled, Stated};
use crate::draw::Draw;
use crate::macros::Macro;
use std::alloc::{AllocError, Global};

/// The kind of program to make.
#[derive(Clone, Copy, Debug, PartialEq)]
pub(crate) enum Style {
    /// With everything.
    Mixed,
    /// With hardly any data.
    Code,
    /// With a few jumps, and spaces between them.
    Few,
    /// With many jumps, and spaces between them.
    Far,
}

/// The labels of a module: those from `first` on and below `end`.
#[derive(Clone, Copy)]
pub(crate) struct Own {
    pub(crate) first: usize,
    pub(crate) end: usize,
    /// The next label that has no statement yet.
    pub(crate) next: usize,
}

#[derive(Drop)]
pub(crate) struct Maker {
    pub(crate) alloc: Global,
    pub(crate) draw: Draw,
    pub(crate) style: Style,
    /// The text of the module so far, its number, and the number of its lines.
    pub(crate) text: Vec<u8>,
    pub(crate) source: usize,
    pub(crate) lines: u32,
    /// Within a call or a REPT, the number of its line.
    pub(crate) within: Option<u32>,
    /// The values of the module's constants.
    pub(crate) names: Vec<u16>,
    pub(crate) macros: Vec<Macro>,
    pub(crate) own: Own,
    /// The number of labels with names.
    pub(crate) named: usize,
    /// The number of the statement of each label.
    pub(crate) labels: Vec<usize>,
    pub(crate) statements: Vec<Stated>,
    pub(crate) data: Vec<u8>,
    pub(crate) spoiled: Option<Spoiled>,
}

impl Maker {
    /// The number of the next line.
    pub(crate) fn next_line(&self) -> u32 {
        self.lines.saturating_add(1)
    }

    /// Ends the current line.
    pub(crate) fn end_line(&mut self) -> Result<(), AllocError> {
        if self.draw.one_in(12) {
            self.text.extend_from_slice(b"\t; it's \"here: DS 5")?;
        }
        if self.draw.one_in(12) {
            self.text.push(b'\r')?;
        }
        self.text.push(b'\n')?;
        self.lines = self.next_line();
        Ok(())
    }

    /// Adds a line with a blank before it.
    pub(crate) fn put_line(&mut self, line: &str) -> Result<(), AllocError> {
        self.text
            .push(if self.draw.one_in(2) { b' ' } else { b'\t' })?;
        self.text.extend_from_slice(line.as_bytes())?;
        self.end_line()
    }

    /// Adds a statement, which comes from the next line.
    pub(crate) fn state(&mut self, kind: Kind) -> Result<(), AllocError> {
        let line = match self.within {
            Some(line) => line,
            None => self.next_line(),
        };
        self.statements.push(Stated {
            source: self.source,
            line,
            kind,
        })?;
        Ok(())
    }

    /// Places the next label before the next statement, and answers whether it has a line of its own.
    pub(crate) fn place_label(&mut self) -> Result<(), AllocError> {
        let label = self.own.next;
        if let Some(place) = self.labels.get_mut(label) {
            *place = self.statements.len();
        }
        self.own.next = label.saturating_add(1);
        let text = format!(in self.alloc; "L{label}:")?;
        self.text.extend_from_slice(text.as_bytes())?;
        Ok(())
    }

    /// The number of labels that have no statement yet.
    pub(crate) fn labels_left(&self) -> usize {
        self.own.end.saturating_sub(self.own.next)
    }

    /// A label of this module, or sometimes one of another.
    pub(crate) fn some_label(&mut self) -> usize {
        if self.draw.one_in(6) {
            // Every third label is public.
            let label = self.draw.index(self.named);
            return label - label % 3;
        }
        let count = self.own.end.saturating_sub(self.own.first);
        self.own.first.saturating_add(self.draw.index(count))
    }

    /// The last label that has a statement, or the next one.
    pub(crate) fn near_label(&mut self) -> usize {
        let next = self.own.next;
        if next >= self.own.end || next > self.own.first && self.draw.one_in(2) {
            next.saturating_sub(1)
        } else {
            next
        }
    }

    /// A label with a number after it, and that number; without one if the label may be alone.
    pub(crate) fn goal(&mut self, may_be_bare: bool) -> Result<(String, usize, u16), AllocError> {
        let label = self.some_label();
        let alloc = self.alloc;
        Ok(match self.draw.below(3) {
            0 if may_be_bare => (format!(in alloc; "L{label}")?, label, 0),
            1 => {
                let less = (self.draw.below(20) % 20) as u16;
                let add = 0u16.wrapping_sub(less);
                (format!(in alloc; "L{label}-{less}")?, label, add)
            }
            _ => {
                let add = self.draw.word() % 300;
                (format!(in alloc; "L{label}+{add}")?, label, add)
            }
        })
    }
}
