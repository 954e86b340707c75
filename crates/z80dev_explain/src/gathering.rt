//! Gathers the errors of sources. One of a shared file, which each source has, is gathered once.

use common::NameKey;
use report_texts::{Report, Seen};
use std::alloc::{AllocError, Global};

/// How an error is found.
#[derive(Clone, Copy)]
pub(crate) enum Found {
    /// By the assembler.
    Assembled,
    /// In a line that cannot be cut into tokens, beside the error at which the expansion stops.
    Uncut,
}

/// The errors of sources so far.
#[derive(Drop)]
pub(crate) struct Gathered {
    /// How many lines the front has.
    before: usize,
    /// How many reports of each kind say all that is known. The others are only counted. Each kind has room of its own, since one of the
    /// second kind may come before those of the first in the order of the lines.
    most: usize,
    assembled: usize,
    uncut: usize,
    seen: Seen,
    reports: Vec<Report>,
}

impl Gathered {
    /// No errors of sources after a front that has this many lines. The key is one for a table of names.
    pub(crate) fn new(alloc: Global, key: NameKey, before: usize, most: usize) -> Gathered {
        Gathered {
            before,
            most,
            assembled: 0,
            uncut: 0,
            seen: Seen::new(alloc, key),
            reports: Vec::new(alloc),
        }
    }

    /// Whether the next report of an error that is found so says all that is known.
    pub(crate) fn takes_room(&mut self, found: Found) -> bool {
        let taken = match found {
            Found::Assembled => self.assembled,
            Found::Uncut => self.uncut,
        };
        if taken >= self.most {
            return false;
        }
        let more = taken.saturating_add(1);
        match found {
            Found::Assembled => self.assembled = more,
            Found::Uncut => self.uncut = more,
        }
        true
    }

    /// Whether a line is one of the front, so that an earlier source may have the same error there.
    pub(crate) fn is_front_line(&self, line: u32) -> bool {
        line as usize <= self.before
    }

    /// Whether an error is not one that an earlier source has too.
    pub(crate) fn is_new(&mut self, alloc: Global, report: &Report) -> Result<bool, AllocError> {
        self.seen.is_new(alloc, self.before, report)
    }

    /// Appends the report of an error that is new.
    pub(crate) fn push(&mut self, report: Report) -> Result<(), AllocError> {
        self.reports.push(report)?;
        Ok(())
    }

    /// All reports.
    pub(crate) fn into_reports(self) -> Vec<Report> {
        let Gathered {
            before: _,
            most: _,
            assembled: _,
            uncut: _,
            seen: _,
            reports,
        } = self;
        reports
    }
}
